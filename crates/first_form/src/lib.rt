//! The one form of kernel files that is read: its reader, its kernel and its code.
#![tactic(auto)]

mod codes;
mod fault;
mod form;
mod lines;
mod read;
mod reader;
mod refused;
mod scan;
mod words;

pub use codes::code_of;
pub use fault::FormFault;
pub use form::FirstForm;
pub use reader::read_form;
