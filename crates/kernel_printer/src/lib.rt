//! Kernels as texts: a kernel file, with what such a file cannot say in comments.
#![tactic(auto)]

mod forms;
mod instructions;
mod lines;
mod spelling;
mod texts;
mod values;
mod whole;

pub use texts::{form_text, row_text};
pub use whole::print_kernel;
