//! The kinds of a kernel: those of its temporaries are inferred, and each expression is asked for its kind.
#![tactic(auto)]

mod calls;
mod faults;
mod found;
mod inference;
pub mod laws;
mod leads;
mod order;
mod refuse;
mod tables;
mod temps;
mod used;

pub use found::KindFaults;
pub use inference::infer;
pub use order::call_order;
pub use refuse::{check_fault, check_kind};
pub use temps::{is_temp, temp_kind};
pub use used::{is_marked, used_rules};
