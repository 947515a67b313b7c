//! Rules 7, 8, 9 and 10 over the trees of a kernel file, in which values and tests are not told apart yet.
#![tactic(auto)]

mod arities;
mod calls;
mod cells;
mod check;
mod cycles;
mod found;
mod kept;
pub mod laws;
mod leads;
mod refuse;

pub use check::{check_calls, check_kinds};
