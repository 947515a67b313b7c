//! Expressions of kernel files with their names resolved, before kinds are asked.
#![tactic(auto)]

mod exprs;
mod faults;
mod index;
mod joints;
mod kinds;
mod operators;
mod places;
mod reading;
mod scope;
mod steps;
mod tree;

pub use exprs::{expr_of, form_of, test_of};
pub use faults::Faults;
pub use index::{Collected, collected_sum};
pub use kinds::{Kinds, first_kind, test_mismatch, value_mismatch};
pub use reading::{Part, Reading};
pub use scope::{Role, Scope};
pub use steps::read_untyped;
pub use tree::{Term, Untyped};
