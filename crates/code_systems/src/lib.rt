//! Accesses of a code, what is known of them, and the systems that ask whether two of them meet.
#![tactic(auto)]

mod access;
mod asked;
mod bounds;
mod differing;
mod faults;
mod frame;
mod questions;
mod reads;
mod systems;
mod there;
mod vars;

pub use access::{Access, Assigned, Statement, Use, assignment, assignment_count, lone_tests};
pub use asked::{Open, open_case};
pub use faults::refused;
pub use frame::{AXES, Frame, axis_name};
pub use questions::{Apart, Question, Turns, add_between, add_within};
pub use reads::with_test;
pub use there::There;
