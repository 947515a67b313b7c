//! The rows that bound loops and guard instructions: those that what is known at a place does not imply.
#![tactic(auto)]

mod axes;
mod bounding;
mod guards;
mod known;
mod loops;
mod placed;
mod queries;
mod there;
mod thinning;

pub use axes::{AXES, axis_var, iname_on, is_in_use, is_sequential, scope_var, tag_of};
pub use guards::guard_rows;
pub use loops::{InsnRows, LoopRows, group_rows, loop_rows};
pub use placed::{factor_of, number_to};
pub use there::{There, at_top, inside, with_loop};
