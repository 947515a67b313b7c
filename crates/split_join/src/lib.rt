//! Commands on inames: they are split, joined, put on axes, and ordered.
#![tactic(auto)]

mod asked;
mod changed;
mod digits;
mod folds;
mod join;
mod placed;
mod priority;
mod refused;
mod split;
mod tags;

pub use join::join_inames;
pub use priority::prioritize_loops;
pub use split::split_iname;
pub use tags::tag_inames;
