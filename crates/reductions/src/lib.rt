//! Reductions as accumulators: an initial store, an update and a use.
#![tactic(auto)]

mod all;
mod insns;
mod naming;
mod neutral;
mod once;
mod single;
mod taking;

pub use all::realize_all;
pub use single::realize_reduction;
