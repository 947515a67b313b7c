//! Assignments that become substitution rules.
#![tactic(auto)]

mod command;
mod homes;
mod inlining;
mod missing;
mod order;
mod rules;
mod scatter;
mod store;

pub use command::assignment_to_subst;
