//! The checks of a kernel before it is transformed or written.
#![tactic(auto)]

mod bounded;
mod checking;
mod conflicts;
mod inside;
mod searching;
mod telling;

pub use checking::{Sound, check};
