//! The words and numbers of runs: arguments, rows of words, operations on words, index values as a code works them out,
//! launch numbers, and the step count.
#![tactic(auto)]

mod args;
mod counts;
pub mod exact;
mod launch;
mod ranges;
mod shelf;
pub mod words;

pub use args::Args;
pub use counts::step_count;
pub use launch::{Launch, few, launch_of, param_ranges};
pub use ranges::near;
pub use shelf::{Extent, Shelf, length_of, words_of};
