//! The machine that makes the steps of a code: items of groups, each step one test, one assignment or one arrival at a
//! barrier. Its parts carry the names of the definitions of a run, one file for each file of those.
#![tactic(auto)]

mod barriers;
mod clashes;
mod enabled;
mod history;
mod moves;
mod plan;
mod seen;
mod states;
mod steps;

pub use history::{Missing, Stepped};
pub use states::{MAX_WORDS, fits_words};
pub use steps::State;
