//! Codes in which no two items race.
#![tactic(auto)]

mod checking;
mod statements;
mod telling;

pub use checking::{RaceFree, check_code, check_code_with};
