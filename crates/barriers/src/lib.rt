//! Barriers where accesses of two items cross.
#![tactic(auto)]

mod crossing;
mod marks;
mod placing;

pub use placing::{place, place_with};
