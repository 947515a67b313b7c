//! Codes from their texts.
#![tactic(auto)]

mod body;
mod cells;
mod launch;
mod signature;
mod statements;
mod whole;

pub use whole::read_code;
