//! The line that says a refusal, as every command writes it.
#![tactic(auto)]

mod keeping;
mod lines;
mod rules;

pub use lines::refusal_text;
