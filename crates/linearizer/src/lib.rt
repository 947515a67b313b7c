//! From kernels and nests to codes.
#![tactic(auto)]

mod checks;
mod code_facts;
mod groups;
mod items;
mod statements;
mod temps;
mod whole;

pub use code_facts::facts;
pub use whole::linearize;
