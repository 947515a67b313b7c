//! Dependences of instructions: those that come by themselves, and circles of them.
#![tactic(auto)]

mod adding;
mod automatic;
mod circles;

pub use automatic::auto_deps;
pub use circles::first_circle;
