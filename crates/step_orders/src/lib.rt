//! Orders of steps, and when two orders of the same steps leave the same store.
//!
//! A step changes one cell of a store, by a change that depends on the cells that it reads and on
//! the word that its own cell holds. Steps, cells and words are of any types: `Steps` of
//! `specs/Orders.antt` says what they are, and a crate above gives its own. `additions` is an
//! example that runs.
#![tactic(auto)]

pub mod additions;
pub mod laws;
