//! The code of a kernel of the one form is right.
#![tactic(auto)]

pub mod laws;
