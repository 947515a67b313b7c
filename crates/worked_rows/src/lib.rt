//! What the definitions say of kernels worked by hand.
#![tactic(auto)]

pub mod laws;
