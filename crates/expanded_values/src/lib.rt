//! Laws of expanded kernels.
#![tactic(auto)]

pub mod laws;
