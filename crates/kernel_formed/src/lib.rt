//! Kernels of files in which no line is refused are formed.
#![tactic(auto)]

pub mod laws;
