//! Tests of the public calls on whole jobs. They stand apart, since a crate with tests is proved twice.
#![tactic(auto)]

#[cfg(test)]
mod first_kernels;
#[cfg(test)]
mod jobs;
