//! Tests of the public calls on expressions and kernels. They stand apart, since a crate with tests is proved twice.
#![tactic(auto)]

#[cfg(test)]
mod index_forms;
#[cfg(test)]
mod kernels;
#[cfg(test)]
mod trees;
