//! Kernels from the bytes of kernel files, and from what these are read as.
#![tactic(auto)]

mod reader;

pub use reader::{kernel_of_file, read_kernel};
