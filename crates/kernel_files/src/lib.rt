//! Kernels from kernel files, before rules are replaced and kinds are asked.
#![tactic(auto)]

mod files;
mod first_line;
mod inames;
mod insns;
mod options;
mod reader;

pub use files::{ReadKernel, ReadLines, read_entries};
pub use insns::ReadInsn;
pub use options::{Predicate, ReadOptions};
pub use reader::read_file;
