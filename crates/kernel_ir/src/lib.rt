//! Kernels as plain values.
#![tactic(auto)]

mod copies;
mod fault;
mod kernel;
pub mod laws;
mod refusals;
mod variables;

pub use affine_rows::{Name, Names};
pub use copies::{copy_names, copy_row, copy_rows, copy_test};
pub use expr_tree::QuasiRow;
pub use fault::{Fault, Refusal, Site};
pub use kernel::{Array, Iname, Insn, Kernel, Storing, SubstRule, Tag, Temp};
pub use variables::MAX_NAMES;
