//! The syntax of kernel files: from the bytes of a file to the steps and items of its lines.
#![tactic(auto)]

mod chains;
mod file;
mod insn;
mod lines;
mod place;
mod reader;

pub use reader::read_syntax;
