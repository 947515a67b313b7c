//! Kernels from marked Fortran blocks: a block is written as the text of a kernel file, which is read as such.
#![tactic(auto)]

mod homes;
mod lines;
mod places;
mod reader;
mod scope;
mod spelling;

pub use reader::read_marked;
