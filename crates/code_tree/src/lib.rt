//! Code trees.
#![tactic(auto)]

mod code;

pub use affine_rows::Name;
pub use code::{Block, Bound, Code, CodeArray, CodeCell, Facts, Flat, Nest, Stmt, Target};
pub use expr_tree::QuasiRow;
