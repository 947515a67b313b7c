//! The syntax of marked Fortran blocks: from the bytes of a file to the statements of its block, with expressions as the steps of
//! those of kernel files.
#![tactic(auto)]

mod ahead;
mod block;
mod expression;
mod grammar;
mod lexeme;
mod marks;
mod place;
mod reader;
mod statement;
mod value;

pub use reader::read_statements;
pub use statement::{Declared, Intent, Stated, Statement};
