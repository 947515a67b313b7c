//! Trees of value expressions, and what they mean.
#![tactic(auto)]

mod build;
mod copies;
mod depth;
pub mod laws;
mod parts;
mod rewrite;
mod rewriting;
mod row;
mod shared;
mod sight;
mod steps;
mod tree;
mod value;

pub use build::{ExprFault, MAX_DEPTH, make};
pub use rewriting::Rewriting;
pub use row::QuasiRow;
pub use shared::Shared;
pub use sight::Sight;
pub use steps::Steps;
pub use tree::{Cell, Expr, Node, Op, Rel, Test};
