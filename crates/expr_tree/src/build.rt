//! How a node is made.
ghost use Rattle.std.specs.Prelude.{◌≡◌, ◌≢◌, ◌<◌, ◌↔◌, ◌+◌, IfOk, Err};
ghost use Rattle.expr_tree.specs.Depth.{depth_of_node};
ghost use Rattle.expr_tree.specs.Trees.{node_of};
ghost use Rattle.expr_tree.specs.declared.tree.Expr.{out-Expr};

use crate::depth::node_within;
use crate::steps::Steps;
use crate::tree::{Expr, Node};
use std::alloc::{AllocError, Global};
use std::sync::ledger::Ledger;
use thiserror::Error;

/// The deepest tree that there may be.
pub const MAX_DEPTH: u32 = 64;

/// Why an expression could not be made.
#[derive(Debug, Drop, Error)]
pub enum ExprFault {
    /// There is no memory.
    #[error("out of memory")]
    OutOfMemory,
    /// The tree would be deeper than `MAX_DEPTH`.
    #[error("the expression is too deep")]
    Depth,
    /// A form in it passes a limit.
    #[error("the expression passes a limit")]
    Limit,
}

impl From<AllocError> for ExprFault {
    ghost use Rattle.std.specs.Prelude.{◌≡◌};
    ghost use Rattle.expr_tree.specs.declared.build.ExprFault.TheVariants.{OutOfMemory};

    ghost from_gives = { λ _ fault. fault ≡ OutOfMemory };

    fn from(_: AllocError) -> ExprFault {
        ExprFault::OutOfMemory
    }
}

/// The tree of the node, for one step. `Depth` comes exactly where it would be deeper than `MAX_DEPTH`, a node without
/// parts being 1 deep.
pub fn make<L: Ledger>(alloc: Global, node: Node, steps: &mut Steps<L>) -> Result<Expr, ExprFault>
    ensures made { IfOk result (λ e. node_of e ≡ node) }
    ensures deep { (result ≡ Err ExprFault.Depth) ↔ (64 < depth_of_node node) }
    ensures no_limit { result ≢ Err ExprFault.Limit }
    ensures counted { steps.new ≡ steps.old + 1 }
{
    steps.tick();
    if !node_within(&node, MAX_DEPTH) {
        return Err(ExprFault::Depth);
    }
    Ok(Expr::of_node(alloc, node)?)
}
