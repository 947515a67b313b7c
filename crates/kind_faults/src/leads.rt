//! What leads an expression.
ghost use Rattle.std.specs.Prelude.{◌≡◌};
ghost use Rattle.kind_faults.specs.Leads.{leading_at};

use expr_tree::Cell;
use wrap_words::Kind;

/// The first thing in an expression that has a kind: a read of a cell, or a cast.
#[derive(Clone, Copy, Debug, PartialEq, Eq)]
pub enum Leading {
    Read(Cell),
    Cast(Kind),
}

/// What is kept for a rule, if something is.
pub fn kept_leading(table: &[Option<Leading>], rule: usize) -> Option<Leading>
    ensures { result ≡ leading_at table.now rule }
{
    match table.get(rule) {
        Some(kept) => *kept,
        None => None,
    }
}
