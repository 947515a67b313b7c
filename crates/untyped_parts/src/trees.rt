//! Instructions and rules of which values and tests are not told apart yet.
use expr_tree::Cell;
use untyped::Untyped;

/// An instruction: its line, the cell to which it stores, its value, and its data test if it has one.
#[derive(Drop)]
pub struct InsnTree {
    pub line: u32,
    pub cell: Cell,
    pub value: Untyped,
    pub test: Option<Untyped>,
}

/// A rule: its line and its body.
#[derive(Drop)]
pub struct RuleTree {
    pub line: u32,
    pub body: Untyped,
}
