//! What is open in an expression.
use affine_rows::Name;
use kernel_grammar::{Extreme, Infix, Prefix, Step};

/// What stands before the places of a cell or a rule's arguments.
#[derive(Clone, Copy)]
pub enum Bracket {
    Index,
    Call,
}

/// What is open in an expression.
#[derive(Drop)]
pub enum Frame {
    /// An operator with its first operand.
    Infix(Infix),
    /// An operator before its operand.
    Prefix(Prefix),
    /// A parenthesis.
    Group,
    /// What `)` ends and this step follows.
    Body(Step),
    /// Places in brackets or parentheses, of which so many are read.
    Places {
        name: Name,
        bracket: Bracket,
        count: u32,
    },
    /// `min` or `max` up to the first place, which begins at this token.
    First {
        extreme: Extreme,
        start: usize,
    },
    /// `if` up to its test.
    Test,
    /// `if` up to its second place.
    Then,
}
