//! Expressions in postfix order, which need no nesting and no parentheses.
use crate::item::Relation;
use affine_rows::{Listed, Name};
use wrap_words::Kind;

/// An operator before its operand.
#[derive(Clone, Copy, Debug, PartialEq, Eq)]
pub enum Prefix {
    Not,
    Negate,
    Invert,
}

/// The less or the greater of values.
#[derive(Clone, Copy, Debug, PartialEq, Eq)]
pub enum Extreme {
    Min,
    Max,
}

/// An operator of two operands, loosest first, and the functions of two values.
#[derive(Clone, Copy, Debug, PartialEq, Eq)]
pub enum Infix {
    Or,
    And,
    Compare(Relation),
    NotEqual,
    BitOr,
    BitXor,
    BitAnd,
    Add,
    Subtract,
    Multiply,
    Divide,
    Remainder,
    Extreme(Extreme),
}

/// How a reduction combines values.
#[derive(Clone, Copy, Debug, PartialEq, Eq)]
pub enum Folding {
    Sum,
    Product,
    Extreme(Extreme),
}

/// A step of an expression in postfix order: it takes its operands off the values found so far, the last one first, and
/// puts its own value in their place.
#[derive(Drop)]
pub enum Step {
    /// A number, or none where it passes 18446744073709551615.
    Number(Option<u64>),
    Name(Name),
    /// A read of a cell at so many subscripts, at least one.
    Index {
        name: Name,
        places: u32,
    },
    /// A use of a rule at so many arguments.
    Call {
        name: Name,
        arguments: u32,
    },
    Prefix(Prefix),
    Infix(Infix),
    /// A shift by a number, or by none where it passes 18446744073709551615.
    ShiftLeft(Option<u64>),
    ShiftRight(Option<u64>),
    Cast(Kind),
    /// The choice of the second or third operand by the first.
    Choose,
    /// A reduction of its operand over inames, at least one.
    Fold {
        folding: Folding,
        inames: Listed<Name>,
    },
    /// `min` or `max` of a bare name and its operand: a reduction over the name if it is an iname, else of two values.
    ExtremeOf {
        extreme: Extreme,
        name: Name,
    },
}
