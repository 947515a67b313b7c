//! What a line of a block says.
use affine_rows::{Listed, Name};
use kernel_grammar::Step;
use wrap_words::Kind;

/// What may be done with an item.
#[derive(Clone, Copy, Debug, PartialEq, Eq)]
pub enum Intent {
    Local,
    In,
    Stored,
}

/// A declared item, with the shape of an array, which is empty for a scalar.
#[derive(Drop)]
pub struct Declared {
    pub name: Name,
    pub shape: Listed<Listed<Step>>,
}

/// What a line says. Shapes and subscripts are turned round, and subscripts are counted from 0, as in kernel files.
#[derive(Drop)]
pub enum Statement {
    Declaration {
        kind: Kind,
        intent: Intent,
        items: Listed<Declared>,
    },
    Do {
        var: Name,
        lower: Listed<Step>,
        upper: Listed<Step>,
    },
    EndDo,
    Assignment {
        condition: Option<Listed<Step>>,
        name: Name,
        place: Listed<Listed<Step>>,
        value: Listed<Step>,
    },
    /// `end subroutine`.
    End,
}

/// What a line says, with its number, counted from 1.
#[derive(Drop)]
pub struct Stated {
    pub line: u32,
    pub statement: Statement,
}
