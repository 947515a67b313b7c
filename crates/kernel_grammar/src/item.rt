//! What a line of a kernel file says.
use crate::step::{Folding, Step};
use affine_rows::{Listed, Name};
use wrap_words::Kind;

/// A comparison of index expressions. `=` and `==` are both `Equal`.
#[derive(Clone, Copy, Debug, PartialEq, Eq)]
pub enum Relation {
    LessEqual,
    Less,
    GreaterEqual,
    Greater,
    Equal,
}

/// Lists of index expressions, each list compared with the next: the first list, and each relation with the list behind it.
#[derive(Drop)]
pub struct Chain {
    pub first: Listed<Listed<Step>>,
    pub rest: Listed<(Relation, Listed<Listed<Step>>)>,
}

/// How an instruction stores: it replaces the cell, or combines the cell with the value.
#[derive(Clone, Copy, Debug, PartialEq, Eq)]
pub enum Stored {
    Plain,
    Update(Folding),
}

/// Whether an instruction declares its cell as a scalar temporary: not, with the kind of its value, or with this kind.
#[derive(Clone, Copy, Debug, PartialEq, Eq)]
pub enum Declared {
    Not,
    Inferred,
    Of(Kind),
}

/// An option of an instruction. `automatic` is false where `*` turns off the automatic dependences.
#[derive(Drop)]
pub enum InsnOption {
    Id(Name),
    Dep { automatic: bool, ids: Listed<Name> },
    Inames(Listed<Name>),
    If(Listed<Step>),
}

/// What a line says. Names before the arrow of a domain are `known`, those behind it `inames`. An array may be stored to
/// where `stored` holds. A temporary's shape and an instruction's place are empty for a scalar;
/// a number of a shape is none where it passes 18446744073709551615.
#[derive(Drop)]
pub enum Item {
    Domain {
        known: Listed<Name>,
        inames: Listed<Name>,
        conditions: Listed<Chain>,
    },
    Assume {
        conditions: Listed<Chain>,
    },
    Array {
        name: Name,
        kind: Kind,
        shape: Listed<Listed<Step>>,
        stored: bool,
    },
    Temp {
        name: Name,
        kind: Kind,
        shape: Listed<Option<u64>>,
    },
    Rule {
        name: Name,
        params: Listed<Name>,
        body: Listed<Step>,
    },
    Insn {
        declared: Declared,
        name: Name,
        place: Listed<Listed<Step>>,
        stored: Stored,
        value: Listed<Step>,
        options: Listed<InsnOption>,
    },
}
