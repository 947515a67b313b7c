//! The parts of a code. Variables are numbers into its names.
use affine_rows::{Form, Listed, Name};
use expr_tree::{Cell, Expr, QuasiRow, Test};
use wrap_words::Kind;

/// The language that is written.
#[derive(Clone, Copy, Debug, PartialEq, Eq)]
pub enum Target {
    C,
    OpenCl,
}

/// A bound of a loop or of a launch number.
#[derive(Drop)]
pub enum Bound {
    Form(Form),
    FloorOf(Form, i64),
    MinusFloorOf(Form, i64),
    Least(Listed<Bound>),
    Greatest(Listed<Bound>),
}

/// An argument array, which is `const` unless `stored` holds.
#[derive(Drop)]
pub struct CodeArray {
    pub name: Name,
    pub kind: Kind,
    pub stored: bool,
}

/// A private or local cell, or so many of them in a row.
#[derive(Drop)]
pub struct CodeCell {
    pub name: Name,
    pub kind: Kind,
    pub length: Option<u32>,
}

/// A subscript: one form, or several places with the shape entries after the first.
#[derive(Drop)]
pub enum Flat {
    Form(Form),
    Horner(Listed<Form>, Listed<Form>),
}

/// Cells of a block, and its statements.
#[cycle(code)]
#[derive(Drop)]
pub struct Block {
    pub cells: Listed<CodeCell>,
    pub children: Listed<Stmt>,
}

/// One statement: a loop from the lower to the upper bound, a guard of rows, a data test, an assignment, or a barrier.
#[cycle(code)]
#[derive(Drop)]
pub enum Stmt {
    Loop {
        var: u32,
        lower: Bound,
        upper: Bound,
        body: Block,
    },
    When {
        rows: Listed<QuasiRow>,
        body: Block,
    },
    Check {
        test: Test,
        body: Block,
    },
    Set {
        target: Cell,
        flat: Option<Flat>,
        value: Expr,
    },
    Barrier,
}

/// A code: names (parameters, for OpenCL the six axes, then loop variables), parameters, arrays, the bounds of the group
/// axes, each one less than its launch number, the items of the local axes, local cells, the subscripts of reads in text
/// order, and the body.
#[derive(Drop)]
pub struct Code {
    pub target: Target,
    pub names: Listed<Name>,
    pub params: Listed<u32>,
    pub arrays: Listed<CodeArray>,
    pub g0: Bound,
    pub g1: Bound,
    pub g2: Bound,
    pub l0: u32,
    pub l1: u32,
    pub l2: u32,
    pub locals: Listed<CodeCell>,
    pub flats: Listed<Flat>,
    pub body: Block,
}

/// The nest of a kernel's loops: an instruction by its place, or a loop over an iname round others.
#[derive(Drop)]
pub enum Nest {
    Insn(u32),
    Loop(u32, Listed<Nest>),
}

/// What is known of a code beside its text: rows over its names that hold for the arguments it is called with, and for each
/// assignment in text order the id of its instruction and its inames on axes, from 0 to 2 for `g.0` to `g.2` and from 3 to 5
/// for `l.0` to `l.2`.
#[derive(Drop)]
pub struct Facts {
    pub rows: Listed<QuasiRow>,
    pub ids: Listed<Name>,
    pub axes: Listed<Listed<(u8, Name)>>,
}
