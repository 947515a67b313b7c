//! The parts of a kernel. Variables are numbers into its names.
use affine_rows::{Form, Listed, Name, Names};
use expr_tree::{Cell, Expr, Op, QuasiRow, Test};
use wrap_words::Kind;

/// On which axis an iname is, if on one: a group axis or a local axis, 0 to 2.
#[derive(Clone, Copy, Debug, PartialEq, Eq)]
pub enum Tag {
    Plain,
    Group(u8),
    Local(u8),
}

/// An iname: a variable over which instructions are repeated.
#[derive(Clone, Copy, Debug, PartialEq, Eq)]
pub struct Iname {
    pub var: u32,
    pub tag: Tag,
}

/// An argument array, which may be stored to where `stored` holds. Its shape entries are over parameters.
#[derive(Drop)]
pub struct Array {
    pub name: Name,
    pub kind: Kind,
    pub shape: Listed<Form>,
    pub stored: bool,
}

/// A temporary. Its kind is none before kinds are inferred.
#[derive(Drop)]
pub struct Temp {
    pub name: Name,
    pub kind: Option<Kind>,
    pub shape: Listed<u32>,
    pub local: bool,
}

/// A substitution rule: a use of it stands for its body at the arguments.
#[derive(Drop)]
pub struct SubstRule {
    pub name: Name,
    pub params: Listed<u32>,
    pub body: Expr,
}

/// How an instruction stores: it replaces the cell, or combines the cell with the value.
#[derive(Clone, Copy, Debug, PartialEq, Eq)]
pub enum Storing {
    Plain,
    Update(Op),
}

/// An instruction: the inames over which it is repeated, its own rows, its data test, the cell with its subscripts, the
/// value, and the ids of the instructions on which it depends; `auto` says whether it takes automatic dependences.
#[derive(Drop)]
pub struct Insn {
    pub id: Name,
    pub line: u32,
    pub inames: Listed<u32>,
    pub rows: Listed<QuasiRow>,
    pub test: Option<Test>,
    pub cell: Cell,
    pub place: Listed<Form>,
    pub storing: Storing,
    pub value: Expr,
    pub deps: Listed<Name>,
    pub auto: bool,
}

/// A kernel: names, parameters, inames in declared order and in the order of priority, domain rows, assumptions, and
/// what is declared and done.
#[derive(Drop)]
pub struct Kernel {
    pub names: Names,
    pub params: Listed<u32>,
    pub inames: Listed<Iname>,
    pub priority: Listed<u32>,
    pub rows: Listed<QuasiRow>,
    pub assumptions: Listed<QuasiRow>,
    pub arrays: Listed<Array>,
    pub temps: Listed<Temp>,
    pub rules: Listed<SubstRule>,
    pub insns: Listed<Insn>,
}
