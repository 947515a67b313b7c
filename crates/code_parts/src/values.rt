//! Values and tests of a code.
ghost use Rattle.std.specs.Prelude.{◌≡◌, ◌<◌};

use crate::flats::flat_of;
use crate::kinds::{first_kind, side_kind};
use crate::numbers::{code_form, code_forms};
use crate::written::note_form;
use affine_rows::{Form, Listed, Name};
use code_tree::Flat;
use expr_tree::{Cell, Expr, ExprFault, MAX_DEPTH, Node, Shared, Steps, Test, make};
use kernel_ir::{Fault, Insn, Kernel, Refusal, Site, Storing};
use loop_bounds::number_to;
use std::alloc::{AllocError, Global};
use std::marker::Brand;
use std::sync::ledger::{Blank, Ledger};
use wrap_words::{Kind, of_number};

/// How what stands in a kernel is named in its code: the variables in the order of the code's names, and the temporaries in
/// the order of the code's cells.
#[derive(Clone, Copy)]
pub struct Spelling<'a> {
    pub kernel: &'a Kernel,
    pub vars: &'a [u32],
    pub temps: &'a [u32],
}

/// What is gathered of a code in text order: the subscripts of its reads, and the first written row or form that passes a
/// limit, in kernel names.
#[derive(Drop)]
pub struct Gathered {
    pub flats: Listed<Flat>,
    pub wide: Option<Name>,
}

fn place_among(temps: &[u32], temp: u32) -> u32 {
    for at in 0..temps.len() {
        if temps[at] == temp {
            return number_to(at);
        }
    }
    number_to(temps.len())
}

/// An array or cell of the code.
pub fn code_cell(spelling: Spelling<'_>, cell: Cell) -> Cell {
    match cell {
        Cell::Array(at) => Cell::Array(at),
        Cell::Temp(at) => Cell::Temp(place_among(spelling.temps, at)),
    }
}

/// The subscript of a read: the place of its own among those of all reads.
fn read_place(
    alloc: Global,
    spelling: Spelling<'_>,
    cell: Cell,
    places: &[Form],
    gathered: &mut Gathered,
) -> Result<Listed<Form>, AllocError> {
    let at = i64::from(number_to(gathered.flats.len()));
    match flat_of(alloc, spelling, cell, places, gathered)? {
        None => Ok(Listed::new(alloc)),
        Some(flat) => {
            gathered.flats.push(flat)?;
            Listed::of_one(alloc, Form::affine(alloc, at, Listed::new(alloc)))
        }
    }
}

/// Rule 3: a tree is deeper than the limit.
fn too_deep(alloc: Global) -> Result<Fault, AllocError> {
    Ok(Fault::Rule(Refusal::limit(alloc, Site::Kernel, "depth", i128::from(MAX_DEPTH))?))
}

/// The tree of a node.
fn tree_of<L: Ledger>(alloc: Global, node: Node, blank: Blank) -> Result<Expr, Fault>
    requires name { blank.name ≡ L.name }
    requires parts { blank.parts ≡ L.parts }
    requires some { 0 < blank.parts }
{
    let mut steps = Steps::<L>::open(blank);
    match make(alloc, node, &mut steps) {
        Ok(tree) => Ok(tree),
        Err(ExprFault::OutOfMemory) => Err(Fault::OutOfMemory),
        Err(ExprFault::Depth | ExprFault::Limit) => Err(too_deep(alloc)?),
    }
}

fn tree(alloc: Global, node: Node) -> Result<Expr, Fault> {
    tree_of::<Brand>(alloc, node, Blank::new(1))
}

/// Whether the form is a number.
fn is_number(form: &Form) -> bool {
    form.quasi().terms.is_empty() && form.quasi().floors.is_empty()
}

/// An index form in a value at a kind: a number is a literal.
fn leaf_node(
    alloc: Global,
    spelling: Spelling<'_>,
    kind: Kind,
    form: &Form,
    gathered: &mut Gathered,
) -> Result<Node, AllocError> {
    note_form(alloc, spelling.kernel, form.quasi(), gathered)?;
    if is_number(form) {
        return Ok(Node::Literal(of_number(kind, i128::from(form.quasi().constant)).bits));
    }
    Ok(Node::Leaf(code_form(alloc, spelling.kernel, spelling.vars, form)?))
}

/// A value of the kernel at a kind, as one of the code.
#[cycle(value)]
fn code_value(
    alloc: Global,
    spelling: Spelling<'_>,
    kind: Kind,
    expr: &Expr,
    gathered: &mut Gathered,
) -> Result<Expr, Fault> {
    let node = code_node(alloc, spelling, kind, expr.node(), gathered)?;
    tree(alloc, node)
}

#[cycle(value)]
fn code_node(
    alloc: Global,
    spelling: Spelling<'_>,
    kind: Kind,
    node: &Node,
    gathered: &mut Gathered,
) -> Result<Node, Fault> {
    match node {
        Node::Literal(number) => Ok(Node::Literal(*number)),
        Node::Leaf(form) => Ok(leaf_node(alloc, spelling, kind, form, gathered)?),
        Node::Read(cell, places) => {
            let place = read_place(alloc, spelling, *cell, places.as_slice(), gathered)?;
            Ok(Node::Read(code_cell(spelling, *cell), place))
        }
        Node::Call(rule, arguments) => Ok(Node::Call(
            *rule,
            code_forms(alloc, spelling.kernel, spelling.vars, arguments.as_slice())?,
        )),
        Node::Neg(a) => Ok(Node::Neg(code_value(alloc, spelling, kind, a, gathered)?)),
        Node::Inv(a) => Ok(Node::Inv(code_value(alloc, spelling, kind, a, gathered)?)),
        Node::Shl(a, by) => Ok(Node::Shl(code_value(alloc, spelling, kind, a, gathered)?, *by)),
        Node::Shr(a, by) => Ok(Node::Shr(code_value(alloc, spelling, kind, a, gathered)?, *by)),
        Node::Bin(op, a, b) => {
            let left = code_value(alloc, spelling, kind, a, gathered)?;
            let right = code_value(alloc, spelling, kind, b, gathered)?;
            Ok(Node::Bin(*op, left, right))
        }
        Node::Pick(test, a, b) => {
            let test = code_test(alloc, spelling, kind, test, gathered)?;
            let left = code_value(alloc, spelling, kind, a, gathered)?;
            let right = code_value(alloc, spelling, kind, b, gathered)?;
            Ok(Node::Pick(test, left, right))
        }
        Node::Cast(to, a) => {
            let from = first_kind(spelling.kernel, a).unwrap_or(*to);
            Ok(Node::Cast(*to, code_value(alloc, spelling, from, a, gathered)?))
        }
        Node::Fold(op, inames, a) => {
            let value = code_value(alloc, spelling, kind, a, gathered)?;
            Ok(Node::Fold(*op, Listed::from_slice(alloc, inames.as_slice())?, value))
        }
    }
}

/// A test of the kernel at a kind, as one of the code.
#[cycle(value)]
pub fn code_test(
    alloc: Global,
    spelling: Spelling<'_>,
    kind: Kind,
    test: &Test,
    gathered: &mut Gathered,
) -> Result<Test, Fault> {
    let kernel = spelling.kernel;
    match test {
        Test::Words(rel, a, b) => {
            let side = side_kind(kernel, a, b, kind);
            let left = code_value(alloc, spelling, side, a, gathered)?;
            let right = code_value(alloc, spelling, side, b, gathered)?;
            Ok(Test::Words(*rel, left, right))
        }
        Test::Index(rel, a, b) => {
            note_form(alloc, kernel, a.quasi(), gathered)?;
            note_form(alloc, kernel, b.quasi(), gathered)?;
            let left = code_form(alloc, kernel, spelling.vars, a)?;
            let right = code_form(alloc, kernel, spelling.vars, b)?;
            Ok(Test::Index(*rel, left, right))
        }
        Test::All(p, q) => {
            let left = code_test(alloc, spelling, kind, p.get(), gathered)?;
            let right = code_test(alloc, spelling, kind, q.get(), gathered)?;
            Ok(Test::All(Shared::new(alloc, left)?, Shared::new(alloc, right)?))
        }
        Test::Any(p, q) => {
            let left = code_test(alloc, spelling, kind, p.get(), gathered)?;
            let right = code_test(alloc, spelling, kind, q.get(), gathered)?;
            Ok(Test::Any(Shared::new(alloc, left)?, Shared::new(alloc, right)?))
        }
        Test::Not(p) => {
            let one = code_test(alloc, spelling, kind, p.get(), gathered)?;
            Ok(Test::Not(Shared::new(alloc, one)?))
        }
    }
}

/// The value that an instruction stores: its own, combined with the cell in an update.
pub fn stored_value(
    alloc: Global,
    spelling: Spelling<'_>,
    kind: Kind,
    insn: &Insn,
    gathered: &mut Gathered,
) -> Result<Expr, Fault> {
    match insn.storing {
        Storing::Plain => code_value(alloc, spelling, kind, &insn.value, gathered),
        Storing::Update(op) => {
            let place = read_place(alloc, spelling, insn.cell, insn.place.as_slice(), gathered)?;
            let left = tree(alloc, Node::Read(code_cell(spelling, insn.cell), place))?;
            let right = code_value(alloc, spelling, kind, &insn.value, gathered)?;
            tree(alloc, Node::Bin(op, left, right))
        }
    }
}
