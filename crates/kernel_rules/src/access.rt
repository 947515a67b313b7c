//! The cells that an instruction stores and reads.
ghost use Rattle.std.specs.Prelude.{◌≡◌, ◌++◌, ◌∷◌, [], map, nat_eq, IfOk, OnOk};
ghost use Rattle.std.specs.Cmp.Lexicographic.{pointwise};
ghost use Rattle.std.specs.List.{list_any};
ghost use Rattle.quasi_forms.specs.Alike.{distinct, same_form, with_new};
ghost use Rattle.kernel_rules.specs.Accesses.{listed_accesses, plain_accesses, read_access, reads_in, reads_in_node, reads_in_option, reads_in_test, same_access, same_cell, store_of};

use affine_rows::{Form, Listed, copy_forms};
use expr_tree::{Cell, Expr, Node, Test};
use kernel_ir::{Insn, Kernel};
use quasi_forms::same_form;
use std::alloc::{AllocError, Global};

/// An access of a cell of an array or temporary: its subscripts, whether it is the instruction's store, and the inames of
/// the reductions round it, the outer ones first.
#[derive(Drop)]
pub struct Access {
    pub cell: Cell,
    pub place: Listed<Form>,
    pub store: bool,
    pub folds: Listed<u32>,
}

impl Access {
    /// An equal access.
    pub fn copy(&self, alloc: Global) -> Result<Access, AllocError>
        ensures { IfOk result (λ a. a ≡ self.now) }
    {
        Ok(Access {
            cell: self.cell,
            place: copy_forms(alloc, self.place.as_slice())?,
            store: self.store,
            folds: Listed::from_slice(alloc, self.folds.as_slice())?,
        })
    }
}

/// The inames of reductions with those of one more within them.
pub(crate) fn joined(alloc: Global, outer: &[u32], inner: &[u32]) -> Result<Listed<u32>, AllocError>
    ensures { IfOk result (λ all. all ≡ outer.now ++ inner.now) }
{
    let mut all = Listed::from_slice(alloc, outer)?;
    for iname in inner {
        all.push(*iname)?;
    }
    Ok(all)
}

fn read_access(
    alloc: Global,
    cell: Cell,
    place: &[Form],
    folds: &[u32],
) -> Result<Access, AllocError>
    ensures { IfOk result (λ a. a ≡ read_access cell place.now folds.now) }
{
    Ok(Access {
        cell,
        place: copy_forms(alloc, place)?,
        store: false,
        folds: Listed::from_slice(alloc, folds)?,
    })
}

#[cycle(reads)]
fn add_node_reads(
    alloc: Global,
    node: &Node,
    folds: &[u32],
    found: &mut Listed<Access>,
) -> Result<(), AllocError>
    ensures { OnOk result (found.new ≡ found.old ++ reads_in_node node.now folds.now) }
{
    match node {
        Node::Literal(_) | Node::Leaf(_) | Node::Call(_, _) => Ok(()),
        Node::Read(cell, place) => {
            found.push(read_access(alloc, *cell, place.as_slice(), folds)?)?;
            Ok(())
        }
        Node::Neg(a) | Node::Inv(a) | Node::Shl(a, _) | Node::Shr(a, _) | Node::Cast(_, a) => {
            add_reads(alloc, a, folds, found)
        }
        Node::Bin(_, a, b) => {
            add_reads(alloc, a, folds, found)?;
            add_reads(alloc, b, folds, found)
        }
        Node::Pick(test, a, b) => {
            add_test_reads(alloc, test, folds, found)?;
            add_reads(alloc, a, folds, found)?;
            add_reads(alloc, b, folds, found)
        }
        Node::Fold(_, inames, a) => {
            let within = joined(alloc, folds, inames.as_slice())?;
            add_reads(alloc, a, within.as_slice(), found)
        }
    }
}

/// Adds the reads of an expression within reductions over these inames.
#[cycle(reads)]
fn add_reads(
    alloc: Global,
    expr: &Expr,
    folds: &[u32],
    found: &mut Listed<Access>,
) -> Result<(), AllocError>
    ensures { OnOk result (found.new ≡ found.old ++ reads_in expr.now folds.now) }
{
    add_node_reads(alloc, expr.node(), folds, found)
}

#[cycle(reads)]
fn add_test_reads(
    alloc: Global,
    test: &Test,
    folds: &[u32],
    found: &mut Listed<Access>,
) -> Result<(), AllocError>
    ensures { OnOk result (found.new ≡ found.old ++ reads_in_test test.now folds.now) }
{
    match test {
        Test::Words(_, a, b) => {
            add_reads(alloc, a, folds, found)?;
            add_reads(alloc, b, folds, found)
        }
        Test::Index(_, _, _) => Ok(()),
        Test::All(p, q) | Test::Any(p, q) => {
            add_test_reads(alloc, p.get(), folds, found)?;
            add_test_reads(alloc, q.get(), folds, found)
        }
        Test::Not(p) => add_test_reads(alloc, p.get(), folds, found),
    }
}

fn add_option_reads(
    alloc: Global,
    test: &Option<Test>,
    found: &mut Listed<Access>,
) -> Result<(), AllocError>
    ensures { OnOk result (found.new ≡ found.old ++ reads_in_option test.now []) }
{
    match test {
        None => Ok(()),
        Some(test) => add_test_reads(alloc, test, &[], found),
    }
}

/// The store of an instruction, then its reads as they stand in predicate and value.
fn listed_accesses(alloc: Global, insn: &Insn) -> Result<Listed<Access>, AllocError>
    ensures { IfOk result (λ all. all ≡ listed_accesses insn.now) }
{
    let store = Access {
        cell: insn.cell,
        place: copy_forms(alloc, insn.place.as_slice())?,
        store: true,
        folds: Listed::new(alloc),
    };
    let mut found = Listed::of_one(alloc, store)?;
    add_option_reads(alloc, &insn.test, &mut found)?;
    add_reads(alloc, &insn.value, &[], &mut found)?;
    Ok(found)
}

fn same_place(left: &[Form], right: &[Form]) -> bool
    ensures { result ≡ pointwise same_form left.now right.now }
{
    if left.len() != right.len() {
        return false;
    }
    for i in 0..left.len() {
        if !same_form(left[i].quasi(), right[i].quasi()) {
            return false;
        }
    }
    true
}

fn same_numbers(left: &[u32], right: &[u32]) -> bool
    ensures { result ≡ pointwise nat_eq left.now right.now }
{
    if left.len() != right.len() {
        return false;
    }
    for i in 0..left.len() {
        if left[i] != right[i] {
            return false;
        }
    }
    true
}

/// Whether two accesses are of one array or temporary.
pub fn same_cell(left: Cell, right: Cell) -> bool
    ensures { result ≡ same_cell left right }
{
    match (left, right) {
        (Cell::Array(n), Cell::Array(m)) | (Cell::Temp(n), Cell::Temp(m)) => n == m,
        _ => false,
    }
}

/// Whether two accesses are of one cell at equal subscripts within equal reductions, both stores or both reads.
pub fn same_access(left: &Access, right: &Access) -> bool
    ensures { result ≡ same_access left.now right.now }
{
    same_cell(left.cell, right.cell)
        && same_place(left.place.as_slice(), right.place.as_slice())
        && left.store == right.store
        && same_numbers(left.folds.as_slice(), right.folds.as_slice())
}

fn is_known(accesses: &[Access], access: &Access) -> bool
    ensures { result ≡ list_any (λ x. same_access x access.now) accesses.now }
{
    for other in accesses {
        if same_access(other, access) {
            return true;
        }
    }
    false
}

/// One access more, unless it is known.
fn add_new(alloc: Global, access: &Access, known: &mut Listed<Access>) -> Result<(), AllocError>
    ensures { OnOk result (known.new ≡ with_new same_access known.old access.now) }
{
    if is_known(known.as_slice(), access) {
        return Ok(());
    }
    known.push(access.copy(alloc)?)?;
    Ok(())
}

/// The different accesses among these, each at its first place.
fn different(alloc: Global, accesses: &[Access]) -> Result<Listed<Access>, AllocError>
    ensures { IfOk result (λ known. known ≡ distinct same_access accesses.now) }
{
    let mut known = Listed::new(alloc);
    for access in accesses {
        add_new(alloc, access, &mut known)?;
    }
    Ok(known)
}

/// The accesses of an instruction that uses no rules.
pub fn plain_accesses(alloc: Global, insn: &Insn) -> Result<Listed<Access>, AllocError>
    ensures { IfOk result (λ found. found ≡ plain_accesses insn.now) }
{
    let all = listed_accesses(alloc, insn)?;
    different(alloc, all.as_slice())
}

fn accesses_of_all(alloc: Global, insns: &[Insn]) -> Result<Vec<Listed<Access>>, AllocError>
    ensures { IfOk result (λ made. made.items ≡ map plain_accesses insns.now) }
{
    let mut made = Vec::new(alloc);
    for insn in insns {
        made.push(plain_accesses(alloc, insn)?)?;
    }
    Ok(made)
}

/// The accesses of each instruction of a kernel that uses no rules.
pub fn all_accesses(alloc: Global, plain: &Kernel) -> Result<Vec<Listed<Access>>, AllocError>
    ensures { IfOk result (λ made. made.items ≡ map plain_accesses plain.now.insns) }
{
    accesses_of_all(alloc, plain.insns.as_slice())
}
