//! Operators, choices and reductions.
ghost use Rattle.std.specs.Prelude.{◌≡◌, IfOk};
ghost use Rattle.untyped.specs.Readings.{negated_part, prefix_reading, operated_parts, is_comparison, below_of, infix_reading, wide_reading, shift_left_reading, shift_right_reading, cast_reading, choose_reading, inames_in, no_iname_in, fold_reading, extreme_reading};

use crate::faults::Faults;
use crate::index::{Collected, negated, operated};
use crate::reading::{Part, Reading, index_or_tree, name_reading, refused_reading, tree_reading};
use crate::scope::{Role, Scope};
use crate::tree::Term;
use affine_rows::{Listed, Name};
use kernel_grammar::{Extreme, Folding, Infix, Prefix};
use std::alloc::{AllocError, Global};
use wrap_words::Kind;

fn negated_part(alloc: Global, op: Prefix, a: &Part) -> Result<Option<Collected>, AllocError>
    ensures { IfOk result (λ o. o ≡ negated_part op a.now) }
{
    match (op, a) {
        (Prefix::Negate, Part::Index(form, constant)) => {
            Ok(Some(negated(alloc, form, *constant)?))
        }
        _ => Ok(None),
    }
}

/// An operator before its operand.
pub(crate) fn prefix_reading(alloc: Global, op: Prefix, a: Reading) -> Result<Reading, AllocError>
    ensures { IfOk result (λ r. r ≡ prefix_reading op a) }
{
    let collected = negated_part(alloc, op, &a.part)?;
    let term = Term::Prefix(op, a.part.into_tree(alloc)?);
    index_or_tree(alloc, collected, a.depth, term, a.faults)
}

fn operated_parts(
    alloc: Global,
    op: Infix,
    a: &Part,
    b: &Part,
) -> Result<Option<Collected>, AllocError>
    ensures { IfOk result (λ o. o ≡ operated_parts op a.now b.now) }
{
    match (a, b) {
        (Part::Index(f, c), Part::Index(g, d)) => operated(alloc, op, f, *c, g, *d),
        _ => Ok(None),
    }
}

fn is_comparison(op: Infix) -> bool
    ensures { result ≡ is_comparison op }
{
    match op {
        Infix::Compare(_) | Infix::NotEqual => true,
        _ => false,
    }
}

/// How deep the parts of an operation are.
fn below_of(op: Infix, a: &Reading, b: &Reading) -> u32
    ensures { result ≡ below_of op a.now b.now }
{
    if is_comparison(op) && a.part.is_index() && b.part.is_index() {
        0
    } else {
        a.depth.max(b.depth)
    }
}

/// An operator between its operands.
pub(crate) fn infix_reading(
    alloc: Global,
    op: Infix,
    a: Reading,
    b: Reading,
) -> Result<Reading, AllocError>
    ensures { IfOk result (λ r. r ≡ infix_reading op a b) }
{
    let collected = operated_parts(alloc, op, &a.part, &b.part)?;
    let below = below_of(op, &a, &b);
    let term = Term::Infix(op, a.part.into_tree(alloc)?, b.part.into_tree(alloc)?);
    index_or_tree(alloc, collected, below, term, a.faults.and(b.faults))
}

/// What stands for a shift by a number past 18446744073709551615.
fn wide_reading(alloc: Global, faults: Faults) -> Reading
    ensures { result ≡ wide_reading faults }
{
    refused_reading(
        alloc,
        Faults {
            wide: true,
            ..faults
        },
    )
}

pub(crate) fn shift_left_reading(
    alloc: Global,
    by: Option<u64>,
    a: Reading,
) -> Result<Reading, AllocError>
    ensures { IfOk result (λ r. r ≡ shift_left_reading by a) }
{
    match by {
        Some(by) => {
            let term = Term::ShiftLeft(a.part.into_tree(alloc)?, by);
            tree_reading(alloc, a.depth, term, a.faults)
        }
        None => Ok(wide_reading(alloc, a.faults)),
    }
}

pub(crate) fn shift_right_reading(
    alloc: Global,
    by: Option<u64>,
    a: Reading,
) -> Result<Reading, AllocError>
    ensures { IfOk result (λ r. r ≡ shift_right_reading by a) }
{
    match by {
        Some(by) => {
            let term = Term::ShiftRight(a.part.into_tree(alloc)?, by);
            tree_reading(alloc, a.depth, term, a.faults)
        }
        None => Ok(wide_reading(alloc, a.faults)),
    }
}

pub(crate) fn cast_reading(alloc: Global, kind: Kind, a: Reading) -> Result<Reading, AllocError>
    ensures { IfOk result (λ r. r ≡ cast_reading kind a) }
{
    let term = Term::Cast(kind, a.part.into_tree(alloc)?);
    tree_reading(alloc, a.depth, term, a.faults)
}

/// The choice of the second or third part by the first.
pub(crate) fn choose_reading(
    alloc: Global,
    a: Reading,
    b: Reading,
    c: Reading,
) -> Result<Reading, AllocError>
    ensures { IfOk result (λ r. r ≡ choose_reading a b c) }
{
    let below = a.depth.max(b.depth.max(c.depth));
    let faults = a.faults.and(b.faults.and(c.faults));
    let test = a.part.into_tree(alloc)?;
    let yes = b.part.into_tree(alloc)?;
    let no = c.part.into_tree(alloc)?;
    tree_reading(alloc, below, Term::Choose(test, yes, no), faults)
}

/// The inames among names.
pub(crate) fn inames_in<S: Scope>(
    alloc: Global,
    scope: &S,
    names: &[Name],
) -> Result<Listed<u32>, AllocError>
    ensures { IfOk result (λ inames. inames ≡ inames_in (S.roles scope.now) names.now) }
{
    let mut inames = Listed::new(alloc);
    for name in names {
        if let Role::Iname(iname) = scope.role(name) {
            inames.push(iname)?;
        }
    }
    Ok(inames)
}

/// The first of the names that is no iname.
pub(crate) fn no_iname_in<S: Scope>(
    alloc: Global,
    scope: &S,
    names: &[Name],
) -> Result<Option<Name>, AllocError>
    ensures { IfOk result (λ o. o ≡ no_iname_in (S.roles scope.now) names.now) }
{
    for name in names {
        match scope.role(name) {
            Role::Iname(_) => {}
            _ => return Ok(Some(name.copy(alloc)?)),
        }
    }
    Ok(None)
}

/// A reduction over inames, where a name that is none may stand among them.
pub(crate) fn fold_reading(
    alloc: Global,
    how: Folding,
    inames: Listed<u32>,
    unknown: Option<Name>,
    a: Reading,
) -> Result<Reading, AllocError>
    ensures { IfOk result (λ r. r ≡ fold_reading how inames unknown a) }
{
    let Reading {
        part,
        depth,
        faults,
    } = a;
    let term = Term::Fold(how, inames, part.into_tree(alloc)?);
    let unknown = unknown.or(faults.unknown);
    let faults = Faults { unknown, ..faults };
    tree_reading(alloc, depth, term, faults)
}

/// A reduction over a name if it is an iname, and else an operation on two values.
pub(crate) fn extreme_reading(
    alloc: Global,
    role: Role,
    which: Extreme,
    name: &Name,
    b: Reading,
) -> Result<Reading, AllocError>
    ensures { IfOk result (λ r. r ≡ extreme_reading role which name.now b) }
{
    match role {
        Role::Iname(iname) => {
            let inames = Listed::of_one(alloc, iname)?;
            fold_reading(alloc, Folding::Extreme(which), inames, None, b)
        }
        _ => {
            let a = name_reading(alloc, role, name)?;
            infix_reading(alloc, Infix::Extreme(which), a, b)
        }
    }
}
