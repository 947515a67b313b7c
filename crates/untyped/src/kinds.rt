//! The first place at fault of an expression whose kind is asked.
ghost use Rattle.std.specs.Prelude.{◌≡◌};
ghost use Rattle.kind_faults.specs.Faults.{side_kind};
ghost use Rattle.untyped.specs.Asked.{asked_of, sort_of};

use crate::tree::{Term, Untyped};
use expr_tree::Cell;
use kernel_grammar::{Infix, Prefix};
use kind_faults::{
    Mismatch, fits, is_unsigned, kind_fault, may_shift, misplaced, read_fault, unless,
};
use wrap_words::Kind;

/// What an operator takes and gives.
#[derive(Clone, Copy)]
pub(crate) enum Sort {
    Arithmetic,
    /// `min` and `max`, which stand before their operands.
    Extreme,
    /// `//` and `%`, which are for index expressions alone.
    Division,
    Comparison,
    /// `and` and `or`.
    Joining,
}

/// Who knows the kinds of cells, and what uses of rules are.
pub trait Kinds {
    ghost use Rattle.std.specs.Prelude.{◌≡◌};
    ghost use Rattle.untyped.specs.Asked.{Known};

    ghost known: { Self → Known };

    /// The kind of a cell, if it has one.
    fn cell_kind(&self, cell: Cell) -> Option<Kind>
        ensures { result ≡ (known self.now).cell cell };

    /// The kind of the first read or cast of a rule's body outside tests.
    fn use_first(&self, rule: u32) -> Option<Kind>
        ensures { result ≡ ((known self.now).call rule).value.first };

    /// The first fault of a rule's body where a value of a kind is wanted.
    fn use_value(&self, rule: u32, kind: Kind) -> Option<Mismatch>
        ensures { result ≡ ((known self.now).call rule).value.fault kind };

    /// The first fault of a rule's body where a test is wanted in a node that is asked for a kind.
    fn use_test(&self, rule: u32, kind: Kind) -> Option<Mismatch>
        ensures { result ≡ ((known self.now).call rule).test kind };
}

fn sort_of(op: Infix) -> Sort
    ensures { result ≡ sort_of op }
{
    match op {
        Infix::Or | Infix::And => Sort::Joining,
        Infix::Compare(_) | Infix::NotEqual => Sort::Comparison,
        Infix::Divide | Infix::Remainder => Sort::Division,
        Infix::Extreme(_) => Sort::Extreme,
        _ => Sort::Arithmetic,
    }
}

/// The kind of the first read or cast of an expression outside tests.
#[cycle(first)]
pub fn first_kind<K: Kinds>(tree: &Untyped, known: &K) -> Option<Kind>
    ensures { result ≡ (asked_of (K.known known.now) tree.now).value.first }
{
    match tree.term() {
        Term::Index(_, _) | Term::Literal(_) | Term::Prefix(Prefix::Not, _) => None,
        Term::Read(cell, _) => known.cell_kind(*cell),
        Term::Use(rule, _) => known.use_first(*rule),
        Term::Cast(to, _) => Some(*to),
        Term::Prefix(_, a) | Term::ShiftLeft(a, _) | Term::ShiftRight(a, _) | Term::Fold(_, _, a) =>
            first_kind(a, known),
        Term::Choose(_, a, b) => match first_kind(a, known) {
            Some(first) => Some(first),
            None => first_kind(b, known),
        },
        Term::Infix(op, a, b) => match sort_of(*op) {
            Sort::Comparison | Sort::Joining => None,
            _ => match first_kind(a, known) {
                Some(first) => Some(first),
                None => first_kind(b, known),
            },
        },
    }
}

/// The kind of the sides of a comparison in a node that is asked for a kind.
fn side_kind<K: Kinds>(a: &Untyped, b: &Untyped, kind: Kind, known: &K) -> Kind
    ensures { result ≡ side_kind (asked_of (K.known known.now) a.now).value (asked_of (K.known known.now) b.now).value kind }
{
    match first_kind(a, known) {
        Some(first) => first,
        None => first_kind(b, known).unwrap_or(kind),
    }
}

/// The first fault of an expression in text order, where a value of a kind is wanted. It is a read or cast of another kind,
/// a literal that does not fit, a shift that the kind does not have, or `//`, `%` or a test, at its sign.
#[cycle(mismatch)]
pub fn value_mismatch<K: Kinds>(tree: &Untyped, kind: Kind, known: &K) -> Option<Mismatch>
    ensures { result ≡ (asked_of (K.known known.now) tree.now).value.fault kind }
{
    match tree.term() {
        Term::Index(_, _) => None,
        Term::Literal(number) => unless(fits(*number, kind), kind),
        Term::Read(cell, _) => read_fault(known.cell_kind(*cell), kind),
        Term::Use(rule, _) => known.use_value(*rule, kind),
        Term::Prefix(Prefix::Not, _) => misplaced(kind),
        Term::Prefix(_, a) | Term::Fold(_, _, a) => value_mismatch(a, kind, known),
        Term::Infix(op, a, b) => match sort_of(*op) {
            Sort::Arithmetic | Sort::Extreme => match value_mismatch(a, kind, known) {
                Some(fault) => Some(fault),
                None => value_mismatch(b, kind, known),
            },
            Sort::Division => value_mismatch(a, kind, known).or(misplaced(kind)),
            Sort::Comparison => {
                let side = side_kind(a, b, kind, known);
                value_mismatch(a, side, known).or(misplaced(kind))
            }
            Sort::Joining => test_mismatch(a, kind, known).or(misplaced(kind)),
        },
        Term::ShiftLeft(a, by) => value_mismatch(a, kind, known).or(unless(
            may_shift(*by, kind),
            kind,
        )),
        Term::ShiftRight(a, by) => value_mismatch(a, kind, known).or(unless(
            is_unsigned(kind) && may_shift(*by, kind),
            kind,
        )),
        Term::Cast(to, a) => match kind_fault(*to, kind) {
            Some(fault) => Some(fault),
            None => {
                let from = first_kind(a, known).unwrap_or(*to);
                value_mismatch(a, from, known)
            }
        },
        Term::Choose(test, a, b) => match test_mismatch(test, kind, known) {
            Some(fault) => Some(fault),
            None => match value_mismatch(a, kind, known) {
                Some(fault) => Some(fault),
                None => value_mismatch(b, kind, known),
            },
        },
    }
}

/// The first fault of an expression in text order, where a test is wanted in a node that is asked for a kind: as where a
/// value is wanted, but that a value is at fault, a read or cast with its kind and an operator at its sign.
#[cycle(mismatch)]
pub fn test_mismatch<K: Kinds>(tree: &Untyped, kind: Kind, known: &K) -> Option<Mismatch>
    ensures { result ≡ (asked_of (K.known known.now) tree.now).test kind }
{
    match tree.term() {
        Term::Read(cell, _) => Some(Mismatch {
            wanted: kind,
            found: known.cell_kind(*cell),
        }),
        Term::Cast(to, _) => Some(Mismatch {
            wanted: kind,
            found: Some(*to),
        }),
        Term::Use(rule, _) => known.use_test(*rule, kind),
        Term::Prefix(Prefix::Not, a) => test_mismatch(a, kind, known),
        Term::ShiftLeft(a, _) | Term::ShiftRight(a, _) => {
            value_mismatch(a, kind, known).or(misplaced(kind))
        }
        Term::Infix(op, a, b) => match sort_of(*op) {
            Sort::Arithmetic | Sort::Division => value_mismatch(a, kind, known).or(misplaced(kind)),
            Sort::Extreme => misplaced(kind),
            Sort::Comparison => {
                let side = side_kind(a, b, kind, known);
                match value_mismatch(a, side, known) {
                    Some(fault) => Some(fault),
                    None => value_mismatch(b, side, known),
                }
            }
            Sort::Joining => match test_mismatch(a, kind, known) {
                Some(fault) => Some(fault),
                None => test_mismatch(b, kind, known),
            },
        },
        Term::Index(_, _)
        | Term::Literal(_)
        | Term::Prefix(_, _)
        | Term::Choose(_, _, _)
        | Term::Fold(_, _, _) => misplaced(kind),
    }
}
