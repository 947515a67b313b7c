//! The first place at fault of an expression that is asked for a kind.
ghost use Rattle.std.specs.Prelude.{◌≡◌, slice_get};
ghost use Rattle.kernel_ir.specs.Kinds.{cell_kind};
ghost use Rattle.type_infer.specs.Judged.{judged_of, mismatch_of, mismatch_of_test};
ghost use Rattle.type_infer.specs.Tables.{kept_judgement, known_by};

use crate::found::RuleKinds;
use expr_tree::{Cell, Expr, Node, Test};
use kernel_ir::Kernel;
use kind_faults::{Mismatch, fits, is_unsigned, kind_fault, may_shift, read_fault, unless};
use wrap_words::Kind;

/// The kind of a cell, if there is such a cell and it has one.
pub(crate) fn cell_kind(kernel: &Kernel, cell: Cell) -> Option<Kind>
    ensures { result ≡ cell_kind kernel.now cell }
{
    match cell {
        Cell::Array(at) => match kernel.arrays.get(at as usize) {
            Some(array) => Some(array.kind),
            None => None,
        },
        Cell::Temp(at) => match kernel.temps.get(at as usize) {
            Some(temp) => temp.kind,
            None => None,
        },
    }
}

fn rule_first(rules: &[RuleKinds], rule: u32) -> Option<Kind>
    ensures { result ≡ (kept_judgement (slice_get rules.now rule)).first }
{
    match rules.get(rule as usize) {
        Some(kept) => kept.first,
        None => None,
    }
}

fn rule_fault(rules: &[RuleKinds], rule: u32, kind: Kind) -> Option<Mismatch>
    ensures { result ≡ (kept_judgement (slice_get rules.now rule)).fault kind }
{
    match rules.get(rule as usize) {
        Some(kept) => kept.faults.at(kind),
        None => unless(false, kind),
    }
}

/// The kind of the first read or cast of the expression outside its inner tests.
#[cycle(first)]
pub(crate) fn first_kind(expr: &Expr, kernel: &Kernel, rules: &[RuleKinds]) -> Option<Kind>
    ensures { result ≡ (judged_of (known_by kernel.now rules.now) expr.now).first }
{
    match expr.node() {
        Node::Literal(_) | Node::Leaf(_) => None,
        Node::Read(cell, _) => cell_kind(kernel, *cell),
        Node::Call(rule, _) => rule_first(rules, *rule),
        Node::Neg(a) | Node::Inv(a) | Node::Shl(a, _) | Node::Shr(a, _) | Node::Fold(_, _, a) => {
            first_kind(a, kernel, rules)
        }
        Node::Bin(_, a, b) | Node::Pick(_, a, b) => match first_kind(a, kernel, rules) {
            Some(first) => Some(first),
            None => first_kind(b, kernel, rules),
        },
        Node::Cast(to, _) => Some(*to),
    }
}

/// The first fault of the expression in text order, if it is asked for the kind.
#[cycle(faults)]
pub(crate) fn mismatch(
    expr: &Expr,
    kind: Kind,
    kernel: &Kernel,
    rules: &[RuleKinds],
) -> Option<Mismatch>
    ensures { result ≡ mismatch_of (known_by kernel.now rules.now) expr.now kind }
{
    match expr.node() {
        Node::Literal(number) => unless(fits(*number, kind), kind),
        Node::Leaf(_) => None,
        Node::Read(cell, _) => read_fault(cell_kind(kernel, *cell), kind),
        Node::Call(rule, _) => rule_fault(rules, *rule, kind),
        Node::Neg(a) | Node::Inv(a) | Node::Fold(_, _, a) => mismatch(a, kind, kernel, rules),
        Node::Shl(a, by) => mismatch(a, kind, kernel, rules).or(unless(
            may_shift(u64::from(*by), kind),
            kind,
        )),
        Node::Shr(a, by) => mismatch(a, kind, kernel, rules).or(unless(
            is_unsigned(kind) && may_shift(u64::from(*by), kind),
            kind,
        )),
        Node::Bin(_, a, b) => match mismatch(a, kind, kernel, rules) {
            Some(fault) => Some(fault),
            None => mismatch(b, kind, kernel, rules),
        },
        Node::Pick(test, a, b) => match test_mismatch(test, kind, kernel, rules) {
            Some(fault) => Some(fault),
            None => match mismatch(a, kind, kernel, rules) {
                Some(fault) => Some(fault),
                None => mismatch(b, kind, kernel, rules),
            },
        },
        Node::Cast(to, a) => match kind_fault(*to, kind) {
            Some(fault) => Some(fault),
            None => {
                let from = first_kind(a, kernel, rules).unwrap_or(*to);
                mismatch(a, from, kernel, rules)
            }
        },
    }
}

/// The first fault of the test, standing in a node that is asked for the kind.
#[cycle(faults)]
pub(crate) fn test_mismatch(
    test: &Test,
    kind: Kind,
    kernel: &Kernel,
    rules: &[RuleKinds],
) -> Option<Mismatch>
    ensures { result ≡ mismatch_of_test (known_by kernel.now rules.now) test.now kind }
{
    match test {
        Test::Words(_, a, b) => {
            let first = match first_kind(a, kernel, rules) {
                Some(first) => Some(first),
                None => first_kind(b, kernel, rules),
            };
            let side = first.unwrap_or(kind);
            match mismatch(a, side, kernel, rules) {
                Some(fault) => Some(fault),
                None => mismatch(b, side, kernel, rules),
            }
        }
        Test::Index(_, _, _) => None,
        Test::All(p, q) | Test::Any(p, q) => match test_mismatch(p.get(), kind, kernel, rules) {
            Some(fault) => Some(fault),
            None => test_mismatch(q.get(), kind, kernel, rules),
        },
        Test::Not(p) => test_mismatch(p.get(), kind, kernel, rules),
    }
}
