//! What is kept of rules, filled in an order in which each rule stands behind those that it uses.
ghost use Rattle.std.specs.Prelude.{◌≡◌, length, slice_get, Some, IfOk};
ghost use Rattle.untyped.specs.Asked.{asked_of};
ghost use Rattle.type_infer.specs.Orders.{IsCallOrder};
ghost use Rattle.type_infer.specs.Tables.{fault_at};
ghost use Rattle.kernel_kinds.specs.Asked.{as_use, known_over, nothing_asked, rule_asked};
ghost use Rattle.kernel_kinds.specs.Tables.{asked_at, cells_in, kept_asked, kind_at, known_by, uses_among};

use crate::found::{Cells, Kept};
use expr_tree::Cell;
use kind_faults::{Mismatch, misplaced};
use std::alloc::{AllocError, Global};
use type_infer::KindFaults;
use untyped::{Kinds, Untyped, first_kind, test_mismatch, value_mismatch};
use untyped_parts::RuleTree;
use wrap_words::Kind;

/// The kinds of cells, and what is kept of rules.
#[derive(Clone, Copy)]
struct Found<'a> {
    cells: &'a Cells,
    rules: &'a [Kept],
}

fn kept_kind(kinds: &[Option<Kind>], temp: usize) -> Option<Kind>
    ensures { result ≡ kind_at kinds.now temp }
{
    match kinds.get(temp) {
        Some(kind) => *kind,
        None => None,
    }
}

impl Cells {
    /// The kind of a cell.
    pub(crate) fn kind(&self, cell: Cell) -> Option<Kind>
        ensures { result ≡ cells_in self.now cell }
    {
        match cell {
            Cell::Array(at) => self.arrays.get(at as usize).copied(),
            Cell::Temp(at) => kept_kind(self.temps.as_slice(), at as usize),
        }
    }
}

fn rule_first(rules: &[Kept], rule: u32) -> Option<Kind>
    ensures { result ≡ (asked_at rules.now rule).value.first }
{
    match rules.get(rule as usize) {
        Some(kept) => kept.first,
        None => None,
    }
}

fn rule_value(rules: &[Kept], rule: u32, kind: Kind) -> Option<Mismatch>
    ensures { result ≡ (asked_at rules.now rule).value.fault kind }
{
    match rules.get(rule as usize) {
        Some(kept) => kept.values.at(kind),
        None => misplaced(kind),
    }
}

fn rule_test(rules: &[Kept], rule: u32, kind: Kind) -> Option<Mismatch>
    ensures { result ≡ (asked_at rules.now rule).test kind }
{
    match rules.get(rule as usize) {
        Some(kept) => kept.tests.at(kind),
        None => misplaced(kind),
    }
}

impl Kinds for Found<'_> {
    ghost use Rattle.kernel_kinds.specs.Tables.{known_by};

    ghost known = { λ s. known_by s.cells.now s.rules.now };

    fn cell_kind(&self, cell: Cell) -> Option<Kind> {
        self.cells.kind(cell)
    }

    fn use_first(&self, rule: u32) -> Option<Kind> {
        rule_first(self.rules, rule)
    }

    fn use_value(&self, rule: u32, kind: Kind) -> Option<Mismatch> {
        rule_value(self.rules, rule, kind)
    }

    fn use_test(&self, rule: u32, kind: Kind) -> Option<Mismatch> {
        rule_test(self.rules, rule, kind)
    }
}

/// The kind of the first read or cast of an expression outside tests.
pub(crate) fn first_of(cells: &Cells, rules: &[Kept], tree: &Untyped) -> Option<Kind>
    ensures { result ≡ (asked_of (known_by cells.now rules.now) tree.now).value.first }
{
    first_kind(tree, &Found { cells, rules })
}

/// The first fault of an expression where a value of a kind is wanted.
pub(crate) fn value_fault(
    cells: &Cells,
    rules: &[Kept],
    tree: &Untyped,
    kind: Kind,
) -> Option<Mismatch>
    ensures { result ≡ (asked_of (known_by cells.now rules.now) tree.now).value.fault kind }
{
    value_mismatch(tree, kind, &Found { cells, rules })
}

/// The first fault of an expression where a test is wanted in a node that is asked for a kind.
pub(crate) fn test_fault(
    cells: &Cells,
    rules: &[Kept],
    tree: &Untyped,
    kind: Kind,
) -> Option<Mismatch>
    ensures { result ≡ (asked_of (known_by cells.now rules.now) tree.now).test kind }
{
    test_mismatch(tree, kind, &Found { cells, rules })
}

/// The fault of a use in the place of a test.
fn use_fault(cells: &Cells, rules: &[Kept], body: &Untyped, kind: Kind) -> Option<Mismatch>
    ensures { result ≡ (as_use (asked_of (known_by cells.now rules.now) body.now)).test kind }
{
    test_fault(cells, rules, body, kind).or(misplaced(kind))
}

/// The faults of a body where a value is wanted.
fn value_faults(cells: &Cells, rules: &[Kept], body: &Untyped) -> KindFaults
    ensures { fault_at result ≡ (asked_of (known_by cells.now rules.now) body.now).value.fault }
{
    KindFaults {
        i32: value_fault(cells, rules, body, Kind::I32),
        i64: value_fault(cells, rules, body, Kind::I64),
        u32: value_fault(cells, rules, body, Kind::U32),
        u64: value_fault(cells, rules, body, Kind::U64),
    }
}

/// The faults of a use in the place of a test.
fn use_faults(cells: &Cells, rules: &[Kept], body: &Untyped) -> KindFaults
    ensures { fault_at result ≡ (as_use (asked_of (known_by cells.now rules.now) body.now)).test }
{
    KindFaults {
        i32: use_fault(cells, rules, body, Kind::I32),
        i64: use_fault(cells, rules, body, Kind::I64),
        u32: use_fault(cells, rules, body, Kind::U32),
        u64: use_fault(cells, rules, body, Kind::U64),
    }
}

impl Kept {
    /// There is no such rule.
    fn none() -> Kept
        ensures { kept_asked (Some result) ≡ nothing_asked }
    {
        let faults = KindFaults {
            i32: misplaced(Kind::I32),
            i64: misplaced(Kind::I64),
            u32: misplaced(Kind::U32),
            u64: misplaced(Kind::U64),
        };
        Kept {
            first: None,
            values: faults,
            tests: faults,
        }
    }

    /// What the uses of a rule with this body are, by what is kept of earlier rules.
    fn of_body(cells: &Cells, rules: &[Kept], body: &Untyped) -> Kept
        ensures { kept_asked (Some result) ≡ as_use (asked_of (known_by cells.now rules.now) body.now) }
    {
        Kept {
            first: first_of(cells, rules, body),
            values: value_faults(cells, rules, body),
            tests: use_faults(cells, rules, body),
        }
    }
}

/// What the uses of a rule are, by what is kept of earlier rules.
fn kept_of(cells: &Cells, table: &[Kept], rules: &[RuleTree], rule: usize) -> Kept
    ensures { kept_asked (Some result) ≡ rule_asked (known_by cells.now table.now) (slice_get rules.now rule) }
{
    match rules.get(rule) {
        Some(rule) => Kept::of_body(cells, table, &rule.body),
        None => Kept::none(),
    }
}

fn none_kept(alloc: Global, rules: &[RuleTree]) -> Result<Vec<Kept>, AllocError>
    ensures { IfOk result (λ table. length table.items ≡ length rules.now) }
{
    let none = Kept::none();
    rules.iter().map(|_| none).collect(alloc)
}

/// What the uses of each rule are.
pub(crate) fn kept_rules(
    alloc: Global,
    cells: &Cells,
    rules: &[RuleTree],
    order: &[usize],
) -> Result<Vec<Kept>, AllocError>
    requires { IsCallOrder (uses_among rules.now) order.now }
    ensures { IfOk result (λ table. known_by cells.now table.items ≡ known_over (cells_in cells.now) rules.now) }
{
    let mut table = none_kept(alloc, rules)?;
    for rule in order {
        table[*rule] = kept_of(cells, table.as_slice(), rules, *rule);
    }
    Ok(table)
}
