//! How the trees of a file are refused for their kinds.
ghost use Rattle.std.specs.Prelude.{◌≡◌};
ghost use Rattle.kernel_ir.specs.Refusals.{Refuses};
ghost use Rattle.kernel_limits.specs.Asked.{first_in};
ghost use Rattle.type_infer.specs.Orders.{marked_at};
ghost use Rattle.kernel_kinds.specs.Kinds.{body_fault, insn_fault, insn_refusal, refusal_by, rule_refusal, rules_refusal, test_fault, unknown_stored};
ghost use Rattle.kernel_kinds.specs.Tables.{cells_in, known_by};

use crate::found::{Cells, Kept};
use crate::kept::{first_of, test_fault, value_fault};
use expr_tree::Cell;
use kernel_ir::{Fault, Kernel};
use kind_faults::Mismatch;
use std::alloc::Global;
use type_infer::{check_fault, check_kind, is_marked};
use untyped::Untyped;
use untyped_parts::{InsnTree, RuleTree};
use wrap_words::Kind;

/// Refuses a store to a temporary that gets no kind.
fn check_stored(
    alloc: Global,
    kernel: &Kernel,
    cells: &Cells,
    table: &[Kept],
    insn: &InsnTree,
) -> Result<(), Fault>
    ensures { Refuses (unknown_stored kernel.now (known_by cells.now table.now) insn.now.line insn.now.cell) result }
{
    match insn.cell {
        Cell::Array(_) => Ok(()),
        Cell::Temp(at) => match kernel.temps.get(at as usize) {
            Some(temp) => check_kind(alloc, insn.line, &temp.name, cells.kind(insn.cell)),
            None => Ok(()),
        },
    }
}

fn data_test_fault(
    cells: &Cells,
    table: &[Kept],
    test: &Option<Untyped>,
    kind: Kind,
) -> Option<Mismatch>
    ensures { result ≡ test_fault (known_by cells.now table.now) test.now kind }
{
    match test {
        Some(test) => test_fault(cells, table, test, kind),
        None => None,
    }
}

/// The first fault of an instruction, value before data test.
fn insn_fault(cells: &Cells, table: &[Kept], insn: &InsnTree) -> Option<Mismatch>
    ensures { result ≡ insn_fault (known_by cells.now table.now) insn.now (cells_in cells.now insn.now.cell) }
{
    let kind = cells.kind(insn.cell)?;
    match value_fault(cells, table, &insn.value, kind) {
        Some(fault) => Some(fault),
        None => data_test_fault(cells, table, &insn.test, kind),
    }
}

/// Refuses an instruction, by rule 10 before rule 9.
fn check_insn(
    alloc: Global,
    kernel: &Kernel,
    cells: &Cells,
    table: &[Kept],
    insn: &InsnTree,
) -> Result<(), Fault>
    ensures { Refuses (insn_refusal kernel.now (known_by cells.now table.now) insn.now) result }
{
    check_stored(alloc, kernel, cells, table, insn)?;
    check_fault(alloc, insn.line, insn_fault(cells, table, insn))
}

/// Refuses the first instruction that is refused.
fn check_insns(
    alloc: Global,
    kernel: &Kernel,
    cells: &Cells,
    table: &[Kept],
    insns: &[InsnTree],
) -> Result<(), Fault>
    ensures { Refuses (first_in (insn_refusal kernel.now (known_by cells.now table.now)) insns.now) result }
{
    for insn in insns {
        check_insn(alloc, kernel, cells, table, insn)?;
    }
    Ok(())
}

/// A fault of a rule's body at the kind of its first read or cast, or else at int32.
fn body_fault(cells: &Cells, table: &[Kept], rule: &RuleTree) -> Option<Mismatch>
    ensures { result ≡ body_fault (known_by cells.now table.now) rule.now }
{
    let kind = first_of(cells, table, &rule.body).unwrap_or(Kind::I32);
    value_fault(cells, table, &rule.body, kind)
}

/// Refuses a rule at its line, unless an instruction uses it.
fn check_rule(
    alloc: Global,
    cells: &Cells,
    table: &[Kept],
    used: bool,
    rule: &RuleTree,
) -> Result<(), Fault>
    ensures { Refuses (rule_refusal (known_by cells.now table.now) used rule.now) result }
{
    if used {
        return Ok(());
    }
    check_fault(alloc, rule.line, body_fault(cells, table, rule))
}

/// Refuses the first rule that is refused of those that are not marked as used.
fn check_rules(
    alloc: Global,
    cells: &Cells,
    table: &[Kept],
    marks: &[bool],
    rules: &[RuleTree],
) -> Result<(), Fault>
    ensures { Refuses (rules_refusal (known_by cells.now table.now) (marked_at marks.now) 0 rules.now) result }
{
    for (at, rule) in rules.iter().enumerate() {
        check_rule(alloc, cells, table, is_marked(marks, at), rule)?;
    }
    Ok(())
}

/// Refuses instructions, then the rules that are not marked as used, by what is kept of cells and rules.
pub(crate) fn check_all(
    alloc: Global,
    kernel: &Kernel,
    cells: &Cells,
    table: &[Kept],
    marks: &[bool],
    rules: &[RuleTree],
    insns: &[InsnTree],
) -> Result<(), Fault>
    ensures { Refuses (refusal_by kernel.now (known_by cells.now table.now) (marked_at marks.now) rules.now insns.now) result }
{
    check_insns(alloc, kernel, cells, table, insns)?;
    check_rules(alloc, cells, table, marks, rules)
}
