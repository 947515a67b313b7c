//! How a kernel is refused for its kinds.
ghost use Rattle.std.specs.Prelude.{◌≡◌, ℕ, None, if◌then◌else◌, IfOk};
ghost use Rattle.expr_tree.specs.Scenes.{is_among};
ghost use Rattle.kernel_ir.specs.Valid.{used_rules};
ghost use Rattle.type_infer.specs.Orders.{marked_at};
ghost use Rattle.kernel_ir.specs.Refusals.{Refuses};
ghost use Rattle.kernel_ir.specs.Kinds.{cell_kind};
ghost use Rattle.type_infer.specs.Tables.{known_by};
ghost use Rattle.type_infer.specs.Typing.{body_mismatch, kinds_refusal, rules_refusal, insn_mismatch, insn_refusal, insns_refusal, found_word, kind_unknown, mismatch_at, temps_refusal, type_mismatch, type_unknown, unknown_stored};

use crate::faults::{cell_kind, first_kind, mismatch, test_mismatch};
use crate::found::RuleKinds;
use crate::used::is_marked;
use affine_rows::Name;
use expr_tree::Cell;
use kernel_ir::{Fault, Insn, Kernel, Refusal, Site, SubstRule, Temp};
use kind_faults::{Mismatch, kind_word};
use std::alloc::{AllocError, Global};
use wrap_words::Kind;

/// The word of what stands at a fault.
fn found_word(found: Option<Kind>) -> &'static str
    ensures { result.now ≡ found_word found }
{
    match found {
        Some(kind) => kind_word(kind),
        None => "form",
    }
}

/// Rule 9 at a line.
fn type_mismatch(alloc: Global, line: u32, fault: Mismatch) -> Result<Refusal, AllocError>
    ensures { IfOk result (λ r. r ≡ type_mismatch line fault) }
{
    let refusal = Refusal::of_rule(alloc, Site::Kernel, 9)
        .with_word(alloc, kind_word(fault.wanted))?
        .with_word(alloc, found_word(fault.found))?;
    Ok(refusal.at_line(line))
}

/// Refuses a fault, by rule 9 at a line. The only other error is want of memory.
pub fn check_fault(alloc: Global, line: u32, fault: Option<Mismatch>) -> Result<(), Fault>
    ensures { Refuses (mismatch_at line fault) result }
{
    match fault {
        Some(fault) => Err(Fault::Rule(type_mismatch(alloc, line, fault)?)),
        None => Ok(()),
    }
}

/// Refuses a temporary of this name that has no kind, by rule 10 at a line. The only other error is want of memory.
pub fn check_kind(alloc: Global, line: u32, name: &Name, kind: Option<Kind>) -> Result<(), Fault>
    ensures { Refuses (kind_unknown line name.now kind) result }
{
    match kind {
        Some(_) => Ok(()),
        None => {
            let refusal = Refusal::of_rule(alloc, Site::Kernel, 10).with_name(alloc, name)?;
            Err(Fault::Rule(refusal.at_line(line)))
        }
    }
}

/// Refuses a temporary without a kind.
fn check_temp(alloc: Global, line: u32, temp: &Temp) -> Result<(), Fault>
    ensures { Refuses (type_unknown line temp.now) result }
{
    check_kind(alloc, line, &temp.name, temp.kind)
}

/// Refuses a store to a temporary without a kind.
fn check_stored(alloc: Global, kernel: &Kernel, line: u32, cell: Cell) -> Result<(), Fault>
    ensures { Refuses (unknown_stored kernel.now line cell) result }
{
    match cell {
        Cell::Array(_) => Ok(()),
        Cell::Temp(at) => match kernel.temps.get(at as usize) {
            Some(temp) => check_temp(alloc, line, temp),
            None => Ok(()),
        },
    }
}

/// The first fault of an instruction, value before predicate.
fn insn_fault(kernel: &Kernel, rules: &[RuleKinds], insn: &Insn) -> Option<Mismatch>
    ensures { result ≡ insn_mismatch (known_by kernel.now rules.now) insn.now (cell_kind kernel.now insn.now.cell) }
{
    let kind = cell_kind(kernel, insn.cell)?;
    match mismatch(&insn.value, kind, kernel, rules) {
        Some(fault) => Some(fault),
        None => match &insn.test {
            Some(test) => test_mismatch(test, kind, kernel, rules),
            None => None,
        },
    }
}

/// Refuses an instruction.
fn check_insn(alloc: Global, kernel: &Kernel, rules: &[RuleKinds], insn: &Insn) -> Result<(), Fault>
    ensures { Refuses (insn_refusal kernel.now (known_by kernel.now rules.now) insn.now) result }
{
    check_stored(alloc, kernel, insn.line, insn.cell)?;
    check_fault(alloc, insn.line, insn_fault(kernel, rules, insn))
}

/// Refuses the first instruction that is refused.
fn check_insns(alloc: Global, kernel: &Kernel, rules: &[RuleKinds]) -> Result<(), Fault>
    ensures { Refuses (insns_refusal kernel.now (known_by kernel.now rules.now) kernel.now.insns) result }
{
    for insn in kernel.insns.as_slice() {
        check_insn(alloc, kernel, rules, insn)?;
    }
    Ok(())
}

/// Refuses the first temporary without a kind.
fn check_temps(alloc: Global, temps: &[Temp]) -> Result<(), Fault>
    ensures { Refuses (temps_refusal temps.now) result }
{
    for temp in temps {
        check_temp(alloc, 0, temp)?;
    }
    Ok(())
}

/// A fault of a rule's body at the kind of its first read or cast, or else at int32.
fn body_fault(kernel: &Kernel, rules: &[RuleKinds], rule: &SubstRule) -> Option<Mismatch>
    ensures { result ≡ body_mismatch (known_by kernel.now rules.now) rule.now }
{
    let kind = first_kind(&rule.body, kernel, rules).unwrap_or(Kind::I32);
    mismatch(&rule.body, kind, kernel, rules)
}

/// Refuses a rule, unless an instruction uses it.
fn check_rule(
    alloc: Global,
    kernel: &Kernel,
    rules: &[RuleKinds],
    used: bool,
    rule: &SubstRule,
) -> Result<(), Fault>
    ensures { Refuses (if used then None else mismatch_at 0 (body_mismatch (known_by kernel.now rules.now) rule.now)) result }
{
    if used {
        return Ok(());
    }
    check_fault(alloc, 0, body_fault(kernel, rules, rule))
}

/// Refuses the first rule that is refused of those that no instruction uses.
fn check_rules(
    alloc: Global,
    kernel: &Kernel,
    rules: &[RuleKinds],
    used: &[bool],
) -> Result<(), Fault>
    requires { (r : ℕ) → marked_at used.now r ≡ is_among (used_rules kernel.now) r }
    ensures { Refuses (rules_refusal kernel.now (known_by kernel.now rules.now) 0 kernel.now.rules) result }
{
    for (at, rule) in kernel.rules.as_slice().iter().enumerate() {
        check_rule(alloc, kernel, rules, is_marked(used, at), rule)?;
    }
    Ok(())
}

/// Refuses a kernel of which the kinds of all temporaries are inferred, by what its rules are and which of them are used.
pub(crate) fn check_kinds(
    alloc: Global,
    kernel: &Kernel,
    rules: &[RuleKinds],
    used: &[bool],
) -> Result<(), Fault>
    requires { (r : ℕ) → marked_at used.now r ≡ is_among (used_rules kernel.now) r }
    ensures { Refuses (kinds_refusal kernel.now (known_by kernel.now rules.now)) result }
{
    check_insns(alloc, kernel, rules)?;
    check_temps(alloc, kernel.temps.as_slice())?;
    check_rules(alloc, kernel, rules, used)
}
