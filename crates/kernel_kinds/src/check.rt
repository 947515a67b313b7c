//! Which trees of a file are refused.
ghost use Rattle.std.specs.Prelude.{◌≡◌, ℕ, ◌<◌, length, IfOk, OnOk};
ghost use Rattle.expr_tree.specs.Scenes.{is_among};
ghost use Rattle.kernel_ir.specs.Refusals.{Refuses};
ghost use Rattle.subst_rules.specs.Refused.{RefusesAs};
ghost use Rattle.type_infer.specs.Orders.{IsCallOrder, marked_at};
ghost use Rattle.kernel_kinds.specs.Calls.{HasNoUseCycle, used_rules};
ghost use Rattle.kernel_kinds.specs.Kinds.{kinds_refusal};
ghost use Rattle.kernel_kinds.specs.Refused.{IsCallsRefusal};
ghost use Rattle.kernel_kinds.specs.Tables.{uses_among};

use crate::arities::check_arities;
use crate::calls::{calls_in_insns, calls_of, rules_within, uses_among};
use crate::cells::cell_kinds;
use crate::cycles::check_cycles;
use crate::kept::kept_rules;
use crate::refuse::check_all;
use affine_rows::Listed;
use kernel_ir::{Fault, Kernel};
use std::alloc::{AllocError, Global};
use type_infer::{call_order, used_rules};
use untyped_parts::{InsnTree, RuleTree};

/// Rules 8 and 7 of the trees of a file: a use of a rule with another count of arguments than the rule has parameters, in
/// the bodies of rules, without a line, before the instructions, at their lines; then the first rule in declared order that
/// reaches itself. `OutOfMemory` may come in place of any answer.
pub fn check_calls(
    alloc: Global,
    kernel: &Kernel,
    rules: &[RuleTree],
    insns: &[InsnTree],
) -> Result<(), Fault>
    ensures refused { RefusesAs (IsCallsRefusal kernel.now rules.now insns.now) result }
    ensures acyclic { OnOk result (HasNoUseCycle rules.now) }
{
    let bodies = calls_of(alloc, rules)?;
    check_arities(alloc, kernel, bodies.as_slice(), insns)?;
    check_cycles(alloc, kernel, bodies.as_slice())
}

/// Whether instructions use each rule, also through others.
fn used_by_insns(
    alloc: Global,
    uses: &[Listed<u32>],
    order: &[usize],
    rules: &[RuleTree],
    insns: &[InsnTree],
) -> Result<Vec<bool>, AllocError>
    requires uses { uses.now ≡ uses_among rules.now }
    requires order { IsCallOrder (uses_among rules.now) order.now }
    ensures { IfOk result (λ marks. (r : ℕ) → r < length rules.now → marked_at marks.items r ≡ is_among (used_rules rules.now insns.now) r) }
{
    let calls = calls_in_insns(alloc, insns)?;
    let called = rules_within(alloc, calls.as_slice(), rules.len())?;
    let used = used_rules(alloc, uses, order, called.as_slice())?;
    Ok(used)
}

/// Rules 10 and 9 of the trees of a file. A temporary without a kind takes that of the first read or cast, outside inner
/// tests and with rules replaced, of the value that the first instruction stores to it.
///
/// Refused is, instruction by instruction, a store to a temporary that gets no kind (rule 10), and else the first place in
/// value and then data test where another kind stands than is asked, or a test in place of a value or a value in place of a
/// test (rule 9), both at the instruction's line; then, at its own line, the first rule that no instruction uses and that
/// has a fault at the kind of its first read or cast, or else at int32 (rule 9). `OutOfMemory` may come in place of any
/// answer.
pub fn check_kinds(
    alloc: Global,
    kernel: &Kernel,
    rules: &[RuleTree],
    insns: &[InsnTree],
) -> Result<(), Fault>
    requires { HasNoUseCycle rules.now }
    ensures refused { Refuses (kinds_refusal kernel.now rules.now insns.now) result }
{
    let uses = uses_among(alloc, rules)?;
    let order = call_order(alloc, uses.as_slice())?;
    let cells = cell_kinds(alloc, kernel, rules, insns, order.as_slice())?;
    let table = kept_rules(alloc, &cells, rules, order.as_slice())?;
    let marks = used_by_insns(alloc, uses.as_slice(), order.as_slice(), rules, insns)?;
    check_all(
        alloc,
        kernel,
        &cells,
        table.as_slice(),
        marks.as_slice(),
        rules,
        insns,
    )
}
