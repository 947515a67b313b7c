//! The limits of instructions.
ghost use Rattle.std.specs.Prelude.{◌≡◌, ◌≤◌, ◌+◌, length, All, IfOk, OnOk};
ghost use Rattle.affine_rows.specs.Forms.{IsForm};
ghost use Rattle.kernel_ir.specs.Limits.{all_inames, fold_count, forms_of, test_of, value_of};
ghost use Rattle.kernel_ir.specs.Refusals.{Refuses};
ghost use Rattle.kernel_limits.specs.Asked.{AreExpanded, counts_refusal, insn_refusal, insns_refusal, expanded_insn, uses_refusal, weight};

use crate::accesses::few_accesses;
use crate::ask::{ask, ask_count};
use crate::floors::few_floors;
use crate::mentions::{Found, accessed, repeated};
use kernel_ir::{Fault, Insn, Kernel};
use std::alloc::Global;

/// A kernel has at most so many instructions, each reduction counting two more.
const MAX_INSNS: u64 = 64;

/// Asks the count of inames, and that of instructions up to this one, and gives the latter.
fn check_counts(alloc: Global, insn: &Insn, own: &Found, before: u64) -> Result<u64, Fault>
    requires inames { own.now.inames ≡ all_inames insn.now }
    requires folds { length own.now.folds ≡ fold_count insn.now }
    requires before { before ≤ 64 }
    ensures refused { Refuses (counts_refusal before insn.now) result }
    ensures count { IfOk result (λ count. count ≡ before + weight insn.now) }
    ensures within { IfOk result (λ count. count ≤ 64) }
{
    ask_count(alloc, own.inames.len() as u64, insn.line, "inames", 16)?;
    let folds = own.folds.len() as u64;
    let count = (before + 1).saturating_add(folds).saturating_add(folds);
    ask_count(alloc, count, insn.line, "instructions", MAX_INSNS)?;
    Ok(count)
}

/// Asks the accesses and floors of an instruction, of which `plain` is the one with uses of rules replaced.
fn check_uses(
    alloc: Global,
    kernel: &Kernel,
    insn: &Insn,
    plain: &Insn,
    own: &Found,
) -> Result<(), Fault>
    requires plain { plain.now ≡ expanded_insn kernel.now insn.now }
    requires inames { own.now.inames ≡ all_inames insn.now }
    ensures refused { Refuses (uses_refusal kernel.now insn.now) result }
    ensures forms { OnOk result (All IsForm (forms_of kernel.now insn.now)) }
{
    let found = accessed(alloc, plain)?;
    let few = few_accesses(alloc, found.reads.as_slice())?;
    ask(alloc, few, insn.line, "accesses", 64)?;
    let inames = own.inames.as_slice();
    let few = few_floors(alloc, kernel, insn, inames, found.forms.as_slice())?;
    ask(alloc, few, insn.line, "floors", 32)
}

/// Asks the limits of an instruction behind others that count so much, and gives what they count with it.
fn check_insn(
    alloc: Global,
    kernel: &Kernel,
    insn: &Insn,
    plain: &Insn,
    before: u64,
) -> Result<u64, Fault>
    requires plain { plain.now ≡ expanded_insn kernel.now insn.now }
    requires before { before ≤ 64 }
    ensures refused { Refuses (insn_refusal kernel.now before insn.now) result }
    ensures count { IfOk result (λ count. count ≡ before + weight insn.now) }
    ensures within { IfOk result (λ count. count ≤ 64) }
    ensures forms { OnOk result (All IsForm (forms_of kernel.now insn.now)) }
{
    let own = repeated(alloc, insn)?;
    let count = check_counts(alloc, insn, &own, before)?;
    check_uses(alloc, kernel, insn, plain, &own)?;
    Ok(count)
}

/// Asks the limits of each instruction.
pub(crate) fn check_insns(alloc: Global, kernel: &Kernel, plain: &[Insn]) -> Result<(), Fault>
    requires { AreExpanded kernel.now plain.now }
    ensures refused { Refuses (insns_refusal kernel.now 0 kernel.now.insns) result }
    ensures forms { OnOk result (All (λ A. All IsForm (forms_of kernel.now A)) kernel.now.insns) }
{
    let insns = kernel.insns.as_slice();
    let mut count = 0;
    for at in 0..insns.len() {
        count = check_insn(alloc, kernel, &insns[at], &plain[at], count)?;
    }
    Ok(())
}
