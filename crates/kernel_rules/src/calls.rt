//! Accesses, systems and pairs of kernels that may use rules.
ghost use Rattle.std.specs.Prelude.{◌≡◌, ◌<◌, length, slice_get, Some, IfOk};
ghost use Rattle.kernel_ir.specs.declared.kernel.Insn.{Insn};
ghost use Rattle.elimination.specs.Stages.{IsSystem};
ghost use Rattle.kernel_rules.specs.Accesses.{accesses_of};
ghost use Rattle.kernel_rules.specs.Rows.{system_of_insn};

use crate::access::{Access, all_accesses, plain_accesses};
use crate::one::{built, rows_of_insn};
use crate::pairs::{Use, pair_of};
use affine_rows::{Listed, System};
use kernel_ir::{Fault, Kernel};
use set_query::Pair;
use std::alloc::Global;
use subst_rules::expand;

/// An access of an instruction: the place of the instruction in the kernel, and of the access among its accesses.
#[derive(Clone, Copy)]
pub struct At {
    pub insn: u32,
    pub access: u32,
}

/// The accesses of an instruction: its store, then its reads as they stand in predicate and value with each use of a rule
/// replaced by the rule's body, equal ones once. The kernel is valid, so that its expansion refuses nothing.
pub fn accesses(alloc: Global, kernel: &Kernel, insn: u32) -> Result<Listed<Access>, Fault>
    requires { insn < length kernel.now.insns }
    ensures { IfOk result (λ found. (A : Insn) → slice_get kernel.now.insns insn ≡ Some A → found ≡ accesses_of kernel.now A) }
{
    let plain = expand(alloc, kernel)?;
    match plain.insns.get(insn as usize) {
        None => Ok(Listed::new(alloc)),
        Some(insn) => Ok(plain_accesses(alloc, insn)?),
    }
}

/// The rows of an instruction, of its reductions over `folds`, and where it is asked for the context, over the parameters,
/// the inames of both in declared order, and floors. Rule 18 refuses, with stage 0 and row 0, where they are no system
/// within the limits.
pub fn system_of(
    alloc: Global,
    kernel: &Kernel,
    insn: u32,
    folds: &[u32],
    context: bool,
) -> Result<System, Fault>
    requires { insn < length kernel.now.insns }
    ensures system { IfOk result (λ made. (A : Insn) → slice_get kernel.now.insns insn ≡ Some A → made ≡ system_of_insn kernel.now A folds.now context) }
    ensures queried { IfOk result IsSystem }
{
    let own = &kernel.insns.as_slice()[insn as usize];
    let asked = rows_of_insn(alloc, kernel, own, folds, context)?;
    built(alloc, &asked)
}

/// The access at a place, of a kernel that uses no rules, whose instructions have these accesses.
fn use_at<'a>(plain: &'a Kernel, accesses: &'a [Listed<Access>], at: At) -> Option<Use<'a>> {
    let insn = plain.insns.get(at.insn as usize)?;
    let access = accesses.get(at.insn as usize)?.get(at.access as usize)?;
    Some(Use {
        insn,
        access,
        at: at.insn as usize,
    })
}

/// The pairs whose cases, taken one after the other, are those in which instances of the two accesses, which are of one array
/// or temporary, touch one cell while neither is directly before the other, or, with `one_way`, while the first is not
/// directly before the second. There is one, and none where the kernel has no such access. Rule 18 refuses, with stage 0 and
/// row 0, where the rows are no system within the limits. The kernel is valid, so that its expansion refuses nothing.
pub fn unordered(
    alloc: Global,
    kernel: &Kernel,
    first: At,
    second: At,
    one_way: bool,
) -> Result<Listed<Pair>, Fault> {
    let plain = expand(alloc, kernel)?;
    let accesses = all_accesses(alloc, &plain)?;
    match (
        use_at(&plain, &accesses, first),
        use_at(&plain, &accesses, second),
    ) {
        (Some(first), Some(second)) => {
            let pair = pair_of(alloc, &plain, &accesses, first, second, one_way)?;
            Ok(Listed::of_one(alloc, pair)?)
        }
        _ => Ok(Listed::new(alloc)),
    }
}
