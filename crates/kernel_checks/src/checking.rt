//! Kernels that are checked.
ghost use Rattle.std.specs.Prelude.{◌≡◌, IfOk};
ghost use Rattle.std.specs.Result.{IfErr};
ghost use Rattle.kernel_ir.specs.declared.fault.Fault.TheVariants.{OutOfMemory};

use crate::bounded::check_inames;
use crate::conflicts::check_conflicts;
use crate::inside::check_access;
use affine_rows::Listed;
use kernel_ir::{Fault, Insn, Kernel};
use kernel_rules::{Access, Use, all_accesses};
use std::alloc::Global;
use subst_rules::expand;

/// A kernel that rules 14 to 17 do not refuse: each iname has bounds of both sides and lies between -2^31 and 2^31-1, each
/// subscript is within its extent, and of two accesses of one cell of which one stores, not both updates by one operator,
/// one is directly before the other.
#[derive(Drop)]
pub struct Sound {
    kernel: Kernel,
}

impl Sound {
    /// The kernel.
    pub fn kernel(&self) -> &Kernel
        ensures { result.now ≡ self.now.kernel }
    {
        &self.kernel
    }

    /// The kernel, as a value of its own.
    pub fn into_kernel(self) -> Kernel
        ensures { result ≡ self.kernel }
    {
        self.kernel
    }

    /// An equal value. The only error is want of memory.
    pub fn copy(&self, alloc: Global) -> Result<Sound, Fault>
        ensures copied { IfOk result (λ s. s ≡ self.now) }
        ensures err { IfErr result (λ fault. fault ≡ OutOfMemory) }
    {
        let kernel = self.kernel.copy(alloc)?;
        Ok(Sound { kernel })
    }
}

/// Rule 14 of the accesses of an instruction.
fn check_accesses(
    alloc: Global,
    plain: &Kernel,
    insn: &Insn,
    at: usize,
    accesses: &[Access],
) -> Result<(), Fault> {
    for access in accesses {
        check_access(alloc, plain, Use { insn, access, at })?;
    }
    Ok(())
}

/// Of each instruction rules 17 and 16 of its inames, and then rule 14 of its accesses.
fn check_insns(alloc: Global, plain: &Kernel, accesses: &[Listed<Access>]) -> Result<(), Fault> {
    let insns = plain.insns.as_slice();
    for at in 0..insns.len().min(accesses.len()) {
        check_inames(alloc, plain, &insns[at])?;
        check_accesses(alloc, plain, &insns[at], at, accesses[at].as_slice())?;
    }
    Ok(())
}

/// Rules 14 to 19 of a kernel that uses no rules.
fn check_plain(alloc: Global, plain: &Kernel) -> Result<(), Fault> {
    let accesses = all_accesses(alloc, plain)?;
    check_insns(alloc, plain, &accesses)?;
    check_conflicts(alloc, plain, &accesses)
}

/// The kernel as one that is checked. It is refused by the first that holds of these: for each instruction in order, of each of
/// its inames and then those of its reductions rules 17 and 16, and then rule 14 of each access, place by place; and when
/// all instructions are through, rule 15 of each pair of accesses. Rules 18 and 19 come where a query passes a limit, and
/// rules 3, 7 and 8 where the kernel is not valid, so that its uses of rules cannot be replaced.
pub fn check(alloc: Global, kernel: Kernel) -> Result<Sound, Fault>
    ensures { IfOk result (λ s. s.kernel ≡ kernel) }
{
    let plain = expand(alloc, &kernel)?;
    check_plain(alloc, &plain)?;
    Ok(Sound { kernel })
}
