//! From kernels and scripts to code.
ghost use Rattle.std.specs.Prelude.{◌≡◌, [], IfOk, IfErr};
ghost use Rattle.code_text.specs.Text.{text_of};
ghost use Rattle.loopw_core.specs.Written.{IsCodeText, IsKnown, IsRefusalOf, IsRightWhereKnown, MayRefuseFor};

use crate::fault::{JobFault, placed};
use crate::scripts::kernel_after;
use barriers::place_with;
use code_text::{write_c, write_opencl};
use code_tree::{Code, Facts, Nest, Target};
use first_form::{FormFault, code_of, read_form};
use first_right::laws::code_is_right;
use kernel_checks::{Sound, check};
use kernel_ir::{Fault, Kernel, Site};
use linearizer::{facts, linearize};
use nest_tree::nest;
use race_check::check_code_with;
use reductions::realize_all;
use std::alloc::{AllocError, Global};
use subst_rules::expand;

/// The code of a kernel of the one form of five lines.
fn code_of_form(alloc: Global, kernel: &[u8]) -> Result<Option<Code>, AllocError>
    ensures { IfOk result (λ found. IsKnown Target.C kernel.now [] found) }
{
    match read_form(alloc, kernel) {
        Ok(form) => {
            code_is_right();
            let code = code_of(alloc, &form)?;
            Ok(Some(code))
        }
        Err(FormFault::OutOfMemory) => Err(AllocError),
        Err(FormFault::NotBuilt { .. }) => Ok(None),
    }
}

/// The code that is known to be right, where there is one.
fn known_code(
    alloc: Global,
    target: Target,
    kernel: &[u8],
    script: &[u8],
) -> Result<Option<Code>, AllocError>
    ensures { IfOk result (λ found. IsKnown target kernel.now script.now found) }
{
    match (target, script) {
        (Target::C, []) => code_of_form(alloc, kernel),
        _ => Ok(None),
    }
}

/// The text of a code.
fn text_of(alloc: Global, code: &Code) -> Result<Vec<u8>, AllocError>
    ensures { IfOk result (λ text. text.items ≡ text_of code.now) }
{
    match code.target {
        Target::C => write_c(alloc, code),
        Target::OpenCl => write_opencl(alloc, code),
    }
}

/// The kernel without uses of rules and reductions, which is checked anew.
fn plain_kernel(alloc: Global, kernel: &Kernel) -> Result<Sound, Fault> {
    let expanded = expand(alloc, kernel)?;
    let realized = realize_all(alloc, &expanded)?;
    check(alloc, realized)
}

/// The code with its barriers, and without a race.
fn guarded(alloc: Global, code: Code, facts: &Facts) -> Result<Code, Fault>
    ensures { IfOk result (λ made. made.target ≡ code.target) }
{
    let placed = place_with(alloc, code, facts)?;
    let checked = check_code_with(alloc, placed, facts)?;
    Ok(checked.into_code())
}

/// The code of a kernel for OpenCL, with its barriers, and without a race.
fn shared_code(alloc: Global, kernel: &Kernel, nest: &[Nest]) -> Result<Code, Fault>
    ensures { IfOk result (λ code. code.target ≡ Target.OpenCl) }
{
    let facts = facts(alloc, kernel, nest)?;
    let code = linearize(alloc, kernel, nest, Target::OpenCl)?;
    guarded(alloc, code, &facts)
}

/// The code of a kernel for a target; for OpenCL with its barriers, and without a race.
fn code_for(alloc: Global, target: Target, kernel: &Kernel) -> Result<Code, Fault>
    ensures { IfOk result (λ code. code.target ≡ target) }
{
    let plain = plain_kernel(alloc, kernel)?;
    let nest = nest(alloc, plain.kernel())?;
    match target {
        Target::C => linearize(alloc, plain.kernel(), nest.as_slice(), Target::C),
        Target::OpenCl => shared_code(alloc, plain.kernel(), nest.as_slice()),
    }
}

/// The word of a target.
fn word_of(target: Target) -> &'static str {
    match target {
        Target::C => "c",
        Target::OpenCl => "opencl",
    }
}

/// The code of a kernel after a script for a target.
fn linear_code(
    alloc: Global,
    target: Target,
    kernel: &[u8],
    script: &[u8],
) -> Result<Code, JobFault>
    ensures { IfOk result (λ code. code.target ≡ target) }
{
    let last = kernel_after(alloc, kernel, script)?;
    match code_for(alloc, target, last.kernel()) {
        Ok(code) => Ok(code),
        Err(fault) => Err(placed(alloc, fault, Site::Target, 0, word_of(target))),
    }
}

/// The code of a kernel after a script for a target.
pub fn write_job(
    alloc: Global,
    target: Target,
    kernel: &[u8],
    script: &[u8],
) -> Result<Code, JobFault>
    ensures target { IfOk result (λ code. code.target ≡ target) }
    ensures right { IfOk result (λ code. IsRightWhereKnown target code kernel.now script.now) }
    ensures refused { IfErr result (IsRefusalOf (MayRefuseFor target kernel.now script.now)) }
{
    match known_code(alloc, target, kernel, script)? {
        Some(code) => Ok(code),
        None => linear_code(alloc, target, kernel, script),
    }
}

/// The text of that code.
pub(crate) fn write_text(
    alloc: Global,
    target: Target,
    kernel: &[u8],
    script: &[u8],
) -> Result<Vec<u8>, JobFault>
    ensures text { IfOk result (λ text. IsCodeText target kernel.now script.now text.items) }
    ensures refused { IfErr result (IsRefusalOf (MayRefuseFor target kernel.now script.now)) }
{
    let code = write_job(alloc, target, kernel, script)?;
    let text = text_of(alloc, &code)?;
    Ok(text)
}
