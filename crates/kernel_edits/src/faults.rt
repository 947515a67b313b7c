//! Refusals of commands. Their site is the script, without a line.
ghost use Rattle.std.specs.Prelude.{◌≡◌, IfOk};
ghost use Rattle.std.specs.Result.{IfErr};
ghost use Rattle.kernel_ir.specs.declared.fault.Fault.TheVariants.{OutOfMemory, Rule};

use affine_rows::Name;
use expr_tree::{ExprFault, MAX_DEPTH};
use kernel_ir::{Fault, Refusal, Site};
use quasi_forms::FormFault;
use std::alloc::{AllocError, Global};

/// The most that the sum and the constant of a form may be.
const LARGEST_FORM: i128 = 1 << 62;

/// The refusal, or want of memory.
pub fn refused(refusal: Result<Refusal, AllocError>) -> Fault
    ensures rule { IfOk refusal (λ r. result ≡ Rule r) }
    ensures memory { IfErr refusal (λ _. result ≡ OutOfMemory) }
{
    match refusal {
        Ok(refusal) => Fault::Rule(refusal),
        Err(_) => Fault::OutOfMemory,
    }
}

/// Rule 3: a form of the new kernel passes its limit.
fn too_large(alloc: Global) -> Fault {
    refused(Refusal::limit(alloc, Site::Script, "form", LARGEST_FORM))
}

/// Rule 3: an expression of the new kernel is too deep.
fn too_deep(alloc: Global) -> Fault {
    let limit = MAX_DEPTH as i128;
    refused(Refusal::limit(alloc, Site::Script, "depth", limit))
}

/// Why a form of the new kernel could not be made: rule 3 where it passes its limit. An index form that is made of others is
/// always one.
pub fn form_fault(alloc: Global, fault: FormFault) -> Fault {
    match fault {
        FormFault::Limit => too_large(alloc),
        FormFault::OutOfMemory | FormFault::NotAffine => Fault::OutOfMemory,
    }
}

/// Why a tree of the new kernel could not be made: rule 3 where a form in it passes its limit or it is too deep.
pub fn expr_fault(alloc: Global, fault: ExprFault) -> Fault {
    match fault {
        ExprFault::Limit => too_large(alloc),
        ExprFault::Depth => too_deep(alloc),
        ExprFault::OutOfMemory => Fault::OutOfMemory,
    }
}

/// Rule 13 keeps a temporary, and an iname or `-`.
pub fn temp_cell(alloc: Global, temp: &Name, what: &str) -> Result<Refusal, AllocError> {
    Refusal::of_rule(alloc, Site::Script, 13)
        .with_name(alloc, temp)?
        .with_word(alloc, what)
}
