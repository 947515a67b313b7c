//! Faults of queries as refusals.
ghost use Rattle.std.specs.Prelude.{◌≡◌, ◌∷◌, [], pos, Some, IfOk};
ghost use Rattle.kernel_ir.specs.declared.fault.Site.TheVariants.{Kernel as kernel_site};
ghost use Rattle.kernel_ir.specs.Refusals.{IsFault, refusal};
ghost use Rattle.kernel_rules.specs.Rows.{form_refusal};

use crate::telling::told;
use elimination::SetFault;
use kernel_ir::{Fault, Refusal, Site};
use quasi_forms::FormFault;
use std::alloc::{AllocError, Global};

/// Rule 18: a row of a stage is too wide.
fn too_wide(alloc: Global, stage: u32, row: u32) -> Result<Refusal, AllocError>
    ensures { IfOk result (λ r. r ≡ refusal kernel_site 18 [] (pos stage ∷ pos row ∷ [])) }
{
    Refusal::of_rule(alloc, Site::Kernel, 18)
        .with_number(i128::from(stage))?
        .with_number(i128::from(row))
}

/// Rule 19: a stage has too many rows.
fn too_many_rows(alloc: Global, stage: u32) -> Result<Refusal, AllocError>
    ensures { IfOk result (λ r. r ≡ refusal kernel_site 19 [] (pos stage ∷ [])) }
{
    Refusal::of_rule(alloc, Site::Kernel, 19).with_number(i128::from(stage))
}

/// Rows that are no system, as a refusal: rule 18 with stage 0 and row 0.
pub fn form_fault(alloc: Global, fault: FormFault) -> Fault
    ensures { IsFault (form_refusal fault) result }
{
    match fault {
        FormFault::Limit => match too_wide(alloc, 0, 0) {
            Ok(refusal) => Fault::Rule(refusal),
            Err(_) => Fault::OutOfMemory,
        },
        FormFault::OutOfMemory | FormFault::NotAffine => Fault::OutOfMemory,
    }
}

/// A query that is refused, as a refusal: rule 18 with its stage and row, or rule 19 with its stage.
pub fn set_fault(alloc: Global, fault: SetFault) -> Fault {
    match fault {
        SetFault::OutOfMemory => Fault::OutOfMemory,
        SetFault::TooWide { stage, row } => told(too_wide(alloc, stage, row)),
        SetFault::TooManyRows { stage } => told(too_many_rows(alloc, stage)),
    }
}
