//! Subscripts and arguments.
ghost use Rattle.std.specs.Prelude.{◌≡◌, Some, IfOk, if◌then◌else◌};
ghost use Rattle.std.specs.List.{list_all};
ghost use Rattle.untyped.specs.Readings.{is_index, forms_in, faults_behind, no_faults, place_faults, place_reading, use_reading};

use crate::faults::Faults;
use crate::reading::{Part, Reading, read_reading, refused_reading};
use crate::scope::Role;
use crate::tree::{Term, Untyped};
use affine_rows::{Form, Listed, Name};
use std::alloc::{AllocError, Global};

/// The index forms among operands.
fn forms_in(alloc: Global, operands: &[Reading]) -> Result<Listed<Form>, AllocError>
    ensures { IfOk result (λ forms. forms ≡ forms_in operands.now) }
{
    let mut forms = Listed::new(alloc);
    for operand in operands {
        if let Part::Index(form, _) = &operand.part {
            forms.push(form.copy(alloc)?)?;
        }
    }
    Ok(forms)
}

/// The faults of operands.
fn faults_in(alloc: Global, operands: &[Reading]) -> Result<Faults, AllocError>
    ensures { IfOk result (λ f. f ≡ faults_behind no_faults operands.now) }
{
    let mut faults = Faults::none();
    for operand in operands {
        faults = faults.and(operand.faults.copy(alloc)?);
    }
    Ok(faults)
}

fn are_indexes(operands: &[Reading]) -> bool
    ensures { result ≡ list_all (λ r. is_index r.part) operands.now }
{
    operands.iter().all(|operand| operand.part.is_index())
}

/// The name of which an operand is no index expression: this one, unless they all are.
fn first_shape(
    alloc: Global,
    fine: bool,
    name: &Name,
    behind: Option<Name>,
) -> Result<Option<Name>, AllocError>
    ensures { IfOk result (λ o. o ≡ (if fine then behind else Some name.now)) }
{
    if fine {
        Ok(behind)
    } else {
        Ok(Some(name.copy(alloc)?))
    }
}

/// The faults of operands of a name that have to be index expressions.
fn place_faults(alloc: Global, name: &Name, operands: &[Reading]) -> Result<Faults, AllocError>
    ensures { IfOk result (λ f. f ≡ place_faults name.now operands.now) }
{
    let faults = faults_in(alloc, operands)?;
    let shape = first_shape(alloc, are_indexes(operands), name, faults.shape)?;
    Ok(Faults {
        wide: faults.wide,
        large: faults.large,
        number: faults.number || faults.large,
        depth: faults.depth,
        form: faults.form,
        unknown: faults.unknown,
        shape,
    })
}

/// A name at subscripts.
pub(crate) fn place_reading(
    alloc: Global,
    role: Role,
    name: &Name,
    count: u32,
    operands: &[Reading],
) -> Result<Reading, AllocError>
    ensures { IfOk result (λ r. r ≡ place_reading role name.now count operands.now) }
{
    let faults = place_faults(alloc, name, operands)?;
    match role {
        Role::Cell { cell, places } => {
            let forms = forms_in(alloc, operands)?;
            read_reading(alloc, name, cell, places == count, forms, faults)
        }
        _ => Ok(refused_reading(alloc, faults.behind_unknown(alloc, name)?)),
    }
}

/// A name at arguments.
pub(crate) fn use_reading(
    alloc: Global,
    role: Role,
    name: &Name,
    operands: &[Reading],
) -> Result<Reading, AllocError>
    ensures { IfOk result (λ r. r ≡ use_reading role name.now operands.now) }
{
    let faults = place_faults(alloc, name, operands)?;
    match role {
        Role::Rule(rule) => {
            let forms = forms_in(alloc, operands)?;
            Ok(Reading {
                part: Part::Tree(Untyped::of_term(alloc, Term::Use(rule, forms))?),
                depth: 1,
                faults,
            })
        }
        _ => Ok(refused_reading(alloc, faults.behind_unknown(alloc, name)?)),
    }
}
