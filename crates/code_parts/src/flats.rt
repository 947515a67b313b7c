//! Subscripts.
use crate::numbers::code_forms;
use crate::values::{Gathered, Spelling};
use crate::written::note_form;
use affine_rows::{Form, Listed, copy_forms};
use code_tree::Flat;
use expr_tree::Cell;
use kernel_ir::Kernel;
use std::alloc::{AllocError, Global};

/// Numbers as forms.
fn number_forms(alloc: Global, numbers: &[u32]) -> Result<Listed<Form>, AllocError> {
    let mut made = Listed::new(alloc);
    for number in numbers {
        made.push(Form::affine(alloc, i64::from(*number), Listed::new(alloc)))?;
    }
    Ok(made)
}

/// All but the first.
fn later<T>(list: &[T]) -> &[T] {
    match list.split_first() {
        None => list,
        Some((_, others)) => others,
    }
}

/// The extents of an array or temporary after the first.
fn later_extents(alloc: Global, kernel: &Kernel, cell: Cell) -> Result<Listed<Form>, AllocError> {
    match cell {
        Cell::Array(at) => match kernel.arrays.get(at as usize) {
            None => Ok(Listed::new(alloc)),
            Some(array) => copy_forms(alloc, later(array.shape.as_slice())),
        },
        Cell::Temp(at) => match kernel.temps.get(at as usize) {
            None => Ok(Listed::new(alloc)),
            Some(temp) => number_forms(alloc, later(temp.shape.as_slice())),
        },
    }
}

/// Notes the later places of a subscript, each behind its extent.
fn note_later(
    alloc: Global,
    kernel: &Kernel,
    extents: &[Form],
    places: &[Form],
    gathered: &mut Gathered,
) -> Result<(), AllocError> {
    for at in 0..places.len() {
        if let Some(extent) = extents.get(at) {
            note_form(alloc, kernel, extent.quasi(), gathered)?;
        }
        note_form(alloc, kernel, places[at].quasi(), gathered)?;
    }
    Ok(())
}

/// The only form of a list.
fn only(forms: Listed<Form>) -> Option<Form> {
    forms.into_vec().pop()
}

/// The subscript of a cell at these places, as it is written; none where there are none.
pub fn flat_of(
    alloc: Global,
    spelling: Spelling<'_>,
    cell: Cell,
    places: &[Form],
    gathered: &mut Gathered,
) -> Result<Option<Flat>, AllocError> {
    let kernel = spelling.kernel;
    let Some((first, others)) = places.split_first() else {
        return Ok(None);
    };
    let extents = later_extents(alloc, kernel, cell)?;
    note_form(alloc, kernel, first.quasi(), gathered)?;
    note_later(alloc, kernel, extents.as_slice(), others, gathered)?;
    let forms = code_forms(alloc, kernel, spelling.vars, places)?;
    if others.is_empty() {
        return Ok(match only(forms) {
            None => None,
            Some(form) => Some(Flat::Form(form)),
        });
    }
    let extents = code_forms(alloc, kernel, spelling.vars, extents.as_slice())?;
    Ok(Some(Flat::Horner(forms, extents)))
}
