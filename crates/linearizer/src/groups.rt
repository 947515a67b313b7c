//! The bounds of group axes.
use affine_rows::{Form, Listed};
use code_parts::{Gathered, Side, Spelling, bound_entries, bound_over, note_bound};
use code_tree::Bound;
use kernel_ir::{Fault, Tag};
use loop_bounds::{There, axis_var, group_rows};
use std::alloc::Global;

fn zero_bound(alloc: Global) -> Bound {
    Bound::Form(Form::affine(alloc, 0, Listed::new(alloc)))
}

/// Whether the bound is a number below 0.
fn is_below(bound: &Bound) -> bool {
    match bound {
        Bound::Form(form) => {
            let quasi = form.quasi();
            quasi.terms.is_empty() && quasi.floors.is_empty() && quasi.constant < 0
        }
        _ => false,
    }
}

/// The bound of a group axis, by its place among the axes: 0 where it is a number below 0, and where the axis is not in use.
pub(crate) fn group_bound(
    alloc: Global,
    spelling: Spelling<'_>,
    there: &There,
    axis: u8,
    gathered: &mut Gathered,
) -> Result<Bound, Fault> {
    let kernel = spelling.kernel;
    let rows = group_rows(alloc, kernel, there, Tag::Group(axis))?;
    if rows.is_empty() {
        return Ok(zero_bound(alloc));
    }
    let entries = bound_entries(alloc, Side::Upper, rows.as_slice())?;
    note_bound(alloc, kernel, entries.as_slice(), gathered)?;
    let bound = bound_over(
        alloc,
        kernel,
        spelling.vars,
        Side::Upper,
        entries.as_slice(),
        axis_var(axis),
    )?;
    Ok(if is_below(&bound) {
        zero_bound(alloc)
    } else {
        bound
    })
}
