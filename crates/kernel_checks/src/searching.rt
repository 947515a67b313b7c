//! Rows of which a point would refuse.
use affine_rows::{Form, Point};
use elimination::{Found, find_point};
use kernel_ir::Fault;
use kernel_rules::{Asked, built, set_fault};
use quasi_forms::Difference;
use std::alloc::{AllocError, Global};

/// The form is at least the other one.
pub(crate) fn at_least(form: Form, less: Form) -> Difference {
    Difference {
        form,
        less,
        equal: false,
    }
}

fn add_row(asked: &mut Asked, row: Difference) -> Result<(), AllocError> {
    asked.rows.push(row)?;
    Ok(())
}

/// A point of the rows and a further one, if they have one.
pub(crate) fn point_with(
    alloc: Global,
    asked: &mut Asked,
    row: Difference,
) -> Result<Option<Point>, Fault> {
    add_row(asked, row)?;
    let system = built(alloc, asked)?;
    match find_point(alloc, &system) {
        Ok(Found::Empty) => Ok(None),
        Ok(Found::Point(point)) => Ok(Some(point)),
        Err(fault) => Err(set_fault(alloc, fault)),
    }
}
