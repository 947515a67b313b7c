//! The order of the axes in which two items are to differ.
use crate::frame::{AXES, Frame, GROUP_AXES};
use crate::questions::Apart;
use affine_rows::Form;
use kernel_rules::{key_of, slot};
use std::alloc::{AllocError, Global};

/// Whether items that are so apart may differ on the axis.
fn may_differ(frame: &Frame<'_>, apart: Apart, axis: u32) -> bool {
    match apart {
        Apart::Groups => axis < GROUP_AXES && !frame.is_alone(axis),
        Apart::Items => axis >= GROUP_AXES,
    }
}

/// The axes on which items that are so apart may differ, by the first of these subscripts that mentions them, within a
/// subscript by descending coefficient, and else by their numbers. Those that none mentions stand last.
pub(crate) fn differing_axes(
    alloc: Global,
    frame: &Frame<'_>,
    apart: Apart,
    place: &[Form],
) -> Result<Vec<u32>, AllocError> {
    let mut sorted = Vec::new(alloc);
    for axis in 0..AXES {
        if may_differ(frame, apart, axis) {
            let key = key_of(place, frame.axis(axis));
            let at = slot(&sorted, &key);
            sorted.insert(at, key)?;
        }
    }
    let mut axes = Vec::new(alloc);
    for key in &sorted {
        axes.push(frame.axis_of(key.var))?;
    }
    Ok(axes)
}
