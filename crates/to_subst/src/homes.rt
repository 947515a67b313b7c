//! Rule 13: the temporaries that the value reads.
use crate::scatter::Scatter;
use crate::store::Store;
use command_parts::{Homes, homes_of};
use expr_tree::Cell;
use kernel_edits::{name_of, number_at, refused, temp_cell};
use kernel_ir::{Fault, Iname, Kernel, Temp};
use quasi_forms::is_among;
use std::alloc::Global;

/// Whether an iname is a home iname that is a subscript, or is a home iname before or afterwards alone.
fn is_at_fault(before: &[u32], after: &[u32], subscripts: &[u32], var: u32) -> bool {
    let was = is_among(before, var);
    was != is_among(after, var) || (was && is_among(subscripts, var))
}

/// Rule 13 of one temporary, with its home inames before and afterwards.
fn check_temp(
    alloc: Global,
    kernel: &Kernel,
    temp: &Temp,
    before: &[u32],
    after: &[u32],
    subscripts: &[u32],
) -> Result<(), Fault> {
    let at_fault = |iname: &&Iname| is_at_fault(before, after, subscripts, iname.var);
    match kernel.inames.as_slice().iter().find(at_fault) {
        None => Ok(()),
        Some(iname) => Err(refused(temp_cell(alloc, &temp.name, name_of(kernel, iname.var)))),
    }
}

/// The home inames afterwards of a temporary by its place before.
fn after(homes: &Homes, at: usize, gone: usize) -> &[u32] {
    if at > gone {
        homes.of(at - 1)
    } else {
        homes.of(at)
    }
}

/// Rule 13 refuses the first temporary that the writer's value reads of which a home iname is among the subscripts, or which has
/// other home inames in the new kernel. The first iname at fault in declared order is kept.
pub(crate) fn check_homes(
    alloc: Global,
    store: &Store<'_>,
    scatter: &Scatter,
    made: &Kernel,
) -> Result<(), Fault> {
    let kernel = store.kernel;
    let old = homes_of(alloc, kernel)?;
    let new = homes_of(alloc, made)?;
    let temps = kernel.temps.as_slice();
    let subscripts = scatter.subscripts.as_slice();
    for at in 0..temps.len() {
        if store.reads.has(Cell::Temp(number_at(alloc, at)?)) {
            let then = after(&new, at, store.temp as usize);
            check_temp(alloc, kernel, &temps[at], old.of(at), then, subscripts)?;
        }
    }
    Ok(())
}
