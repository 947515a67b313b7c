//! The order of loops.
use crate::asked::{ask_distinct, inames_of};
use affine_rows::Listed;
use kernel_ir::{Fault, Kernel};
use quasi_forms::is_among;
use script_reader::Command;
use std::alloc::{AllocError, Global};

/// The order in which the places of the named inames are filled with them as named.
fn reordered(alloc: Global, priority: &[u32], named: &[u32]) -> Result<Listed<u32>, AllocError> {
    let mut made = Listed::new(alloc);
    let mut left = named;
    for &iname in priority {
        if !is_among(named, iname) {
            made.push(iname)?;
        } else if let [next, rest @ ..] = left {
            made.push(*next)?;
            left = rest;
        }
    }
    Ok(made)
}

/// The kernel with the named inames in their order, in the places that they hold in the order of priority. It is refused by
/// rule 1 for a name of no iname, and by rule 2 for a repeated one.
pub fn prioritize_loops(
    alloc: Global,
    kernel: &Kernel,
    command: &Command,
) -> Result<Kernel, Fault> {
    let named = inames_of(alloc, kernel, command.names.as_slice())?;
    ask_distinct(alloc, command.names.as_slice())?;
    let priority = reordered(alloc, kernel.priority.as_slice(), named.as_slice())?;
    let copied = kernel.copy(alloc)?;
    Ok(Kernel { priority, ..copied })
}
