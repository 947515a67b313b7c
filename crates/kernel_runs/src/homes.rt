//! Which temporaries begin anew in a turn of a loop.
use expr_tree::Cell;
use kernel_ir::Kernel;
use kernel_rules::{all_accesses, home_inames};
use std::alloc::{AllocError, Global};

/// So many empty lists.
fn empty_lists(alloc: Global, count: usize) -> Result<Vec<Vec<u32>>, AllocError> {
    let mut lists = Vec::new(alloc);
    for _ in 0..count {
        lists.push(Vec::new(alloc))?;
    }
    Ok(lists)
}

/// Adds a temporary to the lists of its home inames.
fn add_temp(lists: &mut Vec<Vec<u32>>, homes: &[u32], temp: u32) -> Result<(), AllocError> {
    for iname in homes {
        let at = *iname as usize;
        if at < lists.len() {
            lists[at].push(temp)?;
        }
    }
    Ok(())
}

/// For each variable the temporaries of which it is a home iname. The kernel uses no rules.
pub fn homed_temps(alloc: Global, kernel: &Kernel) -> Result<Vec<Vec<u32>>, AllocError> {
    let accesses = all_accesses(alloc, kernel)?;
    let mut lists = empty_lists(alloc, kernel.names.len())?;
    for at in 0..kernel.temps.len() {
        let temp = at.min(u32::MAX as usize) as u32;
        let homes = home_inames(alloc, kernel, &accesses, Cell::Temp(temp))?;
        add_temp(&mut lists, &homes, temp)?;
    }
    Ok(lists)
}
