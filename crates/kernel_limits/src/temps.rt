//! The limits of a temporary.
ghost use Rattle.std.specs.Prelude.{◌≡◌, ◌≤◌, ◌*◌, min};
ghost use Rattle.kernel_ir.specs.Limits.{product};
ghost use Rattle.kernel_ir.specs.Refusals.{Refuses};
ghost use Rattle.kernel_limits.specs.Asked.{first_in, few_cells, temp_refusal};

use crate::ask::{ask, ask_count};
use kernel_ir::{Fault, Temp};
use std::alloc::Global;

/// A temporary that is not local has at most so many cells.
const MAX_CELLS: u64 = 4096;

/// One extent more, where a count of cells past the limit is one past it.
fn with_extent(extent: u32, cells: u64) -> u64
    requires { cells ≤ 4097 }
    ensures { result ≡ min (extent * cells) 4097 }
{
    (u64::from(extent) * cells).min(MAX_CELLS + 1)
}

/// How many cells there are, one past the limit standing for all that is more.
fn cell_count(shape: &[u32]) -> u64
    ensures { result ≡ min (product shape.now) 4097 }
{
    match shape.split_first() {
        None => 1,
        Some((extent, others)) => with_extent(*extent, cell_count(others)),
    }
}

fn few_cells(temp: &Temp) -> bool
    ensures { result ≡ few_cells temp.now }
{
    temp.local || cell_count(temp.shape.as_slice()) <= MAX_CELLS
}

fn check_temp(alloc: Global, temp: &Temp) -> Result<(), Fault>
    ensures { Refuses (temp_refusal temp.now) result }
{
    ask_count(alloc, temp.shape.len() as u64, 0, "places", 8)?;
    ask(alloc, few_cells(temp), 0, "cells", MAX_CELLS)
}

/// Asks the places and cells of each temporary.
pub(crate) fn check_temps(alloc: Global, temps: &[Temp]) -> Result<(), Fault>
    ensures { Refuses (first_in temp_refusal temps.now) result }
{
    for temp in temps {
        check_temp(alloc, temp)?;
    }
    Ok(())
}
