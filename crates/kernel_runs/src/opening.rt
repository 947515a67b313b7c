//! What an evaluation begins with.
use crate::numbers::Numbers;
use crate::world::{Held, World, ZERO};
use affine_rows::Names;
use kernel_ir::{Array, Kernel, Temp};
use ref_runs::{ArgLine, line_of};
use run_words::Args;
use std::alloc::{AllocError, Global};
use wrap_words::{Kind, of_number};

/// How many cells a temporary has, or the last number where there are more.
fn cells_of(temp: &Temp) -> u64 {
    let mut cells: u64 = 1;
    for entry in temp.shape.as_slice() {
        cells = cells.saturating_mul(u64::from(*entry));
    }
    cells
}

/// How many words an evaluation has: those of the arrays, the cells of each temporary once, the inames, and one more.
/// `lines` are the names of the arguments' lines.
pub fn words_of(kernel: &Kernel, args: &Args, lines: &Names) -> u64 {
    let mut words = (kernel.inames.len() as u64).saturating_add(1);
    for array in kernel.arrays.as_slice() {
        words = words.saturating_add(line_of(args, lines, &array.name).count() as u64);
    }
    for temp in kernel.temps.as_slice() {
        words = words.saturating_add(cells_of(temp));
    }
    words
}

/// An array with the words of its line.
fn array_of(
    alloc: Global,
    array: &Array,
    numbers: &Numbers,
    line: ArgLine<'_>,
) -> Result<Held, AllocError> {
    let mut extents = Vec::new(alloc);
    for entry in array.shape.as_slice() {
        extents.push(entry.value(numbers))?;
    }
    let mut held = Held::new(alloc, array.kind, extents);
    held.reserve(line.count())?;
    for at in 0..line.count() {
        held.push(of_number(array.kind, line.at(at)))?;
    }
    Ok(held)
}

/// A temporary of which each word is 0.
fn temp_of(alloc: Global, temp: &Temp) -> Result<Held, AllocError> {
    let mut extents = Vec::new(alloc);
    for entry in temp.shape.as_slice() {
        extents.push(i128::from(*entry))?;
    }
    let mut held = Held::new(alloc, temp.kind.unwrap_or(Kind::I32), extents);
    for _ in 0..cells_of(temp) {
        held.push(ZERO)?;
    }
    Ok(held)
}

fn push(all: &mut Vec<Held>, held: Held) -> Result<(), AllocError> {
    all.push(held)?;
    Ok(())
}

/// The arrays with the words of their lines. `lines` are the names of the arguments' lines.
fn arrays_of(
    alloc: Global,
    kernel: &Kernel,
    args: &Args,
    lines: &Names,
    numbers: &Numbers,
) -> Result<Vec<Held>, AllocError> {
    let mut arrays = Vec::new(alloc);
    for array in kernel.arrays.as_slice() {
        let line = line_of(args, lines, &array.name);
        push(&mut arrays, array_of(alloc, array, numbers, line)?)?;
    }
    Ok(arrays)
}

/// Temporaries of which each word is 0.
fn temps_of(alloc: Global, kernel: &Kernel) -> Result<Vec<Held>, AllocError> {
    let mut temps = Vec::new(alloc);
    for temp in kernel.temps.as_slice() {
        push(&mut temps, temp_of(alloc, temp)?)?;
    }
    Ok(temps)
}

/// The opening: the arguments' words, and temporaries of 0. `lines` are the names of the arguments' lines.
pub fn opening(
    alloc: Global,
    kernel: &Kernel,
    args: &Args,
    lines: &Names,
    numbers: Numbers,
) -> Result<World, AllocError> {
    let arrays = arrays_of(alloc, kernel, args, lines, &numbers)?;
    let temps = temps_of(alloc, kernel)?;
    Ok(World {
        numbers,
        arrays,
        temps,
    })
}
