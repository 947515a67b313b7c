//! The limits of shapes, and the parameters of rules.
ghost use Rattle.std.specs.Prelude.{◌≡◌, [], ◌≤◌, ◌*◌, map, min, unwrap_or, IfOk};
ghost use Rattle.kernel_ir.specs.Limits.{product};
ghost use Rattle.kernel_names.specs.Lines.{cells_limit, entry_limit, entries_limit, places_limit, shape_limit, repeated_behind, repeated_own};

use crate::limit::Limit;
use crate::numbering::Numbering;
use affine_rows::Name;
use kernel_grammar::Item;
use std::alloc::{AllocError, Global};

/// A temporary has at most so many cells.
const MAX_CELLS: u64 = 4096;

/// A number in an index position is at most this.
const MAX_NUMBER: u64 = 1_048_576;

/// A product, or one more than the limit of cells where it is more than that.
fn capped_product(a: u64, b: u64) -> u64
    requires { a ≤ 4097 }
    ensures { result ≡ min (a * b) 4097 }
{
    (a as u128 * b as u128).min(MAX_CELLS as u128 + 1) as u64
}

/// A product with a number of a shape.
fn with_entry(cells: u64, entry: Option<u64>) -> u64
    requires { cells ≤ 4097 }
    ensures { result ≡ min (cells * unwrap_or entry 0) 4097 }
{
    capped_product(cells, entry.unwrap_or(0))
}

/// The product of a shape, or one more than the limit where it is more than that.
fn cells(shape: &[Option<u64>]) -> u64
    ensures { result ≡ min (product (map (λ entry. unwrap_or entry 0) shape.now)) 4097 }
{
    let mut cells: u64 = 1;
    'entries: for entry in shape {
        cells = with_entry(cells, *entry);
    }
    cells
}

fn cells_limit(shape: &[Option<u64>]) -> Option<Limit>
    ensures { result ≡ cells_limit shape.now }
{
    if cells(shape) > MAX_CELLS {
        Some(Limit::Cells)
    } else {
        None
    }
}

fn entry_limit(entry: Option<u64>) -> Option<Limit>
    ensures { result ≡ entry_limit entry }
{
    match entry {
        None => Some(Limit::Wide),
        Some(number) if number > MAX_NUMBER => Some(Limit::Number),
        Some(_) => None,
    }
}

/// The first limit that a number of a shape passes.
fn entries_limit(shape: &[Option<u64>]) -> Option<Limit>
    ensures { result ≡ entries_limit shape.now }
{
    'entries: for entry in shape {
        if let Some(limit) = entry_limit(*entry) {
            return Some(limit);
        }
    }
    None
}

fn places_limit(places: usize) -> Option<Limit>
    ensures { result ≡ places_limit places }
{
    if places > 8 {
        Some(Limit::Places)
    } else {
        None
    }
}

/// The limit that the shape of an array or a temporary passes.
pub(crate) fn shape_limit(line: &Item) -> Option<Limit>
    ensures { result ≡ shape_limit line.now }
{
    match line {
        Item::Array { shape, .. } => places_limit(shape.len()),
        Item::Temp { shape, .. } => {
            let entries = entries_limit(shape.as_slice()).or(cells_limit(shape.as_slice()));
            places_limit(shape.len()).or(entries)
        }
        _ => None,
    }
}

/// The first name that stood before.
fn repeated(alloc: Global, names: &[Name]) -> Result<Option<Name>, AllocError>
    ensures { IfOk result (λ n. n ≡ repeated_behind [] names.now) }
{
    let mut before = Numbering::new(alloc);
    'names: for name in names {
        if before.has(name) {
            return Ok(Some(name.copy(alloc)?));
        }
        before.insert(alloc, name)?;
    }
    Ok(None)
}

/// The first parameter of a rule's own that is repeated.
pub(crate) fn repeated_own(alloc: Global, line: &Item) -> Result<Option<Name>, AllocError>
    ensures { IfOk result (λ n. n ≡ repeated_own line.now) }
{
    match line {
        Item::Rule { params, .. } => repeated(alloc, params.as_slice()),
        _ => Ok(None),
    }
}
