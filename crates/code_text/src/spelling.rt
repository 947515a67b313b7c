//! What a writer asks of a code.
ghost use Rattle.std.specs.Prelude.{◌≡◌, ◌++◌, OnOk, slice_get};
ghost use Rattle.std.specs.Option.{option_copied};
ghost use Rattle.code_tree.specs.Cells.{cells_of, kind_in};
ghost use Rattle.code_text.specs.Cited.{values};
ghost use Rattle.code_text.specs.Names.{name_text};
ghost use Rattle.code_text.specs.ValueText.{store_text, subscript_text, place_text};

use crate::bounds::write_flat;
use affine_rows::Form;
use code_tree::{Code, CodeCell, Flat};
use expr_tree::Cell;
use std::alloc::AllocError;
use text_writer::put;
use wrap_words::Kind;

/// A code with its cells in text order.
#[derive(Clone, Copy)]
pub struct Spelling<'a> {
    pub code: &'a Code,
    pub cells: &'a [&'a CodeCell],
    ghost listed: { values cells.now ≡ cells_of code.now },
}

/// The cell with a number, in text order.
fn cell_at<'a>(spelling: &Spelling<'a>, number: u32) -> Option<&'a CodeCell>
    ensures { option_copied result ≡ slice_get (cells_of spelling.now.code.now) number }
{
    match spelling.cells.get(number as usize) {
        Some(cell) => Some(cell),
        None => None,
    }
}

/// Adds the name of an array or a cell.
pub fn write_store(out: &mut Vec<u8>, spelling: &Spelling, cell: Cell) -> Result<(), AllocError>
    ensures { OnOk result (out.new.items ≡ out.old.items ++ store_text spelling.now.code.now cell) }
{
    match cell {
        Cell::Array(number) => match spelling.code.arrays.get(number as usize) {
            Some(array) => {
                put(out, "v_")?;
                put(out, array.name.as_str())
            }
            None => Ok(()),
        },
        Cell::Temp(number) => match cell_at(spelling, number) {
            Some(cell) => {
                put(out, "v_")?;
                put(out, cell.name.as_str())
            }
            None => Ok(()),
        },
    }
}

/// The kind of an array or a cell.
pub fn store_kind(spelling: &Spelling, cell: Cell) -> Kind
    ensures { result ≡ kind_in spelling.now.code.now cell }
{
    match cell {
        Cell::Array(number) => match spelling.code.arrays.get(number as usize) {
            Some(array) => array.kind,
            None => Kind::I32,
        },
        Cell::Temp(number) => match cell_at(spelling, number) {
            Some(cell) => cell.kind,
            None => Kind::I32,
        },
    }
}

/// Adds a subscript, where there is one.
pub fn write_subscript(
    out: &mut Vec<u8>,
    code: &Code,
    flat: Option<&Flat>,
) -> Result<(), AllocError>
    ensures { OnOk result (out.new.items ≡ out.old.items ++ subscript_text (name_text code.now) (option_copied flat.entry)) }
{
    match flat {
        None => Ok(()),
        Some(flat) => {
            put(out, "[")?;
            write_flat(out, code, flat)?;
            put(out, "]")
        }
    }
}

/// Adds the subscript of a read.
pub fn write_place(out: &mut Vec<u8>, code: &Code, place: &[Form]) -> Result<(), AllocError>
    ensures { OnOk result (out.new.items ≡ out.old.items ++ place_text code.now place.now) }
{
    match place.first() {
        None => Ok(()),
        Some(number) => {
            let entry = number.quasi().constant.unsigned_abs();
            write_subscript(out, code, code.flats.get(entry as usize))
        }
    }
}
