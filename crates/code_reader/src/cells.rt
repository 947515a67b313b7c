//! Private and local cells.
use affine_rows::Listed;
use code_grammar::{Reader, Stop, small_number_up_to, take_type};
use code_tree::CodeCell;

/// A length in brackets, if one stands here.
fn takes_length(reader: &mut Reader) -> Result<Option<u32>, Stop> {
    if !reader.takes("[") {
        return Ok(None);
    }
    let length = small_number_up_to(reader, u32::MAX)?;
    reader.take("]")?;
    Ok(Some(length))
}

/// The type and the name of a new cell, with its length.
fn read_declared(reader: &mut Reader) -> Result<CodeCell, Stop> {
    let kind = take_type(reader)?;
    reader.take(" ")?;
    let name = reader.take_new()?;
    let length = takes_length(reader)?;
    Ok(CodeCell { name, kind, length })
}

/// A private cell, up to the end of its line.
pub fn read_private(reader: &mut Reader) -> Result<CodeCell, Stop> {
    let cell = read_declared(reader)?;
    let unset = match cell.length {
        Some(_) => " = {0};\n",
        None => " = 0;\n",
    };
    reader.take(unset)?;
    reader.declare_cell(&cell)?;
    Ok(cell)
}

/// The local cells before a body. Each turn takes a byte.
pub fn read_locals(reader: &mut Reader) -> Result<Listed<CodeCell>, Stop> {
    let mut locals = Listed::new(reader.alloc);
    for _ in 0..reader.rest.len() {
        if !reader.takes("  __local ") {
            break;
        }
        let cell = read_declared(reader)?;
        reader.take(";\n")?;
        reader.declare_cell(&cell)?;
        locals.push(cell)?;
    }
    Ok(locals)
}
