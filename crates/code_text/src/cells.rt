//! The cells of a code in text order.
ghost use Rattle.std.specs.Prelude.{◌≡◌, ◌++◌, map, OnOk, IfOk};
ghost use Rattle.code_tree.specs.Cells.{cells_in, cells_of};
ghost use Rattle.code_text.specs.Cited.{values, cells_within};

use code_tree::{Block, Code, CodeCell, Stmt};
use std::alloc::{AllocError, Global};

/// Adds the cells of a block, and then those of the blocks in it.
#[cycle(cells)]
fn list_block<'a>(cells: &mut Vec<&'a CodeCell>, block: &'a Block) -> Result<(), AllocError>
    ensures { OnOk result (values cells.new.items ≡ values cells.old.items ++ cells_in block.now) }
{
    for cell in block.cells.as_slice() {
        cells.push(cell)?;
    }
    for child in block.children.as_slice() {
        list_stmt(cells, child)?;
    }
    Ok(())
}

/// Adds the cells of a statement.
#[cycle(cells)]
fn list_stmt<'a>(cells: &mut Vec<&'a CodeCell>, stmt: &'a Stmt) -> Result<(), AllocError>
    ensures { OnOk result (values cells.new.items ≡ values cells.old.items ++ cells_within stmt.now) }
{
    match stmt {
        Stmt::Loop { body, .. } | Stmt::When { body, .. } | Stmt::Check { body, .. } => list_block(
            cells, body,
        ),
        Stmt::Set { .. } | Stmt::Barrier => Ok(()),
    }
}

/// The cells of a code in text order, the local ones first.
pub fn list_cells<'a>(alloc: Global, code: &'a Code) -> Result<Vec<&'a CodeCell>, AllocError>
    ensures { IfOk result (λ cells. values cells.items ≡ cells_of code.now) }
{
    let mut cells = Vec::new(alloc);
    for cell in code.locals.as_slice() {
        cells.push(cell)?;
    }
    list_block(&mut cells, &code.body)?;
    Ok(cells)
}
