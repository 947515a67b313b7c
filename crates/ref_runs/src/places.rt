//! Where statements and cells stand in the text of a code.
use affine_rows::Name;
use code_tree::{Block, Code, CodeCell, Stmt, Target};
use std::alloc::{AllocError, Global};

/// The line behind so many others.
fn behind(line: u32, lines: usize) -> u32 {
    line.saturating_add(lines.min(u32::MAX as usize) as u32)
}

/// Adds the lines of a statement that begins at a line, and of those inside it, in text order. Tells the line behind it.
#[cycle(lines)]
fn add_stmt(stmt: &Stmt, line: u32, lines: &mut Vec<u32>) -> Result<u32, AllocError> {
    lines.push(line)?;
    match stmt {
        Stmt::Loop { body, .. } | Stmt::When { body, .. } | Stmt::Check { body, .. } => {
            let end = add_block(body, behind(line, 1), lines)?;
            Ok(behind(end, 1))
        }
        Stmt::Set { .. } | Stmt::Barrier => Ok(behind(line, 1)),
    }
}

/// Adds the lines of a block's statements. Its cells stand before them, each on a line.
#[cycle(lines)]
fn add_block(block: &Block, line: u32, lines: &mut Vec<u32>) -> Result<u32, AllocError> {
    let mut line = behind(line, block.cells.len());
    let children = block.children.as_slice();
    for place in 0..children.len() {
        line = add_stmt(&children[place], line, lines)?;
    }
    Ok(line)
}

/// The lines of all statements of a code in text order, counted from 1.
fn lines_of(alloc: Global, code: &Code) -> Result<Vec<u32>, AllocError> {
    let first = match code.target {
        Target::C => 16,
        Target::OpenCl => 21,
    };
    let mut lines = Vec::new(alloc);
    add_block(&code.body, behind(first, code.locals.len()), &mut lines)?;
    Ok(lines)
}

/// The line of a statement, by its number in text order.
pub fn text_line(alloc: Global, code: &Code, number: u32) -> Result<u32, AllocError> {
    match lines_of(alloc, code)?.get(number as usize) {
        Some(line) => Ok(*line),
        None => Ok(0),
    }
}

/// The array or cell of a fault, and whether its place is told by an index.
#[derive(Clone, Copy)]
pub struct Spelled<'a> {
    name: &'a Name,
    pub has_index: bool,
}

fn add_cells<'a>(cells: &'a [CodeCell], made: &mut Vec<Spelled<'a>>) -> Result<(), AllocError> {
    for cell in cells {
        made.push(Spelled {
            name: &cell.name,
            has_index: cell.length.is_some(),
        })?;
    }
    Ok(())
}

#[cycle(cells)]
fn add_block_cells<'a>(block: &'a Block, made: &mut Vec<Spelled<'a>>) -> Result<(), AllocError> {
    add_cells(block.cells.as_slice(), made)?;
    let children = block.children.as_slice();
    for place in 0..children.len() {
        add_stmt_cells(&children[place], made)?;
    }
    Ok(())
}

#[cycle(cells)]
fn add_stmt_cells<'a>(stmt: &'a Stmt, made: &mut Vec<Spelled<'a>>) -> Result<(), AllocError> {
    match stmt {
        Stmt::Loop { body, .. } | Stmt::When { body, .. } | Stmt::Check { body, .. } => {
            add_block_cells(body, made)
        }
        Stmt::Set { .. } | Stmt::Barrier => Ok(()),
    }
}

/// The arrays of a code, and then its cells in text order.
fn all_spelled(alloc: Global, code: &Code) -> Result<Vec<Spelled<'_>>, AllocError> {
    let mut made = Vec::new(alloc);
    for array in code.arrays.as_slice() {
        made.push(Spelled {
            name: &array.name,
            has_index: true,
        })?;
    }
    add_cells(code.locals.as_slice(), &mut made)?;
    add_block_cells(&code.body, &mut made)?;
    Ok(made)
}

/// The array or cell of a number, the arrays before the cells in text order.
pub fn spelled_at(
    alloc: Global,
    code: &Code,
    number: u32,
) -> Result<Option<Spelled<'_>>, AllocError> {
    let all = all_spelled(alloc, code)?;
    match all.get(number as usize) {
        Some(spelled) => Ok(Some(*spelled)),
        None => Ok(None),
    }
}

impl Spelled<'_> {
    /// The name as the text spells it.
    pub fn text(&self, alloc: Global) -> Result<String, AllocError> {
        format!(in alloc; "v_{}", self.name.as_str())
    }

    /// The name with the index, where it has one.
    pub fn place(&self, alloc: Global, index: i64) -> Result<String, AllocError> {
        if self.has_index {
            format!(in alloc; "v_{}[{index}]", self.name.as_str())
        } else {
            self.text(alloc)
        }
    }
}
