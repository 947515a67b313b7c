//! Statements.
ghost use Rattle.std.specs.Prelude.{◌≡◌, ◌++◌, ◌+◌, ◌<◌, ◌^◌, OnOk, codes};
ghost use Rattle.std.specs.Option.{option_copied};
ghost use Rattle.code_text.specs.Names.{name_text};
ghost use Rattle.code_text.specs.StatementText.{row_text, rows_text, length_text, zero_text, declared_text, cell_lines, for_text, inside_text, guard_text, check_text, set_text, asked_kind, lines_of, lines_of_stmt, blanks, line};

use crate::bounds::write_bound;
use crate::forms::write_form;
use crate::kinds::{index_name, type_name};
use crate::names::write_name;
use crate::spelling::{Spelling, store_kind, write_store, write_subscript};
use crate::values::{write_test, write_value};
use code_tree::{Block, Bound, Code, CodeCell, Flat, QuasiRow, Stmt, Target};
use expr_tree::{Cell, Expr, Test};
use std::alloc::AllocError;
use text_writer::{put, put_digits, put_gap, put_repeated};
use wrap_words::Kind;

/// Adds the blanks before a line.
pub fn write_blanks(out: &mut Vec<u8>, depth: usize) -> Result<(), AllocError>
    ensures text { OnOk result (out.new.items ≡ out.old.items ++ blanks depth) }
    ensures small { OnOk result (depth < 2 ^ 63) }
{
    put_repeated(out, "  ", depth)
}

/// Adds a row of a guard.
fn write_row(out: &mut Vec<u8>, code: &Code, row: &QuasiRow) -> Result<(), AllocError>
    ensures { OnOk result (out.new.items ≡ out.old.items ++ row_text (name_text code.now) row.now) }
{
    write_form(out, code, row.form.quasi())?;
    put(out, if row.equal { " == 0" } else { " >= 0" })
}

/// Adds the rows of a guard.
fn write_rows(out: &mut Vec<u8>, code: &Code, rows: &[QuasiRow]) -> Result<(), AllocError>
    ensures { OnOk result (out.new.items ≡ out.old.items ++ rows_text (name_text code.now) rows.now) }
{
    let mut first = true;
    for row in rows {
        put_gap(out, first, " && ")?;
        write_row(out, code, row)?;
        first = false;
    }
    Ok(())
}

/// Adds the length of a cell, where it has one.
fn write_length(out: &mut Vec<u8>, length: Option<u32>) -> Result<(), AllocError>
    ensures { OnOk result (out.new.items ≡ out.old.items ++ length_text length) }
{
    match length {
        None => Ok(()),
        Some(number) => {
            put(out, "[")?;
            put_digits(out, u64::from(number))?;
            put(out, "]")
        }
    }
}

/// The first value of a cell.
fn first_value(length: Option<u32>) -> &'static str
    ensures { result.now ≡ zero_text length }
{
    match length {
        None => " = 0;",
        Some(_) => " = {0};",
    }
}

/// Adds the type and the name of a cell, with its length.
pub fn write_declared(out: &mut Vec<u8>, target: Target, cell: &CodeCell) -> Result<(), AllocError>
    ensures { OnOk result (out.new.items ≡ out.old.items ++ declared_text target cell.now) }
{
    put(out, type_name(target, cell.kind))?;
    put(out, " v_")?;
    put(out, cell.name.as_str())?;
    write_length(out, cell.length)
}

/// Adds the line of a private cell.
fn write_cell(
    out: &mut Vec<u8>,
    target: Target,
    depth: usize,
    cell: &CodeCell,
) -> Result<(), AllocError>
    ensures { OnOk result (out.new.items ≡ out.old.items ++ line depth (declared_text target cell.now ++ zero_text cell.now.length)) }
{
    write_blanks(out, depth)?;
    write_declared(out, target, cell)?;
    put(out, first_value(cell.length))?;
    put(out, "\n")
}

/// Adds the lines of the private cells of a block.
fn write_cells(
    out: &mut Vec<u8>,
    target: Target,
    depth: usize,
    cells: &[CodeCell],
) -> Result<(), AllocError>
    ensures { OnOk result (out.new.items ≡ out.old.items ++ cell_lines target depth cells.now) }
{
    for cell in cells {
        write_cell(out, target, depth, cell)?;
    }
    Ok(())
}

/// Adds the head of a loop.
fn write_for(
    out: &mut Vec<u8>,
    code: &Code,
    var: u32,
    lower: &Bound,
    upper: &Bound,
) -> Result<(), AllocError>
    ensures { OnOk result (out.new.items ≡ out.old.items ++ for_text code.now var lower.now upper.now) }
{
    put(out, "for (")?;
    put(out, index_name(code.target))?;
    put(out, " ")?;
    write_name(out, code, var)?;
    put(out, " = ")?;
    write_bound(out, code, lower)?;
    put(out, "; ")?;
    write_name(out, code, var)?;
    put(out, " <= ")?;
    write_bound(out, code, upper)?;
    put(out, "; ++")?;
    write_name(out, code, var)?;
    put(out, ")")
}

/// The target of the first assignment of a block.
#[cycle(first_set)]
fn first_set(code: &Code, block: &Block) -> Option<Cell>
    ensures { result ≡ (lines_of code.now block.now).first }
{
    for child in block.children.as_slice() {
        if let Some(cell) = first_target(code, child) {
            return Some(cell);
        }
    }
    None
}

/// The target of the first assignment of a statement.
#[cycle(first_set)]
fn first_target(code: &Code, stmt: &Stmt) -> Option<Cell>
    ensures { result ≡ (lines_of_stmt code.now stmt.now).first }
{
    match stmt {
        Stmt::Loop { body, .. } | Stmt::When { body, .. } | Stmt::Check { body, .. } => first_set(
            code, body,
        ),
        Stmt::Set { target, .. } => Some(*target),
        Stmt::Barrier => None,
    }
}

/// The kind that is asked of the data test before a block.
fn kind_asked(spelling: &Spelling, block: &Block) -> Kind
    ensures { result ≡ asked_kind spelling.now.code.now (lines_of spelling.now.code.now block.now).first }
{
    match first_set(spelling.code, block) {
        None => Kind::I32,
        Some(cell) => store_kind(spelling, cell),
    }
}

/// Adds the lines of a block's statements.
#[cycle(block)]
pub fn write_block(
    out: &mut Vec<u8>,
    spelling: &Spelling,
    depth: usize,
    block: &Block,
) -> Result<(), AllocError>
    ensures { OnOk result (out.new.items ≡ out.old.items ++ (lines_of spelling.now.code.now block.now).at depth) }
{
    write_cells(out, spelling.code.target, depth, block.cells.as_slice())?;
    for child in block.children.as_slice() {
        write_stmt(out, spelling, depth, child)?;
    }
    Ok(())
}

/// Adds the block of a statement in braces, one deeper.
#[cycle(block)]
fn write_body(
    out: &mut Vec<u8>,
    spelling: &Spelling,
    depth: usize,
    body: &Block,
) -> Result<(), AllocError>
    requires { depth < 2 ^ 63 }
    ensures { OnOk result (out.new.items ≡ out.old.items ++ inside_text (lines_of spelling.now.code.now body.now).at depth) }
{
    put(out, " {\n")?;
    write_block(out, spelling, depth + 1, body)?;
    write_blanks(out, depth)?;
    put(out, "}\n")
}

/// Adds the head of a guard.
fn write_guard(out: &mut Vec<u8>, code: &Code, rows: &[QuasiRow]) -> Result<(), AllocError>
    ensures { OnOk result (out.new.items ≡ out.old.items ++ guard_text code.now rows.now) }
{
    put(out, "if (")?;
    write_rows(out, code, rows)?;
    put(out, ")")
}

/// Adds the head of a data test.
fn write_check(
    out: &mut Vec<u8>,
    spelling: &Spelling,
    kind: Kind,
    test: &Test,
) -> Result<(), AllocError>
    ensures { OnOk result (out.new.items ≡ out.old.items ++ check_text spelling.now.code.now kind test.now) }
{
    put(out, "if ")?;
    write_test(out, spelling, kind, test)
}

/// Adds an assignment.
fn write_set(
    out: &mut Vec<u8>,
    spelling: &Spelling,
    target: Cell,
    flat: Option<&Flat>,
    value: &Expr,
) -> Result<(), AllocError>
    ensures { OnOk result (out.new.items ≡ out.old.items ++ set_text spelling.now.code.now target (option_copied flat.entry) value.now) }
{
    write_store(out, spelling, target)?;
    write_subscript(out, spelling.code, flat)?;
    put(out, " = ")?;
    write_value(out, spelling, store_kind(spelling, target), value)?;
    put(out, ";")
}

/// Adds the lines of a statement.
#[cycle(block)]
fn write_stmt(
    out: &mut Vec<u8>,
    spelling: &Spelling,
    depth: usize,
    stmt: &Stmt,
) -> Result<(), AllocError>
    ensures { OnOk result (out.new.items ≡ out.old.items ++ (lines_of_stmt spelling.now.code.now stmt.now).at depth) }
{
    write_blanks(out, depth)?;
    match stmt {
        Stmt::Loop {
            var,
            lower,
            upper,
            body,
        } => {
            write_for(out, spelling.code, *var, lower, upper)?;
            write_body(out, spelling, depth, body)
        }
        Stmt::When { rows, body } => {
            write_guard(out, spelling.code, rows.as_slice())?;
            write_body(out, spelling, depth, body)
        }
        Stmt::Check { test, body } => {
            write_check(out, spelling, kind_asked(spelling, body), test)?;
            write_body(out, spelling, depth, body)
        }
        Stmt::Set {
            target,
            flat,
            value,
        } => {
            write_set(out, spelling, *target, flat.as_ref(), value)?;
            put(out, "\n")
        }
        Stmt::Barrier => {
            put(out, "barrier(CLK_LOCAL_MEM_FENCE | CLK_GLOBAL_MEM_FENCE);")?;
            put(out, "\n")
        }
    }
}
