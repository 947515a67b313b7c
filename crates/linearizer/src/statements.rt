//! The statements of a code.
ghost use Rattle.std.specs.Prelude.{◌<◌};

use affine_rows::{Form, Listed};
use code_parts::{
    Gathered, Homes, Side, Spelling, block_cells, block_temps, bound_entries, bound_over,
    code_cell, code_number, code_row, code_test, flat_of, kind_of, note_bound, note_row,
    stored_value,
};
use code_tree::{Block, Bound, Nest, Stmt};
use expr_tree::{Cell, QuasiRow, Test};
use kernel_ir::{Fault, Insn, Kernel};
use loop_bounds::{
    AXES, InsnRows, There, axis_var, guard_rows, iname_on, inside, is_in_use, loop_rows,
};
use std::alloc::{AllocError, Global};

/// The block at a place.
#[cycle(statements)]
pub(crate) fn block_of(
    alloc: Global,
    spelling: Spelling<'_>,
    homes: &Homes,
    nests: &[Nest],
    there: &There,
    gathered: &mut Gathered,
) -> Result<Block, Fault> {
    let kernel = spelling.kernel;
    let temps = block_temps(alloc, kernel, homes, there.loops.as_slice())?;
    let cells = block_cells(alloc, kernel, temps.as_slice())?;
    let mut children = Listed::new(alloc);
    for nest in nests {
        add_statement(alloc, spelling, homes, nest, there, gathered, &mut children)?;
    }
    Ok(Block { cells, children })
}

#[cycle(statements)]
fn add_statement(
    alloc: Global,
    spelling: Spelling<'_>,
    homes: &Homes,
    nest: &Nest,
    there: &There,
    gathered: &mut Gathered,
    children: &mut Listed<Stmt>,
) -> Result<(), Fault> {
    match nest {
        Nest::Insn(at) => {
            if let Some(insn) = spelling.kernel.insns.get(*at as usize) {
                children.push(guarded(alloc, spelling, insn, there, gathered)?)?;
            }
            Ok(())
        }
        Nest::Loop(var, within) => {
            let made = loop_of(
                alloc,
                spelling,
                homes,
                *var,
                within.as_slice(),
                there,
                gathered,
            )?;
            children.push(made)?;
            Ok(())
        }
    }
}

/// A bound of a loop.
fn loop_bound(
    alloc: Global,
    spelling: Spelling<'_>,
    side: Side,
    rows: &[InsnRows],
    var: u32,
    gathered: &mut Gathered,
) -> Result<Bound, AllocError> {
    let entries = bound_entries(alloc, side, rows)?;
    note_bound(alloc, spelling.kernel, entries.as_slice(), gathered)?;
    bound_over(
        alloc,
        spelling.kernel,
        spelling.vars,
        side,
        entries.as_slice(),
        var,
    )
}

/// The loop over an iname round what is inside it.
#[cycle(statements)]
fn loop_of(
    alloc: Global,
    spelling: Spelling<'_>,
    homes: &Homes,
    var: u32,
    within: &[Nest],
    there: &There,
    gathered: &mut Gathered,
) -> Result<Stmt, Fault> {
    let kernel = spelling.kernel;
    let rows = loop_rows(alloc, kernel, there, var)?;
    let lower = loop_bound(
        alloc,
        spelling,
        Side::Lower,
        rows.lower.as_slice(),
        var,
        gathered,
    )?;
    let upper = loop_bound(
        alloc,
        spelling,
        Side::Upper,
        rows.upper.as_slice(),
        var,
        gathered,
    )?;
    let inner = inside(alloc, kernel, there, var, &rows)?;
    let body = block_of(alloc, spelling, homes, within, &inner, gathered)?;
    Ok(Stmt::Loop {
        var: code_number(kernel, spelling.vars, var),
        lower,
        upper,
        body,
    })
}

/// Whether a store of the instruction is left to the first item along an axis on which it has no iname.
fn is_shared(kernel: &Kernel, cell: Cell, axis: u8) -> bool {
    match cell {
        Cell::Array(_) => true,
        Cell::Temp(at) => match kernel.temps.get(at as usize) {
            None => false,
            Some(temp) => temp.local && axis >= 3,
        },
    }
}

/// Whether only the first item along an axis does an instruction: the axis is in use, and the instruction has no iname on it.
fn is_left_to_first(kernel: &Kernel, insn: &Insn, axis: u8) -> bool
    requires { axis < 6 }
{
    let tag = AXES[axis as usize];
    is_in_use(kernel, tag)
        && iname_on(kernel, insn, tag).is_none()
        && is_shared(kernel, insn.cell, axis)
}

/// The row that an axis is at most 0.
fn axis_row(alloc: Global, spelling: Spelling<'_>, axis: u8) -> Result<QuasiRow, AllocError> {
    let number = code_number(spelling.kernel, spelling.vars, axis_var(axis));
    Ok(QuasiRow {
        form: Form::affine(alloc, 0, Listed::of_one(alloc, (number, -1))?),
        equal: false,
    })
}

/// The axis rows of a guard: of each axis in use on which the instruction has no iname.
fn axis_rows(
    alloc: Global,
    spelling: Spelling<'_>,
    insn: &Insn,
) -> Result<Listed<QuasiRow>, AllocError> {
    let kernel = spelling.kernel;
    let mut made = Listed::new(alloc);
    for axis in 0..6u8 {
        if is_left_to_first(kernel, insn, axis) {
            made.push(axis_row(alloc, spelling, axis)?)?;
        }
    }
    Ok(made)
}

fn add_row(
    alloc: Global,
    spelling: Spelling<'_>,
    row: &QuasiRow,
    gathered: &mut Gathered,
    made: &mut Listed<QuasiRow>,
) -> Result<(), AllocError> {
    note_row(alloc, spelling.kernel, row, gathered)?;
    made.push(code_row(alloc, spelling.kernel, spelling.vars, row)?)
}

/// The rows of the guard of an instruction: axis rows, then the rows that what is known does not imply.
fn guard_of(
    alloc: Global,
    spelling: Spelling<'_>,
    insn: &Insn,
    there: &There,
    gathered: &mut Gathered,
) -> Result<Listed<QuasiRow>, Fault> {
    let mut made = axis_rows(alloc, spelling, insn)?;
    for row in guard_rows(alloc, spelling.kernel, there, insn)?.as_slice() {
        add_row(alloc, spelling, row, gathered, &mut made)?;
    }
    Ok(made)
}

fn block_over(alloc: Global, statement: Stmt) -> Result<Block, AllocError> {
    Ok(Block {
        cells: Listed::new(alloc),
        children: Listed::of_one(alloc, statement)?,
    })
}

/// The data test of an instruction.
fn test_of(
    alloc: Global,
    spelling: Spelling<'_>,
    insn: &Insn,
    gathered: &mut Gathered,
) -> Result<Option<Test>, Fault> {
    let kind = kind_of(spelling.kernel, insn.cell);
    match &insn.test {
        None => Ok(None),
        Some(test) => Ok(Some(code_test(alloc, spelling, kind, test, gathered)?)),
    }
}

/// The assignment of an instruction.
fn assignment(
    alloc: Global,
    spelling: Spelling<'_>,
    insn: &Insn,
    gathered: &mut Gathered,
) -> Result<Stmt, Fault> {
    let kind = kind_of(spelling.kernel, insn.cell);
    let flat = flat_of(alloc, spelling, insn.cell, insn.place.as_slice(), gathered)?;
    let value = stored_value(alloc, spelling, kind, insn, gathered)?;
    Ok(Stmt::Set {
        target: code_cell(spelling, insn.cell),
        flat,
        value,
    })
}

/// The statement in a data test, if there is one.
fn in_test(alloc: Global, test: Option<Test>, statement: Stmt) -> Result<Stmt, AllocError> {
    match test {
        None => Ok(statement),
        Some(test) => Ok(Stmt::Check {
            test,
            body: block_over(alloc, statement)?,
        }),
    }
}

/// The statement in a guard, if it has a row.
fn in_guard(alloc: Global, rows: Listed<QuasiRow>, statement: Stmt) -> Result<Stmt, AllocError> {
    if rows.is_empty() {
        return Ok(statement);
    }
    Ok(Stmt::When {
        rows,
        body: block_over(alloc, statement)?,
    })
}

/// The assignment of an instruction in its data test, in its guard.
fn guarded(
    alloc: Global,
    spelling: Spelling<'_>,
    insn: &Insn,
    there: &There,
    gathered: &mut Gathered,
) -> Result<Stmt, Fault> {
    let rows = guard_of(alloc, spelling, insn, there, gathered)?;
    let test = test_of(alloc, spelling, insn, gathered)?;
    let set = assignment(alloc, spelling, insn, gathered)?;
    let tested = in_test(alloc, test, set)?;
    Ok(in_guard(alloc, rows, tested)?)
}
