//! What a refusal by rule 37 keeps.
use affine_rows::Name;
use code_systems::{AXES, Open, Question, Use, axis_name};
use code_tree::Code;
use expr_tree::Cell;
use kernel_ir::{Refusal, Site};
use std::alloc::{AllocError, Global};

/// The name of a variable of the code.
fn name_of(code: &Code, var: u32) -> &str {
    match code.names.get(var as usize) {
        Some(name) => name.as_str(),
        None => "",
    }
}

/// The name of an argument array or a local cell.
fn cell_name(code: &Code, cell: Cell) -> &str {
    match cell {
        Cell::Array(at) => match code.arrays.get(at as usize) {
            Some(array) => array.name.as_str(),
            None => "",
        },
        Cell::Temp(at) => match code.locals.get(at as usize) {
            Some(cell) => cell.name.as_str(),
            None => "",
        },
    }
}

/// The refusal with the id of the access's instruction and the name of its cell.
fn with_use(
    alloc: Global,
    refusal: Refusal,
    code: &Code,
    used: Use<'_>,
) -> Result<Refusal, AllocError> {
    refusal
        .with_name(alloc, &used.statement.id)?
        .with_word(alloc, cell_name(code, used.access.cell))
}

/// The refusal with the case.
fn with_case(alloc: Global, refusal: Refusal, open: &Open) -> Result<Refusal, AllocError> {
    match open.axis {
        None => refusal.with_word(alloc, "any"),
        Some(axis) => refusal
            .with_word(alloc, axis_name(axis))?
            .with_word(alloc, if open.below { "below" } else { "above" }),
    }
}

/// The refusal with the names of the access's inames by axis and of its loops, each followed by a mark.
fn with_inames(
    alloc: Global,
    refusal: Refusal,
    code: &Code,
    used: Use<'_>,
    mark: &str,
) -> Result<Refusal, AllocError> {
    let mut told = refusal;
    for axis in 0..AXES {
        if let Some(name) = used.statement.iname_on(axis) {
            told = told.with_name(
                alloc,
                &Name::new(format!(in alloc; "{}{mark}", name.as_str())?),
            )?;
        }
    }
    for var in used.access.there.loops.as_slice() {
        told = told.with_name(
            alloc,
            &Name::new(format!(in alloc; "{}{mark}", name_of(code, *var))?),
        )?;
    }
    Ok(told)
}

/// Rule 37: two items may come to one cell by the two accesses, in the open case.
pub(crate) fn race_not_excluded(
    alloc: Global,
    code: &Code,
    question: Question<'_>,
    open: Open,
) -> Result<Refusal, AllocError> {
    let refusal = Refusal::of_rule(alloc, Site::Code, 37);
    let refusal = with_use(alloc, refusal, code, question.first)?;
    let refusal = with_use(alloc, refusal, code, question.second)?;
    let mut told = with_case(alloc, refusal, &open)?;
    for param in code.params.as_slice() {
        told = told.with_word(alloc, name_of(code, *param))?;
    }
    let told = with_inames(alloc, told, code, question.first, "")?;
    let told = with_inames(alloc, told, code, question.second, "'")?;
    Ok(told.with_point(open.point))
}
