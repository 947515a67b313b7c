//! The commands.
use crate::alike::{check_alike, check_folds};
use crate::fill::{Extents, formed, origins_of, with_fill};
use crate::names::{Made, made_names, swept_inames, unknown};
use crate::order::check_writers;
use crate::request::{Plan, Request, plan_of};
use crate::rows::fill_rows;
use crate::size::shape_of;
use crate::spans::{Span, spans_of};
use crate::uses::{Source, uses_of};
use affine_rows::{Form, Listed, Name};
use command_parts::{Cells, check_homes, check_new};
use dependences::first_circle;
use expr_tree::Cell;
use kernel_edits::{number_at, refused, temp_cell};
use kernel_ir::{Array, Fault, Insn, Kernel, SubstRule};
use kernel_rules::number;
use script_reader::Command;
use std::alloc::{AllocError, Global};

/// For each temporary whether it is among the cells. Rule 13 refuses the first local one that is.
fn asked_temps(alloc: Global, kernel: &Kernel, cells: &Cells) -> Result<Listed<bool>, Fault> {
    let mut asked = Listed::new(alloc);
    let temps = kernel.temps.as_slice();
    for at in 0..temps.len() {
        let is_read = cells.has(Cell::Temp(number_at(alloc, at)?));
        if is_read && temps[at].local {
            return Err(refused(temp_cell(alloc, &temps[at].name, "-")));
        }
        asked.push(is_read)?;
    }
    Ok(asked)
}

/// Rule 12: an instruction reaches itself.
fn check_circle(alloc: Global, insns: &[Insn]) -> Result<(), Fault> {
    match first_circle(alloc, insns)? {
        None => Ok(()),
        Some(refusal) => Err(Fault::Rule(refusal)),
    }
}

/// So many forms 0.
fn zeros(alloc: Global, count: usize) -> Result<Listed<Form>, AllocError> {
    let mut made = Listed::new(alloc);
    for _ in 0..count {
        made.push(number(alloc, 0))?;
    }
    Ok(made)
}

/// So many numbers 1.
fn ones(alloc: Global, count: usize) -> Result<Vec<u32>, AllocError> {
    Ok(vec![in alloc; 1; count]?)
}

/// The kernel with a fill of one cell, at 0 in each place. It has the instructions of the new kernel, over the same inames and with the
/// same dependences, and passes the limits that this passes but those of forms and cells.
fn outlined(
    alloc: Global,
    request: Request<'_>,
    plan: &Plan,
    made: &Made,
) -> Result<Kernel, Fault> {
    let places = request.first.place.len();
    let origins = zeros(alloc, places)?;
    let shape = ones(alloc, places)?;
    let extents = Extents {
        origins: origins.as_slice(),
        shape: &shape,
        rows: &[],
    };
    with_fill(alloc, request, plan, made, extents)
}

/// The kernel with the fill and its rows, where no rule but 3 refuses.
fn filled(
    alloc: Global,
    request: Request<'_>,
    plan: &Plan,
    made: &Made,
    origins: &[Form],
    shape: &[u32],
) -> Result<Kernel, Fault> {
    let extents = Extents {
        origins,
        shape,
        rows: &[],
    };
    let bare = with_fill(alloc, request, plan, made, extents)?;
    check_new(alloc, &bare)?;
    let rows = fill_rows(alloc, request, plan, &bare)?;
    let rows = rows.as_slice();
    let whole = with_fill(alloc, request, plan, made, Extents { rows, ..extents })?;
    check_new(alloc, &whole)?;
    Ok(whole)
}

/// The kernel with a fill of one cell, where rule 13 does not refuse.
fn asked_outline(
    alloc: Global,
    request: Request<'_>,
    plan: &Plan,
    made: &Made,
) -> Result<Kernel, Fault> {
    let asked = asked_temps(alloc, request.kernel, &plan.cells)?;
    let outline = outlined(alloc, request, plan, made)?;
    check_homes(alloc, request.kernel, &outline, asked.as_slice())?;
    Ok(outline)
}

/// Rules 27 and 12, and the limits of the kernel with a fill of one cell.
fn check_outline(
    alloc: Global,
    request: Request<'_>,
    plan: &Plan,
    outline: Kernel,
) -> Result<(), Fault> {
    check_writers(alloc, request, &plan.users)?;
    check_circle(alloc, outline.insns.as_slice())?;
    check_new(alloc, &outline)
}

/// The kernel with a fill over these spans.
fn sized(
    alloc: Global,
    request: Request<'_>,
    plan: &Plan,
    made: &Made,
    spans: &[Span],
    shape: &[u32],
) -> Result<Kernel, Fault> {
    let origins = formed(alloc, origins_of(alloc, plan.bases.as_slice(), spans))?;
    filled(alloc, request, plan, made, origins.as_slice(), shape)
}

/// The new kernel, where rules 1 and 2 do not refuse: rules 30, 29, 13, 28, 31 or 3 cells, 27, 12, and then 3.
fn stored(alloc: Global, request: Request<'_>, made: &Made) -> Result<Kernel, Fault> {
    check_folds(alloc, request)?;
    check_alike(alloc, request)?;
    let plan = plan_of(alloc, request)?;
    let outline = asked_outline(alloc, request, &plan, made)?;
    let spans = spans_of(alloc, request)?;
    let shape = shape_of(alloc, request, spans.as_slice())?;
    check_outline(alloc, request, &plan, outline)?;
    sized(
        alloc,
        request,
        &plan,
        made,
        spans.as_slice(),
        shape.as_slice(),
    )
}

/// The command of a rule or array: rule 1 refuses where it has no use or a swept iname is unknown.
fn of_source(
    alloc: Global,
    kernel: &Kernel,
    command: &Command,
    name: &Name,
    source: Source,
    suffix: &str,
) -> Result<Kernel, Fault> {
    let uses = uses_of(alloc, kernel, source)?;
    let Some(first) = uses.get(0) else {
        return Err(unknown(alloc, name));
    };
    let swept = swept_inames(alloc, kernel, command.names.as_slice())?;
    let made = made_names(alloc, kernel, name, suffix, first.place.len())?;
    let request = Request {
        kernel,
        name,
        source,
        swept: swept.as_slice(),
        is_local: command.local,
        uses: uses.as_slice(),
        first,
    };
    stored(alloc, request, &made)
}

/// The name that a command gives first, empty where it gives none.
fn name_of(alloc: Global, command: &Command) -> Result<Name, Fault> {
    match command.names.get(0) {
        Some(name) => Ok(name.copy(alloc)?),
        None => Ok(Name::from_str(alloc, "")?),
    }
}

/// The kernel in which the values of a rule, at the places that its uses have over the swept inames, are stored in a temporary by a
/// fill, which the uses read. The command names the rule and then the swept inames.
///
/// It is refused by rule 1 for a name of no rule, a rule that no instruction itself uses, and a name of no iname; 2 for a new name that
/// is taken; 30 for a use under a reduction; 29 for uses that differ or have floors; 13 where the rule reads a local temporary, or a
/// temporary that has other home inames afterwards; 28 where a swept part has no constant bounds; 31 for too large a local, 3 for too
/// large a private temporary; 27 for a store of what the rule reads that is not directly before a use; 12 where an instruction
/// then reaches itself; and then by rule 3 where the new kernel passes a limit. Rules 18 and 19 come where a query passes a limit.
pub fn precompute(alloc: Global, kernel: &Kernel, command: &Command) -> Result<Kernel, Fault> {
    let name = name_of(alloc, command)?;
    let named = |rule: &SubstRule| rule.name.as_bytes() == name.as_bytes();
    match kernel.rules.as_slice().iter().position(named) {
        None => Err(unknown(alloc, &name)),
        Some(at) => {
            let rule = Source::Rule(number_at(alloc, at)?);
            of_source(alloc, kernel, command, &name, rule, "_pre")
        }
    }
}

/// The same of the reads of an argument array, which the command names first.
pub fn add_prefetch(alloc: Global, kernel: &Kernel, command: &Command) -> Result<Kernel, Fault> {
    let name = name_of(alloc, command)?;
    let named = |array: &Array| array.name.as_bytes() == name.as_bytes();
    match kernel.arrays.as_slice().iter().position(named) {
        None => Err(unknown(alloc, &name)),
        Some(at) => {
            let array = Source::Array(number_at(alloc, at)?);
            of_source(alloc, kernel, command, &name, array, "_fetch")
        }
    }
}
