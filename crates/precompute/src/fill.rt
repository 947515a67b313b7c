//! The kernel with the fill.
use crate::names::Made;
use crate::reads::use_at;
use crate::request::{Plan, Request};
use crate::spans::Span;
use crate::swap::Swap;
use affine_rows::{Form, Listed, Name, Names};
use command_parts::Cells;
use expr_tree::{Cell, Expr};
use kernel_edits::{expr_fault, form_fault, number_at, numbered, rewritten};
use kernel_ir::{Fault, Iname, Insn, Kernel, QuasiRow, Storing, Tag, Temp, copy_names, copy_rows};
use kernel_rules::number;
use quasi_forms::{FormFault, small_sum_of};
use std::alloc::{AllocError, Global};

/// The largest constant of a form.
const LARGEST: u64 = 1 << 62;

/// A number as a form. `Limit` comes exactly where it passes 2^62.
pub(crate) fn small_number(alloc: Global, constant: i64) -> Result<Form, FormFault> {
    if constant.unsigned_abs() > LARGEST {
        return Err(FormFault::Limit);
    }
    Ok(number(alloc, constant))
}

/// What was made, or rule 3 where a form passes its limit.
pub(crate) fn formed<T>(alloc: Global, outcome: Result<T, FormFault>) -> Result<T, Fault> {
    match outcome {
        Ok(made) => Ok(made),
        Err(fault) => Err(form_fault(alloc, fault)),
    }
}

/// What the temporary and the fill have besides their names and inames: for each place the subscript or argument of which the cell 0
/// has the value, and the extent; and the fill's own rows.
#[derive(Clone, Copy)]
pub(crate) struct Extents<'a> {
    pub(crate) origins: &'a [Form],
    pub(crate) shape: &'a [u32],
    pub(crate) rows: &'a [QuasiRow],
}

fn origin_of(alloc: Global, base: &Form, low: i64) -> Result<Form, FormFault> {
    small_sum_of(alloc, base, 1, &small_number(alloc, low)?)
}

/// The bases, each with the least number of the swept part.
pub(crate) fn origins_of(
    alloc: Global,
    bases: &[Form],
    spans: &[Span],
) -> Result<Listed<Form>, FormFault> {
    let mut made = Listed::new(alloc);
    for at in 0..bases.len().min(spans.len()) {
        made.push(origin_of(alloc, &bases[at], spans[at].low)?)?;
    }
    Ok(made)
}

/// The temporary by its number, the new inames, and the names with these.
#[derive(Drop)]
struct Numbered {
    temp: u32,
    inames: Listed<u32>,
    names: Names,
}

fn numbers_of(alloc: Global, kernel: &Kernel, made: &Made) -> Result<Numbered, Fault> {
    let temp = number_at(alloc, kernel.temps.len())?;
    let mut names = kernel.names.copy(alloc)?;
    numbered(alloc, &mut names, &made.temp)?;
    let mut inames = Listed::new(alloc);
    for name in made.inames.as_slice() {
        inames.push(numbered(alloc, &mut names, name)?)?;
    }
    Ok(Numbered {
        temp,
        inames,
        names,
    })
}

/// A form of one variable.
fn variable(alloc: Global, var: u32) -> Result<Form, AllocError> {
    Ok(Form::affine(alloc, 0, Listed::of_one(alloc, (var, 1))?))
}

fn variables(alloc: Global, vars: &[u32]) -> Result<Listed<Form>, AllocError> {
    let mut made = Listed::new(alloc);
    for var in vars {
        made.push(variable(alloc, *var)?)?;
    }
    Ok(made)
}

/// A new iname is at least 0, and at most one less than the extent.
fn add_range(
    alloc: Global,
    var: u32,
    extent: u32,
    rows: &mut Listed<QuasiRow>,
) -> Result<(), AllocError> {
    rows.push(QuasiRow {
        form: variable(alloc, var)?,
        equal: false,
    })?;
    let most = i64::from(extent) - 1;
    rows.push(QuasiRow {
        form: Form::affine(alloc, most, Listed::of_one(alloc, (var, -1))?),
        equal: false,
    })
}

/// The domain rows with those of the new inames.
fn rows_with(
    alloc: Global,
    rows: &[QuasiRow],
    vars: &[u32],
    shape: &[u32],
) -> Result<Listed<QuasiRow>, AllocError> {
    let mut made = copy_rows(alloc, rows)?;
    for at in 0..vars.len().min(shape.len()) {
        add_range(alloc, vars[at], shape[at], &mut made)?;
    }
    Ok(made)
}

/// The subscripts or arguments at which the fill stores: each origin and its new iname.
fn fill_places(alloc: Global, origins: &[Form], vars: &[u32]) -> Result<Listed<Form>, FormFault> {
    let mut made = Listed::new(alloc);
    for at in 0..origins.len().min(vars.len()) {
        made.push(small_sum_of(alloc, &origins[at], 1, &variable(alloc, vars[at])?)?)?;
    }
    Ok(made)
}

/// The use of which the fill stores the value.
fn fill_value(
    alloc: Global,
    request: Request<'_>,
    origins: &[Form],
    vars: &[u32],
) -> Result<Expr, Fault> {
    let place = formed(alloc, fill_places(alloc, origins, vars))?;
    match use_at(alloc, request.source, place.as_slice()) {
        Ok(value) => Ok(value),
        Err(fault) => Err(expr_fault(alloc, fault)),
    }
}

/// The inames, and then others.
fn joined(alloc: Global, inames: &[u32], others: &[u32]) -> Result<Listed<u32>, AllocError> {
    let mut all = Listed::from_slice(alloc, inames)?;
    for iname in others {
        all.push(*iname)?;
    }
    Ok(all)
}

/// The ids of the instructions that store to one of the cells.
fn writers(alloc: Global, insns: &[Insn], cells: &Cells) -> Result<Listed<Name>, AllocError> {
    let mut ids = Listed::new(alloc);
    for insn in insns {
        if cells.has(insn.cell) {
            ids.push(insn.id.copy(alloc)?)?;
        }
    }
    Ok(ids)
}

/// The line of the instruction at a place, 0 where there is none.
fn line_at(kernel: &Kernel, at: usize) -> u32 {
    match kernel.insns.get(at) {
        None => 0,
        Some(insn) => insn.line,
    }
}

/// The fill: it stores the value to the temporary, over the kept and the new inames, and depends on all that store what it reads.
fn fill_insn(
    alloc: Global,
    request: Request<'_>,
    plan: &Plan,
    id: &Name,
    numbers: &Numbered,
    value: Expr,
    rows: &[QuasiRow],
) -> Result<Insn, AllocError> {
    let vars = numbers.inames.as_slice();
    let id = id.copy(alloc)?;
    let inames = joined(alloc, plan.kept.as_slice(), vars)?;
    let rows = copy_rows(alloc, rows)?;
    let place = variables(alloc, vars)?;
    let deps = writers(alloc, request.kernel.insns.as_slice(), &plan.cells)?;
    Ok(Insn {
        id,
        line: line_at(request.kernel, request.first.at),
        inames,
        rows,
        test: None,
        cell: Cell::Temp(numbers.temp),
        place,
        storing: Storing::Plain,
        value,
        deps,
        auto: false,
    })
}

/// A using instruction, which reads the temporary and depends on the fill.
fn user_insn(alloc: Global, insn: &Insn, swap: Swap<'_>, fill: &Name) -> Result<Insn, Fault> {
    let mut deps = copy_names(alloc, insn.deps.as_slice())?;
    deps.push(fill.copy(alloc)?)?;
    match rewritten(alloc, insn, &swap) {
        Ok(made) => Ok(Insn { deps, ..made }),
        Err(fault) => Err(expr_fault(alloc, fault)),
    }
}

/// The instructions, with the fill before its first user.
fn insns_with(
    alloc: Global,
    request: Request<'_>,
    users: &[usize],
    fill: &Insn,
    swap: Swap<'_>,
) -> Result<Listed<Insn>, Fault> {
    let insns = request.kernel.insns.as_slice();
    let mut made = Listed::new(alloc);
    for at in 0..insns.len() {
        if at == request.first.at {
            made.push(fill.copy(alloc)?)?;
        }
        if users.contains(&at) {
            made.push(user_insn(alloc, &insns[at], swap, &fill.id)?)?;
        } else {
            made.push(insns[at].copy(alloc)?)?;
        }
    }
    Ok(made)
}

/// The inames with new ones on no axis.
fn inames_with(alloc: Global, inames: &[Iname], vars: &[u32]) -> Result<Listed<Iname>, AllocError> {
    let mut made = Listed::from_slice(alloc, inames)?;
    for var in vars {
        made.push(Iname {
            var: *var,
            tag: Tag::Plain,
        })?;
    }
    Ok(made)
}

/// The temporaries with the new one.
fn temps_with(
    alloc: Global,
    request: Request<'_>,
    name: &Name,
    shape: &[u32],
) -> Result<Listed<Temp>, AllocError> {
    let mut made = Listed::new(alloc);
    for temp in request.kernel.temps.as_slice() {
        made.push(temp.copy(alloc)?)?;
    }
    made.push(Temp {
        name: name.copy(alloc)?,
        kind: Some(request.first.kind),
        shape: Listed::from_slice(alloc, shape)?,
        local: request.is_local,
    })?;
    Ok(made)
}

/// What a kernel with a fill has besides its names, instructions and temporaries.
#[derive(Drop)]
struct Domain {
    inames: Listed<Iname>,
    priority: Listed<u32>,
    rows: Listed<QuasiRow>,
}

/// The inames of the kernel and those of the fill, with their rows.
fn domain_with(
    alloc: Global,
    kernel: &Kernel,
    vars: &[u32],
    shape: &[u32],
) -> Result<Domain, AllocError> {
    let inames = inames_with(alloc, kernel.inames.as_slice(), vars)?;
    let priority = joined(alloc, kernel.priority.as_slice(), vars)?;
    let rows = rows_with(alloc, kernel.rows.as_slice(), vars, shape)?;
    Ok(Domain {
        inames,
        priority,
        rows,
    })
}

/// The fill.
fn fill_of(
    alloc: Global,
    request: Request<'_>,
    plan: &Plan,
    made: &Made,
    extents: Extents<'_>,
    numbers: &Numbered,
) -> Result<Insn, Fault> {
    let vars = numbers.inames.as_slice();
    let value = fill_value(alloc, request, extents.origins, vars)?;
    Ok(fill_insn(
        alloc,
        request,
        plan,
        &made.fill,
        numbers,
        value,
        extents.rows,
    )?)
}

/// The instructions with the fill before its first user, and reads of the temporary for the uses.
fn filled_insns(
    alloc: Global,
    request: Request<'_>,
    plan: &Plan,
    made: &Made,
    extents: Extents<'_>,
    numbers: &Numbered,
) -> Result<Listed<Insn>, Fault> {
    let fill = fill_of(alloc, request, plan, made, extents, numbers)?;
    let swap = Swap {
        source: request.source,
        temp: numbers.temp,
        origins: extents.origins,
    };
    insns_with(alloc, request, &plan.users, &fill, swap)
}

/// The kernel with these parts in the place of its own.
fn kernel_with(
    alloc: Global,
    kernel: &Kernel,
    names: Names,
    domain: Domain,
    temps: Listed<Temp>,
    insns: Listed<Insn>,
) -> Result<Kernel, Fault> {
    let copied = kernel.copy(alloc)?;
    Ok(Kernel {
        names,
        inames: domain.inames,
        priority: domain.priority,
        rows: domain.rows,
        temps,
        insns,
        ..copied
    })
}

/// The kernel with the temporary, the fill before its first user, and reads of the temporary for the uses. Rule 3 refuses where a form
/// passes its limit.
pub(crate) fn with_fill(
    alloc: Global,
    request: Request<'_>,
    plan: &Plan,
    made: &Made,
    extents: Extents<'_>,
) -> Result<Kernel, Fault> {
    let kernel = request.kernel;
    let numbers = numbers_of(alloc, kernel, made)?;
    let insns = filled_insns(alloc, request, plan, made, extents, &numbers)?;
    let domain = domain_with(alloc, kernel, numbers.inames.as_slice(), extents.shape)?;
    let temps = temps_with(alloc, request, &made.temp, extents.shape)?;
    Ok(kernel_with(alloc, kernel, numbers.names, domain, temps, insns)?)
}
