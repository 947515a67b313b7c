//! Rule 27, case missing: a read may ask for an instance that the writer does not have.
ghost use Rattle.std.specs.Prelude.{◌≡◌, true, length};
ghost use Rattle.quasi_forms.specs.Placed.{vars_differ};

use crate::inlining::variable;
use crate::scatter::Scatter;
use crate::store::Store;
use affine_rows::{Form, Listed, Point};
use implied_rows::point_against;
use kernel_edits::refused;
use kernel_ir::{Fault, Iname, Insn, Kernel, QuasiRow, Refusal, Site};
use kernel_rules::{Use, form_fault, name_of, name_of_cell, primed, rows_of_insn};
use quasi_forms::{FormFault, is_among, mentions_only, put_all, small_sum_of};
use std::alloc::{AllocError, Global};

/// Different inames, with a form that is put for each.
#[derive(Drop)]
struct Put {
    vars: Vec<u32>,
    forms: Vec<Form>,
    ghost differ: { vars_differ vars.items ≡ true },
    ghost count: { length vars.items ≡ length forms.items },
}

fn nothing(alloc: Global) -> Put {
    Put {
        vars: Vec::new(alloc),
        forms: Vec::new(alloc),
    }
}

/// The same with a form for a further iname.
#[tactic(auto, using(crate::proofs::VarsDiffer::differ_more))]
fn with(put: Put, var: u32, form: Form) -> Result<Put, AllocError> {
    let Put {
        mut vars,
        mut forms,
    } = put;
    if !is_among(&vars, var) {
        vars.push(var)?;
        forms.push(form)?;
    }
    Ok(Put { vars, forms })
}

/// What a read has in the place of an iname that is a subscript of the store.
fn read_for<'a>(subscripts: &[u32], place: &'a [Form], var: u32) -> Option<&'a Form> {
    let at = subscripts.iter().position(|own| *own == var)?;
    place.get(at)
}

/// The subscripts of the store in declared order, with what a read puts for each.
fn put_of(
    alloc: Global,
    inames: &[Iname],
    subscripts: &[u32],
    place: &[Form],
) -> Result<Put, AllocError> {
    let mut put = nothing(alloc);
    for iname in inames {
        if let Some(form) = read_for(subscripts, place, iname.var) {
            put = with(put, iname.var, form.copy(alloc)?)?;
        }
    }
    Ok(put)
}

/// Adds a row of the writer's instance for which a read asks.
fn add_put(
    alloc: Global,
    row: &QuasiRow,
    put: &Put,
    made: &mut Listed<QuasiRow>,
) -> Result<(), FormFault> {
    made.push(QuasiRow {
        form: put_all(alloc, &row.form, &put.vars, &put.forms)?,
        equal: row.equal,
    })?;
    Ok(())
}

/// Adds those of the rows that mention only these variables.
fn add_put_within(
    alloc: Global,
    rows: &[QuasiRow],
    scope: &[u32],
    put: &Put,
    made: &mut Listed<QuasiRow>,
) -> Result<(), FormFault> {
    for row in rows {
        if mentions_only(scope, row.form.quasi()) {
            add_put(alloc, row, put, made)?;
        }
    }
    Ok(())
}

fn add_all_put(
    alloc: Global,
    rows: &[QuasiRow],
    put: &Put,
    made: &mut Listed<QuasiRow>,
) -> Result<(), FormFault> {
    for row in rows {
        add_put(alloc, row, put, made)?;
    }
    Ok(())
}

/// The parameters and the inames of an instruction.
fn scope_of(alloc: Global, kernel: &Kernel, insn: &Insn) -> Result<Vec<u32>, AllocError> {
    let mut scope = Vec::from_slice(alloc, kernel.params.as_slice())?;
    scope.extend_from_slice(insn.inames.as_slice())?;
    Ok(scope)
}

/// Adds that a subscript is the reader's own value of it, if it is a home iname.
fn add_home_row(
    alloc: Global,
    homes: &[u32],
    iname: u32,
    form: &Form,
    made: &mut Listed<QuasiRow>,
) -> Result<(), FormFault> {
    if is_among(homes, iname) {
        let own = variable(alloc, iname)?;
        made.push(QuasiRow {
            form: small_sum_of(alloc, form, -1, &own)?,
            equal: true,
        })?;
    }
    Ok(())
}

fn add_home_rows(
    alloc: Global,
    subscripts: &[u32],
    homes: &[u32],
    place: &[Form],
    made: &mut Listed<QuasiRow>,
) -> Result<(), FormFault> {
    for at in 0..subscripts.len().min(place.len()) {
        add_home_row(alloc, homes, subscripts[at], &place[at], made)?;
    }
    Ok(())
}

/// What is to hold wherever the reader's rows do: the rows of the writer's instance, those of the domain first, and that the subscripts
/// which are home inames are the reader's.
fn wanted_rows(
    alloc: Global,
    store: &Store<'_>,
    scatter: &Scatter,
    homes: &[u32],
    place: &[Form],
) -> Result<Listed<QuasiRow>, FormFault> {
    let kernel = store.kernel;
    let subscripts = scatter.subscripts.as_slice();
    let put = put_of(alloc, kernel.inames.as_slice(), subscripts, place)?;
    let scope = scope_of(alloc, kernel, store.insn)?;
    let mut made = Listed::new(alloc);
    add_put_within(alloc, kernel.rows.as_slice(), &scope, &put, &mut made)?;
    add_all_put(alloc, store.insn.rows.as_slice(), &put, &mut made)?;
    add_home_rows(alloc, subscripts, homes, place, &mut made)?;
    Ok(made)
}

/// The refusal that keeps the names of parameters, and of the reader's inames as those of a second instance.
fn with_reader(
    alloc: Global,
    refusal: Refusal,
    kernel: &Kernel,
    vars: &[u32],
) -> Result<Refusal, AllocError> {
    let mut told = refusal;
    for var in vars {
        let name = if is_among(kernel.params.as_slice(), *var) {
            name_of(alloc, kernel, *var)?
        } else {
            primed(alloc, kernel, *var)?
        };
        told = told.with_name(alloc, &name)?;
    }
    Ok(told)
}

fn missing(
    alloc: Global,
    store: &Store<'_>,
    reader: Use<'_>,
    vars: &[u32],
    point: Point,
) -> Result<Refusal, AllocError> {
    let name = name_of_cell(alloc, store.kernel, store.cell())?;
    let told = Refusal::of_rule(alloc, Site::Script, 27)
        .with_name(alloc, &store.insn.id)?
        .with_name(alloc, &name)?
        .with_name(alloc, &reader.insn.id)?
        .with_name(alloc, &name)?
        .with_word(alloc, "missing")?;
    Ok(with_reader(alloc, told, store.kernel, vars)?.with_point(point))
}

/// Rule 27, case missing, of one read, for which the temporary has these home inames. Rule 18 refuses rows past the limits.
pub(crate) fn check_there(
    alloc: Global,
    store: &Store<'_>,
    scatter: &Scatter,
    homes: &[u32],
    reader: Use<'_>,
) -> Result<(), Fault> {
    let place = reader.access.place.as_slice();
    let rows = match wanted_rows(alloc, store, scatter, homes, place) {
        Ok(rows) => rows,
        Err(fault) => return Err(form_fault(alloc, fault)),
    };
    let folds = reader.access.folds.as_slice();
    let mut asked = rows_of_insn(alloc, store.kernel, reader.insn, folds, true)?;
    for row in rows.as_slice() {
        if let Some(point) = point_against(alloc, &mut asked, row)? {
            return Err(refused(missing(alloc, store, reader, &asked.vars, point)));
        }
    }
    Ok(())
}
