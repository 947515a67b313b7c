//! Rule 28: the numbers between which the swept parts lie.
ghost use Rattle.std.specs.Prelude.{◌≤◌, length, All, IfOk};
ghost use Rattle.elimination.specs.Stages.{IsSystem};

use crate::parts::swept_of;
use crate::request::Request;
use crate::uses::Used;
use affine_rows::{Form, Listed, Name, System};
use kernel_edits::{form_fault as limit_fault, refused};
use kernel_ir::{Fault, Insn, Kernel, Refusal, Site};
use kernel_rules::{
    Asked, MOST_VARIABLES, add_insn_rows, add_rows, built, form_fault, insn_vars, set_fault,
    variable,
};
use quasi_forms::{Difference, FormFault, renumber};
use set_query::{Hull, hull};
use std::alloc::{AllocError, Global};

/// A number that is no variable's, for the swept part.
const PART: u32 = u32::MAX;

/// The least and the greatest number of the swept part in a place, which is not below the least.
#[derive(Clone, Copy, Debug, PartialEq, Eq)]
pub(crate) struct Span {
    pub(crate) low: i64,
    pub(crate) high: i64,
}

/// The variable of the swept part, and then those of an instruction.
fn vars_with_part(alloc: Global, kernel: &Kernel, insn: &Insn) -> Result<Vec<u32>, AllocError> {
    let mut vars = Vec::from_slice(alloc, &[PART])?;
    let own = insn_vars(alloc, kernel, insn, &[])?;
    vars.extend_from_slice(&own)?;
    Ok(vars)
}

/// The variable of the swept part equals it.
fn part_row(alloc: Global, vars: &[u32], part: &Form) -> Result<Difference, AllocError>
    requires { length vars.now ≤ 128 }
{
    Ok(Difference {
        form: variable(alloc, vars, PART)?,
        less: renumber(alloc, part, vars)?,
        equal: true,
    })
}

/// The rows of an instruction, the assumptions, and what the variable of the swept part equals.
fn part_rows(
    alloc: Global,
    kernel: &Kernel,
    insn: &Insn,
    part: &Form,
    vars: &[u32],
) -> Result<Vec<Difference>, AllocError>
    requires { length vars.now ≤ 128 }
{
    let mut rows = Vec::new(alloc);
    add_insn_rows(alloc, kernel, insn, vars, &mut rows)?;
    add_rows(alloc, kernel.assumptions.as_slice(), vars, &mut rows)?;
    rows.push(part_row(alloc, vars, part)?)?;
    Ok(rows)
}

/// The system of these rows, of which the variable of the swept part is the first. Rule 18 refuses where it has more than 128 variables.
fn part_system(alloc: Global, kernel: &Kernel, insn: &Insn, part: &Form) -> Result<System, Fault>
    ensures { IfOk result IsSystem }
{
    let vars = vars_with_part(alloc, kernel, insn)?;
    if vars.len() > MOST_VARIABLES {
        return Err(form_fault(alloc, FormFault::Limit));
    }
    let rows = part_rows(alloc, kernel, insn, part, &vars)?;
    built(alloc, &Asked { vars, rows })
}

/// The system of an instruction and the swept part of a place.
fn system_of(
    alloc: Global,
    request: Request<'_>,
    insn: &Insn,
    place: &Form,
) -> Result<System, Fault>
    ensures { IfOk result IsSystem }
{
    match swept_of(alloc, place, request.swept) {
        Ok(part) => part_system(alloc, request.kernel, insn, &part),
        Err(fault) => Err(limit_fault(alloc, fault)),
    }
}

/// The instructions of the uses, each with what stands in the place.
fn parts_in<'a>(
    alloc: Global,
    request: Request<'a>,
    at: usize,
) -> Result<Vec<(&'a Insn, &'a Form)>, AllocError> {
    let mut parts = Vec::new(alloc);
    for used in request.uses {
        if let Some(place) = used.place.get(at) {
            if let Some(insn) = request.kernel.insns.get(used.at) {
                parts.push((insn, place))?;
            }
        }
    }
    Ok(parts)
}

/// The systems of the uses for one place.
fn systems_of(alloc: Global, request: Request<'_>, at: usize) -> Result<Listed<System>, Fault>
    ensures { IfOk result (λ systems. All IsSystem systems) }
{
    let parts = parts_in(alloc, request, at)?;
    let mut systems = Listed::new(alloc);
    for part in &parts {
        let system = system_of(alloc, request, part.0, part.1)?;
        systems.push(system)?;
    }
    Ok(systems)
}

fn part_hull(alloc: Global, request: Request<'_>, at: usize) -> Result<Hull, Fault> {
    let systems = systems_of(alloc, request, at)?;
    match hull(alloc, systems.as_slice(), 0) {
        Ok(hull) => Ok(hull),
        Err(fault) => Err(set_fault(alloc, fault)),
    }
}

/// Rule 28: the swept part in a place has no constant bound of that side.
fn no_footprint(alloc: Global, name: &Name, at: usize, side: &str) -> Result<Refusal, AllocError> {
    Refusal::of_rule(alloc, Site::Script, 28)
        .with_name(alloc, name)?
        .with_number(at as i128)?
        .with_word(alloc, side)
}

fn span_of(alloc: Global, name: &Name, at: usize, hull: Hull) -> Result<Span, Fault> {
    let Some(low) = hull.lower else {
        return Err(refused(no_footprint(alloc, name, at, "lower")));
    };
    let Some(high) = hull.upper else {
        return Err(refused(no_footprint(alloc, name, at, "upper")));
    };
    Ok(Span {
        low,
        high: high.max(low),
    })
}

/// The spans of all places. Rule 28 refuses the first place in which the swept part has no constant lower, or else no constant
/// upper, bound.
pub(crate) fn spans_of(alloc: Global, request: Request<'_>) -> Result<Listed<Span>, Fault> {
    let mut spans = Listed::new(alloc);
    for at in 0..request.first.place.len() {
        let hull = part_hull(alloc, request, at)?;
        spans.push(span_of(alloc, request.name, at, hull)?)?;
    }
    Ok(spans)
}
