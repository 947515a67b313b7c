//! Written rows and forms, and their limits.
ghost use Rattle.std.specs.Prelude.{◌≡◌, ◌≤◌, ◌^◌, ◌-◌, min, sum_by, true, unsigned_abs};

use crate::values::Gathered;
use affine_rows::{Floor, Listed, Quasi, Row};
use kernel_ir::{Insn, Kernel, QuasiRow};
use kernel_printer::{form_text, row_text};
use loop_bounds::{AXES, InsnRows, axis_var, iname_on};
use std::alloc::{AllocError, Global};

/// The most that the absolute factors of a written form may be together.
const LARGEST_SUM: u64 = 1 << 31;

/// The most that the constant of a written form may be, without its sign.
const LARGEST_CONSTANT: u64 = 1 << 61;

/// The sum of a form and its constant, 2^64 - 1 standing for all that is more.
#[derive(Clone, Copy)]
struct Counts {
    sum: u64,
    constant: u64,
}

impl Counts {
    fn plus(self, times: u64, other: Counts) -> Counts {
        Counts {
            sum: self.sum.saturating_add(times.saturating_mul(other.sum)),
            constant: self
                .constant
                .saturating_add(times.saturating_mul(other.constant)),
        }
    }

    fn divided(self, by: u64) -> Counts {
        let by = by.max(1);
        Counts {
            sum: self.sum.div_ceil(by),
            constant: self.constant.div_ceil(by),
        }
    }
}

/// The sum of the absolute factors.
fn terms_sum(terms: &[(u32, i64)]) -> u64
    ensures { result ≡ min (sum_by (λ t. unsigned_abs t.1) terms.now) (2 ^ 64 - 1) }
{
    let mut sum: u64 = 0;
    for term in terms {
        sum = sum.saturating_add(term.1.unsigned_abs());
    }
    sum
}

/// What a form counts: its absolute factors and its constant, and for each floor its absolute factor times what the form
/// under it counts, divided by the divisor and rounded up.
#[cycle(measure)]
fn measured(form: &Quasi) -> Counts {
    let own = Counts {
        sum: terms_sum(form.terms.as_slice()),
        constant: form.constant.unsigned_abs(),
    };
    with_floors(own, form.floors.as_slice())
}

#[cycle(measure)]
fn with_floors(own: Counts, floors: &[Floor]) -> Counts {
    let mut made = own;
    for floor in floors {
        let inner = measured(&floor.inner).divided(floor.by.unsigned_abs());
        made = made.plus(floor.times.unsigned_abs(), inner);
    }
    made
}

/// Whether a form may be written.
fn is_narrow(form: &Quasi) -> bool {
    let own = measured(form);
    own.sum <= LARGEST_SUM && own.constant <= LARGEST_CONSTANT
}

/// Whether a row without floors may be written.
pub(crate) fn is_narrow_row(row: &Row) -> bool
    ensures sum { result ≡ true → sum_by (λ t. unsigned_abs t.1) row.now.terms ≤ 2 ^ 31 }
    ensures constant { result ≡ true → unsigned_abs row.now.constant ≤ 2 ^ 61 }
{
    terms_sum(row.terms.as_slice()) <= LARGEST_SUM
        && row.constant.unsigned_abs() <= LARGEST_CONSTANT
}

/// Notes a written form, if it is the first that passes a limit, and then the forms under its floors.
#[cycle(note)]
pub(crate) fn note_form(
    alloc: Global,
    kernel: &Kernel,
    form: &Quasi,
    gathered: &mut Gathered,
) -> Result<(), AllocError> {
    if gathered.wide.is_none() && !is_narrow(form) {
        gathered.wide = Some(form_text(alloc, kernel, form)?);
    }
    note_floors(alloc, kernel, form.floors.as_slice(), gathered)
}

#[cycle(note)]
fn note_floors(
    alloc: Global,
    kernel: &Kernel,
    floors: &[Floor],
    gathered: &mut Gathered,
) -> Result<(), AllocError> {
    for floor in floors {
        note_form(alloc, kernel, &floor.inner, gathered)?;
    }
    Ok(())
}

/// Notes a written row of an instruction, if it is the first that passes a limit.
pub fn note_row(
    alloc: Global,
    kernel: &Kernel,
    row: &QuasiRow,
    gathered: &mut Gathered,
) -> Result<(), AllocError> {
    let form = row.form.quasi();
    if gathered.wide.is_none() && !is_narrow(form) {
        gathered.wide = Some(row_text(alloc, kernel, form, row.equal)?);
    }
    note_floors(alloc, kernel, form.floors.as_slice(), gathered)
}

/// The variable of an instruction that stands in a row as that of its axis.
fn own_var(kernel: &Kernel, insn: &Insn, var: u32) -> u32 {
    for axis in 0..6u8 {
        if axis_var(axis) == var {
            return iname_on(kernel, insn, AXES[axis as usize]).unwrap_or(var);
        }
    }
    var
}

/// The row over the variables of an instruction, as a form.
fn own_form(alloc: Global, kernel: &Kernel, insn: u32, row: &Row) -> Result<Quasi, AllocError> {
    let mut terms = Listed::new(alloc);
    for &(var, factor) in row.terms.as_slice() {
        let own = match kernel.insns.get(insn as usize) {
            None => var,
            Some(insn) => own_var(kernel, insn, var),
        };
        terms.push((own, factor))?;
    }
    Ok(Quasi {
        constant: row.constant,
        terms,
        floors: Listed::new(alloc),
    })
}

fn note_bound_row(
    alloc: Global,
    kernel: &Kernel,
    insn: u32,
    row: &Row,
    gathered: &mut Gathered,
) -> Result<(), AllocError> {
    if gathered.wide.is_some() || is_narrow_row(row) {
        return Ok(());
    }
    let form = own_form(alloc, kernel, insn, row)?;
    gathered.wide = Some(row_text(alloc, kernel, &form, row.equal)?);
    Ok(())
}

fn note_rows(
    alloc: Global,
    kernel: &Kernel,
    given: &InsnRows,
    gathered: &mut Gathered,
) -> Result<(), AllocError> {
    for row in given.rows.as_slice() {
        note_bound_row(alloc, kernel, given.insn, row, gathered)?;
    }
    Ok(())
}

/// Notes the written rows of a bound, if the first that passes a limit is among them.
pub fn note_bound(
    alloc: Global,
    kernel: &Kernel,
    entries: &[InsnRows],
    gathered: &mut Gathered,
) -> Result<(), AllocError> {
    for given in entries {
        note_rows(alloc, kernel, given, gathered)?;
    }
    Ok(())
}
