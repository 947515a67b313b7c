//! Index forms and rows.
ghost use Rattle.std.specs.Prelude.{◌≡◌, ◌++◌, ◌||◌, OnOk};
ghost use Rattle.kernel_printer.specs.FormText.{first_text, floor_part, form_text, forms_text, is_name_form, is_number_form, operand_text, place_text, row_text, rows_text, term_part};
ghost use Rattle.kernel_printer.specs.Spelled.{spelling_of};
ghost use Rattle.kernel_ir.specs.NameSpace.{name_of};
ghost use Rattle.text_writer.specs.NumberText.{part_text};

use crate::spelling::{Spelling, ordered, write_name};
use affine_rows::{Floor, Form, Quasi};
use kernel_ir::{Kernel, QuasiRow};
use std::alloc::{AllocError, Global};
use text_writer::{put, put_constant, put_factor, put_gap, put_number, put_sign};

/// Adds a term as a part of a sum.
fn write_term(
    out: &mut Vec<u8>,
    kernel: &Kernel,
    first: bool,
    term: (u32, i64),
) -> Result<(), AllocError>
    ensures { OnOk result (out.new.items ≡ out.old.items ++ part_text first (term_part (name_of kernel.now) term)) }
{
    let (var, factor) = term;
    put_sign(out, first, factor)?;
    put_factor(out, factor.unsigned_abs())?;
    write_name(out, kernel, var)
}

/// Adds a floor as a part of a sum.
#[cycle(form)]
fn write_floor(
    alloc: Global,
    out: &mut Vec<u8>,
    spelling: &Spelling,
    first: bool,
    floor: &Floor,
) -> Result<(), AllocError>
    ensures { OnOk result (out.new.items ≡ out.old.items ++ part_text first (floor_part (spelling_of spelling.now) floor.now)) }
{
    put_sign(out, first, floor.times)?;
    put_factor(out, floor.times.unsigned_abs())?;
    put(out, "((")?;
    write_quasi(alloc, out, spelling, &floor.inner)?;
    put(out, ")//")?;
    put_number(out, floor.by)?;
    put(out, ")")
}

/// Adds an index form.
#[cycle(form)]
pub(crate) fn write_quasi(
    alloc: Global,
    out: &mut Vec<u8>,
    spelling: &Spelling,
    form: &Quasi,
) -> Result<(), AllocError>
    ensures { OnOk result (out.new.items ≡ out.old.items ++ form_text (spelling_of spelling.now) form.now) }
{
    let mut first = true;
    let ordered = ordered(alloc, spelling.order, form.terms.as_slice())?;
    let terms = ordered.as_slice();
    let floors = form.floors.as_slice();
    for term in terms {
        write_term(out, spelling.kernel, first, *term)?;
        first = false;
    }
    for floor in floors {
        write_floor(alloc, out, spelling, first, floor)?;
        first = false;
    }
    put_constant(out, first, form.constant)
}

/// Adds an index form.
pub fn write_form(
    alloc: Global,
    out: &mut Vec<u8>,
    spelling: &Spelling,
    form: &Form,
) -> Result<(), AllocError>
    ensures { OnOk result (out.new.items ≡ out.old.items ++ form_text (spelling_of spelling.now) form.now) }
{
    write_quasi(alloc, out, spelling, form.quasi())
}

/// Adds forms in a list.
pub fn write_forms(
    alloc: Global,
    out: &mut Vec<u8>,
    spelling: &Spelling,
    forms: &[Form],
) -> Result<(), AllocError>
    ensures { OnOk result (out.new.items ≡ out.old.items ++ forms_text (spelling_of spelling.now) forms.now) }
{
    let mut first = true;
    for form in forms {
        put_gap(out, first, ", ")?;
        write_form(alloc, out, spelling, form)?;
        first = false;
    }
    Ok(())
}

/// Adds subscripts, where there are any.
pub fn write_place(
    alloc: Global,
    out: &mut Vec<u8>,
    spelling: &Spelling,
    place: &[Form],
) -> Result<(), AllocError>
    ensures { OnOk result (out.new.items ≡ out.old.items ++ place_text (spelling_of spelling.now) place.now) }
{
    if place.is_empty() {
        return Ok(());
    }
    put(out, "[")?;
    write_forms(alloc, out, spelling, place)?;
    put(out, "]")
}

/// Whether the text is one number without a sign.
fn is_number(form: &Quasi) -> bool
    ensures { result ≡ is_number_form form.now }
{
    form.terms.is_empty() && form.floors.is_empty() && form.constant >= 0
}

/// Whether the text is one name.
fn is_name(form: &Quasi) -> bool
    ensures { result ≡ is_name_form form.now }
{
    match form.terms.as_slice() {
        [(_, 1)] => form.floors.is_empty() && form.constant == 0,
        _ => false,
    }
}

/// Adds a form that stands below a node.
pub fn write_operand(
    alloc: Global,
    out: &mut Vec<u8>,
    spelling: &Spelling,
    form: &Form,
) -> Result<(), AllocError>
    ensures { OnOk result (out.new.items ≡ out.old.items ++ operand_text (spelling_of spelling.now) form.now) }
{
    let quasi = form.quasi();
    if is_number(quasi) || is_name(quasi) {
        return write_quasi(alloc, out, spelling, quasi);
    }
    put(out, "(")?;
    write_quasi(alloc, out, spelling, quasi)?;
    put(out, ")")
}

/// Adds a form that is the first of two values of `min` or `max`, where one bare name would be an iname.
pub fn write_first(
    alloc: Global,
    out: &mut Vec<u8>,
    spelling: &Spelling,
    form: &Form,
) -> Result<(), AllocError>
    ensures { OnOk result (out.new.items ≡ out.old.items ++ first_text (spelling_of spelling.now) form.now) }
{
    if !is_name(form.quasi()) {
        return write_operand(alloc, out, spelling, form);
    }
    put(out, "1*")?;
    write_form(alloc, out, spelling, form)
}

/// Adds a row.
fn write_row(
    alloc: Global,
    out: &mut Vec<u8>,
    spelling: &Spelling,
    row: &QuasiRow,
) -> Result<(), AllocError>
    ensures { OnOk result (out.new.items ≡ out.old.items ++ row_text (spelling_of spelling.now) row.now) }
{
    write_form(alloc, out, spelling, &row.form)?;
    put(out, if row.equal { " = 0" } else { " >= 0" })
}

/// Adds rows, all of which hold.
pub fn write_rows(
    alloc: Global,
    out: &mut Vec<u8>,
    spelling: &Spelling,
    rows: &[QuasiRow],
) -> Result<(), AllocError>
    ensures { OnOk result (out.new.items ≡ out.old.items ++ rows_text (spelling_of spelling.now) rows.now) }
{
    let mut first = true;
    for row in rows {
        put_gap(out, first, " and ")?;
        write_row(alloc, out, spelling, row)?;
        first = false;
    }
    Ok(())
}
