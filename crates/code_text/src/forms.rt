//! Index forms.
ghost use Rattle.std.specs.Prelude.{◌≡◌, ◌++◌, OnOk};
ghost use Rattle.text_writer.specs.NumberText.{part_text};
ghost use Rattle.code_text.specs.FormText.{term_part, floor_part, form_text};
ghost use Rattle.code_text.specs.Names.{name_text};

use crate::names::write_name;
use affine_rows::{Floor, Quasi};
use code_tree::Code;
use std::alloc::AllocError;
use text_writer::{put, put_constant, put_factor, put_number, put_sign};

/// Adds a term as a part of a sum.
fn write_term(
    out: &mut Vec<u8>,
    code: &Code,
    first: bool,
    term: (u32, i64),
) -> Result<(), AllocError>
    ensures { OnOk result (out.new.items ≡ out.old.items ++ part_text first (term_part (name_text code.now) term)) }
{
    let (var, factor) = term;
    put_sign(out, first, factor)?;
    put_factor(out, factor.unsigned_abs())?;
    write_name(out, code, var)
}

/// Adds a floor as a part of a sum.
#[cycle(form)]
fn write_floor(out: &mut Vec<u8>, code: &Code, first: bool, floor: &Floor) -> Result<(), AllocError>
    ensures { OnOk result (out.new.items ≡ out.old.items ++ part_text first (floor_part (name_text code.now) floor.now)) }
{
    put_sign(out, first, floor.times)?;
    put_factor(out, floor.times.unsigned_abs())?;
    put(out, "lp_fd(")?;
    write_form(out, code, &floor.inner)?;
    put(out, ", ")?;
    put_number(out, floor.by)?;
    put(out, ")")
}

/// Adds an index form.
#[cycle(form)]
pub fn write_form(out: &mut Vec<u8>, code: &Code, form: &Quasi) -> Result<(), AllocError>
    ensures { OnOk result (out.new.items ≡ out.old.items ++ form_text (name_text code.now) form.now) }
{
    let mut first = true;
    let terms = form.terms.as_slice();
    let floors = form.floors.as_slice();
    for term in terms {
        write_term(out, code, first, *term)?;
        first = false;
    }
    for floor in floors {
        write_floor(out, code, first, floor)?;
        first = false;
    }
    put_constant(out, first, form.constant)
}
