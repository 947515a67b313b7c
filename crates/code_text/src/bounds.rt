//! Bounds and subscripts.
ghost use Rattle.std.specs.Prelude.{◌≡◌, ◌++◌, OnOk, map, codes};
ghost use Rattle.text_writer.specs.Bytes.{in_round};
ghost use Rattle.code_text.specs.FormText.{form_text, quotient_text};
ghost use Rattle.code_text.specs.BoundText.{bound_text, list_text, places_text, turn_text, flat_text};
ghost use Rattle.code_text.specs.Names.{name_text};

use crate::forms::write_form;
use affine_rows::Form;
use code_tree::{Bound, Code, Flat};
use std::alloc::AllocError;
use text_writer::{put, put_number, put_repeated};

/// Adds a form divided by a number and rounded down.
fn write_quotient(out: &mut Vec<u8>, code: &Code, form: &Form, by: i64) -> Result<(), AllocError>
    ensures { OnOk result (out.new.items ≡ out.old.items ++ quotient_text (form_text (name_text code.now) form.now) by) }
{
    put(out, "lp_fd(")?;
    write_form(out, code, form.quasi())?;
    put(out, ", ")?;
    put_number(out, by)?;
    put(out, ")")
}

/// Adds the least or the greatest of the bounds.
#[cycle(bound)]
fn write_list(
    out: &mut Vec<u8>,
    code: &Code,
    call: &str,
    bounds: &[Bound],
) -> Result<(), AllocError>
    ensures { OnOk result (out.new.items ≡ out.old.items ++ list_text call.now (map (bound_text (name_text code.now)) bounds.now)) }
{
    if bounds.is_empty() {
        return Ok(());
    }
    let last = bounds.len() - 1;
    for i in 0..last {
        put(out, call)?;
        put(out, "(")?;
        write_bound(out, code, &bounds[i])?;
        put(out, ", ")?;
    }
    write_bound(out, code, &bounds[last])?;
    put_repeated(out, ")", last)
}

/// Adds a bound.
#[cycle(bound)]
pub fn write_bound(out: &mut Vec<u8>, code: &Code, bound: &Bound) -> Result<(), AllocError>
    ensures { OnOk result (out.new.items ≡ out.old.items ++ bound_text (name_text code.now) bound.now) }
{
    match bound {
        Bound::Form(form) => write_form(out, code, form.quasi()),
        Bound::FloorOf(form, by) => write_quotient(out, code, form, *by),
        Bound::MinusFloorOf(form, by) => {
            put(out, "-")?;
            write_quotient(out, code, form, *by)
        }
        Bound::Least(bounds) => write_list(out, code, "lp_min", bounds.as_slice()),
        Bound::Greatest(bounds) => write_list(out, code, "lp_max", bounds.as_slice()),
    }
}

/// Adds a form in parentheses.
fn write_round(out: &mut Vec<u8>, code: &Code, form: &Form) -> Result<(), AllocError>
    ensures { OnOk result (out.new.items ≡ out.old.items ++ in_round (form_text (name_text code.now) form.now)) }
{
    put(out, "(")?;
    write_form(out, code, form.quasi())?;
    put(out, ")")
}

/// Adds a shape entry as a factor, and the next place.
fn write_turn(out: &mut Vec<u8>, code: &Code, shape: &Form, place: &Form) -> Result<(), AllocError>
    ensures { OnOk result (out.new.items ≡ out.old.items ++ turn_text (form_text (name_text code.now) shape.now) (form_text (name_text code.now) place.now)) }
{
    put(out, "*")?;
    write_round(out, code, shape)?;
    put(out, " + ")?;
    write_round(out, code, place)?;
    put(out, ")")
}

/// Adds the subscript of several places.
fn write_places(
    out: &mut Vec<u8>,
    code: &Code,
    places: &[Form],
    shapes: &[Form],
) -> Result<(), AllocError>
    ensures { OnOk result (out.new.items ≡ out.old.items ++ places_text (map (form_text (name_text code.now)) places.now) (map (form_text (name_text code.now)) shapes.now)) }
{
    if places.is_empty() {
        return Ok(());
    }
    let turns = (places.len() - 1).min(shapes.len());
    put_repeated(out, "(", turns)?;
    write_round(out, code, &places[0])?;
    for i in 0..turns {
        write_turn(out, code, &shapes[i], &places[i + 1])?;
    }
    Ok(())
}

/// Adds a subscript.
pub fn write_flat(out: &mut Vec<u8>, code: &Code, flat: &Flat) -> Result<(), AllocError>
    ensures { OnOk result (out.new.items ≡ out.old.items ++ flat_text (name_text code.now) flat.now) }
{
    match flat {
        Flat::Form(form) => write_form(out, code, form.quasi()),
        Flat::Horner(places, shapes) => write_places(
            out,
            code,
            places.as_slice(),
            shapes.as_slice(),
        ),
    }
}
