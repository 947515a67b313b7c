//! Index forms.
ghost use Rattle.std.specs.Prelude.{◌≤ℤ◌, pos, IfOk};

use crate::growing::Growing;
use crate::lists::push;
use crate::numbers::positive;
use crate::reader::{Limit, Reader, Stop};
use affine_rows::Form;
use std::alloc::{AllocError, Global};

/// The greatest factor, constant and divisor.
const MOST: u64 = 1 << 62;

/// Which part of a form was read last: none, a variable, a floor, or a constant, which ends it.
#[derive(Clone, Copy, Debug, PartialEq, Eq)]
enum Last {
    Nothing,
    Variable,
    Floor,
    Constant,
}

/// A form that is not yet read to its end.
#[derive(Drop)]
struct OpenForm {
    form: Growing,
    last: Last,
}

/// A form in which a floor with this factor has begun.
#[derive(Drop)]
struct OuterForm {
    form: Growing,
    times: i64,
}

/// What a form may be: any, or no plain number.
#[derive(Clone, Copy, Debug, PartialEq, Eq)]
pub enum Sort {
    Any,
    NoNumber,
}

/// What stands next in a form: a part that is read, a floor that has begun with its factor, or the end of the form.
enum Next {
    Part,
    Floor { times: i64 },
    End,
}

/// A factor, a constant or a divisor, which passes a limit where it is too large.
fn take_entry(reader: &mut Reader) -> Result<i64, Stop>
    ensures { IfOk result (λ n. pos 1 ≤ℤ n) }
{
    let number = positive(reader)?;
    if number > MOST {
        reader.pass(Limit::Form);
    }
    Ok(number.max(1).min(MOST) as i64)
}

fn signed(is_negative: bool, number: i64) -> i64 {
    if is_negative {
        number.saturating_neg()
    } else {
        number
    }
}

/// The sign before a part, and none where the form ends. Before a first part only a minus stands.
fn takes_sign(reader: &mut Reader, last: Last) -> Option<bool> {
    match last {
        Last::Nothing => Some(reader.takes("-")),
        Last::Constant => None,
        Last::Variable | Last::Floor => takes_joint(reader),
    }
}

/// The sign between two parts, if one stands here.
fn takes_joint(reader: &mut Reader) -> Option<bool> {
    if reader.takes(" + ") {
        Some(false)
    } else if reader.takes(" - ") {
        Some(true)
    } else {
        None
    }
}

/// A variable or the beginning of a floor, with its factor. After a floor no variable stands.
fn read_atom(reader: &mut Reader, open: &mut OpenForm, factor: i64) -> Result<Next, Stop> {
    if open.last != Last::Floor {
        if let Some(var) = reader.takes_var()? {
            open.add_var(reader, var, factor)?;
            return Ok(Next::Part);
        }
    }
    reader.take("lp_fd(")?;
    Ok(Next::Floor { times: factor })
}

/// A part that begins with a number: a factor, which is not 1, with what it multiplies, or the constant.
fn read_number(
    reader: &mut Reader,
    open: &mut OpenForm,
    is_negative: bool,
    sort: Sort,
) -> Result<Next, Stop> {
    let number = take_entry(reader)?;
    let value = signed(is_negative, number);
    if number != 1 && reader.takes("*") {
        return read_atom(reader, open, value);
    }
    if sort == Sort::NoNumber && open.last == Last::Nothing {
        return Err(Stop::Refused);
    }
    open.set_constant(reader, value);
    Ok(Next::Part)
}

/// The next part of a form.
fn read_next(reader: &mut Reader, open: &mut OpenForm, sort: Sort) -> Result<Next, Stop> {
    if open.last == Last::Nothing && sort == Sort::Any && reader.takes("0") {
        return Ok(Next::End);
    }
    let Some(is_negative) = takes_sign(reader, open.last) else {
        return Ok(Next::End);
    };
    if reader.digits().is_empty() {
        read_atom(reader, open, signed(is_negative, 1))
    } else {
        read_number(reader, open, is_negative, sort)
    }
}

/// Where a limit is passed, the line passes it.
fn pass_if(reader: &mut Reader, limit: Option<Limit>) {
    if let Some(limit) = limit {
        reader.pass(limit);
    }
}

impl OpenForm {
    fn new(alloc: Global) -> OpenForm {
        OpenForm {
            form: Growing::new(alloc),
            last: Last::Nothing,
        }
    }

    fn add_var(&mut self, reader: &mut Reader, var: u32, factor: i64) -> Result<(), AllocError> {
        pass_if(reader, self.form.add_term(var, factor)?);
        self.last = Last::Variable;
        Ok(())
    }

    fn set_constant(&mut self, reader: &mut Reader, constant: i64) {
        pass_if(reader, self.form.set_constant(constant));
        self.last = Last::Constant;
    }
}

impl OuterForm {
    /// The rest of the floor behind the form under it. The form round it goes on.
    fn close(self, reader: &mut Reader, inner: Growing) -> Result<OpenForm, Stop> {
        let OuterForm {
            form: mut outer,
            times,
        } = self;
        reader.take(", ")?;
        let by = take_entry(reader)?;
        reader.take(")")?;
        pass_if(reader, outer.add_floor(times, inner, by)?);
        Ok(OpenForm {
            form: outer,
            last: Last::Floor,
        })
    }
}

/// The rest of a form. Each turn but the last takes a byte.
fn read_open(reader: &mut Reader, open: OpenForm, sort: Sort) -> Result<Growing, Stop> {
    let mut open = open;
    let mut outer = Vec::new(reader.alloc);
    for _ in 0..=reader.rest.len() {
        let sort = if outer.is_empty() { sort } else { Sort::Any };
        match read_next(reader, &mut open, sort)? {
            Next::Part => {}
            Next::Floor { times } => {
                let form = open.form;
                push(&mut outer, OuterForm { form, times })?;
                open = OpenForm::new(reader.alloc);
            }
            Next::End => match outer.pop() {
                None => return Ok(open.form),
                Some(around) => open = around.close(reader, open.form)?,
            },
        }
    }
    Err(Stop::Refused)
}

/// An index form of a sort.
pub fn read_growing(reader: &mut Reader, sort: Sort) -> Result<Growing, Stop> {
    let open = OpenForm::new(reader.alloc);
    read_open(reader, open, sort)
}

/// An index form.
pub fn read_form(reader: &mut Reader) -> Result<Form, Stop> {
    Ok(read_growing(reader, Sort::Any)?.into_form())
}

/// An index form behind its first variable.
pub fn read_form_from(reader: &mut Reader, var: u32) -> Result<Form, Stop> {
    let mut open = OpenForm::new(reader.alloc);
    open.add_var(reader, var, 1)?;
    Ok(read_open(reader, open, Sort::Any)?.into_form())
}
