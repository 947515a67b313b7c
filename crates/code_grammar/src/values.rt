//! Values, and what stands between `if (` and a block.
use crate::endings::read_index_test;
use crate::forms::read_form;
use crate::kinds::Kinds;
use crate::lists::push;
use crate::reader::{Reader, Stop};
use crate::reading::{Goal, Open, Part, Reading, Step, Typing};
use crate::trees::Asked;
use affine_rows::{Form, Listed};
use code_tree::QuasiRow;
use expr_tree::{Expr, Test};
use wrap_words::Kind;

/// The condition of a block: rows, or a data test with the kinds that may be asked of it.
#[derive(Drop)]
pub enum Condition {
    Rows(Listed<QuasiRow>),
    Test(Test, Kinds),
}

/// A value of a kind.
pub fn read_value(reader: &mut Reader, kind: Kind) -> Result<Expr, Stop> {
    let outside = Vec::new(reader.alloc);
    let typing = Typing::of_kind(kind);
    let mut reading = Reading { outside, typing };
    let part = reading.run(reader, Step::Begin(Goal::Value))?;
    Ok(part.value()?.tree)
}

/// Takes the comparison of a row with 0, if it stands here, and tells whether it is an equation.
fn takes_row_sign(reader: &mut Reader) -> Option<bool> {
    if reader.takes(" >= 0") {
        Some(false)
    } else if reader.takes(" == 0") {
        Some(true)
    } else {
        None
    }
}

/// The rows behind the first one.
fn read_rows(reader: &mut Reader, first: QuasiRow) -> Result<Condition, Stop> {
    let mut rows = Listed::of_one(reader.alloc, first)?;
    for _ in 0..reader.rest.len() {
        if !reader.takes(" && ") {
            break;
        }
        let form = read_form(reader)?;
        let equal = takes_row_sign(reader).ok_or(Stop::Refused)?;
        rows.push(QuasiRow { form, equal })?;
    }
    reader.take(")")?;
    Ok(Condition::Rows(rows))
}

fn tested(asked: Asked) -> Condition {
    Condition::Test(asked.test, asked.asks)
}

/// What follows a first form: rows, or a comparison with another form, which is none by `==` with 0.
fn read_form_condition(reader: &mut Reader, form: Form, asks: Kinds) -> Result<Condition, Stop> {
    match takes_row_sign(reader) {
        Some(equal) => read_rows(reader, QuasiRow { form, equal }),
        None => Ok(tested(read_index_test(reader, form, asks)?)),
    }
}

/// What stands behind `if (`, up to the last parenthesis. These kinds may be asked of a data test.
pub fn read_condition(reader: &mut Reader, asks: Kinds) -> Result<Condition, Stop> {
    let outside = Vec::new(reader.alloc);
    let typing = Typing::of_asked(asks, 1);
    let mut reading = Reading { outside, typing };
    let may_choose = false;
    let step = if reader.takes("!") {
        reader.take("(")?;
        reading.open(Open::Not, Goal::Group { asks, may_choose })?
    } else {
        match reading.run(reader, Step::Begin(Goal::Side(asks)))? {
            Part::Index(form) => return read_form_condition(reader, form, asks),
            part => {
                let outer = reading.typing;
                push(&mut reading.outside, Open::Group { outer, may_choose })?;
                Step::End(part)
            }
        }
    };
    Ok(tested(reading.run(reader, step)?.test()?))
}
