//! Index values as the code works them out: in text order, each product and sum within 64 signed bits.
use affine_rows::{Floor, Form, Quasi};
use code_tree::{Bound, Flat, QuasiRow};
use wrap_words::floor_div;

/// The numbers of a code's variables, as an item sees them: those of the parameters, and the item's own, its axes and its
/// loop variables. They are the variables in this order.
#[derive(Clone, Copy)]
pub struct Numbers<'a> {
    pub params: &'a [i64],
    pub own: &'a [i64],
}

impl Numbers<'_> {
    /// The number of a variable.
    pub fn at(&self, var: u32) -> i64 {
        let var = var as usize;
        let number = if var < self.params.len() {
            self.params.get(var)
        } else {
            self.own.get(var - self.params.len())
        };
        number.copied().unwrap_or(0)
    }
}

/// Which of two numbers is chosen.
#[derive(Clone, Copy)]
pub enum Choice {
    Least,
    Greatest,
}

impl Choice {
    /// The lesser or the greater number.
    pub fn of(self, a: i64, b: i64) -> i64 {
        match self {
            Choice::Least => a.min(b),
            Choice::Greatest => a.max(b),
        }
    }
}

/// The number, where 64 signed bits hold it.
pub fn exact(number: i128) -> Option<i64> {
    if i128::from(i64::MIN) <= number && number <= i128::from(i64::MAX) {
        Some(number as i64)
    } else {
        None
    }
}

fn exact_sum(a: i64, b: i64) -> Option<i64> {
    exact(i128::from(a) + i128::from(b))
}

fn exact_product(a: i64, b: i64) -> Option<i64> {
    exact(i128::from(a) * i128::from(b))
}

/// The number divided by one of at least 1, rounded down.
pub fn quotient(number: i64, by: i64) -> i64 {
    if by < 1 { 0 } else { floor_div(number, by) }
}

/// The sum, if there are parts yet, with one part more: a factor and the number that it multiplies. The first part is one
/// product; a later one is a product without its sign, which is then added or taken away.
fn add_part(sum: Option<i64>, factor: i64, number: i64) -> Option<i64> {
    let Some(sum) = sum else {
        return exact_product(factor, number);
    };
    let product = i128::from(factor) * i128::from(number);
    if factor < 0 {
        exact(i128::from(sum) - i128::from(exact(-product)?))
    } else {
        exact_sum(sum, exact(product)?)
    }
}

#[cycle(form)]
fn exact_floor(floor: &Floor, numbers: &Numbers) -> Option<i64> {
    Some(quotient(exact_quasi(&floor.inner, numbers)?, floor.by))
}

/// The terms, then the floors, then the constant.
#[cycle(form)]
fn exact_quasi(form: &Quasi, numbers: &Numbers) -> Option<i64> {
    let mut sum = None;
    for (var, factor) in form.terms.as_slice() {
        sum = Some(add_part(sum, *factor, numbers.at(*var))?);
    }
    for floor in form.floors.as_slice() {
        sum = Some(add_part(sum, floor.times, exact_floor(floor, numbers)?)?);
    }
    exact(i128::from(sum.unwrap_or(0)) + i128::from(form.constant))
}

/// A form's value, or none where it overflows on the way.
pub fn exact_form(form: &Form, numbers: &Numbers) -> Option<i64> {
    exact_quasi(form.quasi(), numbers)
}

/// The numbers of a list's bounds brought together.
#[cycle(bound)]
fn chosen(choice: Choice, bounds: &[Bound], numbers: &Numbers) -> Option<i64> {
    let mut best = None;
    for bound in bounds {
        let number = exact_bound(bound, numbers)?;
        best = Some(choice.of(best.unwrap_or(number), number));
    }
    best
}

/// A bound's number, or none where it overflows on the way.
#[cycle(bound)]
pub fn exact_bound(bound: &Bound, numbers: &Numbers) -> Option<i64> {
    match bound {
        Bound::Form(form) => exact_form(form, numbers),
        Bound::FloorOf(form, by) => Some(quotient(exact_form(form, numbers)?, *by)),
        Bound::MinusFloorOf(form, by) => exact(-i128::from(quotient(
            exact_form(form, numbers)?,
            *by,
        ))),
        Bound::Least(bounds) => chosen(Choice::Least, bounds.as_slice(), numbers),
        Bound::Greatest(bounds) => chosen(Choice::Greatest, bounds.as_slice(), numbers),
    }
}

/// What the places before came to, times each next shape entry, plus the place there.
fn horner(so_far: i64, places: &[Form], shapes: &[Form], numbers: &Numbers) -> Option<i64> {
    let mut index = so_far;
    for at in 0..places.len() {
        let shape = exact_form(shapes.get(at)?, numbers)?;
        index = exact_product(index, shape)?;
        index = exact_sum(index, exact_form(&places[at], numbers)?)?;
    }
    Some(index)
}

/// A subscript, or none where it overflows on the way.
pub fn exact_flat(flat: &Flat, numbers: &Numbers) -> Option<i64> {
    match flat {
        Flat::Form(form) => exact_form(form, numbers),
        Flat::Horner(places, shapes) => match places.as_slice() {
            [] => None,
            [first, rest @ ..] => {
                horner(
                    exact_form(first, numbers)?,
                    rest,
                    shapes.as_slice(),
                    numbers,
                )
            }
        },
    }
}

/// Whether all rows hold, none where a row that is reached overflows.
pub fn exact_rows(rows: &[QuasiRow], numbers: &Numbers) -> Option<bool> {
    for row in rows {
        let value = exact_form(&row.form, numbers)?;
        if value < 0 || row.equal && value > 0 {
            return Some(false);
        }
    }
    Some(true)
}
