//! The ranges of bounds, as the count of steps and the launch numbers take them.
use crate::exact::{Choice, quotient};
use affine_rows::{Floor, Form, Quasi};
use code_tree::Bound;

/// The least and the greatest number.
#[derive(Clone, Copy)]
pub struct Range {
    pub low: i64,
    pub high: i64,
}

/// Brought into 64 signed bits.
pub fn near(number: i128) -> i64 {
    if number < i128::from(i64::MIN) {
        i64::MIN
    } else if number > i128::from(i64::MAX) {
        i64::MAX
    } else {
        number as i64
    }
}

/// One number alone.
pub fn only(number: i64) -> Range {
    Range {
        low: number,
        high: number,
    }
}

/// The sum of a range and of what lies from one number to another.
fn plus(range: Range, low: i128, high: i128) -> Range {
    Range {
        low: near(i128::from(range.low).saturating_add(low)),
        high: near(i128::from(range.high).saturating_add(high)),
    }
}

/// Times a number.
fn times(factor: i128, range: Range) -> Range {
    let low = near(factor.saturating_mul(i128::from(range.low)));
    let high = near(factor.saturating_mul(i128::from(range.high)));
    if factor < 0 {
        Range {
            low: high,
            high: low,
        }
    } else {
        Range { low, high }
    }
}

/// The sum, if there are parts yet, with one part more, in the order of products and sums in which a code works it out.
fn add_part(sum: Option<Range>, factor: i64, range: Range) -> Range {
    let factor = i128::from(factor);
    let Some(sum) = sum else {
        return times(factor, range);
    };
    if factor < 0 {
        let part = times(-factor, range);
        plus(sum, -i128::from(part.high), -i128::from(part.low))
    } else {
        let part = times(factor, range);
        plus(sum, i128::from(part.low), i128::from(part.high))
    }
}

/// Divided by a number of at least 1, rounded down.
fn divided(range: Range, by: i64) -> Range {
    Range {
        low: quotient(range.low, by),
        high: quotient(range.high, by),
    }
}

/// The range of a variable, by the ranges of all.
fn range_at(ranges: &[Range], var: u32) -> Range {
    ranges.get(var as usize).copied().unwrap_or(only(0))
}

#[cycle(range)]
fn floor_range(floor: &Floor, ranges: &[Range]) -> Range {
    divided(quasi_range(&floor.inner, ranges), floor.by)
}

/// The terms, then the floors, then the constant.
#[cycle(range)]
fn quasi_range(form: &Quasi, ranges: &[Range]) -> Range {
    let mut sum = None;
    for (var, factor) in form.terms.as_slice() {
        sum = Some(add_part(sum, *factor, range_at(ranges, *var)));
    }
    for floor in form.floors.as_slice() {
        sum = Some(add_part(sum, floor.times, floor_range(floor, ranges)));
    }
    let constant = i128::from(form.constant);
    plus(sum.unwrap_or(only(0)), constant, constant)
}

/// A form's range, by the ranges of the variables.
fn form_range(form: &Form, ranges: &[Range]) -> Range {
    quasi_range(form.quasi(), ranges)
}

/// The ranges of a list's bounds brought together.
#[cycle(bound)]
fn range_choice(choice: Choice, bounds: &[Bound], ranges: &[Range]) -> Range {
    let mut best = None;
    for bound in bounds {
        let range = bound_range(bound, ranges);
        let before = best.unwrap_or(range);
        best = Some(Range {
            low: choice.of(before.low, range.low),
            high: choice.of(before.high, range.high),
        });
    }
    best.unwrap_or(only(0))
}

/// A bound's range, by the ranges of the variables.
#[cycle(bound)]
pub fn bound_range(bound: &Bound, ranges: &[Range]) -> Range {
    match bound {
        Bound::Form(form) => form_range(form, ranges),
        Bound::FloorOf(form, by) => divided(form_range(form, ranges), *by),
        Bound::MinusFloorOf(form, by) => times(-1, divided(form_range(form, ranges), *by)),
        Bound::Least(bounds) => range_choice(Choice::Least, bounds.as_slice(), ranges),
        Bound::Greatest(bounds) => range_choice(Choice::Greatest, bounds.as_slice(), ranges),
    }
}
