//! The forms that are put for joined inames.
ghost use Rattle.std.specs.Prelude.{◌≤ℤ◌, pos};

use affine_rows::{Form, Listed};
use axis_rules::Extent;
use quasi_forms::{FormFault, floor_of, sum_of};
use std::alloc::{AllocError, Global};

/// A joined iname but the first, with its bounds.
#[derive(Clone, Copy)]
pub(crate) struct Fast {
    pub(crate) iname: u32,
    pub(crate) bounds: Extent,
}

/// How many numbers there are between the bounds, and 1 where the greatest is below the least.
fn extent_of(bounds: Extent) -> i64
    ensures { pos 1 ≤ℤ result }
{
    let count = bounds
        .greatest
        .saturating_sub(bounds.least)
        .saturating_add(1);
    if count < 1 { 1 } else { count }
}

/// The most that the constant of a form may be.
const LARGEST: u64 = 4_611_686_018_427_387_904;

/// A number as a form.
fn constant(alloc: Global, number: i64) -> Result<Form, FormFault> {
    if number.unsigned_abs() > LARGEST {
        return Err(FormFault::Limit);
    }
    Ok(Form::affine(alloc, number, Listed::new(alloc)))
}

/// `least + at % extent`, where `floor` is `at // extent`.
fn digit(alloc: Global, least: i64, extent: i64, at: &Form, floor: &Form) -> Result<Form, FormFault>
    requires { pos 1 ≤ℤ extent }
{
    let sum = sum_of(alloc, &constant(alloc, least)?, 1, at)?;
    sum_of(alloc, &sum, -extent, floor)
}

/// Inames with the forms that are put for them.
#[derive(Drop)]
pub(crate) struct Digits {
    pub(crate) inames: Vec<u32>,
    pub(crate) forms: Vec<Form>,
}

fn add(digits: &mut Digits, iname: u32, form: Form) -> Result<(), AllocError> {
    digits.inames.push(iname)?;
    digits.forms.push(form)?;
    Ok(())
}

/// The forms over the joined iname: each fast iname, the last one first, takes a digit of what is left, and the first joined iname
/// is what is left then. `Limit` comes where a form passes its limit.
pub(crate) fn digits_of(
    alloc: Global,
    joined: u32,
    first: u32,
    fast: &[Fast],
) -> Result<Digits, FormFault> {
    let mut digits = Digits {
        inames: Vec::new(alloc),
        forms: Vec::new(alloc),
    };
    let mut left = Form::affine(alloc, 0, Listed::of_one(alloc, (joined, 1))?);
    for own in fast.iter().rev() {
        let extent = extent_of(own.bounds);
        let floor = floor_of(alloc, &left, extent)?;
        let form = digit(alloc, own.bounds.least, extent, &left, &floor)?;
        add(&mut digits, own.iname, form)?;
        left = floor;
    }
    add(&mut digits, first, left)?;
    Ok(digits)
}
