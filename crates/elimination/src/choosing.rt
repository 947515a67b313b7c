//! The number of a variable between its bounds.
ghost use Rattle.std.specs.Prelude.{◌≡◌, ◌↔◌, ◌≤◌, ◌<◌, ◌^◌, ◌*◌, ◌+◌, ◌*ℤ◌, pos, IsTrue, Some, None, unsigned_abs};
ghost use Rattle.elimination.specs.declared.bounding.Side.TheVariants.{Above};
ghost use Rattle.elimination.specs.Fractions.{HasBetween, IsAnyBound, IsBound, IsPicked, RespectsAny};

use crate::fractions::{Fraction, reduced, whole_from, whole_up_to};

/// A whole number multiplied by `over`.
fn times_over(whole: i128, over: u64) -> Fraction
    requires { unsigned_abs whole * over ≤ 2 ^ 126 + 2 ^ 56 }
    ensures number { result.number ≡ pos over *ℤ whole }
    ensures by { result.by ≡ 1 }
    ensures small { unsigned_abs result.number ≤ 2 ^ 126 + 2 ^ 56 }
{
    Fraction {
        number: i128::from(over) * whole,
        by: 1,
    }
}

/// Whether a whole number multiplied by `over` does not pass the upper bound.
fn reaches(upper: Option<Fraction>, whole: i128, over: u64) -> bool
    requires upper { IsAnyBound upper }
    requires positive { 0 < over }
    requires small { over ≤ 2 ^ 56 }
    ensures { IsTrue result ↔ RespectsAny Above upper 1 (pos over *ℤ whole) }
{
    match upper {
        None => true,
        Some(upper) => whole <= whole_up_to(upper, over),
    }
}

/// The least whole number from the lower bound on, where the upper bound allows it; else the lower bound.
fn pick_from(lower: Fraction, upper: Option<Fraction>, over: u64) -> Fraction
    requires lower { IsBound lower }
    requires upper { IsAnyBound upper }
    requires positive { 0 < over }
    requires small { over ≤ 2 ^ 56 }
    requires some { HasBetween (Some lower) upper }
    ensures { IsPicked (Some lower) upper over result }
{
    let least = whole_from(lower, over);
    if !reaches(upper, least, over) {
        return reduced(lower);
    }
    times_over(least, over)
}

/// The greatest whole number up to the upper bound; without one 0.
fn pick_up_to(upper: Option<Fraction>, over: u64) -> Fraction
    requires upper { IsAnyBound upper }
    requires positive { 0 < over }
    requires small { over ≤ 2 ^ 56 }
    ensures { IsPicked None upper over result }
{
    match upper {
        None => times_over(0, over),
        Some(upper) => times_over(whole_up_to(upper, over), over),
    }
}

/// The number that is chosen between bounds on its multiple by `over`, as this multiple in lowest terms.
pub(crate) fn pick(lower: Option<Fraction>, upper: Option<Fraction>, over: u64) -> Fraction
    requires lower { IsAnyBound lower }
    requires upper { IsAnyBound upper }
    requires positive { 0 < over }
    requires small { over ≤ 2 ^ 56 }
    requires some { HasBetween lower upper }
    ensures { IsPicked lower upper over result }
{
    match lower {
        None => pick_up_to(upper, over),
        Some(lower) => pick_from(lower, upper, over),
    }
}
