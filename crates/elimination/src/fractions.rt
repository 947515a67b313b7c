//! Fractions with a positive denominator.
ghost use Rattle.std.specs.Prelude.{◌≡◌, ◌↔◌, ◌≤◌, ◌<◌, ◌^◌, ◌*◌, ◌+◌, ◌+ℤ◌, ◌-ℤ◌, ◌*ℤ◌, ◌≤ℤ◌, ◌<ℤ◌, ℕ, pos, neg_ℤ, IsTrue, unsigned_abs};
ghost use Rattle.std.specs.Int.{◌∣◌, int_div_euclid};
ghost use Rattle.elimination.specs.Fractions.{IsAtMost, IsBound, IsReduced, IsSame};

/// The fraction `number / by`, where `by` is above 0.
#[derive(Clone, Copy)]
pub(crate) struct Fraction {
    pub number: i128,
    pub by: u64,
}

/// A whole number and a part below 1, counted in parts of the denominator.
#[derive(Clone, Copy)]
struct Mixed {
    whole: i128,
    part: u64,
}

fn parts_of(fraction: Fraction) -> Mixed
    requires { 0 < fraction.by }
    ensures value { fraction.number ≡ pos fraction.by *ℤ result.whole +ℤ pos result.part }
    ensures part { result.part < fraction.by }
{
    let by = i128::from(fraction.by);
    Mixed {
        whole: fraction.number.div_euclid(by),
        part: fraction.number.rem_euclid(by) as u64,
    }
}

fn product(left: u64, right: u64) -> u128
    ensures { result ≡ left * right }
{
    u128::from(left) * u128::from(right)
}

/// Whether the first fraction is at most the second.
pub(crate) fn is_at_most(first: Fraction, second: Fraction) -> bool
    requires first { 0 < first.by }
    requires second { 0 < second.by }
    ensures { IsTrue result ↔ IsAtMost first second }
{
    let left = parts_of(first);
    let right = parts_of(second);
    if left.whole != right.whole {
        return left.whole < right.whole;
    }
    product(left.part, second.by) <= product(right.part, first.by)
}

/// The greatest common divisor, by Euclid's algorithm.
fn common_divisor(a: u128, b: u128) -> u128
    requires { 0 < b }
    ensures first { result ∣ a }
    ensures second { result ∣ b }
    ensures some { 0 < result }
    ensures small { result ≤ b }
    ensures greatest { (m t : ℕ) → m ∣ t * a → m ∣ t * b → m ∣ t * result }
{
    let mut first = a;
    let mut second = b;
    'steps: while second != 0 {
        let rest = first % second;
        first = second;
        second = rest;
    }
    first
}

/// The quotient, rounded down.
fn quotient(number: i128, by: u128) -> i128
    requires positive { 0 < by }
    requires small { by ≤ 2 ^ 126 }
    ensures value { result ≡ int_div_euclid number (pos by) }
    ensures small { unsigned_abs result ≤ unsigned_abs number }
{
    number.div_euclid(by as i128)
}

/// The same fraction in lowest terms.
pub(crate) fn reduced(fraction: Fraction) -> Fraction
    requires { IsBound fraction }
    ensures same { IsSame fraction result }
    ensures reduced { IsReduced result }
    ensures bound { IsBound result }
{
    let by = u128::from(fraction.by);
    let divisor = common_divisor(fraction.number.unsigned_abs(), by);
    Fraction {
        number: quotient(fraction.number, divisor),
        by: (by / divisor) as u64,
    }
}

pub(crate) fn negated(number: i128) -> i128
    requires { unsigned_abs number ≤ 2 ^ 126 }
    ensures value { result ≡ neg_ℤ number }
    ensures small { unsigned_abs result ≤ 2 ^ 126 }
{
    -number
}

/// The greatest whole number up to the fraction divided by `over`.
pub(crate) fn whole_up_to(fraction: Fraction, over: u64) -> i128
    requires bound { IsBound fraction }
    requires positive { 0 < over }
    requires small { over ≤ 2 ^ 56 }
    ensures low { (pos (fraction.by * over) *ℤ result) ≤ℤ fraction.number }
    ensures high { fraction.number <ℤ (pos (fraction.by * over) *ℤ (result +ℤ pos 1)) }
    ensures size { unsigned_abs result ≤ 2 ^ 126 }
    ensures times { unsigned_abs result * over ≤ 2 ^ 126 + 2 ^ 56 }
{
    quotient(fraction.number, product(fraction.by, over))
}

/// The least whole number from the fraction divided by `over` on.
pub(crate) fn whole_from(fraction: Fraction, over: u64) -> i128
    requires bound { IsBound fraction }
    requires positive { 0 < over }
    requires small { over ≤ 2 ^ 56 }
    ensures low { (pos (fraction.by * over) *ℤ (result -ℤ pos 1)) <ℤ fraction.number }
    ensures high { fraction.number ≤ℤ (pos (fraction.by * over) *ℤ result) }
    ensures times { unsigned_abs result * over ≤ 2 ^ 126 + 2 ^ 56 }
{
    let opposite = Fraction {
        number: negated(fraction.number),
        by: fraction.by,
    };
    negated(whole_up_to(opposite, over))
}
