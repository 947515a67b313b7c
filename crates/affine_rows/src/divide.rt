//! Rows divided by the greatest common divisor of their entries.
ghost use Rattle.std.specs.Prelude.{◌≡◌, ◌↔◌, ◌<◌, ◌≤◌, ◌^◌, ℕ, ℤ, pos, false, unsigned_abs};
ghost use Rattle.std.specs.Int.{int_div_euclid};
ghost use Rattle.affine_rows.specs.Rows.{Env, Holds, IsRow};
ghost use Rattle.affine_rows.specs.Reduced.{HoldsOver, common_divisor, divided_row, divided_term, greatest_divisor, reduced_row, tightened_row};

use crate::row::Row;

/// The greatest common divisor of two numbers, by Euclid's algorithm; 0 for two zeros.
pub(crate) fn greatest_divisor(a: u128, b: u128) -> u128
    ensures { result ≡ greatest_divisor a b }
{
    let mut first = a;
    let mut second = b;
    'steps: while second != 0 {
        let rest = first % second;
        first = second;
        second = rest;
    }
    first
}

/// The greatest common divisor of a number and all factors, 1 for zeros.
fn common_divisor(start: u128, terms: &[(u32, i64)]) -> u128
    requires start { start ≤ 2 ^ 126 }
    ensures value { result ≡ common_divisor start terms.now }
    ensures positive { 0 < result }
    ensures small { result ≤ 2 ^ 126 }
{
    let mut divisor = start;
    for term in terms {
        divisor = greatest_divisor(divisor, u128::from(term.1.unsigned_abs()));
    }
    divisor.max(1)
}

/// The quotient, rounded down.
pub(crate) fn quotient(number: i128, by: u128) -> i128
    requires positive { 0 < by }
    requires small { by ≤ 2 ^ 126 }
    ensures value { result ≡ int_div_euclid number (pos by) }
    ensures small { unsigned_abs result ≤ unsigned_abs number }
{
    number.div_euclid(by as i128)
}

fn narrow_quotient(number: i64, by: u128) -> i64
    requires positive { 0 < by }
    requires small { by ≤ 2 ^ 126 }
    ensures { result ≡ int_div_euclid number (pos by) }
{
    quotient(i128::from(number), by) as i64
}

/// The term with its factor divided, rounded down.
pub(crate) fn divided_term(term: (u32, i64), by: u128) -> (u32, i64)
    requires positive { 0 < by }
    requires small { by ≤ 2 ^ 126 }
    ensures { result ≡ divided_term by term }
{
    (term.0, narrow_quotient(term.1, by))
}

fn divide(row: &mut Row, by: u128)
    requires positive { 0 < by }
    requires small { by ≤ 2 ^ 126 }
    ensures { row.new ≡ divided_row by row.old }
{
    row.constant = narrow_quotient(row.constant, by);
    row.terms.divide(by);
}

/// Divides the row by the greatest common divisor of all entries, the constant included, which keeps its rational
/// points. A row of zeros stays as it is. Takes no memory.
pub fn reduce(row: &mut Row)
    ensures value { row.new ≡ reduced_row row.old }
    ensures points { (over : ℕ) (at : Env) → HoldsOver over at row.new ↔ HoldsOver over at row.old }
    ensures row { (width : ℕ) → IsRow width row.old → IsRow width row.new }
{
    let start = u128::from(row.constant.unsigned_abs());
    let by = common_divisor(start, row.terms.as_slice());
    divide(row, by);
}

/// Divides an inequality by the greatest common divisor of its coefficients and rounds the constant down, which keeps
/// its integer points. Takes no memory.
pub fn tighten(row: &mut Row)
    requires inequality { row.old.equal ≡ false }
    ensures value { row.new ≡ tightened_row row.old }
    ensures points { (at : Env) → Holds at row.new ↔ Holds at row.old }
    ensures row { (width : ℕ) → IsRow width row.old → IsRow width row.new }
{
    let by = common_divisor(0, row.terms.as_slice());
    divide(row, by);
}
