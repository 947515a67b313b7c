//! Combinations of two rows in which a variable cancels.
ghost use Rattle.std.specs.Prelude.{◌≡◌, ◌<◌, ◌≤◌, ◌^◌, ◌≤ℤ◌, ◌<ℤ◌, ℕ, pos, neg_ℤ, map, true, false, All, IfOk, OnOk, IfSome, is_some, unsigned_abs};
ghost use Rattle.std.specs.List.{list_all};
ghost use Rattle.affine_rows.specs.Rows.{Env, IsRow};
ghost use Rattle.affine_rows.specs.Reduced.{AreRising, HoldsOver, IsSomeRow, combination, common_divisor, divided_row, divided_term, factor_of, fits_entry, fits_row, mixed_row, reduced_row};

use crate::divide::{greatest_divisor, quotient};
use crate::fault::RowFault;
use crate::mix::{mixed_terms, products};
use crate::row::Row;
use crate::terms::Terms;
use std::alloc::Global;

/// The most that an entry may be, without its sign.
const WIDEST: u128 = 1 << 62;

/// The factor of a variable in terms that rise, 0 where it does not occur. Takes no memory.
pub fn factor(terms: &[(u32, i64)], var: u32) -> i64
    requires { AreRising terms.now }
    ensures { result ≡ factor_of var terms.now }
{
    for &(other, factor) in terms {
        if other == var {
            return factor;
        }
    }
    0
}

fn negated(number: i64) -> i64
    requires { unsigned_abs number ≤ 2 ^ 62 }
    ensures { result ≡ neg_ℤ number }
{
    -number
}

fn wide_divisor(start: u128, terms: &[(u32, i128)]) -> u128
    requires start { start ≤ 2 ^ 126 }
    requires terms { All (λ t. unsigned_abs t.1 ≤ 2 ^ 126) terms.now }
    ensures value { result ≡ common_divisor start terms.now }
    ensures positive { 0 < result }
    ensures small { result ≤ 2 ^ 126 }
{
    let mut divisor = start;
    for term in terms {
        divisor = greatest_divisor(divisor, term.1.unsigned_abs());
    }
    divisor.max(1)
}

/// The same number, where it does not pass 2^62 in absolute value.
fn narrow(wide: i128) -> Option<i64>
    ensures same { IfSome result (λ narrow. narrow ≡ wide) }
    ensures fits { is_some result ≡ fits_entry wide }
{
    if wide.unsigned_abs() > WIDEST {
        return None;
    }
    Some(wide as i64)
}

/// The term with its factor divided, where that does not pass 2^62 in absolute value.
fn narrow_term(term: (u32, i128), by: u128) -> Option<(u32, i64)>
    requires positive { 0 < by }
    requires small { by ≤ 2 ^ 126 }
    ensures same { IfSome result (λ narrow. narrow ≡ divided_term by term) }
    ensures fits { is_some result ≡ fits_entry (divided_term by term).1 }
{
    let factor = narrow(quotient(term.1, by))?;
    Some((term.0, factor))
}

/// The terms with their factors divided, where none passes 2^62 in absolute value.
fn narrow_terms(alloc: Global, wide: &[(u32, i128)], by: u128) -> Result<Terms, RowFault>
    requires positive { 0 < by }
    requires small { by ≤ 2 ^ 126 }
    ensures same { IfOk result (λ terms. terms ≡ map (divided_term by) wide.now) }
    ensures fits { OnOk result (list_all (λ t. fits_entry (divided_term by t).1) wide.now ≡ true) }
    ensures wide { result ≡ Err RowFault.Wide → list_all (λ t. fits_entry (divided_term by t).1) wide.now ≡ false }
{
    let mut terms = Terms::with_capacity(alloc, wide.len())?;
    for term in wide {
        terms.push(narrow_term(*term, by).ok_or(RowFault::Wide)?)?;
    }
    Ok(terms)
}

/// p times one row plus q times another, divided by the greatest common divisor of its entries. `Wide` comes exactly where
/// an entry of it passes 2^62 in absolute value.
pub fn reduced_sum(alloc: Global, left: &Row, p: i64, right: &Row, q: i64) -> Result<Row, RowFault>
    requires p_small { unsigned_abs p ≤ 2 ^ 62 }
    requires q_small { unsigned_abs q ≤ 2 ^ 62 }
    requires left_rising { AreRising left.now.terms }
    requires right_rising { AreRising right.now.terms }
    ensures value { IfOk result (λ row. row ≡ reduced_row (mixed_row p left.now q right.now)) }
    ensures fits { OnOk result (fits_row (reduced_row (mixed_row p left.now q right.now)) ≡ true) }
    ensures wide { result ≡ Err RowFault.Wide → fits_row (reduced_row (mixed_row p left.now q right.now)) ≡ false }
{
    let constant = products(p, left.constant, q, right.constant);
    let terms = mixed_terms(alloc, left.terms.as_slice(), p, right.terms.as_slice(), q)?;
    let by = wide_divisor(constant.unsigned_abs(), &terms);
    let Some(constant) = narrow(quotient(constant, by)) else {
        return Err(RowFault::Wide);
    };
    let terms = narrow_terms(alloc, &terms, by)?;
    Ok(Row {
        constant,
        terms,
        equal: left.equal && right.equal,
    })
}

/// The reduced positive combination of a row with a positive coefficient of the variable and one with a negative
/// coefficient, in which the variable cancels: an equality exactly where both are. `Wide` comes exactly where an entry of
/// the reduced combination passes 2^62 in absolute value.
pub fn combine(alloc: Global, lower: &Row, upper: &Row, var: u32) -> Result<Row, RowFault>
    requires lower_row { IsSomeRow lower.now }
    requires upper_row { IsSomeRow upper.now }
    requires below { pos 0 <ℤ factor_of var lower.now.terms }
    requires above { factor_of var upper.now.terms <ℤ pos 0 }
    ensures value { IfOk result (λ row. row ≡ reduced_row (combination var lower.now upper.now)) }
    ensures fits { OnOk result (fits_row (reduced_row (combination var lower.now upper.now)) ≡ true) }
    ensures wide { result ≡ Err RowFault.Wide → fits_row (reduced_row (combination var lower.now upper.now)) ≡ false }
    ensures without { IfOk result (λ row. factor_of var row.terms ≡ pos 0) }
    ensures follows { IfOk result (λ row. (over : ℕ) (at : Env) → HoldsOver over at lower.now → HoldsOver over at upper.now → HoldsOver over at row) }
    ensures row { IfOk result (λ row. (width : ℕ) → IsRow width lower.now → IsRow width upper.now → IsRow width row) }
{
    let below = factor(lower.terms.as_slice(), var);
    let above = negated(factor(upper.terms.as_slice(), var));
    reduced_sum(alloc, lower, above, upper, below)
}
