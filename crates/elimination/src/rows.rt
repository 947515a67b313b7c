//! What a row says of one variable.
ghost use Rattle.std.specs.Prelude.{◌≡◌, All, count_by, length};
ghost use Rattle.std.specs.List.{position_or_len};
ghost use Rattle.affine_rows.specs.Reduced.{IsSomeRow, factor_of};
ghost use Rattle.elimination.specs.Stages.{bounds_above, bounds_below, cancelled_rows, determines, is_without};

use affine_rows::{Row, factor};

/// The factor of the variable in a row.
pub(crate) fn factor_in(row: &Row, var: u32) -> i64
    requires { IsSomeRow row.now }
    ensures { result ≡ factor_of var row.now.terms }
{
    factor(row.terms.as_slice(), var)
}

fn determines(row: &Row, var: u32) -> bool
    requires { IsSomeRow row.now }
    ensures { result ≡ determines var row.now }
{
    row.equal && factor_in(row, var) != 0
}

/// The place of the first equality that has the variable, the number of rows where there is none.
pub(crate) fn first_equality(rows: &[Row], var: u32) -> usize
    requires { All IsSomeRow rows.now }
    ensures { result ≡ position_or_len (determines var) rows.now }
{
    for at in 0..rows.len() {
        if determines(&rows[at], var) {
            return at;
        }
    }
    rows.len()
}

fn below_count(rows: &[Row], var: u32) -> usize
    requires { All IsSomeRow rows.now }
    ensures { result ≡ count_by (bounds_below var) rows.now }
{
    let mut count = 0;
    for row in rows {
        if factor_in(row, var) > 0 {
            count += 1;
        }
    }
    count
}

fn above_count(rows: &[Row], var: u32) -> usize
    requires { All IsSomeRow rows.now }
    ensures { result ≡ count_by (bounds_above var) rows.now }
{
    let mut count = 0;
    for row in rows {
        if factor_in(row, var) < 0 {
            count += 1;
        }
    }
    count
}

fn without_count(rows: &[Row], var: u32) -> usize
    requires { All IsSomeRow rows.now }
    ensures { result ≡ count_by (is_without var) rows.now }
{
    let mut count = 0;
    for row in rows {
        if factor_in(row, var) == 0 {
            count += 1;
        }
    }
    count
}

/// How many rows a stage has before any is dropped.
pub(crate) fn made_count(rows: &[Row], var: u32) -> u128
    requires { All IsSomeRow rows.now }
    ensures { result ≡ length (cancelled_rows var rows.now) }
{
    if first_equality(rows, var) < rows.len() {
        return rows.len() as u128 - 1;
    }
    without_count(rows, var) as u128
        + below_count(rows, var) as u128 * above_count(rows, var) as u128
}
