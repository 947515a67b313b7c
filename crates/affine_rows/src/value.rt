//! A row's value.
ghost use Rattle.std.specs.Prelude.{◌≡◌, ◌≤◌, ◌^◌, length, All, unsigned_abs, ◌+ℤ◌, ◌*ℤ◌};
ghost use Rattle.affine_rows.specs.Rows.{IsRow, env_of, row_at};

use crate::row::Row;

fn add_product(sum: i128, factor: i64, number: i64) -> i128
    requires sum { unsigned_abs sum ≤ 2 ^ 126 }
    requires factor { unsigned_abs factor ≤ 2 ^ 62 }
    requires number { unsigned_abs number ≤ 2 ^ 56 }
    ensures { result ≡ sum +ℤ (factor *ℤ number) }
{
    sum + i128::from(factor) * i128::from(number)
}

/// The row's value at the numbers of its variables, each at most 2^56 in absolute size. Takes no memory.
pub fn value_at(row: &Row, at: &[i64]) -> i128
    requires row { IsRow (length at.now) row.now }
    requires few { length at.now ≤ 128 }
    requires small { All (λ z. unsigned_abs z ≤ 2 ^ 56) at.now }
    ensures { result ≡ row_at (env_of at.now) row.now }
{
    let mut sum = i128::from(row.constant);
    for (var, factor) in row.terms.as_slice() {
        sum = add_product(sum, *factor, at[*var as usize]);
    }
    sum
}
