//! Sums, products and quotients in 128 bits, within bounds that callers carry along.
ghost use Rattle.std.specs.Prelude.{◌≡◌, ◌≤◌, ◌^◌, ◌+◌, ◌*◌, ◌+ℤ◌, ◌*ℤ◌, ◌≤ℤ◌, pos, unsigned_abs};
ghost use Rattle.std.specs.Int.{int_div_euclid};
ghost use Rattle.affine_rows.specs.Forms.{ceil_div};

pub(crate) fn plus(a: i128, b: i128) -> i128
    requires { unsigned_abs a + unsigned_abs b ≤ 2 ^ 126 }
    ensures value { result ≡ a +ℤ b }
    ensures small { unsigned_abs result ≤ unsigned_abs a + unsigned_abs b }
{
    a + b
}

pub(crate) fn product(a: i64, b: i64) -> i128
    ensures value { result ≡ a *ℤ b }
    ensures small { unsigned_abs result ≤ 2 ^ 63 * unsigned_abs a }
{
    i128::from(a) * i128::from(b)
}

/// The quotient, rounded down.
pub(crate) fn quotient(a: i128, by: i64) -> i128
    requires { pos 1 ≤ℤ by }
    ensures value { result ≡ int_div_euclid a by }
    ensures small { unsigned_abs result ≤ ceil_div (unsigned_abs a) (unsigned_abs by) }
{
    a.div_euclid(i128::from(by))
}

pub(crate) fn times(a: i64, b: i128) -> i128
    requires { unsigned_abs a * unsigned_abs b ≤ 2 ^ 126 }
    ensures value { result ≡ a *ℤ b }
{
    i128::from(a) * b
}
