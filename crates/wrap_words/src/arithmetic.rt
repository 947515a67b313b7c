ghost use Rattle.std.specs.Prelude.{◌≡◌, ◌+ℤ◌, ◌-ℤ◌, ◌*ℤ◌, ◌≤ℤ◌, pos};
ghost use Rattle.std.specs.Int.{int_div_euclid};
ghost use Rattle.wrap_words.specs.Words.{IsWord, number_of, word_of};

use crate::convert::{modulus, number, of_number};
use crate::kind::{Kind, Word};

/// The sum of both numbers, reduced modulo 2^width.
pub fn add(kind: Kind, a: Word, b: Word) -> Word
    requires a { IsWord kind a }
    requires b { IsWord kind b }
    ensures value { result ≡ word_of kind (number_of kind a +ℤ number_of kind b) }
    ensures word { IsWord kind result }
{
    of_number(kind, number(kind, a) + number(kind, b))
}

/// The first number less the second, reduced modulo 2^width.
pub fn sub(kind: Kind, a: Word, b: Word) -> Word
    requires a { IsWord kind a }
    requires b { IsWord kind b }
    ensures value { result ≡ word_of kind (number_of kind a -ℤ number_of kind b) }
    ensures word { IsWord kind result }
{
    of_number(kind, number(kind, a) - number(kind, b))
}

/// The product of both numbers, reduced modulo 2^width.
pub fn mul(kind: Kind, a: Word, b: Word) -> Word
    requires a { IsWord kind a }
    requires b { IsWord kind b }
    ensures value { result ≡ word_of kind (number_of kind a *ℤ number_of kind b) }
    ensures word { IsWord kind result }
{
    // The product of two numbers may pass an `i128`; that of the bits has the same residue.
    let product = u128::from(a.bits) * u128::from(b.bits);
    Word {
        bits: (product % modulus(kind)) as u64,
    }
}

/// The number with its sign turned, reduced modulo 2^width.
pub fn neg(kind: Kind, a: Word) -> Word
    requires { IsWord kind a }
    ensures value { result ≡ word_of kind (pos 0 -ℤ number_of kind a) }
    ensures word { IsWord kind result }
{
    of_number(kind, -number(kind, a))
}

/// The quotient rounded down, for a divisor of at least 1.
pub fn floor_div(a: i64, b: i64) -> i64
    requires { pos 1 ≤ℤ b }
    ensures { result ≡ int_div_euclid a b }
{
    a.div_euclid(b)
}
