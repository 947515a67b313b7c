ghost use Rattle.std.specs.Prelude.{◌≡◌};
ghost use Rattle.wrap_words.specs.Words.{IsWord, number_of, word_of, modulus_of, first_negative};

use crate::kind::{Kind, Word};

/// How many words the kind has: 2^width.
pub(crate) fn modulus(kind: Kind) -> u128
    ensures { result ≡ modulus_of kind }
{
    match kind {
        Kind::I32 | Kind::U32 => 1 << 32,
        Kind::I64 | Kind::U64 => 1 << 64,
    }
}

/// The first bits that stand for a negative number, or 2^width for an unsigned kind.
fn first_negative_bits(kind: Kind) -> u128
    ensures { result ≡ first_negative kind }
{
    match kind {
        Kind::I32 => 1 << 31,
        Kind::I64 => 1 << 63,
        Kind::U32 => 1 << 32,
        Kind::U64 => 1 << 64,
    }
}

/// The word of the number, reduced modulo 2^width.
pub fn of_number(kind: Kind, value: i128) -> Word
    ensures value { result ≡ word_of kind value }
    ensures word { IsWord kind result }
{
    let rest = value.rem_euclid(modulus(kind) as i128);
    Word { bits: rest as u64 }
}

/// The number that the word stands for: its two's complement value in a signed kind, and its bits
/// in an unsigned one.
pub fn number(kind: Kind, word: Word) -> i128
    requires { IsWord kind word }
    ensures { result ≡ number_of kind word }
{
    let bits = u128::from(word.bits);
    if bits < first_negative_bits(kind) {
        bits as i128
    } else {
        bits as i128 - modulus(kind) as i128
    }
}

/// The word of kind `to` for the number of a word of kind `from`, reduced modulo 2^width.
pub fn cast(from: Kind, to: Kind, a: Word) -> Word
    requires { IsWord from a }
    ensures value { result ≡ word_of to (number_of from a) }
    ensures word { IsWord to result }
{
    of_number(to, number(from, a))
}
