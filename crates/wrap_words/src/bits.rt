ghost use Rattle.std.specs.Prelude.{◌≡◌, ◌-◌, ◌*◌, ◌/◌, ◌%◌, ◌^◌, ◌<◌, bit_and, bit_or, bit_xor};
ghost use Rattle.wrap_words.specs.Words.{IsWord, IsUnsigned, modulus_of, width_of};

use crate::convert::modulus;
use crate::kind::{Kind, Word};

/// The bits that both words have.
pub fn bit_and(kind: Kind, a: Word, b: Word) -> Word
    requires a { IsWord kind a }
    requires b { IsWord kind b }
    ensures value { result.bits ≡ bit_and a.bits b.bits }
    ensures word { IsWord kind result }
{
    Word {
        bits: a.bits & b.bits,
    }
}

/// The bits that one of the words has, or both.
pub fn bit_or(kind: Kind, a: Word, b: Word) -> Word
    requires a { IsWord kind a }
    requires b { IsWord kind b }
    ensures value { result.bits ≡ bit_or a.bits b.bits }
    ensures word { IsWord kind result }
{
    Word {
        bits: a.bits | b.bits,
    }
}

/// The bits that just one of the words has.
pub fn bit_xor(kind: Kind, a: Word, b: Word) -> Word
    requires a { IsWord kind a }
    requires b { IsWord kind b }
    ensures value { result.bits ≡ bit_xor a.bits b.bits }
    ensures word { IsWord kind result }
{
    Word {
        bits: a.bits ^ b.bits,
    }
}

/// The bits of the kind that the word has not.
pub fn bit_not(kind: Kind, a: Word) -> Word
    requires { IsWord kind a }
    ensures value { result.bits ≡ modulus_of kind - 1 - a.bits }
    ensures word { IsWord kind result }
{
    Word {
        bits: (modulus(kind) - 1 - u128::from(a.bits)) as u64,
    }
}

/// The bits moved up by `by` places, which are fewer than the width. Bits moved out of the kind
/// are dropped.
pub fn shift_left(kind: Kind, a: Word, by: u32) -> Word
    requires a { IsWord kind a }
    requires by { by < width_of kind }
    ensures value { result.bits ≡ a.bits * 2 ^ by % modulus_of kind }
    ensures word { IsWord kind result }
{
    Word {
        bits: ((u128::from(a.bits) << by) % modulus(kind)) as u64,
    }
}

/// The bits of a word of an unsigned kind moved down by `by` places, which are fewer than the
/// width.
pub fn shift_right(kind: Kind, a: Word, by: u32) -> Word
    requires a { IsWord kind a }
    requires kind { IsUnsigned kind }
    requires by { by < width_of kind }
    ensures value { result.bits ≡ a.bits / 2 ^ by }
    ensures word { IsWord kind result }
{
    Word { bits: a.bits >> by }
}
