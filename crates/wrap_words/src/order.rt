ghost use Rattle.std.specs.Prelude.{◌≡◌};
ghost use Rattle.std.specs.Ordering.{int_cmp};
ghost use Rattle.wrap_words.specs.Words.{IsWord, number_of, least_of, greatest_of};

use crate::convert::number;
use crate::kind::{Kind, Word};
use std::cmp::Ordering;

/// How the numbers of the words compare.
pub fn compare(kind: Kind, a: Word, b: Word) -> Ordering
    requires a { IsWord kind a }
    requires b { IsWord kind b }
    ensures { result ≡ int_cmp (number_of kind a) (number_of kind b) }
{
    number(kind, a).cmp(&number(kind, b))
}

/// The word with the smaller number.
pub fn least(kind: Kind, a: Word, b: Word) -> Word
    requires a { IsWord kind a }
    requires b { IsWord kind b }
    ensures value { result ≡ least_of kind a b }
    ensures word { IsWord kind result }
{
    if number(kind, b) < number(kind, a) {
        b
    } else {
        a
    }
}

/// The word with the greater number.
pub fn greatest(kind: Kind, a: Word, b: Word) -> Word
    requires a { IsWord kind a }
    requires b { IsWord kind b }
    ensures value { result ≡ greatest_of kind a b }
    ensures word { IsWord kind result }
{
    if number(kind, a) < number(kind, b) {
        b
    } else {
        a
    }
}
