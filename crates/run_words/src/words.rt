//! Operations on words of a kind. Each first brings its words into the kind, so that it is total.
ghost use Rattle.wrap_words.specs.Words.{IsWord};

use expr_tree::{Op, Rel};
use wrap_words::{
    Kind, Word, add, bit_and, bit_not, bit_or, bit_xor, greatest, least, mul, neg, number,
    of_number, sub,
};

/// The word 0.
pub const ZERO: Word = Word { bits: 0 };

/// The word in the kind. A word of the kind stays as it is.
pub fn within(kind: Kind, word: Word) -> Word
    ensures { IsWord kind result }
{
    of_number(kind, i128::from(word.bits))
}

/// An operator on two words.
pub fn applied(op: Op, kind: Kind, a: Word, b: Word) -> Word {
    let a = within(kind, a);
    let b = within(kind, b);
    match op {
        Op::Add => add(kind, a, b),
        Op::Mul => mul(kind, a, b),
        Op::Min => least(kind, a, b),
        Op::Max => greatest(kind, a, b),
        Op::Sub => sub(kind, a, b),
        Op::And => bit_and(kind, a, b),
        Op::Or => bit_or(kind, a, b),
        Op::Xor => bit_xor(kind, a, b),
    }
}

/// The number that a word stands for.
pub fn number_in(kind: Kind, word: Word) -> i128 {
    number(kind, within(kind, word))
}

/// A comparison of two integers.
pub fn compares(rel: Rel, a: i128, b: i128) -> bool {
    match rel {
        Rel::Less => a < b,
        Rel::LessEqual => a <= b,
        Rel::Equal => a == b,
        Rel::NotEqual => a != b,
    }
}

/// 0 less the word.
pub fn negated(kind: Kind, word: Word) -> Word {
    neg(kind, within(kind, word))
}

/// All bits turned.
pub fn inverted(kind: Kind, word: Word) -> Word {
    bit_not(kind, within(kind, word))
}

/// The bits moved up by so many places.
pub fn shifted_up(kind: Kind, word: Word, by: u32) -> Word {
    if by >= 64 {
        return ZERO;
    }
    of_number(kind, i128::from(word.bits << by))
}

/// The bits moved down by so many places.
pub fn shifted_down(word: Word, by: u32) -> Word {
    Word {
        bits: if by >= 64 { 0 } else { word.bits >> by },
    }
}

/// The word of another kind for the number of a word.
pub fn converted(from: Kind, to: Kind, word: Word) -> Word {
    of_number(to, number_in(from, word))
}
