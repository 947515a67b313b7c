use std::cmp::Ordering;
use wrap_words::*;

const ZERO: Word = Word { bits: 0 };

const ONE: Word = Word { bits: 1 };
/// -2147483648 in `I32`, 2147483648 in `U32`.
const HIGH: Word = Word { bits: 2147483648 };
/// 2147483647 in both 32-bit kinds.
const LOW: Word = Word { bits: 2147483647 };
/// -1 in `I32`, 4294967295 in `U32`.
const ALL: Word = Word { bits: 4294967295 };

#[test]
fn words_by_hand(rt: HostRuntime) {
    let power = Word { bits: 65536 };
    let minus_five = of_number(Kind::I32, -5);
    let cases = [
        ("of_number", minus_five, 4294967291),
        ("of_number past the kind", of_number(Kind::I64, 1 << 64), 0),
        ("add", add(Kind::I32, LOW, ONE), 2147483648),
        ("sub below the least", sub(Kind::I32, HIGH, ONE), 2147483647),
        (
            "sub below zero",
            sub(Kind::U64, ZERO, ONE),
            18446744073709551615,
        ),
        ("mul to zero", mul(Kind::I32, power, power), 0),
        ("mul past 32 bits", mul(Kind::I64, power, power), 4294967296),
        ("mul of negatives", mul(Kind::I32, minus_five, ALL), 5),
        ("neg of the least", neg(Kind::I32, HIGH), 2147483648),
        (
            "cast up with sign",
            cast(Kind::I32, Kind::U64, ALL),
            18446744073709551615,
        ),
        (
            "cast up without sign",
            cast(Kind::U32, Kind::I64, ALL),
            4294967295,
        ),
        ("least, signed", least(Kind::I32, HIGH, LOW), 2147483648),
        ("least, unsigned", least(Kind::U32, HIGH, LOW), 2147483647),
        ("greatest, signed", greatest(Kind::I32, ALL, ZERO), 0),
        (
            "greatest, unsigned",
            greatest(Kind::U32, ALL, ZERO),
            4294967295,
        ),
        ("bit_and", bit_and(Kind::I32, minus_five, LOW), 2147483643),
        ("bit_or", bit_or(Kind::I32, HIGH, ONE), 2147483649),
        ("bit_xor", bit_xor(Kind::U32, ALL, LOW), 2147483648),
        ("bit_not", bit_not(Kind::U32, ONE), 4294967294),
        ("shift_left", shift_left(Kind::U32, ALL, 31), 2147483648),
        (
            "shift_left, wide",
            shift_left(Kind::I64, ALL, 32),
            18446744069414584320,
        ),
        ("shift_right", shift_right(Kind::U32, HIGH, 31), 1),
    ];
    for (name, word, bits) in cases {
        assert_eq!(rt; word.bits, bits, "{name}");
    }
}

#[test]
fn numbers_by_hand(rt: HostRuntime) {
    assert_eq!(rt; number(Kind::I32, HIGH), -2147483648);
    assert_eq!(rt; number(Kind::U32, HIGH), 2147483648);
    assert_eq!(rt; compare(Kind::I32, ALL, ONE), Ordering::Less);
    assert_eq!(rt; compare(Kind::U32, ALL, ONE), Ordering::Greater);
    assert_eq!(rt; compare(Kind::I64, ALL, ALL), Ordering::Equal);
    for (a, b, quotient) in [(7, 2, 3), (-7, 2, -4), (-8, 2, -4), (-1, 1048576, -1)] {
        assert_eq!(rt; floor_div(a, b), quotient, "{a} by {b}");
    }
    words_are_residues();
}
