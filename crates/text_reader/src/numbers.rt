//! The number that digits write.
ghost use Rattle.std.specs.Prelude.{◌≡◌, ◌+◌, ◌-◌, ◌*◌, ◌^◌, ◌≤◌, MatchOption};
ghost use Rattle.text_reader.specs.Numbers.{value_of};

/// The number with one digit more, unless it passes 18446744073709551615.
fn with_digit(number: u64, digit: u8) -> Option<u64>
    ensures { let longer = 10 * number + (digit - 48) in MatchOption result (2 ^ 64 ≤ longer) (λ n. n ≡ longer) }
{
    number
        .checked_mul(10)?
        .checked_add(u64::from(digit.saturating_sub(b'0')))
}

/// The number that decimal digits write, as those of a number token. It is `None` exactly where it passes
/// 18446744073709551615.
pub fn number_of(digits: &[u8]) -> Option<u64>
    ensures { MatchOption result (2 ^ 64 ≤ value_of digits.now) (λ n. n ≡ value_of digits.now) }
{
    let mut number = 0;
    for digit in digits {
        number = with_digit(number, *digit)?;
    }
    Some(number)
}
