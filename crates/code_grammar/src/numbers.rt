//! Numbers of a code, without a sign or a leading zero.
ghost use Rattle.std.specs.Prelude.{◌≤◌, ◌<◌, ◌^◌, IfOk};

use crate::reader::{Limit, Reader, Stop};
use text_reader::number_of;

/// A number up to a greatest one, past which no text of the grammar goes on.
pub fn number_up_to(reader: &mut Reader, most: u64) -> Result<u64, Stop> {
    if reader.takes("0") {
        return Ok(0);
    }
    let digits = reader.digits();
    let mut number = 0;
    for at in 0..digits.len() {
        match number_of(&digits[..at + 1]) {
            Some(longer) if longer <= most => number = longer,
            _ => {
                reader.agree(at);
                return Err(Stop::Refused);
            }
        }
    }
    if digits.is_empty() {
        return Err(Stop::Refused);
    }
    reader.skip(digits.len());
    Ok(number)
}

/// A number up to a greatest one of 32 bits.
pub fn small_number_up_to(reader: &mut Reader, most: u32) -> Result<u32, Stop>
    ensures { IfOk result (λ n. n ≤ most) }
{
    let number = number_up_to(reader, u64::from(most))?;
    Ok(number.min(u64::from(most)) as u32)
}

/// A number from 1 on. Where it is past 2^64 - 1 it passes a limit, and 2^64 - 1 stands for it.
pub fn positive(reader: &mut Reader) -> Result<u64, Stop> {
    let digits = reader.digits();
    if digits.is_empty() || digits[0] == b'0' {
        return Err(Stop::Refused);
    }
    reader.skip(digits.len());
    let number = number_of(digits);
    if number.is_none() {
        reader.pass(Limit::Number);
    }
    Ok(number.unwrap_or(u64::MAX))
}
