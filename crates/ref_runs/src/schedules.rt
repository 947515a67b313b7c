//! Schedule files.
use crate::files::{front_of, spelled, syntax_fault};
use kernel_ir::{Fault, Site};
use std::alloc::{AllocError, Global};
use text_reader::{Class, Token};

/// The number with one digit more, if it is below 2^32.
fn with_digit(number: u32, digit: u8) -> Option<u32> {
    number
        .checked_mul(10)?
        .checked_add(u32::from(digit.saturating_sub(b'0')))
}

/// The number that digits write if it is below 2^32, else how many of them write one.
fn number_of(digits: &[u8]) -> Result<u32, usize> {
    let mut number = 0;
    for at in 0..digits.len() {
        match with_digit(number, digits[at]) {
            Some(longer) => number = longer,
            None => return Err(at),
        }
    }
    Ok(number)
}

/// How many bytes of a text that is no number begin something that may stand in a schedule.
fn begun(text: &[u8]) -> usize {
    match text {
        [b'\r', ..] => 1,
        _ => 0,
    }
}

/// Reads a token with these bytes. It is refused with the count of its bytes that begin a schedule's.
fn read_token(
    numbers: &mut Vec<u32>,
    token: Token,
    text: &[u8],
) -> Result<Result<(), usize>, AllocError> {
    match token.class {
        Class::LineEnd => Ok(Ok(())),
        Class::Word | Class::Sign => Ok(Err(begun(text))),
        Class::Number => match number_of(text) {
            Ok(number) => {
                numbers.push(number)?;
                Ok(Ok(()))
            }
            Err(begun) => Ok(Err(begun)),
        },
    }
}

/// The numbers of a schedule file.
///
/// It is refused by rule 3 where it has more than 1,048,576 bytes, and else by rule 4 where its bytes are no schedule file,
/// with the line and the count of its bytes that belong to the longest front with which some schedule file begins. Each
/// number is below 2^32.
pub fn read_schedule(alloc: Global, bytes: &[u8]) -> Result<Vec<u32>, Fault> {
    let front = front_of(alloc, Site::Schedule, bytes)?;
    let tokens = front.tokens.as_slice();
    let mut numbers = Vec::new(alloc);
    for at in 0..tokens.len() {
        match read_token(&mut numbers, tokens[at], spelled(bytes, tokens[at]))? {
            Ok(()) => {}
            Err(begun) => {
                return Err(syntax_fault(alloc, Site::Schedule, bytes, tokens, at, begun)?);
            }
        }
    }
    let rest = &bytes[front.place.at..];
    if rest.is_empty() {
        return Ok(numbers);
    }
    let begun = begun(rest);
    Err(syntax_fault(alloc, Site::Schedule, bytes, tokens, tokens.len(), begun)?)
}
