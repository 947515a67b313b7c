//! What argument files and schedule files have in common: tokens, their bytes, and the places of faults.
ghost use Rattle.std.specs.Prelude.{◌≤◌, length, IfOk};

use kernel_ir::{Fault, Refusal, Site};
use std::alloc::{AllocError, Global};
use text_reader::{Form, Front, Token, read_front};

/// The most bytes of a file.
const MAX_BYTES: usize = 1_048_576;

/// The tokens of the longest front of a file that is whole lexemes, and the place behind it. A file of more than 1,048,576
/// bytes is refused by rule 3.
pub fn front_of(alloc: Global, site: Site, bytes: &[u8]) -> Result<Front, Fault>
    ensures { IfOk result (λ front. front.place.at ≤ length bytes.now) }
{
    if bytes.len() > MAX_BYTES {
        return Err(Fault::Rule(Refusal::limit(alloc, site, "bytes", 1_048_576)?));
    }
    Ok(read_front(alloc, bytes, Form::Kernel)?)
}

/// The bytes from one place to another, if these are places of the text.
pub fn part(bytes: &[u8], from: usize, to: usize) -> &[u8] {
    if from <= to && to <= bytes.len() {
        &bytes[from..to]
    } else {
        &[]
    }
}

/// The bytes of a token.
pub fn spelled(bytes: &[u8], token: Token) -> &[u8] {
    part(bytes, token.from as usize, token.to as usize)
}

/// The place behind the token before.
fn behind_before(tokens: &[Token], at: usize) -> usize {
    match tokens.get(at.saturating_sub(1)) {
        Some(token) if at > 0 => token.to as usize,
        _ => 0,
    }
}

/// The place behind spaces and tabs.
fn behind_blanks(bytes: &[u8], from: usize) -> usize {
    for at in from..bytes.len() {
        if bytes[at] != b' ' && bytes[at] != b'\t' {
            return at;
        }
    }
    bytes.len().max(from)
}

/// The line, counted from 1, and how many of its bytes stand before a place.
fn line_and_bytes(bytes: &[u8], end: usize) -> (u32, u32) {
    let mut line: u32 = 1;
    let mut count: u32 = 0;
    for at in 0..end.min(bytes.len()) {
        if bytes[at] == b'\n' {
            line = line.saturating_add(1);
            count = 0;
        } else {
            count = count.saturating_add(1);
        }
    }
    (line, count)
}

/// Rule 4 at the token with so many before it, of whose bytes so many may begin one that may stand there. Behind the last
/// token stands what is none, or nothing.
pub fn syntax_fault(
    alloc: Global,
    site: Site,
    bytes: &[u8],
    tokens: &[Token],
    at: usize,
    begun: usize,
) -> Result<Fault, AllocError> {
    let from = behind_blanks(bytes, behind_before(tokens, at));
    let (line, count) = line_and_bytes(bytes, from.saturating_add(begun));
    let refusal = Refusal::of_rule(alloc, site, 4).with_number(i128::from(count))?;
    Ok(Fault::Rule(refusal.at_line(line)))
}
