//! The place at which a text stops being a block.
use crate::block::read_block;
use crate::lexeme::{Lexeme, part};
use crate::marks::is_blank;
use kernel_expressions::stop::Stop;
use kernel_ir::{Fault, Refusal, Site};
use std::alloc::{AllocError, Global};
use text_reader::{Class, Token};

/// The tokens that the grammar quotes, with blanks between them, a number and the end of a line.
const KNOWN: [(Class, &[u8]); 4] = [
    (Class::Sign, b"( ) , :: = + - * < <= > >= == /="),
    (
        Class::Word,
        b"subroutine end integer intent in out inout do if min max",
    ),
    (Class::Number, b"1 4 8"),
    (Class::LineEnd, b"\r\n"),
];

/// Whether some block begins with the tokens up to a place and then this one.
fn begins(
    alloc: Global,
    lexemes: &[Lexeme],
    at: usize,
    class: Class,
    text: &[u8],
) -> Result<bool, AllocError> {
    let mut tokens = Vec::new(alloc);
    for lexeme in lexemes.iter().take(at) {
        tokens.push(*lexeme)?;
    }
    tokens.push(Lexeme {
        line: 0,
        class,
        text,
    })?;
    match read_block(alloc, &tokens) {
        Ok(_) => Ok(true),
        Err(Stop::Refused { at: refused }) => Ok(refused > at),
        Err(Stop::OutOfMemory) => Err(AllocError),
    }
}

/// How many bytes two texts have in common at their fronts.
fn common(one: &[u8], other: &[u8]) -> usize {
    one.iter()
        .zip(other.iter())
        .position(|(a, b)| a != b)
        .unwrap_or(one.len().min(other.len()))
}

/// Whether the text begins a name.
fn is_begun_name(text: &[u8]) -> bool {
    match text {
        [first, ..] => first.is_ascii_alphabetic() || *first == b'_',
        [] => false,
    }
}

/// How many bytes of a text begin some token that may stand behind the tokens up to a place.
fn begun(alloc: Global, lexemes: &[Lexeme], at: usize, text: &[u8]) -> Result<usize, AllocError> {
    if is_begun_name(text) && begins(alloc, lexemes, at, Class::Word, b"x")? {
        return Ok(text.len());
    }
    let mut most = 0;
    for (class, words) in &KNOWN {
        for known in words.split(|byte| *byte == b' ') {
            let count = common(text, known);
            if count > most && begins(alloc, lexemes, at, *class, known)? {
                most = count;
            }
        }
    }
    Ok(most)
}

/// The place behind spaces and tabs.
fn behind_blanks(text: &[u8], from: usize) -> usize {
    for at in from..text.len() {
        if !is_blank(text[at]) {
            return at;
        }
    }
    from.max(text.len())
}

/// The place behind the token before.
fn behind_before(tokens: &[Token], at: usize) -> usize {
    match at.checked_sub(1) {
        None => 0,
        Some(before) => match tokens.get(before) {
            Some(token) => token.to as usize,
            None => 0,
        },
    }
}

/// The place of the token that is refused, and its bytes. All tokens stand before a place of the text.
fn refused<'a>(text: &'a [u8], tokens: &[Token], at: usize, end: usize) -> (usize, &'a [u8]) {
    match tokens.get(at) {
        Some(token) if token.class == Class::LineEnd => {
            (behind_blanks(text, behind_before(tokens, at)), &[])
        }
        Some(token) => (
            token.from as usize,
            part(text, token.from as usize, token.to as usize),
        ),
        None => (end, part(text, end, end.saturating_add(2).min(text.len()))),
    }
}

/// Rule 4, where these bytes are the longest front with which some block begins.
fn syntax(alloc: Global, front: &[u8]) -> Result<Refusal, AllocError> {
    let mut line: u32 = 1;
    let mut count: u32 = 0;
    for byte in front {
        if *byte == b'\n' {
            line = line.saturating_add(1);
            count = 0;
        } else {
            count = count.saturating_add(1);
        }
    }
    let refusal = Refusal::of_rule(alloc, Site::Kernel, 4).with_number(i128::from(count))?;
    Ok(refusal.at_line(line))
}

/// Rule 4 where the token at a place is refused. All tokens stand before a place of the text.
pub(crate) fn fault_at(
    alloc: Global,
    text: &[u8],
    tokens: &[Token],
    lexemes: &[Lexeme],
    at: usize,
    end: usize,
) -> Result<Fault, AllocError> {
    let (from, token) = refused(text, tokens, at, end);
    let count = begun(alloc, lexemes, at, token)?;
    let front = from.saturating_add(count).min(text.len());
    Ok(Fault::Rule(syntax(alloc, &text[..front])?))
}
