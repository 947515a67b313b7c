//! Tokens with their bytes.
use std::alloc::{AllocError, Global};
use text_reader::{Class, Token};

/// A token with its bytes, in lower case, and its line, counted from 1.
#[derive(Clone, Copy)]
pub(crate) struct Lexeme<'a> {
    pub(crate) line: u32,
    pub(crate) class: Class,
    pub(crate) text: &'a [u8],
}

/// The bytes from one place to another, if these are places of the text.
pub(crate) fn part(bytes: &[u8], from: usize, to: usize) -> &[u8] {
    if from <= to && to <= bytes.len() {
        &bytes[from..to]
    } else {
        &[]
    }
}

/// The tokens of a text with their bytes.
pub(crate) fn lexemes<'a>(
    alloc: Global,
    text: &'a [u8],
    tokens: &[Token],
) -> Result<Vec<Lexeme<'a>>, AllocError> {
    let mut lexemes = Vec::new(alloc);
    for token in tokens {
        lexemes.push(Lexeme {
            line: token.line,
            class: token.class,
            text: part(text, token.from as usize, token.to as usize),
        })?;
    }
    Ok(lexemes)
}
