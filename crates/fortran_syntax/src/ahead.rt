//! What stands at a place among the tokens.
use crate::lexeme::Lexeme;
use affine_rows::Name;
use kernel_expressions::stop::Stop;
use kernel_grammar::is_reserved;
use std::alloc::Global;
use text_reader::Class;

/// Whether the token at a place is of the class and has these bytes.
fn is_token(lexemes: &[Lexeme], at: usize, class: Class, text: &[u8]) -> bool {
    match lexemes.get(at) {
        Some(lexeme) => lexeme.class == class && lexeme.text == text,
        None => false,
    }
}

/// Reads the token of the class with these bytes.
fn token(lexemes: &[Lexeme], at: usize, class: Class, text: &[u8]) -> Result<usize, Stop> {
    if is_token(lexemes, at, class, text) {
        Ok(at.saturating_add(1))
    } else {
        Err(Stop::Refused { at })
    }
}

/// What the token at a place stands for in a table of tokens of a class, with the place behind it.
pub(crate) fn listed<T: Copy>(
    lexemes: &[Lexeme],
    at: usize,
    class: Class,
    table: &[(&[u8], T)],
) -> Result<(T, usize), Stop> {
    for (text, meaning) in table {
        if is_token(lexemes, at, class, text) {
            return Ok((*meaning, at.saturating_add(1)));
        }
    }
    Err(Stop::Refused { at })
}

/// Reads the sign.
pub(crate) fn sign(lexemes: &[Lexeme], at: usize, text: &[u8]) -> Result<usize, Stop> {
    token(lexemes, at, Class::Sign, text)
}

/// The place behind the sign, if it stands there.
pub(crate) fn behind_sign(lexemes: &[Lexeme], at: usize, text: &[u8]) -> Option<usize> {
    sign(lexemes, at, text).ok()
}

/// Reads the word.
pub(crate) fn word(lexemes: &[Lexeme], at: usize, text: &[u8]) -> Result<usize, Stop> {
    token(lexemes, at, Class::Word, text)
}

/// The place behind the word, if it stands there.
pub(crate) fn behind_word(lexemes: &[Lexeme], at: usize, text: &[u8]) -> Option<usize> {
    word(lexemes, at, text).ok()
}

/// Whether a token of the class stands there.
pub(crate) fn is_class(lexemes: &[Lexeme], at: usize, class: Class) -> bool {
    match lexemes.get(at) {
        Some(lexeme) => lexeme.class == class,
        None => false,
    }
}

/// Reads the end of a line.
pub(crate) fn line_end(lexemes: &[Lexeme], at: usize) -> Result<usize, Stop> {
    if is_class(lexemes, at, Class::LineEnd) {
        Ok(at.saturating_add(1))
    } else {
        Err(Stop::Refused { at })
    }
}

/// The name at a place, if one stands there.
pub(crate) fn name_at<'a>(lexemes: &[Lexeme<'a>], at: usize) -> Option<&'a str> {
    match lexemes.get(at) {
        Some(lexeme) if lexeme.class == Class::Word && !is_reserved(lexeme.text) => {
            std::str::from_utf8(lexeme.text).ok()
        }
        _ => None,
    }
}

/// Reads a name.
pub(crate) fn read_name(
    alloc: Global,
    lexemes: &[Lexeme],
    at: usize,
) -> Result<(Name, usize), Stop> {
    match name_at(lexemes, at) {
        Some(text) => Ok((Name::from_str(alloc, text)?, at.saturating_add(1))),
        None => Err(Stop::Refused { at }),
    }
}
