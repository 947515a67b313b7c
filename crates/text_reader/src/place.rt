//! Places in a text.
ghost use Rattle.std.specs.Prelude.{◌≡◌, ◌<◌, ◌+◌, ◌^◌};
ghost use Rattle.text_reader.specs.Tokens.{behind};

use crate::lexeme::{Lexeme, Piece};
use crate::token::Class;

/// A place in a text: its line, counted from 1, the place of the line's first byte, and that of the next byte.
#[derive(Clone, Copy, Debug, PartialEq, Eq)]
pub struct Place {
    pub line: usize,
    pub start: usize,
    pub at: usize,
}

/// The place behind the lexeme.
pub fn behind(place: Place, lexeme: Lexeme) -> Place
    requires line { place.line + 1 < 2 ^ 64 }
    requires at { place.at + lexeme.length < 2 ^ 64 }
    ensures { result ≡ behind place lexeme.piece lexeme.length }
{
    let at = place.at + lexeme.length;
    if lexeme.piece == Piece::Token(Class::LineEnd) {
        Place {
            line: place.line + 1,
            start: at,
            at,
        }
    } else {
        Place { at, ..place }
    }
}
