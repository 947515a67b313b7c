//! The list of tokens, token by token.
ghost use Rattle.std.specs.Prelude.{◌≡◌, ◌<◌, ◌+◌, ◌^◌, ◌++◌, [], ◌∷◌};
ghost use Rattle.std.specs.Result.{OnOk};
ghost use Rattle.text_reader.specs.Tokens.{last_end, token_of};

use crate::lexeme::{Lexeme, Piece};
use crate::place::Place;
use crate::token::{Class, Token};
use std::alloc::AllocError;

/// Adds a token that begins at the place.
fn push_token(
    tokens: &mut Vec<Token>,
    place: Place,
    class: Class,
    length: usize,
) -> Result<(), AllocError>
    requires line { place.line < 2 ^ 32 }
    requires at { place.at + length < 2 ^ 32 }
    ensures { OnOk result (tokens.new.items ≡ tokens.old.items ++ (record { line = place.line; from = place.at; to = place.at + length; class = class } ∷ [])) }
{
    tokens.push(Token {
        line: place.line as u32,
        from: place.at as u32,
        to: (place.at + length) as u32,
        class,
    })?;
    Ok(())
}

/// Adds the token that the lexeme is, if it is one.
pub fn push_lexeme(tokens: &mut Vec<Token>, place: Place, lexeme: Lexeme) -> Result<(), AllocError>
    requires line { place.line < 2 ^ 32 }
    requires at { place.at + lexeme.length < 2 ^ 32 }
    ensures { OnOk result (tokens.new.items ≡ tokens.old.items ++ token_of place lexeme.piece lexeme.length) }
{
    match lexeme.piece {
        Piece::Token(class) => push_token(tokens, place, class, lexeme.length),
        Piece::Blank | Piece::Comment => Ok(()),
    }
}

/// Ends a last line that has no line feed, if something stands on it.
pub fn end_line(tokens: &mut Vec<Token>, place: Place) -> Result<(), AllocError>
    requires line { place.line < 2 ^ 32 }
    requires at { place.at < 2 ^ 32 }
    ensures { OnOk result (tokens.new.items ≡ tokens.old.items ++ last_end place) }
{
    if place.start < place.at {
        push_token(tokens, place, Class::LineEnd, 0)
    } else {
        Ok(())
    }
}
