//! The front of a text, lexeme by lexeme.
ghost use Rattle.std.specs.Prelude.{◌≡◌, ◌<◌, ◌≤◌, ◌-◌, ◌^◌, length, drop, Ok, None, IfOk, IfSome};
ghost use Rattle.std.specs.List.{All};
ghost use Rattle.text_reader.specs.Progress.{IsReadTo, LacksLexeme};
ghost use Rattle.text_reader.specs.Spelling.{IsSpelledIn};
ghost use Rattle.text_reader.specs.Tokens.{IsWithin};

use crate::form::Form;
use crate::lexeme::lexeme_at;
use crate::listing::push_lexeme;
use crate::place::{Place, behind};
use crate::token::Token;
use std::alloc::{AllocError, Global};

/// Reads the lexeme at the place, and answers the place behind it, if one stands there.
fn read_lexeme(
    bytes: &[u8],
    form: Form,
    place: Place,
    tokens: &mut Vec<Token>,
) -> Result<Option<Place>, AllocError>
    requires short { length bytes.now < 2 ^ 32 - 1 }
    requires left { place.at < length bytes.now }
    requires read { IsReadTo form bytes.now (drop place.at bytes.now) place tokens.old.items }
    ensures on { IfOk result (λ next. IfSome next (λ p. (place.at < p.at) × (p.at ≤ length bytes.now))) }
    ensures read { IfOk result (λ next. IfSome next (λ p. IsReadTo form bytes.now (drop p.at bytes.now) p tokens.new.items)) }
    ensures none { result ≡ Ok None → LacksLexeme form (drop place.at bytes.now) }
    ensures same { result ≡ Ok None → tokens.new.items ≡ tokens.old.items }
{
    match lexeme_at(form, &bytes[place.at..]) {
        Ok(lexeme) => {
            push_lexeme(tokens, place, lexeme)?;
            Ok(Some(behind(place, lexeme)))
        }
        Err(_) => Ok(None),
    }
}

/// The longest front of a text that is whole lexemes.
#[derive(Drop)]
pub struct Front {
    pub tokens: Vec<Token>,
    /// The place behind it.
    pub place: Place,
}

/// The longest front of the bytes that is whole lexemes. The bytes are at most 4294967294.
pub fn read_front(alloc: Global, bytes: &[u8], form: Form) -> Result<Front, AllocError>
    requires { length bytes.now < 2 ^ 32 - 1 }
    ensures read { IfOk result (λ front. IsReadTo form bytes.now (drop front.place.at bytes.now) front.place front.tokens.items) }
    ensures within { IfOk result (λ front. All (IsWithin bytes.now) front.tokens.items) }
    ensures spelled { IfOk result (λ front. All (IsSpelledIn form bytes.now) front.tokens.items) }
    ensures inside { IfOk result (λ front. front.place.at ≤ length bytes.now) }
    ensures longest { IfOk result (λ front. front.place.at < length bytes.now → LacksLexeme form (drop front.place.at bytes.now)) }
{
    let mut tokens = Vec::new(alloc);
    let mut place = Place {
        line: 1,
        start: 0,
        at: 0,
    };
    'text: while place.at < bytes.len() {
        let Some(next) = read_lexeme(bytes, form, place, &mut tokens)? else {
            return Ok(Front { tokens, place });
        };
        place = next;
    }
    Ok(Front { tokens, place })
}
