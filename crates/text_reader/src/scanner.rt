//! The tokens of a text.
ghost use Rattle.std.specs.Prelude.{◌≡◌, ◌<◌, ◌-◌, ◌^◌, length, drop, List, IfOk};
ghost use Rattle.std.specs.List.{All};
ghost use Rattle.std.specs.Result.{IfErr};
ghost use Rattle.text_reader.specs.declared.token.Token.{Token};
ghost use Rattle.text_reader.specs.Faults.{IsSyntaxFault};
ghost use Rattle.text_reader.specs.Progress.{IsReadTo, LacksLexeme};
ghost use Rattle.text_reader.specs.Tokens.{IsTokensOf, IsWithin};

use crate::fault::TextFault;
use crate::form::Form;
use crate::front::{Front, read_front};
use crate::lexeme::lexeme_at;
use crate::listing::end_line;
use crate::place::Place;
use crate::token::Token;
use std::alloc::Global;

/// The fault at a place at which no lexeme stands.
fn fault_at(bytes: &[u8], form: Form, place: Place) -> TextFault
    requires short { length bytes.now < 2 ^ 32 - 1 }
    requires left { place.at < length bytes.now }
    requires read { (tokens : List Token) × IsReadTo form bytes.now (drop place.at bytes.now) place tokens }
    requires none { LacksLexeme form (drop place.at bytes.now) }
    ensures { IsSyntaxFault form bytes.now result }
{
    match lexeme_at(form, &bytes[place.at..]) {
        Ok(_) => unreachable!(),
        Err(none) => TextFault::Syntax {
            line: place.line as u32,
            bytes: (place.at - place.start + none.begun) as u32,
        },
    }
}

/// The tokens of a text, whatever its numbers. The bytes are at most 4294967294.
///
/// It is `Syntax` exactly where the bytes are no text of tokens, and never `Limit`.
pub fn scan(alloc: Global, bytes: &[u8], form: Form) -> Result<Vec<Token>, TextFault>
    requires { length bytes.now < 2 ^ 32 - 1 }
    ensures tokens { IfOk result (λ tokens. IsTokensOf form bytes.now tokens.items) }
    ensures within { IfOk result (λ tokens. All (IsWithin bytes.now) tokens.items) }
    ensures refused { IfErr result (λ fault. IsSyntaxFault form bytes.now fault) }
{
    let Front { mut tokens, place } = read_front(alloc, bytes, form)?;
    if place.at < bytes.len() {
        return Err(fault_at(bytes, form, place));
    }
    end_line(&mut tokens, place)?;
    Ok(tokens)
}
