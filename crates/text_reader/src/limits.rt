//! The tokens of a text whose numbers are in range.
ghost use Rattle.std.specs.Prelude.{◌≡◌, ◌<◌, ◌-◌, ◌^◌, length, None, IfOk};
ghost use Rattle.std.specs.List.{All};
ghost use Rattle.std.specs.Result.{IfErr};
ghost use Rattle.text_reader.specs.Limits.{is_large, large_line, IsFault};
ghost use Rattle.text_reader.specs.Tokens.{IsTokensOf, IsWithin};

use crate::fault::TextFault;
use crate::form::Form;
use crate::numbers::number_of;
use crate::scanner::scan;
use crate::token::{Class, Token};
use std::alloc::Global;

/// Whether the token is a number past 18446744073709551615.
fn is_large(bytes: &[u8], token: Token) -> bool
    requires { IsWithin bytes.now token }
    ensures { result ≡ is_large bytes.now token }
{
    token.class == Class::Number
        && number_of(&bytes[token.from as usize..token.to as usize]).is_none()
}

/// The line of the first number past 18446744073709551615.
fn large_line(bytes: &[u8], tokens: &[Token]) -> Option<u32>
    requires { All (IsWithin bytes.now) tokens.now }
    ensures { result ≡ large_line bytes.now tokens.now }
{
    for token in tokens {
        if is_large(bytes, *token) {
            return Some(token.line);
        }
    }
    None
}

/// The tokens of a text. A text has at most 4294967294 bytes.
///
/// It is `Syntax` exactly where the bytes are no text of tokens, and else `Limit` exactly where a number passes
/// 18446744073709551615.
pub fn tokens(alloc: Global, bytes: &[u8], form: Form) -> Result<Vec<Token>, TextFault>
    requires { length bytes.now < 2 ^ 32 - 1 }
    ensures tokens { IfOk result (λ tokens. IsTokensOf form bytes.now tokens.items) }
    ensures small { IfOk result (λ tokens. large_line bytes.now tokens.items ≡ None) }
    ensures within { IfOk result (λ tokens. All (IsWithin bytes.now) tokens.items) }
    ensures refused { IfErr result (λ fault. IsFault form bytes.now fault) }
{
    let tokens = scan(alloc, bytes, form)?;
    match large_line(bytes, &tokens) {
        Some(line) => Err(TextFault::Limit { line }),
        None => Ok(tokens),
    }
}
