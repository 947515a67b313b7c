//! Tokens are sorted by what the grammar makes of them.
ghost use Rattle.std.specs.Prelude.{◌≡◌, IfOk, MatchOption};
ghost use Rattle.std.specs.List.{All};
ghost use Rattle.text_reader.specs.declared.form.Form.TheVariants.{Kernel};
ghost use Rattle.text_reader.specs.Limits.{bytes_of};
ghost use Rattle.text_reader.specs.Spelling.{IsSpelled, IsSpelledIn};
ghost use Rattle.text_reader.specs.Tokens.{IsWithin};
ghost use Rattle.kernel_expressions.specs.Texts.{text_of, texts};
ghost use Rattle.kernel_grammar.specs.Lexicals.{lexical, lexicals, number_in, word};

use crate::key::key_named;
use crate::lexeme::{Lexeme, Word};
use crate::sign::sign_of;
use affine_rows::Name;
use kernel_grammar::{is_reserved, kind_named};
use std::alloc::{AllocError, Global};
use text_reader::{Class, Token};

/// The word as a name.
pub fn name_of(alloc: Global, word: Word) -> Result<Name, AllocError>
    ensures { IfOk result (λ name. name ≡ word.entry.text.now) }
{
    Name::from_str(alloc, word.text)
}

/// The number that the digits write, or none where it passes 18446744073709551615.
pub fn number_of(digits: &[u8]) -> Option<u64>
    ensures { result ≡ number_in digits.now }
{
    text_reader::number_of(digits)
}

fn word_lexeme(text: &str) -> Lexeme<'_>
    ensures { text_of result ≡ word text.now }
{
    if let Some(key) = key_named(text.as_bytes()) {
        Lexeme::Key(key)
    } else if let Some(kind) = kind_named(text.as_bytes()) {
        Lexeme::Kind(kind)
    } else {
        Lexeme::Name(Word { text })
    }
}

/// The token with these bytes, if they are a token's.
fn lexeme_of(class: Class, text: &[u8]) -> Option<Lexeme<'_>>
    ensures { MatchOption result (IsSpelled Kernel class text.now → ⊥) (λ lexeme. text_of lexeme ≡ lexical class text.now) }
{
    match class {
        Class::Word => match std::str::from_utf8(text) {
            Ok(text) => Some(word_lexeme(text)),
            Err(_) => None,
        },
        Class::Number => Some(Lexeme::Number(text)),
        Class::Sign => Some(Lexeme::Sign(sign_of(text)?)),
        Class::LineEnd => Some(Lexeme::LineEnd),
    }
}

/// The token with its bytes.
fn sorted<'a>(bytes: &'a [u8], token: Token) -> Lexeme<'a>
    requires within { IsWithin bytes.now token }
    requires spelled { IsSpelledIn Kernel bytes.now token }
    ensures { text_of result ≡ lexical token.class (bytes_of bytes.now token) }
{
    match lexeme_of(token.class, &bytes[token.from as usize..token.to as usize]) {
        Some(lexeme) => lexeme,
        None => unreachable!(),
    }
}

/// The tokens of a file with their bytes.
pub fn lexemes<'a>(
    alloc: Global,
    bytes: &'a [u8],
    tokens: &[Token],
) -> Result<Vec<Lexeme<'a>>, AllocError>
    requires within { All (IsWithin bytes.now) tokens.now }
    requires spelled { All (IsSpelledIn Kernel bytes.now) tokens.now }
    ensures { IfOk result (λ lexemes. texts lexemes.items ≡ lexicals bytes.now tokens.now) }
{
    let mut lexemes = Vec::new(alloc);
    for token in tokens {
        lexemes.push(sorted(bytes, *token))?;
    }
    Ok(lexemes)
}
