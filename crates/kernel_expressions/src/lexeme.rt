//! Tokens with their bytes, sorted by what the grammar makes of them.
ghost use Rattle.std.specs.Prelude.{◌≡◌, false};
ghost use Rattle.kernel_grammar.specs.Words.{is_reserved};

use crate::key::Key;
use crate::sign::Sign;
use wrap_words::Kind;

/// A word that may be a name.
#[derive(Clone, Copy)]
pub struct Word<'a> {
    pub text: &'a str,
    ghost free: { is_reserved text.now ≡ false },
}

/// A token with its bytes.
#[derive(Clone, Copy)]
pub enum Lexeme<'a> {
    Name(Word<'a>),
    Kind(Kind),
    Key(Key),
    Number(&'a [u8]),
    Sign(Sign),
    LineEnd,
}
