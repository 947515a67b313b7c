//! Names and reserved words.
ghost use Rattle.std.specs.Prelude.{◌≡◌, bytes_eq};
ghost use Rattle.std.specs.List.{list_any};
ghost use Rattle.first_form.specs.Names.{is_word, is_reserved, is_kept, is_name};
ghost use Rattle.first_form.specs.Refused.{is_shown};

use crate::scan::{Class, all_of, begins_word};

fn is_word(word: &[u8]) -> bool
    ensures { result ≡ is_word word.now }
{
    !word.is_empty() && begins_word(word[0]) && all_of(&word[1..], Class::Word)
}

/// The words that are no names.
const RESERVED: [&[u8]; 19] = [
    b"kernel", b"domain", b"assume", b"input", b"output", b"temp", b"sum", b"product", b"min",
    b"max", b"if", b"cast", b"and", b"or", b"not", b"int32", b"int64", b"uint32", b"uint64",
];

/// Whether the word is one of the others.
pub fn is_among(word: &[u8], others: &[&[u8]]) -> bool
    ensures { result ≡ list_any (λ other. bytes_eq word.now other.now) others.now }
{
    others.iter().any(|other| word == *other)
}

fn is_reserved(word: &[u8]) -> bool
    ensures { result ≡ is_reserved word.now }
{
    is_among(word, &RESERVED)
}

fn is_kept(word: &[u8]) -> bool
    ensures { result ≡ is_kept word.now }
{
    word.starts_with(b"lp_")
}

/// Whether the bytes are a name.
pub fn is_name(word: &[u8]) -> bool
    ensures { result ≡ is_name word.now }
{
    is_word(word) && !is_kept(word) && !is_reserved(word)
}

/// Whether the bytes are a name or a reserved word.
pub fn is_shown(word: &[u8]) -> bool
    ensures { result ≡ is_shown word.now }
{
    is_word(word) && !is_kept(word)
}
