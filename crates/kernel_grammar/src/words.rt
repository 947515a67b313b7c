//! The words that are no names.
ghost use Rattle.std.specs.Prelude.{◌≡◌, bytes_eq, find};
ghost use Rattle.std.specs.List.{list_any};
ghost use Rattle.kernel_grammar.specs.Words.{is_reserved, kind_named};
ghost use Rattle.kind_faults.specs.Words.{kind_word};

use kind_faults::kind_word;
use wrap_words::Kind;

const KINDS: [Kind; 4] = [Kind::I32, Kind::I64, Kind::U32, Kind::U64];

/// The words of the grammar that name no kind.
const KEYWORDS: [&[u8]; 15] = [
    b"kernel", b"domain", b"assume", b"input", b"output", b"temp", b"sum", b"product", b"min",
    b"max", b"if", b"cast", b"and", b"or", b"not",
];

fn kind_among(word: &[u8], kinds: &[Kind]) -> Option<Kind>
    ensures { result ≡ find (λ kind. bytes_eq word.now (kind_word kind)) kinds.now }
{
    for kind in kinds {
        if word == kind_word(*kind).as_bytes() {
            return Some(*kind);
        }
    }
    None
}

/// The kind that a word names, if it names one.
pub fn kind_named(word: &[u8]) -> Option<Kind>
    ensures { result ≡ kind_named word.now }
{
    kind_among(word, &KINDS)
}

fn is_among(word: &[u8], others: &[&[u8]]) -> bool
    ensures { result ≡ list_any (λ other. bytes_eq word.now other.now) others.now }
{
    others.iter().any(|other| word == *other)
}

/// Whether a word is no name.
pub fn is_reserved(word: &[u8]) -> bool
    ensures { result ≡ is_reserved word.now }
{
    is_among(word, &KEYWORDS) || kind_named(word).is_some()
}
