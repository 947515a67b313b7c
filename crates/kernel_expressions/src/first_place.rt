//! What stands in the first place of `min` and `max`.
ghost use Rattle.std.specs.Prelude.{◌≡◌, ◌<◌, ◌+◌, ◌++◌, ◌≤◌, ◌^◌, [], ◌∷◌, ℕ, List, drop, length, MatchOption};
ghost use Rattle.std.specs.Bool.{MatchBool};
ghost use Rattle.kernel_grammar.specs.Lexicals.{Lexical, sign, word};
ghost use Rattle.kernel_expressions.specs.FirstPlaces.{HasPlace};
ghost use Rattle.kernel_expressions.specs.Reads.{Next};
ghost use Rattle.kernel_expressions.specs.Texts.{texts, text_of};

use crate::ahead::lexeme_at;
use crate::key::key_text;
use crate::lexeme::Lexeme;
use kind_faults::kind_word;

/// What stands in the first place of `min` and `max`.
#[derive(Clone, Copy)]
pub enum FirstPlace<'a> {
    /// One word.
    Lone(&'a str),
    /// One word between two signs.
    Grouped(&'a str),
    Other,
}

/// The word that a token is, if it is one.
fn word_of<'a>(lexeme: Lexeme<'a>) -> Option<&'a str>
    ensures { MatchOption result ((w : List ℕ) → text_of lexeme.entry ≡ word w → ⊥) (λ w. text_of lexeme.entry ≡ word w.now) }
{
    match lexeme {
        Lexeme::Name(word) => Some(word.text),
        Lexeme::Kind(kind) => Some(kind_word(kind)),
        Lexeme::Key(key) => Some(key_text(key)),
        Lexeme::Number(_) | Lexeme::Sign(_) | Lexeme::LineEnd => None,
    }
}

/// Whether a token is a sign.
fn is_sign(lexeme: Lexeme) -> bool
    ensures { MatchBool result ((s : List ℕ) × (text_of lexeme.entry ≡ sign s)) ((s : List ℕ) → text_of lexeme.entry ≡ sign s → ⊥) }
{
    match lexeme {
        Lexeme::Sign(_) => true,
        _ => false,
    }
}

/// What a first place of one token is.
fn lone<'a>(one: Lexeme<'a>) -> FirstPlace<'a>
    ensures { HasPlace result (text_of one.entry ∷ []) }
{
    match word_of(one) {
        Some(word) => FirstPlace::Lone(word),
        None => FirstPlace::Other,
    }
}

/// What a first place of three tokens is.
fn grouped<'a>(first: Lexeme<'a>, second: Lexeme<'a>, third: Lexeme<'a>) -> FirstPlace<'a>
    ensures { HasPlace result (text_of first.entry ∷ text_of second.entry ∷ text_of third.entry ∷ []) }
{
    if !is_sign(first) {
        return FirstPlace::Other;
    }
    if !is_sign(third) {
        return FirstPlace::Other;
    }
    match word_of(second) {
        Some(word) => FirstPlace::Grouped(word),
        None => FirstPlace::Other,
    }
}

/// What stands between the places.
pub fn first_place<'a>(lexemes: &[Lexeme<'a>], start: usize, at: usize) -> FirstPlace<'a>
    ensures { (text : List Lexical) → drop start (texts lexemes.now) ≡ text ++ drop at (texts lexemes.now) → start ≤ at → at ≤ length (texts lexemes.now) → HasPlace result text }
{
    if at.saturating_sub(start) == 1 {
        return match lexeme_at(lexemes, start) {
            Some(one) => lone(one),
            None => FirstPlace::Other,
        };
    }
    if at.saturating_sub(start) == 3 {
        let first = lexeme_at(lexemes, start);
        let second = lexeme_at(lexemes, start + 1);
        let third = lexeme_at(lexemes, start + 2);
        return match (first, second, third) {
            (Some(first), Some(second), Some(third)) => grouped(first, second, third),
            _ => FirstPlace::Other,
        };
    }
    FirstPlace::Other
}
