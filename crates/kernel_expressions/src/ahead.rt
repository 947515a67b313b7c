//! What stands ahead: single tokens and lists of names.
ghost use Rattle.std.specs.Prelude.{◌≡◌, ◌≤◌, ◌+◌, ◌++◌, [], ◌∷◌, ℕ, List, codes, false, not, length, IfOk, MatchOption};
ghost use Rattle.std.specs.Result.{IfErr};
ghost use Rattle.std.specs.List.{slice_get};
ghost use Rattle.kernel_grammar.specs.Lexicals.{word, number, sign as sign_token};
ghost use Rattle.kernel_grammar.specs.Words.{is_reserved};
ghost use Rattle.kind_faults.specs.Words.{kind_word};
ghost use Rattle.kernel_expressions.specs.Texts.{texts, text_of, IsFit};
ghost use Rattle.kernel_expressions.specs.Reads.{Next, Reads, IsItem, IsList, IsNamesBefore, word_of};
ghost use Rattle.kernel_expressions.specs.Signs.{sign_text};
ghost use Rattle.kernel_expressions.specs.Settled.{AnyRest, Behind, Ends, Halts, NoneNext, Spells, SpellsList, Stops, is_mark};
ghost use Rattle.kernel_grammar.specs.Spelling.{name_text, names_text};
ghost use Rattle.kernel_grammar.specs.Words.{Name as SpelledName};
ghost use Rattle.wrap_words.specs.declared.kind.Kind.{Kind as SpecKind};

use crate::lexeme::{Lexeme, Word};
use crate::lexemes::name_of;
use crate::sign::Sign;
use crate::stop::Stop;
use affine_rows::{Listed, Name};
use std::alloc::Global;
use wrap_words::Kind;

fn copied_at<'a>(lexemes: &[Lexeme<'a>], at: usize) -> Option<Lexeme<'a>>
    ensures { result ≡ slice_get lexemes.now at }
{
    lexemes.get(at).copied()
}

/// The token at a place.
pub fn lexeme_at<'a>(lexemes: &[Lexeme<'a>], at: usize) -> Option<Lexeme<'a>>
    ensures { MatchOption result (length (texts lexemes.now) ≤ at) (λ lexeme. Next (texts lexemes.now) at (text_of lexeme)) }
{
    copied_at(lexemes, at)
}

/// The sign at a place, if one stands there.
pub fn sign_at(lexemes: &[Lexeme], at: usize) -> Option<Sign>
    ensures { MatchOption result ((s : List ℕ) → Next (texts lexemes.now) at (sign_token s) → ⊥) (λ sign. Next (texts lexemes.now) at (sign_token (sign_text sign))) }
{
    match lexeme_at(lexemes, at) {
        Some(Lexeme::Sign(sign)) => Some(sign),
        _ => None,
    }
}

/// The name at a place, if one stands there.
pub fn name_at<'a>(lexemes: &[Lexeme<'a>], at: usize) -> Option<Word<'a>>
    ensures { MatchOption result ((n : SpelledName) → Next (texts lexemes.now) at (word n.word) → ⊥) (λ name. Next (texts lexemes.now) at (word name.text.now)) }
{
    match lexeme_at(lexemes, at) {
        Some(Lexeme::Name(word)) => Some(word),
        _ => None,
    }
}

/// The place behind the sign, if it stands there.
pub fn behind_sign(lexemes: &[Lexeme], at: usize, wanted: Sign) -> Option<usize>
    ensures { MatchOption result (Next (texts lexemes.now) at (sign_token (sign_text wanted)) → ⊥) (λ next. (next ≡ at + 1) × Next (texts lexemes.now) at (sign_token (sign_text wanted))) }
{
    if sign_at(lexemes, at)? == wanted {
        Some(at + 1)
    } else {
        None
    }
}

/// Reads the sign.
pub fn sign(lexemes: &[Lexeme], at: usize, wanted: Sign) -> Result<usize, Stop>
    ensures read { IfOk result (λ next. (next ≡ at + 1) × Next (texts lexemes.now) at (sign_token (sign_text wanted))) }
    ensures stops { IfErr result (Halts (NoneNext (texts lexemes.now) at (λ x. x ≡ sign_token (sign_text wanted)))) }
{
    behind_sign(lexemes, at, wanted).ok_or(Stop::Refused { at })
}

/// Reads a name.
pub fn name(alloc: Global, lexemes: &[Lexeme], at: usize) -> Result<(Name, usize), Stop>
    ensures read { IfOk result (λ read. Reads (texts lexemes.now) at read.1 (IsItem (IsFit (texts lexemes.now)) name_text word_of read.0)) }
    ensures next { IfOk result (λ read. read.1 ≡ at + 1) }
    ensures stops { IfErr result (Halts (NoneNext (texts lexemes.now) at (λ x. (n : SpelledName) × (x ≡ word n.word)))) }
{
    match name_at(lexemes, at) {
        Some(word) => Ok((name_of(alloc, word)?, at + 1)),
        None => Err(Stop::Refused { at }),
    }
}

/// Reads a number and answers its digits.
pub fn digits<'a>(lexemes: &[Lexeme<'a>], at: usize) -> Result<(&'a [u8], usize), Stop>
    ensures read { IfOk result (λ read. (read.1 ≡ at + 1) × Next (texts lexemes.now) at (number read.0.now)) }
    ensures stops { IfErr result (Halts (NoneNext (texts lexemes.now) at (λ x. (d : List ℕ) × (x ≡ number d)))) }
{
    match lexeme_at(lexemes, at) {
        Some(Lexeme::Number(digits)) => Ok((digits, at + 1)),
        _ => Err(Stop::Refused { at }),
    }
}

/// Reads a kind.
pub fn kind(lexemes: &[Lexeme], at: usize) -> Result<(Kind, usize), Stop>
    ensures read { IfOk result (λ read. (read.1 ≡ at + 1) × Next (texts lexemes.now) at (word (kind_word read.0))) }
    ensures stops { IfErr result (Halts (NoneNext (texts lexemes.now) at (λ x. (k : SpecKind) × (x ≡ word (kind_word k))))) }
{
    match lexeme_at(lexemes, at) {
        Some(Lexeme::Kind(kind)) => Ok((kind, at + 1)),
        _ => Err(Stop::Refused { at }),
    }
}

/// Reads one name or more, with the sign between.
pub fn names(
    alloc: Global,
    lexemes: &[Lexeme],
    at: usize,
    between: Sign,
) -> Result<(Listed<Name>, usize), Stop>
    ensures read { IfOk result (λ read. Reads (texts lexemes.now) at read.1 (IsList (IsFit (texts lexemes.now)) name_text word_of (sign_token (sign_text between)) read.0)) }
    ensures ends { IfOk result (λ read. Ends (texts lexemes.now) (SpellsList name_text (sign_token (sign_text between))) (Behind (λ x. not (is_mark (sign_text between) x))) at read.1) }
    ensures stops { at ≤ length (texts lexemes.now) → IfErr result (Halts (Stops (texts lexemes.now) (SpellsList name_text (sign_token (sign_text between))) (Behind (λ x. not (is_mark (sign_text between) x))) at)) }
{
    let (first, mut at) = name(alloc, lexemes, at)?;
    let mut names = Listed::of_one(alloc, first)?;
    'names: while let Some(next) = behind_sign(lexemes, at, between) {
        let (other, behind) = name(alloc, lexemes, next)?;
        names.push(other)?;
        at = behind;
    }
    Ok((names, at))
}

/// Reads names with `,` between them, or none, and the sign behind them, which is another.
pub fn names_before(
    alloc: Global,
    lexemes: &[Lexeme],
    at: usize,
    close: Sign,
) -> Result<(Listed<Name>, usize), Stop>
    requires { is_mark (codes ",") (sign_token (sign_text close)) ≡ false }
    ensures read { IfOk result (λ read. Reads (texts lexemes.now) at read.1 (IsNamesBefore (IsFit (texts lexemes.now)) (sign_token (sign_text close)) read.0)) }
    ensures ends { IfOk result (λ read. Ends (texts lexemes.now) (Spells (λ (list : List SpelledName). names_text list ++ sign_token (sign_text close) ∷ [])) AnyRest at read.1) }
    ensures stops { at ≤ length (texts lexemes.now) → IfErr result (Halts (Stops (texts lexemes.now) (Spells (λ (list : List SpelledName). names_text list ++ sign_token (sign_text close) ∷ [])) AnyRest at)) }
{
    if let Some(behind) = behind_sign(lexemes, at, close) {
        return Ok((Listed::new(alloc), behind));
    }
    let (names, at) = names(alloc, lexemes, at, Sign::Comma)?;
    Ok((names, sign(lexemes, at, close)?))
}
