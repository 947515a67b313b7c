//! The place at which bytes stop being a kernel file.
ghost use Rattle.std.specs.Prelude.{◌≡◌, ◌≤◌, [], ◌∷◌, take, length, IfOk, MatchBool, ◌-◌, ◌^◌, ◌<◌, false, drop, slice_get, MatchOption};
ghost use Rattle.std.specs.List.{All};
ghost use Rattle.text_reader.specs.declared.form.Form.TheVariants.{Kernel};
ghost use Rattle.text_reader.specs.Bytes.{begins_word};
ghost use Rattle.text_reader.specs.Spelling.{IsSpelledIn};
ghost use Rattle.text_reader.specs.Tokens.{IsWithin};
ghost use Rattle.kernel_expressions.specs.Texts.{text_of, texts};
ghost use Rattle.kernel_syntax.specs.Places.{common, spelled, GoesOn, IsBegun};
ghost use Rattle.kernel_syntax.specs.Candidates.{known, others_known, starts, IsLonger, IsTried, TakesName};
ghost use Rattle.kernel_syntax.specs.Refusals.{IsNoLimit, IsSyntaxFault};
ghost use Rattle.kernel_grammar.specs.Lexicals.{lexicals};
ghost use Rattle.kernel_syntax.specs.FileParts.{RefusesFile};
ghost use Rattle.kernel_syntax.specs.Refused.{is_space, is_spaced, IsAtEnd, IsBlankTo, IsBehindBefore, IsReadRefused, IsRefusedAs};
ghost use Rattle.text_reader.specs.Tokens.{IsTokensOf};

use crate::file::file;
use kernel_expressions::key::{KEYS, key_text};
use kernel_expressions::lexeme::{Lexeme, Word};
use kernel_expressions::lexemes::lexemes;
use kernel_expressions::sign::{SIGNS, sign_text};
use kernel_expressions::stop::Stop;
use kind_faults::kind_word;
use std::alloc::{AllocError, Global};
use text_reader::{Class, TextFault, Token};
use wrap_words::Kind;

const KINDS: [Kind; 4] = [Kind::I32, Kind::I64, Kind::U32, Kind::U64];

/// Whether some file begins with the tokens up to a place and then this one.
fn begins(alloc: Global, lexemes: &[Lexeme], at: usize, next: Lexeme) -> Result<bool, AllocError>
    ensures { at ≤ length (texts lexemes.now) → IfOk result (λ b. MatchBool b (GoesOn (take at (texts lexemes.now)) (text_of next.entry)) (GoesOn (take at (texts lexemes.now)) (text_of next.entry) → ⊥)) }
{
    let mut tokens = Vec::new(alloc);
    let mut count = 0;
    'tokens: while count < at && count < lexemes.len() {
        tokens.push(lexemes[count])?;
        count += 1;
    }
    tokens.push(next)?;
    match file(alloc, &tokens) {
        Ok(_) => Ok(true),
        Err(Stop::Refused { at: refused }) => Ok(refused > at),
        Err(Stop::OutOfMemory) => Err(AllocError),
    }
}

/// How many bytes two texts have in common at their fronts.
fn common(one: &[u8], other: &[u8]) -> usize
    ensures { result ≡ common one.now other.now }
{
    let mut count = 0;
    'bytes: while count < one.len() && count < other.len() {
        if one[count] != other[count] {
            return count;
        }
        count += 1;
    }
    count
}

/// The bytes of a token.
fn spelling<'a>(token: Lexeme<'a>) -> &'a [u8]
    ensures { result.now ≡ spelled (text_of token.entry) }
{
    match token {
        Lexeme::Name(name) => name.text.as_bytes(),
        Lexeme::Kind(kind) => kind_word(kind).as_bytes(),
        Lexeme::Key(key) => key_text(key).as_bytes(),
        Lexeme::Number(digits) => digits,
        Lexeme::Sign(sign) => sign_text(sign),
        Lexeme::LineEnd => b"\r\n",
    }
}

/// The greater of a number and of how many bytes of a text begin a token, if this may stand behind the tokens up to a place.
fn longer(
    alloc: Global,
    all: &[Lexeme],
    at: usize,
    text: &[u8],
    most: usize,
    known: Lexeme,
) -> Result<usize, AllocError>
    ensures { at ≤ length (texts all.now) → IfOk result (IsLonger (take at (texts all.now)) text.now (text_of known.entry ∷ []) most) }
{
    let count = common(text, spelling(known));
    if count <= most {
        return Ok(most);
    }
    if begins(alloc, all, at, known)? {
        Ok(count)
    } else {
        Ok(most)
    }
}

/// The names, the number and the line end that the grammar quotes or that stand for others.
fn others<'a>() -> [Lexeme<'a>; 5]
    ensures { texts result ≡ others_known }
{
    [
        Lexeme::Name(Word { text: "id" }),
        Lexeme::Name(Word { text: "dep" }),
        Lexeme::Name(Word { text: "inames" }),
        Lexeme::Number(b"1"),
        Lexeme::LineEnd,
    ]
}

/// How many bytes of a text begin some token that is known and may stand behind the tokens up to a place.
fn longest(alloc: Global, all: &[Lexeme], at: usize, text: &[u8]) -> Result<usize, AllocError>
    ensures { at ≤ length (texts all.now) → IfOk result (IsLonger (take at (texts all.now)) text.now known 0) }
{
    let mut most = 0;
    for sign in SIGNS {
        most = longer(alloc, all, at, text, most, Lexeme::Sign(sign))?;
    }
    for key in KEYS {
        most = longer(alloc, all, at, text, most, Lexeme::Key(key))?;
    }
    for kind in KINDS {
        most = longer(alloc, all, at, text, most, Lexeme::Kind(kind))?;
    }
    for other in others() {
        most = longer(alloc, all, at, text, most, other)?;
    }
    Ok(most)
}

/// Whether the text begins a name.
fn is_begun_name(text: &[u8]) -> bool
    ensures { result ≡ starts begins_word text.now }
{
    !text.is_empty() && (text[0].is_ascii_alphabetic() || text[0] == b'_')
}

/// Whether the text begins a name and any name may stand behind the tokens up to a place.
fn takes_name(alloc: Global, all: &[Lexeme], at: usize, text: &[u8]) -> Result<bool, AllocError>
    ensures { at ≤ length (texts all.now) → IfOk result (TakesName (take at (texts all.now)) text.now) }
{
    if !is_begun_name(text) {
        return Ok(false);
    }
    begins(alloc, all, at, Lexeme::Name(Word { text: "x" }))
}

/// How many bytes of a text begin some token that may stand behind the tokens up to a place.
fn begun(alloc: Global, all: &[Lexeme], at: usize, text: &[u8]) -> Result<usize, AllocError>
    ensures { at ≤ length (texts all.now) → IsTried (take at (texts all.now)) text.now → IfOk result (IsBegun (take at (texts all.now)) text.now) }
{
    if takes_name(alloc, all, at, text)? {
        return Ok(text.len());
    }
    longest(alloc, all, at, text)
}

/// Whether the byte is a space or a tab.
fn is_space(byte: u8) -> bool
    ensures { result ≡ is_space byte }
{
    byte == b' ' || byte == b'\t'
}

/// The place behind spaces and tabs.
fn behind_blanks(bytes: &[u8], from: usize) -> usize
    ensures blank { from ≤ length bytes.now → IsBlankTo bytes.now from result }
    ensures all { is_spaced (drop result bytes.now) ≡ false }
{
    let mut at = from;
    'blanks: while at < bytes.len() {
        if !is_space(bytes[at]) {
            return at;
        }
        at += 1;
    }
    at
}

/// The place behind the token before.
fn behind_before(tokens: &[Token], at: usize) -> usize
    ensures { IsBehindBefore tokens.now at result }
{
    if at == 0 {
        return 0;
    }
    match tokens.get(at - 1) {
        Some(token) => token.to as usize,
        None => 0,
    }
}

/// The fault whose place is behind so many bytes.
fn fault_behind(bytes: &[u8], end: usize) -> TextFault
    requires { length bytes.now < 2 ^ 32 - 1 }
    ensures { IsAtEnd (take end bytes.now) result }
{
    let mut line: u32 = 1;
    let mut count: u32 = 0;
    let mut at = 0;
    'bytes: while at < end && at < bytes.len() {
        if bytes[at] == b'\n' {
            line += 1;
            count = 0;
        } else {
            count += 1;
        }
        at += 1;
    }
    TextFault::Syntax { line, bytes: count }
}

/// The bytes from one place to another, if these are places of the text.
fn part(bytes: &[u8], from: usize, to: usize) -> &[u8]
    ensures { from ≤ to → to ≤ length bytes.now → result.now ≡ take (to - from) (drop from bytes.now) }
{
    if from <= to && to <= bytes.len() {
        &bytes[from..to]
    } else {
        &[]
    }
}

/// The place of the token that is refused, and its bytes. Behind the tokens stand the bytes from one place to another.
fn refused<'a>(
    bytes: &'a [u8],
    tokens: &[Token],
    at: usize,
    left: (usize, usize),
) -> (usize, &'a [u8])
    requires { All (IsWithin bytes.now) tokens.now }
    ensures { MatchOption (slice_get tokens.now at) ((result.0 ≡ left.0) × (left.0 ≤ left.1 → left.1 ≤ length bytes.now → result.1.now ≡ take (left.1 - left.0) (drop left.0 bytes.now))) (λ token. IsRefusedAs token.class bytes.now tokens.now at token result.0 result.1.now) }
{
    match tokens.get(at) {
        Some(token) => {
            if token.class == Class::LineEnd {
                (behind_blanks(bytes, behind_before(tokens, at)), &[])
            } else {
                (
                    token.from as usize,
                    part(bytes, token.from as usize, token.to as usize),
                )
            }
        }
        None => (left.0, part(bytes, left.0, left.1)),
    }
}

/// The fault where the token at a place is refused. Behind the tokens stand the bytes from one place to another.
pub fn fault_at(
    alloc: Global,
    bytes: &[u8],
    tokens: &[Token],
    at: usize,
    left: (usize, usize),
) -> Result<TextFault, AllocError>
    requires short { length bytes.now < 2 ^ 32 - 1 }
    requires within { All (IsWithin bytes.now) tokens.now }
    requires spelled { All (IsSpelledIn Kernel bytes.now) tokens.now }
    ensures whole { IsTokensOf Kernel bytes.now tokens.now → left ≡ (length bytes.now, length bytes.now) → RefusesFile (lexicals bytes.now tokens.now) at → IfOk result (IsSyntaxFault bytes.now) }
    ensures read { IsReadRefused bytes.now tokens.now at left → IfOk result (IsSyntaxFault bytes.now) }
    ensures unlimited { IfOk result IsNoLimit }
{
    let all = lexemes(alloc, bytes, tokens)?;
    let (from, text) = refused(bytes, tokens, at, left);
    let count = begun(alloc, &all, at, text)?;
    Ok(fault_behind(bytes, from.saturating_add(count)))
}
