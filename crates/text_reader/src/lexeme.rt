//! The lexemes of a text: tokens, and what stands between them.
ghost use Rattle.std.specs.Prelude.{◌≡◌, ◌<◌, ◌≤◌, true, length, take, drop, Some, IfOk};
ghost use Rattle.std.specs.Result.{IfErr};
ghost use Rattle.text_reader.specs.declared.lexeme.Piece.TheVariants as piece;
ghost use Rattle.text_reader.specs.declared.token.Class.TheVariants as class;
ghost use Rattle.text_reader.specs.Lexemes.{ends, folded, is_kept, is_run, kind_of, lacks_pair, IsLexeme};
ghost use Rattle.text_reader.specs.Progress.{IsStuck};

use crate::bytes::{goes_on, is_feed, kind_at};
use crate::form::Form;
use crate::signs::{begins_pair, is_pair, is_single};
use crate::token::Class;

/// What a lexeme is.
#[derive(Clone, Copy, Debug, PartialEq, Eq)]
pub enum Piece {
    Blank,
    Comment,
    Token(Class),
}

/// A lexeme: what it is, and its length in bytes.
#[derive(Clone, Copy, Debug, PartialEq, Eq)]
pub struct Lexeme {
    pub piece: Piece,
    pub length: usize,
}

/// No lexeme stands there, but some lexemes begin with so many of the bytes.
#[derive(Clone, Copy, Debug, PartialEq, Eq)]
pub struct NoLexeme {
    pub begun: usize,
}

/// Whether a comment, word or number does not go on with the bytes.
fn ends(form: Form, piece: Piece, bytes: &[u8]) -> bool
    ensures { result ≡ ends form piece bytes.now }
{
    bytes.is_empty() || !goes_on(form, piece, bytes[0], is_feed(&bytes[1..]))
}

/// The length of the comment, word or number at the front.
fn run_length(form: Form, piece: Piece, bytes: &[u8]) -> usize
    ensures within { result ≤ length bytes.now }
    ensures run { is_run form piece (take result bytes.now) (drop result bytes.now) ≡ true }
{
    let mut length = 0;
    'bytes: while !ends(form, piece, &bytes[length..]) {
        length += 1;
    }
    length
}

/// The byte, in lower case where the form takes letters so.
fn folded(form: Form, byte: u8) -> u8
    ensures { result ≡ folded form byte }
{
    match form {
        Form::Kernel | Form::Words => byte,
        Form::Fortran => byte.to_ascii_lowercase(),
    }
}

/// Whether the program keeps the word for itself.
fn is_kept(form: Form, word: &[u8]) -> bool
    ensures { result ≡ is_kept form word.now }
{
    match word {
        [a, b, c, ..] => {
            form != Form::Words
                && folded(form, *a) == b'l'
                && folded(form, *b) == b'p'
                && *c == b'_'
        }
        _ => false,
    }
}

/// The length of the word at the front.
fn word_length(form: Form, bytes: &[u8]) -> Result<usize, NoLexeme>
    requires { kind_of form bytes.now ≡ Some (piece.Token class.Word) }
    ensures within { IfOk result (λ count. count ≤ length bytes.now) }
    ensures lexeme { IfOk result (λ count. IsLexeme form (piece.Token class.Word) (take count bytes.now) (drop count bytes.now)) }
    ensures stuck { IfErr result (λ none. IsStuck form bytes.now none.begun) }
{
    let length = run_length(form, Piece::Token(Class::Word), bytes);
    if length == 0 {
        Err(NoLexeme { begun: 0 })
    } else if is_kept(form, &bytes[..length]) {
        Err(NoLexeme { begun: 2 })
    } else {
        Ok(length)
    }
}

/// Whether no sign of two bytes is the first byte and the next.
fn lacks_pair(form: Form, first: u8, rest: &[u8]) -> bool
    ensures { result ≡ lacks_pair form first rest.now }
{
    rest.is_empty() || !is_pair(form, first, rest[0])
}

/// The length of the sign at the front. A carriage return may begin the end of a line.
fn sign_length(form: Form, bytes: &[u8]) -> Result<usize, NoLexeme>
    requires { kind_of form bytes.now ≡ Some (piece.Token class.Sign) }
    ensures within { IfOk result (λ count. count ≤ length bytes.now) }
    ensures lexeme { IfOk result (λ count. IsLexeme form (piece.Token class.Sign) (take count bytes.now) (drop count bytes.now)) }
    ensures stuck { IfErr result (λ none. IsStuck form bytes.now none.begun) }
{
    let first = bytes[0];
    if !lacks_pair(form, first, &bytes[1..]) {
        Ok(2)
    } else if is_single(form, first) {
        Ok(1)
    } else if begins_pair(form, first) || first == b'\r' {
        Err(NoLexeme { begun: 1 })
    } else {
        Err(NoLexeme { begun: 0 })
    }
}

/// The lexeme at the front.
pub fn lexeme_at(form: Form, bytes: &[u8]) -> Result<Lexeme, NoLexeme>
    requires { 0 < length bytes.now }
    ensures within { IfOk result (λ lexeme. lexeme.length ≤ length bytes.now) }
    ensures lexeme { IfOk result (λ lexeme. IsLexeme form lexeme.piece (take lexeme.length bytes.now) (drop lexeme.length bytes.now)) }
    ensures stuck { IfErr result (λ none. IsStuck form bytes.now none.begun) }
{
    let piece = kind_at(form, bytes[0], is_feed(&bytes[1..]));
    let length = match piece {
        Piece::Blank | Piece::Token(Class::LineEnd) => 1,
        Piece::Comment => run_length(form, Piece::Comment, bytes),
        Piece::Token(Class::Number) => run_length(form, Piece::Token(Class::Number), bytes),
        Piece::Token(Class::Word) => word_length(form, bytes)?,
        Piece::Token(Class::Sign) => sign_length(form, bytes)?,
    };
    Ok(Lexeme { piece, length })
}
