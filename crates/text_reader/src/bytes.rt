//! Classes of bytes.
ghost use Rattle.std.specs.Prelude.{◌≡◌};
ghost use Rattle.text_reader.specs.Bytes.{begins_word, comment_mark, goes_on, is_blank, is_feed, is_word_byte, kind_at};

use crate::form::Form;
use crate::lexeme::Piece;
use crate::token::Class;

/// Whether a line feed stands at the front.
pub fn is_feed(bytes: &[u8]) -> bool
    ensures { result ≡ is_feed bytes.now }
{
    !bytes.is_empty() && bytes[0] == b'\n'
}

/// Whether the byte is a space, a tab, or a carriage return that a line feed follows.
fn is_blank(byte: u8, feed: bool) -> bool
    ensures { result ≡ is_blank byte feed }
{
    byte == b' ' || byte == b'\t' || (byte == b'\r' && feed)
}

/// Whether the byte is a letter or `_`.
fn begins_word(byte: u8) -> bool
    ensures { result ≡ begins_word byte }
{
    byte.is_ascii_alphabetic() || byte == b'_'
}

/// Whether the byte is a letter, a digit or `_`.
fn is_word_byte(byte: u8) -> bool
    ensures { result ≡ is_word_byte byte }
{
    begins_word(byte) || byte.is_ascii_digit()
}

/// The byte that begins a comment.
fn comment_mark(form: Form) -> u8
    ensures { result ≡ comment_mark form }
{
    match form {
        Form::Kernel | Form::Words => b'#',
        Form::Fortran => b'!',
    }
}

/// The one piece that can begin with the byte. Whether a line feed follows decides at a carriage return.
pub fn kind_at(form: Form, byte: u8, feed: bool) -> Piece
    ensures { result ≡ kind_at form byte feed }
{
    if is_blank(byte, feed) {
        Piece::Blank
    } else if byte == b'\n' {
        Piece::Token(Class::LineEnd)
    } else if byte == comment_mark(form) {
        Piece::Comment
    } else if form == Form::Words || begins_word(byte) {
        Piece::Token(Class::Word)
    } else if byte.is_ascii_digit() {
        Piece::Token(Class::Number)
    } else {
        Piece::Token(Class::Sign)
    }
}

/// Whether a comment, word or number goes on with the byte.
pub fn goes_on(form: Form, piece: Piece, byte: u8, feed: bool) -> bool
    ensures { result ≡ goes_on form piece byte feed }
{
    match piece {
        Piece::Comment => byte != b'\n',
        Piece::Token(Class::Word) => match form {
            Form::Words => byte.is_ascii() && kind_at(form, byte, feed) == piece,
            Form::Kernel | Form::Fortran => is_word_byte(byte),
        },
        Piece::Token(Class::Number) => byte.is_ascii_digit(),
        Piece::Blank | Piece::Token(Class::Sign | Class::LineEnd) => false,
    }
}
