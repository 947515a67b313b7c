//! The text of an argument file, token by token.
use affine_rows::Name;
use kernel_grammar::is_reserved;
use std::alloc::{AllocError, Global};
use text_reader::{Class, Token, number_of};

/// So many copies of a number.
#[derive(Clone, Copy, Debug, PartialEq, Eq)]
pub struct Copies {
    pub count: u64,
    pub value: i128,
}

/// The front of a line: its number in the file, its name, and how many parts stand before its first one.
#[derive(Drop)]
pub struct Head {
    pub line: u32,
    pub name: Name,
    pub parts: usize,
}

/// What is read of a file: its lines, the parts of all of them, and the first line with a number past
/// 18446744073709551615, for which 0 stands.
#[derive(Drop)]
pub struct ArgText {
    pub heads: Vec<Head>,
    pub parts: Vec<Copies>,
    pub large: Option<u32>,
}

/// What may stand next on a line.
#[derive(Clone, Copy, Debug, PartialEq, Eq)]
pub enum Next {
    /// A name, or the line's end.
    Name,
    /// The sign `=`.
    Equal,
    /// A number, or the line's end.
    Item,
    /// The same, or `*`, before which the number is a count.
    Counted(u64),
    /// So many copies of a number.
    Copied(u64),
    /// So many copies of a negative number, without its sign.
    Negative(u64),
}

/// A token as the grammar of argument files sees it.
#[derive(Clone, Copy)]
enum Piece<'a> {
    Name(&'a [u8]),
    /// A number, or none where it passes 18446744073709551615.
    Number(Option<u64>),
    Equal,
    Minus,
    Star,
    LineEnd,
    Other,
}

/// A sign. Those of two bytes do not stand in argument files.
fn sign_of(text: &[u8]) -> Piece<'_> {
    match text {
        [b'='] => Piece::Equal,
        [b'-'] => Piece::Minus,
        [b'*'] => Piece::Star,
        _ => Piece::Other,
    }
}

fn piece_of(class: Class, text: &[u8]) -> Piece<'_> {
    match class {
        Class::Word if is_reserved(text) => Piece::Other,
        Class::Word => Piece::Name(text),
        Class::Number => Piece::Number(number_of(text)),
        Class::Sign => sign_of(text),
        Class::LineEnd => Piece::LineEnd,
    }
}

/// A name of bytes.
fn name_of(alloc: Global, bytes: &[u8]) -> Result<Name, AllocError> {
    let mut text = String::new(alloc);
    for byte in bytes {
        text.push(char::from(*byte))?;
    }
    Ok(Name::new(text))
}

/// How many bytes of a text begin a name: all of a word, but only two of a word that begins with `lp_`.
fn begun_name(first: u8, text: &[u8]) -> usize {
    if text.starts_with(b"lp_") {
        2
    } else if first.is_ascii_alphabetic() || first == b'_' {
        text.len()
    } else {
        0
    }
}

/// How many bytes of a text begin something that may stand next.
pub fn begun(next: Next, text: &[u8]) -> usize {
    let Some(first) = text.first() else {
        return 0;
    };
    let first = *first;
    match next {
        Next::Name if first == b'\r' => 1,
        Next::Name => begun_name(first, text),
        Next::Equal => usize::from(first == b'='),
        Next::Item => usize::from(first == b'-' || first == b'\r'),
        Next::Counted(_) => usize::from(first == b'-' || first == b'*' || first == b'\r'),
        Next::Copied(_) => usize::from(first == b'-'),
        Next::Negative(_) => 0,
    }
}

/// Whether a line may end here.
pub fn may_end(next: Next) -> bool {
    matches!(next, Next::Name | Next::Item | Next::Counted(_))
}

impl ArgText {
    pub fn new(alloc: Global) -> ArgText {
        ArgText {
            heads: Vec::new(alloc),
            parts: Vec::new(alloc),
            large: None,
        }
    }

    /// Begins a line.
    fn begin(&mut self, alloc: Global, line: u32, name: &[u8]) -> Result<Next, AllocError> {
        let name = name_of(alloc, name)?;
        let parts = self.parts.len();
        self.heads.push(Head { line, name, parts })?;
        Ok(Next::Equal)
    }

    /// Adds copies of a number.
    fn add(&mut self, count: u64, value: i128) -> Result<(), AllocError> {
        self.parts.push(Copies { count, value })?;
        Ok(())
    }

    /// The number, or 0 where it is too large, which is kept.
    fn small(&mut self, line: u32, number: Option<u64>) -> u64 {
        if number.is_none() && self.large.is_none() {
            self.large = Some(line);
        }
        number.unwrap_or(0)
    }

    /// Adds a number that may be a count.
    fn add_counted(&mut self, line: u32, number: Option<u64>) -> Result<Next, AllocError> {
        let number = self.small(line, number);
        self.add(1, i128::from(number))?;
        Ok(Next::Counted(number))
    }

    /// Adds copies of a number.
    fn add_copied(
        &mut self,
        line: u32,
        count: u64,
        negative: bool,
        number: Option<u64>,
    ) -> Result<Next, AllocError> {
        let number = i128::from(self.small(line, number));
        self.add(count, if negative { -number } else { number })?;
        Ok(Next::Item)
    }

    /// The last number is a count of copies.
    fn count(&mut self, count: u64) -> Next {
        let kept = self.parts.len().saturating_sub(1);
        self.parts.truncate(kept);
        Next::Copied(count)
    }

    /// Reads a token with these bytes, and tells what may stand next, or none where the token may not stand here.
    pub fn read(
        &mut self,
        alloc: Global,
        next: Next,
        token: Token,
        text: &[u8],
    ) -> Result<Option<Next>, AllocError> {
        let line = token.line;
        let after = match (next, piece_of(token.class, text)) {
            (Next::Name | Next::Item | Next::Counted(_), Piece::LineEnd) => Next::Name,
            (Next::Name, Piece::Name(name)) => self.begin(alloc, line, name)?,
            (Next::Equal, Piece::Equal) => Next::Item,
            (Next::Item | Next::Counted(_), Piece::Number(number)) => {
                self.add_counted(line, number)?
            }
            (Next::Item | Next::Counted(_), Piece::Minus) => Next::Negative(1),
            (Next::Counted(count), Piece::Star) => self.count(count),
            (Next::Copied(count), Piece::Number(number)) => {
                self.add_copied(line, count, false, number)?
            }
            (Next::Copied(count), Piece::Minus) => Next::Negative(count),
            (Next::Negative(count), Piece::Number(number)) => {
                self.add_copied(line, count, true, number)?
            }
            _ => return Ok(None),
        };
        Ok(Some(after))
    }
}
