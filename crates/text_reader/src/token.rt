//! What the text of a file is made of.

/// What a token is.
#[derive(Clone, Copy, Debug, PartialEq, Eq)]
pub enum Class {
    Word,
    Number,
    Sign,
    /// The end of a line. It is empty where the last line feed is missing.
    LineEnd,
}

/// A token: its line, counted from 1, and its bytes in the file, from the first up to, but without, the last place.
#[derive(Clone, Copy, Debug, PartialEq, Eq)]
pub struct Token {
    pub line: u32,
    pub from: u32,
    pub to: u32,
    pub class: Class,
}
