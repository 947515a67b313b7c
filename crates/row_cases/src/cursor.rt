//! Lines and blocks of bytes, one after the other.

/// What is left of a text.
#[derive(Drop)]
pub struct Cursor<'a> {
    rest: &'a [u8],
}

fn end_of_line(bytes: &[u8]) -> usize {
    for at in 0..bytes.len() {
        if bytes[at] == b'\n' {
            return at;
        }
    }
    bytes.len()
}

/// The bytes from a place on, or none.
fn behind(bytes: &[u8], at: usize) -> &[u8] {
    match bytes.get(at..) {
        Some(rest) => rest,
        None => &[],
    }
}

impl<'a> Cursor<'a> {
    pub fn new(text: &'a [u8]) -> Cursor<'a> {
        Cursor { rest: text }
    }

    /// The next line without its line feed.
    pub fn line(&mut self) -> Option<&'a [u8]> {
        if self.rest.is_empty() {
            return None;
        }
        let end = end_of_line(self.rest);
        let line = match self.rest.get(..end) {
            Some(line) => line,
            None => self.rest,
        };
        self.rest = behind(behind(self.rest, end), 1);
        Some(line)
    }

    /// So many bytes, and the line feed behind them.
    pub fn block(&mut self, size: usize) -> &'a [u8] {
        match self.rest.get(..size) {
            Some(block) => {
                self.rest = behind(behind(self.rest, size), 1);
                block
            }
            None => {
                let block = self.rest;
                self.rest = &[];
                block
            }
        }
    }
}
