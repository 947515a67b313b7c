//! What came of a call, and whether it is what is wanted.
use std::alloc::AllocError;

/// The status of a call, and what it wrote.
#[derive(Drop)]
pub struct Outcome {
    pub status: u8,
    pub out: Vec<u8>,
    pub err: Vec<u8>,
}

/// Whether the lines stand together in the text, which is so of no line.
fn has_lines(text: &[u8], lines: &[u8]) -> bool {
    for at in 0..text.len() {
        if is_at_line(text, at) && begins(text, at, lines) {
            return true;
        }
    }
    lines.is_empty()
}

fn is_at_line(text: &[u8], at: usize) -> bool {
    at == 0 || text.get(at.saturating_sub(1)) == Some(&b'\n')
}

fn begins(text: &[u8], at: usize, with: &[u8]) -> bool {
    match text.get(at..) {
        Some(rest) => rest.starts_with(with),
        None => false,
    }
}

impl Outcome {
    /// Whether the block of this sort is what was written.
    pub fn is(&self, sort: &[u8], block: &[u8]) -> bool {
        if sort == b"out".as_slice() {
            self.out.as_slice() == block
        } else if sort == b"err".as_slice() {
            self.err.as_slice() == block
        } else if sort == b"lines".as_slice() {
            has_lines(&self.out, block)
        } else {
            self.err.starts_with(block) && self.err.ends_with(b"\n")
        }
    }

    /// What was written there.
    pub fn written(&self, sort: &[u8]) -> &[u8] {
        if sort == b"out".as_slice() || sort == b"lines".as_slice() {
            &self.out
        } else {
            &self.err
        }
    }
}
