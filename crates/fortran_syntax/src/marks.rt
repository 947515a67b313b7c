//! The marks round a block.
use std::alloc::{AllocError, Global};

/// The bytes of a line, without its line feed and a carriage return before that.
fn content(line: &[u8]) -> &[u8] {
    match line {
        [front @ .., b'\r', b'\n'] => front,
        _ => without_feed(line),
    }
}

/// The bytes of a line, without its line feed.
fn without_feed(line: &[u8]) -> &[u8] {
    match line {
        [front @ .., b'\n'] => front,
        _ => line,
    }
}

/// Spaces and tabs are blanks.
pub(crate) fn is_blank(byte: u8) -> bool {
    byte == b' ' || byte == b'\t'
}

/// What stands behind the blanks at the beginning of a text.
fn without_blanks(text: &[u8]) -> &[u8] {
    match text.iter().position(|byte| !is_blank(*byte)) {
        Some(start) => &text[start.min(text.len())..],
        None => &[],
    }
}

/// The word at the beginning of a text, behind blanks, and what stands behind it. It is empty where no word follows.
fn next_word(text: &[u8]) -> (&[u8], &[u8]) {
    let word = without_blanks(text);
    match word.iter().position(|byte| is_blank(*byte)) {
        Some(end) => word.split_at(end.min(word.len())),
        None => (word, &[]),
    }
}

/// Whether the words of the line are `!$loopw` and this one, whatever the case of their letters.
fn is_mark(line: &[u8], second: &[u8]) -> bool {
    let (word, rest) = next_word(content(line));
    let (next, rest) = next_word(rest);
    let (last, _) = next_word(rest);
    word.eq_ignore_ascii_case(b"!$loopw") && next.eq_ignore_ascii_case(second) && last.is_empty()
}

/// What stands for a byte that is not of the block.
fn hidden(byte: u8) -> u8 {
    if byte == b'\n' { byte } else { b' ' }
}

/// The line that begins at a place, with its line feed.
fn line_at(bytes: &[u8], at: usize) -> &[u8] {
    let rest = &bytes[at.min(bytes.len())..];
    match rest.iter().position(|byte| *byte == b'\n') {
        Some(feed) => &rest[..feed.saturating_add(1).min(rest.len())],
        None => rest,
    }
}

/// A text whose lines and bytes stand where those of the file do: blanks for what stands before the block, the lines between
/// the first mark of a begin and the next mark of an end, in lower case, and the latter mark. There is none without both marks.
pub(crate) fn block_text(alloc: Global, bytes: &[u8]) -> Result<Option<Vec<u8>>, AllocError> {
    let mut text = Vec::new(alloc);
    let mut is_inside = false;
    for _line in 0..bytes.len() {
        let line = line_at(bytes, text.len());
        if is_inside && is_mark(line, b"end") {
            text.extend_from_slice(without_feed(line))?;
            return Ok(Some(text));
        }
        for byte in line {
            let shown = if is_inside {
                byte.to_ascii_lowercase()
            } else {
                hidden(*byte)
            };
            text.push(shown)?;
        }
        is_inside = is_inside || is_mark(line, b"begin");
    }
    Ok(None)
}
