//! The first line of a file that says something.
ghost use Rattle.std.specs.Prelude.{◌≡◌, ◌≤◌, false, length, take, drop, IfOk, IfSome};
ghost use Rattle.std.specs.Option.{option_map};
ghost use Rattle.text_reader.specs.Bytes.{is_blank, is_feed, begins_word, is_word_byte};
ghost use Rattle.kernel_ir.specs.Refusals.{Refuses};
ghost use Rattle.kernel_files.specs.FirstLine.{first_said, behind_blanks, begins_blank, is_end, ends, says_one, says_kernel, word_front, first_word, not_built, form_refusal};

use affine_rows::Name;
use kernel_ir::{Fault, Refusal, Site};
use std::alloc::{AllocError, Global};

fn is_feed(bytes: &[u8]) -> bool
    ensures { result ≡ is_feed bytes.now }
{
    !bytes.is_empty() && bytes[0] == b'\n'
}

fn is_blank(byte: u8, feed: bool) -> bool
    ensures { result ≡ is_blank byte feed }
{
    byte == b' ' || byte == b'\t' || (byte == b'\r' && feed)
}

/// Where the first byte stands that is no blank and in no comment: its line, from 1, and how many bytes stand before it.
fn first_said(bytes: &[u8]) -> Option<(u32, usize)>
    requires { length bytes.now ≤ 1048576 }
    ensures said { option_map (λ s. (s.0, drop s.1 bytes.now)) result ≡ first_said false 1 bytes.now }
    ensures within { IfSome result (λ s. s.1 ≤ length bytes.now) }
{
    let mut line = 1;
    let mut comment = false;
    'bytes: for at in 0..bytes.len() {
        let byte = bytes[at];
        if byte == b'\n' {
            line += 1;
            comment = false;
        } else if comment || byte == b'#' {
            comment = true;
        } else if !is_blank(byte, is_feed(&bytes[at + 1..])) {
            return Some((line, at));
        }
    }
    None
}

/// How many blanks stand at the front.
fn count_blanks(text: &[u8]) -> usize
    ensures within { result ≤ length text.now }
    ensures behind { drop result text.now ≡ behind_blanks text.now }
{
    'text: for at in 0..text.len() {
        if !is_blank(text[at], is_feed(&text[at + 1..])) {
            return at;
        }
    }
    text.len()
}

fn begins_blank(text: &[u8]) -> bool
    ensures { result ≡ begins_blank text.now }
{
    !text.is_empty() && is_blank(text[0], is_feed(&text[1..]))
}

fn is_end(byte: u8) -> bool
    ensures { result ≡ is_end byte }
{
    byte == b'\n' || byte == b'#'
}

fn ends(text: &[u8]) -> bool
    ensures { result ≡ ends text.now }
{
    text.is_empty() || is_end(text[0])
}

/// Whether a line says 1 and no more.
fn says_one(text: &[u8]) -> bool
    ensures { result ≡ says_one text.now }
{
    if text.is_empty() || text[0] != b'1' {
        return false;
    }
    let behind = &text[1..];
    ends(&behind[count_blanks(behind)..])
}

/// Whether a line says `kernel 1`.
fn says_kernel(text: &[u8]) -> bool
    ensures { result ≡ says_kernel text.now }
{
    if text.len() < 6 || &text[..6] != b"kernel".as_slice() {
        return false;
    }
    let behind = &text[6..];
    begins_blank(behind) && says_one(&behind[count_blanks(behind)..])
}

fn begins_word(byte: u8) -> bool
    ensures { result ≡ begins_word byte }
{
    byte.is_ascii_alphabetic() || byte == b'_'
}

fn is_word_byte(byte: u8) -> bool
    ensures { result ≡ is_word_byte byte }
{
    begins_word(byte) || byte.is_ascii_digit()
}

/// How many letters, digits and `_` stand at the front.
fn count_word(text: &[u8]) -> usize
    ensures within { result ≤ length text.now }
    ensures word { take result text.now ≡ word_front text.now }
{
    'text: for at in 0..text.len() {
        if !is_word_byte(text[at]) {
            return at;
        }
    }
    text.len()
}

/// The letters, digits and `_` at the front.
fn word_front(alloc: Global, text: &[u8]) -> Result<Name, AllocError>
    ensures { IfOk result (λ n. n ≡ word_front text.now) }
{
    match std::str::from_utf8(&text[..count_word(text)]) {
        Ok(word) => Name::from_str(alloc, word),
        Err(_) => unreachable!(),
    }
}

/// The first word of a line, and `-` where there is none.
fn first_word(alloc: Global, text: &[u8]) -> Result<Name, AllocError>
    ensures { IfOk result (λ n. n ≡ first_word text.now) }
{
    'text: for at in 0..text.len() {
        if is_end(text[at]) {
            return Name::from_str(alloc, "-");
        }
        if begins_word(text[at]) {
            return word_front(alloc, &text[at..]);
        }
    }
    Name::from_str(alloc, "-")
}

/// A form that is not built, by its first word.
fn not_built(alloc: Global, line: u32, word: &Name) -> Result<Refusal, AllocError>
    ensures { IfOk result (λ r. r ≡ not_built line word.now) }
{
    let refusal = Refusal::of_rule(alloc, Site::Kernel, 5).with_name(alloc, word)?;
    Ok(refusal.at_line(line))
}

/// Refuses a file by rule 5 where its first line that says something is not `kernel 1`: with that line, 0 where there is none,
/// and its first word, `-` where there is none.
pub(crate) fn check_form(alloc: Global, bytes: &[u8]) -> Result<(), Fault>
    requires { length bytes.now ≤ 1048576 }
    ensures { Refuses (form_refusal bytes.now) result }
{
    match first_said(bytes) {
        Some((line, at)) => {
            let text = &bytes[at..];
            if says_kernel(text) {
                return Ok(());
            }
            let word = first_word(alloc, text)?;
            Err(Fault::Rule(not_built(alloc, line, &word)?))
        }
        None => {
            let word = Name::from_str(alloc, "-")?;
            Err(Fault::Rule(not_built(alloc, 0, &word)?))
        }
    }
}
