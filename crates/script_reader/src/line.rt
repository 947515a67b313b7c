//! A line of a script, from its words.
ghost use Rattle.std.specs.Prelude.{◌≡◌, ◌≤◌, length, take};

use crate::command::Verb;
use crate::draft::Draft;
use crate::parts::{Part, may_end, next_front, next_word, parts_of};
use crate::places::syntax;
use crate::spelling::{verb_front, verb_named};
use kernel_ir::Fault;
use std::alloc::{AllocError, Global};
use text_reader::Token;

/// The bytes up to a place.
fn up_to(bytes: &[u8], at: usize) -> &[u8]
    ensures front { result.now ≡ take at bytes.now }
    ensures within { length result.now ≤ length bytes.now }
{
    &bytes[..at.min(bytes.len())]
}

/// The bytes of a token.
fn text_of(bytes: &[u8], token: Token) -> &[u8] {
    let bytes = up_to(bytes, token.to as usize);
    &bytes[(token.from as usize).min(bytes.len())..]
}

/// How many bytes at the front of these are blanks.
fn blank_count(bytes: &[u8]) -> usize {
    for at in 0..bytes.len() {
        if bytes[at] != b' ' && bytes[at] != b'\t' {
            return at;
        }
    }
    bytes.len()
}

/// Whether the line may end behind the text, which is a word that may come next, or nothing.
fn ends_behind(alloc: Global, parts: &[Part], text: &[u8]) -> Result<bool, AllocError> {
    if text.is_empty() {
        return Ok(may_end(parts));
    }
    match next_word(alloc, parts, text)? {
        None => Ok(false),
        Some((_, behind)) => Ok(may_end(&parts[behind..])),
    }
}

/// How many bytes of a word that may not come next begin one that may. A carriage return behind them counts where the line may
/// end, since a line feed may follow it.
fn begun(alloc: Global, parts: &[Part], text: &[u8]) -> Result<usize, AllocError> {
    let count = next_front(parts, text).min(text.len());
    let more = count < text.len()
        && text[count] == b'\r'
        && ends_behind(alloc, parts, &text[..count])?;
    Ok(if more { count + 1 } else { count })
}

/// Rule 4 within a word that may not come next.
fn word_fault(alloc: Global, bytes: &[u8], token: Token, begun: usize) -> Fault {
    let at = (token.from as usize).saturating_add(begun);
    syntax(alloc, up_to(bytes, at))
}

/// Rule 4 where a command is not whole, behind the blanks that follow its last word.
fn end_fault(alloc: Global, bytes: &[u8], last: Token) -> Fault {
    let from = up_to(bytes, last.to as usize).len();
    let count = blank_count(&bytes[from..]);
    syntax(alloc, up_to(bytes, from.saturating_add(count)))
}

/// The verb of a line. A line may be empty, so a carriage return at the front begins one.
fn verb_of(alloc: Global, bytes: &[u8], token: Token) -> Result<Verb, Fault> {
    let text = text_of(bytes, token);
    match verb_named(text) {
        Some(verb) => Ok(verb),
        None => {
            let begun = if matches!(text, [b'\r', ..]) {
                1
            } else {
                verb_front(text)
            };
            Err(word_fault(alloc, bytes, token, begun))
        }
    }
}

/// The parts behind so many.
fn parts_behind(parts: &[Part], count: usize) -> &[Part]
    requires { count ≤ length parts.now }
{
    &parts[count..]
}

/// The command that the words of a line say, of which the verb is the first. Rule 4 refuses at the first word that may not
/// stand there, or where a further one is missing.
pub(crate) fn read_command(
    alloc: Global,
    bytes: &[u8],
    first: Token,
    words: &[Token],
) -> Result<Draft, Fault> {
    let verb = verb_of(alloc, bytes, first)?;
    let mut draft = Draft::new(alloc, first.line, verb);
    let mut parts = parts_of(verb);
    let mut last = first;
    for token in words {
        let text = text_of(bytes, *token);
        match next_word(alloc, parts, text)? {
            Some((word, behind)) => {
                draft.put(word)?;
                parts = parts_behind(parts, behind);
            }
            None => {
                let begun = begun(alloc, parts, text)?;
                return Err(word_fault(alloc, bytes, *token, begun));
            }
        }
        last = *token;
    }
    if may_end(parts) {
        Ok(draft)
    } else {
        Err(end_fault(alloc, bytes, last))
    }
}
