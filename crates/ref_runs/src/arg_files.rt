//! Argument files.
use crate::arg_text::{ArgText, Copies, Head, Next, begun, may_end};
use crate::files::{front_of, spelled, syntax_fault};
use crate::running::too_many_words;
use affine_rows::{Listed, Names};
use kernel_ir::{Fault, Refusal, Site};
use machine::MAX_WORDS;
use run_words::Args;
use std::alloc::{AllocError, Global};

/// The text of a file. It is refused by rule 4 at the first token that may not stand where it stands.
fn read_text(alloc: Global, bytes: &[u8]) -> Result<ArgText, Fault> {
    let front = front_of(alloc, Site::Args, bytes)?;
    let tokens = front.tokens.as_slice();
    let mut text = ArgText::new(alloc);
    let mut next = Next::Name;
    for at in 0..tokens.len() {
        let spelled = spelled(bytes, tokens[at]);
        match text.read(alloc, next, tokens[at], spelled)? {
            Some(after) => next = after,
            None => {
                let begun = begun(next, spelled);
                return Err(syntax_fault(alloc, Site::Args, bytes, tokens, at, begun)?);
            }
        }
    }
    let rest = &bytes[front.place.at..];
    if rest.is_empty() && may_end(next) {
        return Ok(text);
    }
    let begun = begun(next, rest);
    Err(syntax_fault(alloc, Site::Args, bytes, tokens, tokens.len(), begun)?)
}

/// How many numbers these are.
fn count_of(parts: &[Copies]) -> u64 {
    let mut count: u64 = 0;
    for part in parts {
        count = count.saturating_add(part.count);
    }
    count
}

/// Rule 3: a number past the greatest, or else too many numbers.
fn check_limits(alloc: Global, text: &ArgText) -> Result<(), Fault> {
    if let Some(line) = text.large {
        let limit = Refusal::limit(alloc, Site::Args, "number", i128::from(u64::MAX))?;
        return Err(Fault::Rule(limit.at_line(line)));
    }
    if count_of(text.parts.as_slice()) > MAX_WORDS {
        return Err(Fault::Rule(too_many_words(alloc)?));
    }
    Ok(())
}

/// Rule 2: the first line whose name has a line before it.
fn check_names(alloc: Global, heads: &[Head]) -> Result<(), Fault> {
    let mut names = Names::new(alloc);
    for head in heads {
        if !names.insert(head.name.copy(alloc)?)? {
            let taken = Refusal::taken(alloc, Site::Args, &head.name)?;
            return Err(Fault::Rule(taken.at_line(head.line)));
        }
    }
    Ok(())
}

/// All numbers of a line.
fn numbers_of(alloc: Global, parts: &[Copies]) -> Result<Listed<i128>, AllocError> {
    let count = count_of(parts).min(MAX_WORDS) as usize;
    let mut numbers = Vec::with_capacity(alloc, count)?;
    for part in parts {
        for _ in 0..part.count {
            numbers.push(part.value)?;
        }
    }
    Ok(Listed::from_vec(numbers))
}

/// The number of a line of one number from -2^63 to 2^63-1.
fn one_number(parts: &[Copies]) -> Option<i64> {
    if count_of(parts) != 1 {
        return None;
    }
    for part in parts {
        if part.count == 1 {
            return i64::try_from(part.value).ok();
        }
    }
    None
}

/// Adds a line of these parts.
fn add_line(
    alloc: Global,
    args: &mut Args,
    head: &Head,
    parts: &[Copies],
) -> Result<(), AllocError> {
    let name = head.name.copy(alloc)?;
    match one_number(parts) {
        Some(number) => args.params.push((name, number)),
        None => args.lists.push((name, numbers_of(alloc, parts)?)),
    }
}

/// How many parts stand before the line with so many before it.
fn begin_of(text: &ArgText, at: usize) -> usize {
    match text.heads.get(at) {
        Some(head) => head.parts,
        None => text.parts.len(),
    }
}

/// The parts of the line with so many before it.
fn parts_of<'a>(text: &'a ArgText, at: usize) -> &'a [Copies] {
    let all = text.parts.as_slice();
    let from = begin_of(text, at);
    let to = begin_of(text, at.saturating_add(1));
    if from <= to && to <= all.len() {
        &all[from..to]
    } else {
        &[]
    }
}

fn args_of(alloc: Global, text: &ArgText) -> Result<Args, AllocError> {
    let mut args = Args {
        params: Listed::new(alloc),
        lists: Listed::new(alloc),
    };
    let heads = text.heads.as_slice();
    for at in 0..heads.len() {
        add_line(alloc, &mut args, &heads[at], parts_of(text, at))?;
    }
    Ok(args)
}

/// The arguments of a file: its lines of one number from -2^63 to 2^63-1, and its other lines, each in their order.
///
/// The first of these that holds refuses: rule 3, more than 1,048,576 bytes; rule 4, the bytes are no argument file, with the
/// line and the count of its bytes that belong to the longest front with which some argument file begins; rule 3, the first
/// line with a number past 18446744073709551615, or else more than 16,777,216 numbers; rule 2, the first line whose name has
/// a line before it.
pub fn read_args(alloc: Global, bytes: &[u8]) -> Result<Args, Fault> {
    let text = read_text(alloc, bytes)?;
    check_limits(alloc, &text)?;
    check_names(alloc, text.heads.as_slice())?;
    Ok(args_of(alloc, &text)?)
}
