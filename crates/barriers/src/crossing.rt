//! Whether accesses of two items cross.
use code_systems::{Apart, Frame, Question, Statement, Turns, add_between, open_case};
use elimination::SetFault;
use std::alloc::Global;

fn one_is_open(
    alloc: Global,
    frame: &Frame<'_>,
    questions: &[Question<'_>],
) -> Result<bool, SetFault> {
    for question in questions {
        if open_case(alloc, frame, *question)?.is_some() {
            return Ok(true);
        }
    }
    Ok(false)
}

/// Whether an access of the first statements and one of the second ones cross: two items of a group can come to one cell
/// of an argument or local array by them at such turns, and one of the accesses is a store.
pub(crate) fn cross(
    alloc: Global,
    frame: &Frame<'_>,
    turns: Turns,
    first: &[Statement],
    second: &[Statement],
) -> Result<bool, SetFault> {
    let mut questions = Vec::new(alloc);
    for one in first {
        for other in second {
            add_between(frame, Apart::Items, turns, one, other, &mut questions)?;
        }
    }
    one_is_open(alloc, frame, &questions)
}
