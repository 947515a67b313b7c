//! Runs under a schedule.
use crate::lines::{line_names, line_of};
use crate::matching::match_code;
use crate::places::{spelled_at, text_line};
use crate::results::Results;
use affine_rows::Listed;
use code_tree::{Code, CodeArray};
use kernel_ir::{Fault, Refusal, Site};
use machine::{MAX_WORDS, Missing, State, Stepped, fits_words};
use run_words::words::number_in;
use run_words::{Args, step_count};
use std::alloc::{AllocError, Global};

/// A run or an evaluation has at most so many steps, as they are counted.
pub const MAX_STEPS: u64 = 10_000_000;

/// Rule 3: too many words.
pub fn too_many_words(alloc: Global) -> Result<Refusal, AllocError> {
    Refusal::limit(alloc, Site::Args, "words", i128::from(MAX_WORDS))
}

/// Rule 39: too many steps.
pub fn too_many_steps(alloc: Global) -> Result<Refusal, AllocError> {
    Refusal::of_rule(alloc, Site::Args, 39).with_number(i128::from(MAX_STEPS))
}

/// The numbers of the parameters, in declared order.
fn params_of(alloc: Global, code: &Code, args: &Args) -> Result<Vec<i64>, AllocError> {
    let lines = line_names(alloc, args)?;
    let mut params = Vec::new(alloc);
    for var in code.params.as_slice() {
        let number = match code.names.get(*var as usize) {
            Some(name) => line_of(args, &lines, name).param().unwrap_or(0),
            None => 0,
        };
        params.push(number)?;
    }
    Ok(params)
}

/// Rule 3 and then rule 39: too many words, too many steps.
fn check_size(alloc: Global, code: &Code, args: &Args) -> Result<(), Fault> {
    if !fits_words(alloc, code, args)? {
        return Err(Fault::Rule(too_many_words(alloc)?));
    }
    let params = params_of(alloc, code, args)?;
    if step_count(alloc, code, params.as_slice())? > MAX_STEPS {
        return Err(Fault::Rule(too_many_steps(alloc)?));
    }
    Ok(())
}

/// A step that is told: its number, counted from 1, and the statement that it does, by its number in text order.
#[derive(Clone, Copy)]
struct Made {
    step: u64,
    stmt: u32,
}

/// A rule that refuses a step, with its line.
fn refused(alloc: Global, code: &Code, made: Made, rule: u8) -> Result<Refusal, AllocError> {
    let line = text_line(alloc, code, made.stmt)?;
    Refusal::of_rule(alloc, Site::Code, rule)
        .at_line(line)
        .with_number(i128::from(made.step))
}

/// Rule 41.
fn race(
    alloc: Global,
    code: &Code,
    made: Made,
    cell: u32,
    index: i64,
    items: [u32; 2],
) -> Result<Refusal, AllocError> {
    let place = match spelled_at(alloc, code, cell)? {
        Some(spelled) => spelled.place(alloc, index)?,
        None => String::from_str(alloc, "-")?,
    };
    refused(alloc, code, made, 41)?
        .with_word(alloc, place.as_str())?
        .with_number(i128::from(items[0]))?
        .with_number(i128::from(items[1]))
}

fn word_of(what: Missing) -> &'static str {
    match what {
        Missing::Outside => "outside",
        Missing::Overflow => "overflow",
        Missing::Unset => "unset",
    }
}

/// The name of a place and its index, or `-` and 0.
fn name_and_index(
    alloc: Global,
    code: &Code,
    cell: Option<u32>,
    index: i64,
) -> Result<(String, i64), AllocError> {
    let spelled = match cell {
        Some(cell) => spelled_at(alloc, code, cell)?,
        None => None,
    };
    match spelled {
        Some(spelled) => Ok((
            spelled.text(alloc)?,
            if spelled.has_index { index } else { 0 },
        )),
        None => Ok((String::from_str(alloc, "-")?, 0)),
    }
}

/// Rule 43.
fn outside(
    alloc: Global,
    code: &Code,
    made: Made,
    cell: Option<u32>,
    index: i64,
    what: Missing,
) -> Result<Refusal, AllocError> {
    let (name, index) = name_and_index(alloc, code, cell, index)?;
    refused(alloc, code, made, 43)?
        .with_word(alloc, name.as_str())?
        .with_number(i128::from(index))?
        .with_word(alloc, word_of(what))
}

/// Rule 42.
fn divergent(alloc: Global, code: &Code, made: Made, group: u32) -> Result<Refusal, AllocError> {
    refused(alloc, code, made, 42)?.with_number(i128::from(group))
}

/// Whether the run goes on after a step, or the refusal of one that met a fault.
fn goes_on(alloc: Global, code: &Code, made: Made, stepped: Stepped) -> Result<bool, Fault> {
    match stepped {
        Stepped::Went => Ok(true),
        Stepped::Done => Ok(false),
        Stepped::Race {
            cell,
            index,
            first,
            second,
        } => Err(Fault::Rule(race(alloc, code, made, cell, index, [first, second])?)),
        Stepped::Divergent { group } => Err(Fault::Rule(divergent(alloc, code, made, group)?)),
        Stepped::Outside { cell, index, what } => {
            Err(Fault::Rule(outside(alloc, code, made, cell, index, what)?))
        }
    }
}

/// The item that makes the step with so many before it, if one is enabled.
fn picked(state: &State, schedule: &[u32], step: u64) -> Option<u32> {
    let enabled = state.count_enabled();
    if enabled == 0 {
        return None;
    }
    let number = match schedule.get(step as usize) {
        Some(number) => *number,
        None => 0,
    };
    state.nth_enabled(number % enabled)
}

/// Makes steps until no item may step.
fn run_all(alloc: Global, code: &Code, state: &mut State, schedule: &[u32]) -> Result<(), Fault> {
    for step in 0..u64::MAX {
        let Some(item) = picked(state, schedule, step) else {
            return Ok(());
        };
        let made = Made {
            step: step + 1,
            stmt: state.at(item),
        };
        if !goes_on(alloc, code, made, state.step(code, item))? {
            return Ok(());
        }
    }
    Ok(())
}

/// The numbers of an array's words.
fn numbers_of(
    alloc: Global,
    state: &State,
    place: u32,
    array: &CodeArray,
) -> Result<Listed<i128>, AllocError> {
    let length = state.length(place);
    let mut numbers = Vec::with_capacity(alloc, length as usize)?;
    for index in 0..length {
        numbers.push(number_in(array.kind, state.word(place, index)))?;
    }
    Ok(Listed::from_vec(numbers))
}

fn results_of(alloc: Global, code: &Code, state: &State) -> Result<Results, AllocError> {
    let mut results = Listed::new(alloc);
    let mut place: u32 = 0;
    for array in code.arrays.as_slice() {
        if array.stored {
            let numbers = numbers_of(alloc, state, place, array)?;
            results.push((array.name.copy(alloc)?, numbers))?;
        }
        place = place.saturating_add(1);
    }
    Ok(results)
}

/// The numbers of the arrays that are not const after a run of the code under a schedule. A step's number in the schedule,
/// 0 after its end, modulo the count of enabled items picks the item that makes it, of those in their order. It is refused by
/// rules 1 and 40 as `match_code` says, by rule 3 where the run has more than 16,777,216 words, by rule 39 where its step
/// count passes 10,000,000, and by rule 41, 42 or 43 where a step meets a fault, with the line of its statement.
pub fn run_code(
    alloc: Global,
    code: &Code,
    args: &Args,
    schedule: &[u32],
) -> Result<Results, Fault> {
    match_code(alloc, code, args)?;
    check_size(alloc, code, args)?;
    let mut state = State::new(alloc, code, args)?;
    run_all(alloc, code, &mut state, schedule)?;
    Ok(results_of(alloc, code, &state)?)
}
