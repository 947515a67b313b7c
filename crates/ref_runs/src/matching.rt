//! Whether arguments are those of a code.
use crate::lines::{line_names, line_of};
use affine_rows::{Name, Names};
use code_tree::Code;
use kernel_ir::{Fault, Refusal, Site};
use run_words::Args;
use std::alloc::{AllocError, Global};

/// The first name with a line that is not known.
fn unknown<'a>(args: &'a Args, known: &Names) -> Option<&'a Name> {
    for entry in args.params.as_slice() {
        if known.position(&entry.0).is_none() {
            return Some(&entry.0);
        }
    }
    for entry in args.lists.as_slice() {
        if known.position(&entry.0).is_none() {
            return Some(&entry.0);
        }
    }
    None
}

/// Rule 1: the first line of one number, or else the first other line, whose name is none of these.
pub fn check_known(alloc: Global, args: &Args, known: &Names) -> Result<(), Fault> {
    match unknown(args, known) {
        Some(name) => Err(Fault::Rule(Refusal::unknown(alloc, Site::Args, name)?)),
        None => Ok(()),
    }
}

/// Rule 40, with what it names.
pub fn bad_arguments(alloc: Global, name: &str) -> Result<Fault, AllocError> {
    let refusal = Refusal::of_rule(alloc, Site::Args, 40).with_word(alloc, name)?;
    Ok(Fault::Rule(refusal))
}

/// The names of the parameters and arrays.
fn known_names(alloc: Global, code: &Code) -> Result<Names, AllocError> {
    let mut known = Names::new(alloc);
    for var in code.params.as_slice() {
        if let Some(name) = code.names.get(*var as usize) {
            known.insert(name.copy(alloc)?)?;
        }
    }
    for array in code.arrays.as_slice() {
        known.insert(array.name.copy(alloc)?)?;
    }
    Ok(known)
}

/// The first parameter, or else the first array, whose line is wrong.
fn first_bad<'a>(code: &'a Code, args: &Args, lines: &Names) -> Option<&'a Name> {
    for var in code.params.as_slice() {
        if let Some(name) = code.names.get(*var as usize) {
            if line_of(args, lines, name).param().is_none() {
                return Some(name);
            }
        }
    }
    for array in code.arrays.as_slice() {
        if !line_of(args, lines, &array.name).is_list(array.kind) {
            return Some(&array.name);
        }
    }
    None
}

/// Whether arguments are those of a code. Rule 1 refuses a line of another name, and then rule 40 the first parameter, or
/// else the first array, that has no line, or a line with a number outside its kind or range, a parameter also one of more or
/// fewer numbers than one.
pub fn match_code(alloc: Global, code: &Code, args: &Args) -> Result<(), Fault> {
    check_known(alloc, args, &known_names(alloc, code)?)?;
    let lines = line_names(alloc, args)?;
    match first_bad(code, args, &lines) {
        Some(name) => Err(bad_arguments(alloc, name.as_str())?),
        None => Ok(()),
    }
}
