//! Whether arguments meet a kernel.
use crate::numbers::Numbers;
use affine_rows::{Name, Names};
use kernel_ir::{Array, Fault, Kernel};
use ref_runs::{ArgLine, bad_arguments, check_known, line_of};
use run_words::Args;
use std::alloc::{AllocError, Global};

/// The most words of an array.
const MOST_WORDS: i128 = 2_147_483_647;

/// The name of a variable.
fn name_of(alloc: Global, kernel: &Kernel, var: u32) -> Result<Name, AllocError> {
    let text = match kernel.names.get(var as usize) {
        Some(text) => text,
        None => "",
    };
    Name::from_str(alloc, text)
}

/// The names of the parameters and arrays.
fn known_names(alloc: Global, kernel: &Kernel) -> Result<Names, AllocError> {
    let mut known = Names::new(alloc);
    for var in kernel.params.as_slice() {
        known.insert(name_of(alloc, kernel, *var)?)?;
    }
    for array in kernel.arrays.as_slice() {
        known.insert(array.name.copy(alloc)?)?;
    }
    Ok(known)
}

/// Gives a parameter its number: rule 40 where it has none.
fn set_param(
    alloc: Global,
    kernel: &Kernel,
    args: &Args,
    lines: &Names,
    var: u32,
    numbers: &mut Numbers,
) -> Result<(), Fault> {
    let name = name_of(alloc, kernel, var)?;
    match line_of(args, lines, &name).param() {
        Some(number) => {
            numbers.set(var, number);
            Ok(())
        }
        None => Err(bad_arguments(alloc, name.as_str())?),
    }
}

/// The numbers of the parameters: rule 40 for the first one that has none.
fn params_of(alloc: Global, kernel: &Kernel, args: &Args, lines: &Names) -> Result<Numbers, Fault> {
    let mut numbers = Numbers::new(alloc, kernel.names.len())?;
    for var in kernel.params.as_slice() {
        set_param(alloc, kernel, args, lines, *var, &mut numbers)?;
    }
    Ok(numbers)
}

/// The product of the entries of a shape. A part of it that is past 128 bits stays past any count, if no entry is 0.
fn size_of(array: &Array, numbers: &Numbers) -> i128 {
    let mut size: i128 = 1;
    for entry in array.shape.as_slice() {
        size = size.saturating_mul(entry.value(numbers));
    }
    size
}

/// Whether the line has a word of the kind for each place.
fn is_filled(array: &Array, numbers: &Numbers, line: ArgLine<'_>) -> bool {
    size_of(array, numbers) == line.count() as i128 && line.is_list(array.kind)
}

/// Whether no entry of the shape is negative and their product is at most 2^31-1.
fn is_small(array: &Array, numbers: &Numbers) -> bool {
    for entry in array.shape.as_slice() {
        if entry.value(numbers) < 0 {
            return false;
        }
    }
    size_of(array, numbers) <= MOST_WORDS
}

/// The first array whose line is wrong, or else the first whose shape is.
fn bad_array<'a>(
    kernel: &'a Kernel,
    args: &Args,
    lines: &Names,
    numbers: &Numbers,
) -> Option<&'a Name> {
    for array in kernel.arrays.as_slice() {
        if !is_filled(array, numbers, line_of(args, lines, &array.name)) {
            return Some(&array.name);
        }
    }
    for array in kernel.arrays.as_slice() {
        if !is_small(array, numbers) {
            return Some(&array.name);
        }
    }
    None
}

/// The numbers of the parameters, where the arguments meet the kernel. `lines` are the names of the arguments' lines.
///
/// Rule 1 refuses a line of a name that is none of a parameter or array; then rule 40 the first parameter, or else the first
/// array, that has no line, or one of another count of numbers than is wanted, or with a number outside its kind or range;
/// else the first array with a negative shape entry, or a product of entries past 2^31-1; and else, by the word `assume`,
/// assumptions of which one does not hold.
pub fn match_kernel(
    alloc: Global,
    kernel: &Kernel,
    args: &Args,
    lines: &Names,
) -> Result<Numbers, Fault> {
    check_known(alloc, args, &known_names(alloc, kernel)?)?;
    let numbers = params_of(alloc, kernel, args, lines)?;
    if let Some(name) = bad_array(kernel, args, lines, &numbers) {
        return Err(bad_arguments(alloc, name.as_str())?);
    }
    if !numbers.holds_all(kernel.assumptions.as_slice()) {
        return Err(bad_arguments(alloc, "assume")?);
    }
    Ok(numbers)
}
