//! What a run or an evaluation leaves, and its text.
use affine_rows::{Listed, Name};
use std::alloc::{AllocError, Global};
use text_writer::{put, put_digits};

/// Arrays with their numbers, in declared order.
pub type Results = Listed<(Name, Listed<i128>)>;

/// Adds a number of at most 64 bits with its sign.
fn put_wide(out: &mut Vec<u8>, number: i128) -> Result<(), AllocError> {
    if number < 0 {
        put(out, "-")?;
    }
    put_digits(out, number.unsigned_abs().min(u128::from(u64::MAX)) as u64)
}

/// Adds a line: the name, `=`, and each number behind a blank.
fn put_line(out: &mut Vec<u8>, name: &Name, numbers: &[i128]) -> Result<(), AllocError> {
    put(out, name.as_str())?;
    put(out, " =")?;
    for number in numbers {
        put(out, " ")?;
        put_wide(out, *number)?;
    }
    put(out, "\n")
}

/// The text of results: a line for each array.
pub fn results_text(
    alloc: Global,
    results: &[(Name, Listed<i128>)],
) -> Result<Vec<u8>, AllocError> {
    let mut out = Vec::new(alloc);
    for result in results {
        put_line(&mut out, &result.0, result.1.as_slice())?;
    }
    Ok(out)
}
