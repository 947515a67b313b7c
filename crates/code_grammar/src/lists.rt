//! Lists of owned values.
use std::alloc::AllocError;

/// Adds to a list.
pub fn push<T: Drop>(list: &mut Vec<T>, item: T) -> Result<(), AllocError> {
    list.push(item)?;
    Ok(())
}
