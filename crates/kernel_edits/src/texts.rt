//! Names by their texts.
ghost use Rattle.std.specs.Prelude.{◌≡◌, bytes_eq};
ghost use Rattle.std.specs.List.{list_any};

use affine_rows::Name;
use std::alloc::{AllocError, Global};

/// Whether the name is among these.
pub fn has_name(names: &[Name], name: &Name) -> bool
    ensures { result ≡ list_any (bytes_eq name.now) names.now }
{
    names
        .iter()
        .any(|other| name.as_bytes() == other.as_bytes())
}

/// The name with a text behind it.
pub fn with_suffix(alloc: Global, name: &Name, suffix: &str) -> Result<Name, AllocError> {
    let text = name.as_str();
    Ok(Name::new(format!(in alloc; "{text}{suffix}")?))
}

/// The name with `_` and a number behind it.
pub fn with_number(alloc: Global, name: &Name, number: usize) -> Result<Name, AllocError> {
    let text = name.as_str();
    Ok(Name::new(format!(in alloc; "{text}_{number}")?))
}

/// The first of the name, and the name with `_1`, `_2` and so on, that is not among the taken ones. There is one, since these
/// are more names than are taken.
pub fn first_free(alloc: Global, base: &Name, taken: &[Name]) -> Result<Name, AllocError> {
    let mut name = base.copy(alloc)?;
    for at in 0..taken.len() {
        if !has_name(taken, &name) {
            return Ok(name);
        }
        name = with_number(alloc, base, at + 1)?;
    }
    Ok(name)
}
