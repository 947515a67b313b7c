//! Rows of affine constraints, and systems of rows.
ghost use Rattle.std.specs.Prelude.{◌≡◌, IfOk};

use crate::listed::Listed;
use crate::terms::Terms;
use std::alloc::{AllocError, Global};

/// The constant plus the terms is at least 0, or equals 0 where `equal` holds. Entries are at most 2^62 in absolute
/// value; the terms have distinct variables in rising order, and no factor is 0.
#[derive(Drop)]
pub struct Row {
    pub constant: i64,
    pub terms: Terms,
    pub equal: bool,
}

impl Row {
    /// An equal row.
    pub fn copy(&self, alloc: Global) -> Result<Row, AllocError>
        ensures { IfOk result (λ row. row ≡ self.now) }
    {
        Ok(Row {
            constant: self.constant,
            terms: Terms::from_slice(alloc, self.terms.as_slice())?,
            equal: self.equal,
        })
    }
}

/// Rows over the variables below `width`, which is at most 128.
#[derive(Drop)]
pub struct System {
    pub width: u32,
    pub rows: Listed<Row>,
}
