//! What bounds a variable.
use affine_rows::{Listed, Row};

/// The rows that bound a variable from below and from above.
#[derive(Drop)]
pub struct Bounds {
    /// Tight inequalities in which the variable's factor is positive.
    pub lower: Listed<Row>,
    /// Tight inequalities in which the variable's factor is negative.
    pub upper: Listed<Row>,
}

/// The numbers between which a variable is in some systems, up to 2^62 in absolute value.
#[derive(Clone, Copy, Debug)]
pub struct Hull {
    /// The least of the systems' greatest lower bounds; none without systems, or where one of them has no lower row.
    pub lower: Option<i64>,
    /// The greatest of the systems' least upper bounds; none without systems, or where one of them has no upper row.
    pub upper: Option<i64>,
}
