//! The sides of a variable.

/// Whether rows bound a variable from below or from above.
#[derive(Clone, Copy, Debug, PartialEq, Eq)]
pub enum Side {
    Lower,
    Upper,
}

impl Side {
    /// The other side.
    pub fn opposite(self) -> Side {
        match self {
            Side::Lower => Side::Upper,
            Side::Upper => Side::Lower,
        }
    }

    /// Whether the first number decides over the second: below it is the greater one, above the lesser one.
    pub(crate) fn decides(self, first: i64, second: i64) -> bool {
        match self {
            Side::Lower => first > second,
            Side::Upper => first < second,
        }
    }
}
