//! A system of two instances, and the variables in which they are to differ.
use affine_rows::{Listed, System};

/// Which variables of two instances are to differ.
#[derive(Drop)]
pub enum Differ {
    /// None is asked to differ.
    Free,
    /// At least one variable of the first instance is to differ from its partner in the second.
    Among(Listed<(u32, u32)>),
}

/// A system of two instances, and how these are to differ.
#[derive(Drop)]
pub struct Pair {
    pub system: System,
    pub differ: Differ,
}
