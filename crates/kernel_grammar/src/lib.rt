//! The syntax of kernel files as plain values. The definitions beside it say which tokens each value is written with.
#![tactic(auto)]

mod file;
mod item;
pub mod laws;
mod step;
mod words;

pub use file::{Entry, KernelFile};
pub use item::{Chain, Declared, InsnOption, Item, Relation, Stored};
pub use step::{Extreme, Folding, Infix, Prefix, Step};
pub use words::{is_reserved, kind_named};
