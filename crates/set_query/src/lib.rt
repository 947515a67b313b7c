//! Queries on systems of rows, each exact.
#![tactic(auto)]

mod bounding;
mod ends;
mod implication;
mod opposites;
mod pair;
mod spanning;
mod splitting;
mod verdict;

pub use bounding::bounds;
pub use ends::{Bounds, Hull};
pub use implication::implied;
pub use pair::{Differ, Pair};
pub use spanning::hull;
pub use splitting::cases;
pub use verdict::{Verdict, excluded};
