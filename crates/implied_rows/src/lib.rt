//! Whether rows over index forms imply a row.
#![tactic(auto)]

mod implying;

pub use implying::{implies, point_against};
