//! Exact elimination of variables from rows, over the rational numbers.
#![tactic(auto)]

mod bounding;
mod choosing;
mod dropping;
mod fault;
mod finding;
mod fractions;
mod orders;
mod pairs;
mod placing;
mod projection;
mod rows;
mod stages;
mod substitution;

pub use fault::SetFault;
pub use finding::{Found, find_point};
pub use projection::shadow;
pub use stages::stage;
