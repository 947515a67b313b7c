//! Lists, names, rows of affine constraints, and index forms with floors.
#![tactic(auto)]

mod at;
mod combinations;
mod copies;
mod divide;
mod fault;
mod form;
mod listed;
mod mix;
mod name;
mod point;
mod quasi;
mod row;
mod terms;
mod value;
mod wide;

pub use at::Vars;
pub use combinations::{combine, factor, reduced_sum};
pub use copies::copy_forms;
pub use divide::{reduce, tighten};
pub use fault::RowFault;
pub use form::Form;
pub use listed::Listed;
pub use name::{Name, Names};
pub use point::Point;
pub use quasi::{Floor, Quasi};
pub use row::{Row, System};
pub use terms::Terms;
pub use value::value_at;
