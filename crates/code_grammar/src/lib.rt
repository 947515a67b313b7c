//! Index forms, bounds, subscripts, values and conditions of codes from their texts.
#![tactic(auto)]

mod beginnings;
mod bounds;
mod endings;
mod forms;
mod growing;
mod kinds;
mod lists;
mod names;
mod numbers;
mod reader;
mod reading;
mod trees;
mod values;

pub use bounds::{read_bound, read_subscript};
pub use forms::Sort;
pub use kinds::{Kinds, take_type};
pub use lists::push;
pub use names::{Meaning, Store, Vars, Wanted};
pub use numbers::{positive, small_number_up_to};
pub use reader::{Limit, Passed, Reader, Stop};
pub use values::{Condition, read_condition, read_value};
