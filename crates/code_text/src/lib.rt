//! The text of a code, and its writers.
#![tactic(auto)]

mod bounds;
mod cells;
mod forms;
mod kinds;
mod launch;
mod names;
mod opening;
mod prelude;
mod signature;
mod spelling;
mod statements;
mod values;
mod writers;

pub use kinds::{index_name, suffix, type_name, unsigned};
pub use names::axis as axis_text;
pub use opening::write_axes;
pub use prelude::write_prelude;
pub use writers::{write_c, write_opencl};
