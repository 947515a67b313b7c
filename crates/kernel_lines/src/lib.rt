//! The lines of kernel files that are no instructions, the parts of instructions that need no trees, and how a line is refused.
#![tactic(auto)]

mod conditions;
mod lines;
mod parts;
mod places;
mod refusals;
mod rows;
mod stores;
mod values;

pub use conditions::{Conditions, read_conditions};
pub use lines::KernelParts;
pub use parts::{read_array, read_rule, read_temp};
pub use places::{index_faults, read_forms, value_faults};
pub use refusals::check_line;
pub use stores::{deps_of, is_automatic, stored_cell, unknown_in};
pub use values::{read_value, truth_of, value_of};
