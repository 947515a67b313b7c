//! The parts of a code: the numbers of its variables and cells, its values, its bounds, and what is written of them.
#![tactic(auto)]

mod bounds;
mod cells;
mod entries;
mod flats;
mod kinds;
mod layout;
mod numbers;
mod sides;
mod values;
mod written;

pub use bounds::bound_over;
pub use cells::{Homes, block_cells, block_temps, homes_of, local_temps, text_temps};
pub use entries::bound_entries;
pub use flats::flat_of;
pub use kinds::kind_of;
pub use layout::{code_vars, loop_inames};
pub use numbers::{code_number, code_row};
pub use sides::Side;
pub use values::{Gathered, Spelling, code_cell, code_test, stored_value};
pub use written::{note_bound, note_row};
