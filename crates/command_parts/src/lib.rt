//! What commands on kernels share of the kernel with rules replaced: used cells, home inames, limits.
#![tactic(auto)]

mod cells;
mod homes;
mod limits;

pub use cells::{Cells, cells_of_insn, cells_of_value};
pub use homes::{Homes, changed_home, check_homes, homes_of};
pub use limits::check_new;
