//! What a kernel accesses, and the rows and queries by which it is checked.
#![tactic(auto)]

mod access;
mod calls;
mod cancelling;
mod context;
mod differing;
mod faults;
mod homes;
mod kept;
mod one;
mod ordering;
mod pairs;
mod repeated;
mod rows;
mod telling;

pub use access::{Access, all_accesses, plain_accesses, same_access, same_cell};
pub use calls::{At, accesses, system_of, unordered};
pub use context::add_context;
pub use differing::{Key, key_of, slot};
pub use faults::{form_fault, set_fault};
pub use homes::home_inames;
pub use kept::{kept_system, pair_over};
pub use one::{Asked, MOST_VARIABLES, built, rows_of_insn};
pub use ordering::check_order;
pub use pairs::{Use, variable};
pub use repeated::{Repeated, repeated_inames};
pub use rows::{add_fold_rows, add_insn_rows, add_rows, at_least_zero, insn_vars, number};
pub use telling::{name_of, name_of_cell, primed, told, with_vars};
