//! What commands on kernels share over the kernel alone.
#![tactic(auto)]

mod change;
mod counting;
mod faults;
mod ids;
mod kernels;
mod kinds;
mod lists;
mod names;
mod texts;
mod trees;

pub use change::{Change, all_differ};
pub use counting::{fold_count, fold_count_of_all, iname_count};
pub use faults::{expr_fault, form_fault, refused, temp_cell};
pub use ids::{ids_of, place_of_insn};
pub use kernels::{changed_insns, changed_rows};
pub use kinds::{Kinds, cell_kind, leading_kind, leading_of_test, leads_of_rules};
pub use lists::{changed_inames, changed_list};
pub use names::{declared_names, iname_named, is_taken, name_of, number_at, numbered};
pub use texts::{first_free, has_name, with_number, with_suffix};
pub use trees::{rewritten, tree_of};
