//! What expressions before kinds mention, bind and lead with, the rows in their predicates, and the trees of instructions and
//! rules.
#![tactic(auto)]

mod bound;
mod conjuncts;
mod leads;
mod marks;
mod mentions;
mod rows;
mod trees;

pub use bound::add_bound;
pub use conjuncts::{Split, split_predicate};
pub use leads::leading;
pub use marks::Marks;
pub use mentions::add_mentions;
pub use rows::{RowReading, row_of};
pub use trees::{InsnTree, RuleTree};
