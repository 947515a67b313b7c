//! Index expressions with floors: as forms, and as rows.
#![tactic(auto)]

mod affine;
mod alike;
mod fault;
mod flattened;
mod floors;
mod limits;
mod mentions;
mod put;
mod renumbering;
mod sums;
mod systems;
mod terms;

pub use affine::{is_constant, number_of, quasi_of};
pub use alike::same_form;
pub use fault::FormFault;
pub use flattened::{Flat, rows_of};
pub use limits::few_floors;
pub use mentions::{is_among, mentions_one, mentions_only};
pub use put::{put_all, put_in};
pub use renumbering::{place_in, renumber};
pub use sums::{floor_of, small_sum_of, sum_of};
pub use systems::{Difference, system_over};
