//! The limits of a kernel whose uses of rules are replaced.
#![tactic(auto)]

mod accesses;
mod ask;
mod floors;
mod insns;
pub mod laws;
mod limits;
mod mentions;
mod sizes;
mod temps;

pub use limits::check_limits;
pub use sizes::{fits_size, size_form};
