//! Substitution rules: their uses, and kernels with the uses replaced.
#![tactic(auto)]

mod arities;
mod calls;
mod cycles;
mod expansion;
mod limits;
mod replace;
mod rounds;
mod sizes;
mod uses;

pub use arities::check_uses;
pub use cycles::reaches_itself;
pub use expansion::expand;
pub use uses::collect_uses;
