//! Kinds that are asked of an expression and what stands there in their place: what the inference of kinds shares with the
//! reading of expressions whose kinds are not known yet.
#![tactic(auto)]

mod faults;
mod leads;
mod word;

pub use faults::{
    Mismatch, fits, is_unsigned, kind_fault, may_shift, misplaced, read_fault, unless,
};
pub use leads::{Leading, kept_leading};
pub use word::kind_word;
