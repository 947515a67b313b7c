//! Words of the four integer kinds of a kernel, and their arithmetic modulo 2^width.
//!
//! A kind says how wide a word is and whether its bits are read as two's complement or as an
//! unsigned number (OpenCL C 1.2, section 6.1.1: `int`, `long`, `uint`, `ulong`). A word holds
//! its bits alone, so each call is told the kind. Every call gives a value for all words of its
//! kind, except where a condition is named, and none takes memory.
#![tactic(auto)]

mod arithmetic;
mod bits;
mod convert;
mod kind;
mod law;
mod order;

pub use arithmetic::{add, floor_div, mul, neg, sub};
pub use bits::{bit_and, bit_not, bit_or, bit_xor, shift_left, shift_right};
pub use convert::{cast, number, of_number};
pub use kind::{Kind, Word};
pub use law::words_are_residues;
pub use order::{compare, greatest, least};
