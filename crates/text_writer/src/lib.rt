//! Texts and numbers at the end of bytes: what every writer of texts is made of.
#![tactic(auto)]

mod pieces;

pub use pieces::{
    put, put_constant, put_digits, put_factor, put_gap, put_next, put_number, put_repeated,
    put_sign,
};
