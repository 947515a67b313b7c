//! The tokens of a file: words, numbers, signs and line ends, with their places.
#![tactic(auto)]

mod bytes;
mod fault;
mod form;
mod front;
pub mod laws;
mod lexeme;
mod limits;
mod listing;
mod numbers;
mod place;
mod scanner;
mod signs;
mod token;

pub use fault::TextFault;
pub use form::Form;
pub use front::{Front, read_front};
pub use limits::tokens;
pub use numbers::number_of;
pub use place::Place;
pub use scanner::scan;
pub use token::{Class, Token};
