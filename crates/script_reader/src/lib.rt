//! Scripts: a command on each line.
#![tactic(auto)]

mod command;
mod draft;
mod line;
mod parts;
mod places;
mod reader;
mod spelling;
mod words;

pub use command::{Command, Verb};
pub use reader::read_script;
