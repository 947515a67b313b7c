//! Values of rules, and reads of arrays, stored in temporaries.
#![tactic(auto)]

mod alike;
mod command;
mod fill;
mod names;
mod order;
mod parts;
mod reads;
mod request;
mod rows;
mod shadows;
mod size;
mod spans;
mod swap;
mod uses;

pub use command::{add_prefetch, precompute};
