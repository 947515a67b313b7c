//! Evaluations of kernels: what a kernel stores for given arguments.
#![tactic(auto)]

mod ends;
mod evaluate;
mod homes;
mod matching;
mod numbers;
mod opening;
mod points;
mod rows;
mod scene;
mod spans;
mod steps;
mod value;
mod world;

pub use evaluate::eval_kernel;
