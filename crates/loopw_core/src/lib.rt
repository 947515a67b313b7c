//! The top call: from the words to a status, over any host.
#![tactic(auto)]

mod call;
mod evals;
mod fault;
mod gens;
mod kernels;
mod lines;
mod reading;
mod scripts;
mod shows;
mod stop;
mod targets;
mod texts;
mod words;

pub use call::top;
pub use evals::{eval_job, run_job};
pub use fault::JobFault;
pub use gens::gen_job;
pub use shows::show_job;
pub use targets::write_job;
