//! Runs of codes: the files of their arguments and schedules, and what they leave.
#![tactic(auto)]

mod arg_files;
mod arg_text;
mod files;
mod lines;
mod matching;
mod places;
mod results;
mod running;
mod schedules;

pub use arg_files::read_args;
pub use lines::{ArgLine, line_names, line_of};
pub use machine::MAX_WORDS;
pub use matching::{bad_arguments, check_known, match_code};
pub use results::{Results, results_text};
pub use run_words::Args;
pub use running::{MAX_STEPS, run_code, too_many_steps, too_many_words};
pub use schedules::read_schedule;
