//! What a code means: its items, their steps and faults, its runs, and when it is right for given inputs.
//!
//! The definitions stand in `specs/`. An item is an own model of the work-item of OpenCL 1.2, section 3.2: any item that
//! has not ended and does not wait may do the next step. `Plan` numbers the statements of a code, `Moves` says what an
//! item would do next by itself, `Steps` which fault that meets or which state it leads to, and `Runs` what right code is.
#![tactic(auto)]

pub mod laws;
