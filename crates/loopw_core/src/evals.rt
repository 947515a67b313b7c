//! Evaluations of kernels, and runs of codes.
use crate::fault::{JobFault, plain};
use crate::kernels::kernel_of;
use code_reader::read_code;
use code_tree::Code;
use kernel_ir::{Fault, Kernel};
use kernel_runs::eval_kernel;
use nest_tree::nest;
use ref_runs::{Args, read_args, read_schedule, results_text, run_code};
use std::alloc::Global;

fn evaluated(alloc: Global, kernel: &Kernel, args: &[u8]) -> Result<Vec<u8>, Fault> {
    let nest = nest(alloc, kernel)?;
    let args = read_args(alloc, args)?;
    let results = eval_kernel(alloc, kernel, nest.as_slice(), &args)?;
    Ok(results_text(alloc, results.as_slice())?)
}

/// What each output array holds after the kernel of a file, for the arguments of a file. It is refused as the kernel is,
/// then by rules 32 and 33, then as the arguments are, and then by rule 39.
pub fn eval_job(alloc: Global, kernel: &[u8], args: &[u8]) -> Result<Vec<u8>, JobFault> {
    let sound = kernel_of(alloc, kernel)?;
    match evaluated(alloc, sound.kernel(), args) {
        Ok(text) => Ok(text),
        Err(fault) => Err(plain(alloc, fault)),
    }
}

fn run_text(alloc: Global, code: &Code, args: &Args, schedule: &[u32]) -> Result<Vec<u8>, Fault> {
    let results = run_code(alloc, code, args, schedule)?;
    Ok(results_text(alloc, results.as_slice())?)
}

fn ran(alloc: Global, code: &[u8], args: &[u8], schedule: &[u8]) -> Result<Vec<u8>, Fault> {
    let code = read_code(alloc, code)?;
    let args = read_args(alloc, args)?;
    let schedule = read_schedule(alloc, schedule)?;
    run_text(alloc, &code, &args, &schedule)
}

/// What each array that the code may store to holds after a run of it under a schedule. It is refused as the code, the
/// arguments or the schedule are, in this order, and then by the fault that a step of the run meets.
pub fn run_job(
    alloc: Global,
    code: &[u8],
    args: &[u8],
    schedule: &[u8],
) -> Result<Vec<u8>, JobFault> {
    match ran(alloc, code, args, schedule) {
        Ok(text) => Ok(text),
        Err(fault) => Err(plain(alloc, fault)),
    }
}
