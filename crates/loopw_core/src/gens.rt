//! Generated inputs.
use crate::fault::JobFault;
use crate::targets::write_text;
use code_tree::Target;
use gen_texts::{Summary, count_code, gen_kernel, gen_script, summary_line};
use std::alloc::Global;

/// The counts of the C code of the generated kernel and script of a number from 1 to 64.
pub fn gen_job(alloc: Global, number: u32) -> Result<Summary, JobFault> {
    let kernel = gen_kernel(alloc, number)?;
    let script = gen_script(alloc, number)?;
    let code = write_text(alloc, Target::C, kernel.as_bytes(), script.as_bytes())?;
    Ok(count_code(number, number.saturating_mul(2), &code))
}

/// The line of these counts.
pub(crate) fn gen_text(alloc: Global, number: u32) -> Result<Vec<u8>, JobFault> {
    let summary = gen_job(alloc, number)?;
    let line = summary_line(alloc, number, summary)?;
    Ok(line.as_bytes().to_vec(alloc)?)
}
