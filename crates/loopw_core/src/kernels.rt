//! From the bytes of a kernel file to a kernel that is checked.
use crate::fault::{JobFault, plain};
use dependences::auto_deps;
use fortran_blocks::read_marked;
use kernel_checks::{Sound, check};
use kernel_ir::{Fault, Kernel};
use kernel_reader::read_kernel;
use std::alloc::Global;

/// The rule of files whose first line begins another form.
const OTHER_FORM: u8 = 5;

/// The kernel of a kernel file, or of the marked block of a Fortran file: a file whose first line is not `kernel 1`.
fn read_any(alloc: Global, bytes: &[u8]) -> Result<Kernel, Fault> {
    match read_kernel(alloc, bytes) {
        Ok(kernel) => Ok(kernel),
        Err(Fault::OutOfMemory) => Err(Fault::OutOfMemory),
        Err(Fault::Rule(refusal)) => {
            if refusal.number == OTHER_FORM {
                read_marked(alloc, bytes)
            } else {
                Err(Fault::Rule(refusal))
            }
        }
    }
}

fn checked(alloc: Global, bytes: &[u8]) -> Result<Sound, Fault> {
    let kernel = read_any(alloc, bytes)?;
    let kernel = auto_deps(alloc, kernel)?;
    check(alloc, kernel)
}

/// The kernel of a file, with its automatic dependences, if no rule refuses it: those of its text, then rule 12, then those
/// of the checks.
pub(crate) fn kernel_of(alloc: Global, bytes: &[u8]) -> Result<Sound, JobFault> {
    match checked(alloc, bytes) {
        Ok(sound) => Ok(sound),
        Err(fault) => Err(plain(alloc, fault)),
    }
}
