//! Kernels as texts.
ghost use Rattle.std.specs.Prelude.{IfOk};
ghost use Rattle.loopw_core.specs.Written.{IsKernelText};

use crate::fault::{JobFault, plain};
use crate::scripts::kernel_after;
use kernel_printer::print_kernel;
use std::alloc::Global;

/// The text of the kernel of a file after a script. It is refused as the file, the script or one of its commands is.
pub fn show_job(alloc: Global, kernel: &[u8], script: &[u8]) -> Result<Vec<u8>, JobFault>
    ensures { IfOk result (λ text. IsKernelText text.items) }
{
    let last = kernel_after(alloc, kernel, script)?;
    match print_kernel(alloc, last.kernel()) {
        Ok(text) => Ok(text),
        Err(fault) => Err(plain(alloc, fault)),
    }
}
