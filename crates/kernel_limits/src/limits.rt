//! The limits of a kernel.
ghost use Rattle.std.specs.Prelude.{OnOk};
ghost use Rattle.kernel_ir.specs.Refusals.{Refuses};
ghost use Rattle.kernel_limits.specs.Asked.{AreExpanded, IsSized, array_refusal, first_in, limit_refusal};

use crate::ask::{ask, ask_count};
use crate::insns::check_insns;
use crate::sizes::fits_size;
use crate::temps::check_temps;
use kernel_ir::{Array, Fault, Kernel, MAX_NAMES};
use std::alloc::Global;

/// The most that the sum and the constant of a form may be.
const LARGEST: u64 = 1 << 62;

fn check_array(alloc: Global, array: &Array) -> Result<(), Fault>
    ensures { Refuses (array_refusal array.now) result }
{
    ask_count(alloc, array.shape.len() as u64, 0, "places", 8)?;
    let fits = fits_size(alloc, array.shape.as_slice())?;
    ask(alloc, fits, 0, "form", LARGEST)
}

/// Asks the places and the size of each array.
fn check_arrays(alloc: Global, arrays: &[Array]) -> Result<(), Fault>
    ensures { Refuses (first_in array_refusal arrays.now) result }
{
    for array in arrays {
        check_array(alloc, array)?;
    }
    Ok(())
}

/// Refuses by rule 3 the first limit that a kernel passes, of those that are asked once uses of rules are replaced, as
/// they are in the instructions of `plain`: at most 16 parameters and 65,536 names; for each array at most 8 places, and
/// no form on the way to its size past 2^62; for each temporary at most 8 places, and 4,096 cells if it is not local;
/// for each instruction, at its line, at most 16 inames with those of its reductions, 64 instructions up to it, each
/// reduction counting two more, 64 different accesses and 32 different floors. Each form of an instruction is within its
/// own limits by its type.
pub fn check_limits(alloc: Global, kernel: &Kernel, plain: &Kernel) -> Result<(), Fault>
    requires { AreExpanded kernel.now plain.now.insns }
    ensures refused { Refuses (limit_refusal kernel.now) result }
    ensures within { OnOk result (IsSized kernel.now) }
{
    ask_count(alloc, kernel.params.len() as u64, 0, "parameters", 16)?;
    ask_count(
        alloc,
        kernel.names.len() as u64,
        0,
        "names",
        u64::from(MAX_NAMES),
    )?;
    check_arrays(alloc, kernel.arrays.as_slice())?;
    check_temps(alloc, kernel.temps.as_slice())?;
    check_insns(alloc, kernel, plain.insns.as_slice())
}
