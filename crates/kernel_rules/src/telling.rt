//! What refusals keep.
use affine_rows::Name;
use expr_tree::Cell;
use kernel_ir::{Fault, Kernel, Refusal};
use std::alloc::{AllocError, Global};

/// The name of a variable.
pub fn name_of(alloc: Global, kernel: &Kernel, var: u32) -> Result<Name, AllocError> {
    Name::from_str(alloc, kernel.names.get(var as usize).unwrap_or(""))
}

/// The name of a variable of the second instance, which ends in `'`.
pub fn primed(alloc: Global, kernel: &Kernel, var: u32) -> Result<Name, AllocError> {
    let name = kernel.names.get(var as usize).unwrap_or("");
    Ok(Name::new(format!(in alloc; "{name}'")?))
}

/// The name of an array or temporary.
pub fn name_of_cell(alloc: Global, kernel: &Kernel, cell: Cell) -> Result<Name, AllocError> {
    match cell {
        Cell::Array(at) => match kernel.arrays.get(at as usize) {
            Some(array) => array.name.copy(alloc),
            None => Name::from_str(alloc, ""),
        },
        Cell::Temp(at) => match kernel.temps.get(at as usize) {
            Some(temp) => temp.name.copy(alloc),
            None => Name::from_str(alloc, ""),
        },
    }
}

/// The refusal that keeps the names of the variables as well.
pub fn with_vars(
    alloc: Global,
    refusal: Refusal,
    kernel: &Kernel,
    vars: &[u32],
) -> Result<Refusal, AllocError> {
    let mut kept = refusal;
    for var in vars {
        kept = kept.with_name(alloc, &name_of(alloc, kernel, *var)?)?;
    }
    Ok(kept)
}

/// The refusal that keeps the names of the variables of the second instance as well.
pub(crate) fn with_primed(
    alloc: Global,
    refusal: Refusal,
    kernel: &Kernel,
    vars: &[u32],
) -> Result<Refusal, AllocError> {
    let mut kept = refusal;
    for var in vars {
        kept = kept.with_name(alloc, &primed(alloc, kernel, *var)?)?;
    }
    Ok(kept)
}

/// The refusal as a fault, or want of memory.
pub fn told(refusal: Result<Refusal, AllocError>) -> Fault {
    match refusal {
        Ok(refusal) => Fault::Rule(refusal),
        Err(_) => Fault::OutOfMemory,
    }
}
