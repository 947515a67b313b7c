//! The variables of a code.
use affine_rows::Listed;
use code_tree::{Nest, Target};
use kernel_ir::Kernel;
use loop_bounds::axis_var;
use std::alloc::{AllocError, Global};

/// Adds the inames of loops in text order.
#[cycle(loops)]
fn add_loops(nests: &[Nest], made: &mut Listed<u32>) -> Result<(), AllocError> {
    for nest in nests {
        add_loops_of(nest, made)?;
    }
    Ok(())
}

#[cycle(loops)]
fn add_loops_of(nest: &Nest, made: &mut Listed<u32>) -> Result<(), AllocError> {
    match nest {
        Nest::Insn(_) => Ok(()),
        Nest::Loop(var, inside) => {
            made.push(*var)?;
            add_loops(inside.as_slice(), made)
        }
    }
}

/// The inames of the loops of a nest in text order.
pub fn loop_inames(alloc: Global, nests: &[Nest]) -> Result<Listed<u32>, AllocError> {
    let mut made = Listed::new(alloc);
    add_loops(nests, &mut made)?;
    Ok(made)
}

/// The variables of a code in the order of its names: parameters, for OpenCL the axes, then these loops.
pub fn code_vars(
    alloc: Global,
    kernel: &Kernel,
    target: Target,
    loops: &[u32],
) -> Result<Listed<u32>, AllocError> {
    let mut made = Listed::from_slice(alloc, kernel.params.as_slice())?;
    if target == Target::OpenCl {
        for axis in 0..6u8 {
            made.push(axis_var(axis))?;
        }
    }
    for var in loops {
        made.push(*var)?;
    }
    Ok(made)
}
