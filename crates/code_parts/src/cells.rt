//! The cells of a code.
use crate::kinds::kind_of;
use affine_rows::Listed;
use code_tree::{CodeCell, Nest};
use expr_tree::Cell;
use kernel_ir::{Fault, Kernel};
use kernel_rules::{all_accesses, home_inames};
use loop_bounds::{is_sequential, number_to, with_loop};
use std::alloc::{AllocError, Global};

/// The home inames of each temporary in declared order.
#[derive(Drop)]
pub struct Homes {
    pub temps: Listed<Listed<u32>>,
}

/// The home inames of the temporaries of a kernel without rules.
pub fn homes_of(alloc: Global, kernel: &Kernel) -> Result<Homes, AllocError> {
    let accesses = all_accesses(alloc, kernel)?;
    let mut temps = Listed::new(alloc);
    for at in 0..kernel.temps.len() {
        let cell = Cell::Temp(number_to(at));
        let homes = home_inames(alloc, kernel, &accesses, cell)?;
        temps.push(Listed::from_vec(homes))?;
    }
    Ok(Homes { temps })
}

/// How many of the inames are on no axis.
fn count_sequential(kernel: &Kernel, inames: &[u32]) -> usize {
    inames
        .iter()
        .filter(|var| is_sequential(kernel, **var))
        .count()
}

/// Whether the loops are those over the home inames.
fn are_home_loops(kernel: &Kernel, homes: &[u32], loops: &[u32]) -> bool {
    count_sequential(kernel, homes) == loops.len() && loops.iter().all(|var| homes.contains(var))
}

/// The private temporaries of the block inside these loops, in declared order: those whose home loops they are.
pub fn block_temps(
    alloc: Global,
    kernel: &Kernel,
    homes: &Homes,
    loops: &[u32],
) -> Result<Listed<u32>, AllocError> {
    let mut made = Listed::new(alloc);
    let temps = kernel.temps.as_slice();
    let all = homes.temps.as_slice();
    for at in 0..temps.len().min(all.len()) {
        if !temps[at].local && are_home_loops(kernel, all[at].as_slice(), loops) {
            made.push(number_to(at))?;
        }
    }
    Ok(made)
}

/// The local temporaries in declared order.
pub fn local_temps(alloc: Global, kernel: &Kernel) -> Result<Listed<u32>, AllocError> {
    let mut made = Listed::new(alloc);
    let temps = kernel.temps.as_slice();
    for at in 0..temps.len() {
        if temps[at].local {
            made.push(number_to(at))?;
        }
    }
    Ok(made)
}

fn add_all(temps: &[u32], made: &mut Listed<u32>) -> Result<(), AllocError> {
    for temp in temps {
        made.push(*temp)?;
    }
    Ok(())
}

/// Adds the private temporaries of the block inside these loops and of the blocks in it.
#[cycle(temps)]
fn add_block_temps(
    alloc: Global,
    kernel: &Kernel,
    homes: &Homes,
    loops: &[u32],
    nests: &[Nest],
    made: &mut Listed<u32>,
) -> Result<(), AllocError> {
    add_all(block_temps(alloc, kernel, homes, loops)?.as_slice(), made)?;
    for nest in nests {
        add_inner_temps(alloc, kernel, homes, loops, nest, made)?;
    }
    Ok(())
}

#[cycle(temps)]
fn add_inner_temps(
    alloc: Global,
    kernel: &Kernel,
    homes: &Homes,
    loops: &[u32],
    nest: &Nest,
    made: &mut Listed<u32>,
) -> Result<(), AllocError> {
    match nest {
        Nest::Insn(_) => Ok(()),
        Nest::Loop(var, inside) => {
            let inner = with_loop(alloc, loops, *var)?;
            add_block_temps(
                alloc,
                kernel,
                homes,
                inner.as_slice(),
                inside.as_slice(),
                made,
            )
        }
    }
}

/// The temporaries in text order, local ones first.
pub fn text_temps(
    alloc: Global,
    kernel: &Kernel,
    homes: &Homes,
    nests: &[Nest],
) -> Result<Listed<u32>, AllocError> {
    let mut made = local_temps(alloc, kernel)?;
    add_block_temps(alloc, kernel, homes, &[], nests, &mut made)?;
    Ok(made)
}

/// How many places a temporary has, where it has any.
fn length_of(shape: &[u32]) -> Option<u32> {
    if shape.is_empty() {
        return None;
    }
    let mut product: u32 = 1;
    for entry in shape {
        product = product.saturating_mul(*entry);
    }
    Some(product)
}

fn add_cell(
    alloc: Global,
    kernel: &Kernel,
    temp: u32,
    made: &mut Listed<CodeCell>,
) -> Result<(), AllocError> {
    if let Some(own) = kernel.temps.get(temp as usize) {
        made.push(CodeCell {
            name: own.name.copy(alloc)?,
            kind: kind_of(kernel, Cell::Temp(temp)),
            length: length_of(own.shape.as_slice()),
        })?;
    }
    Ok(())
}

/// The cells of temporaries.
pub fn block_cells(
    alloc: Global,
    kernel: &Kernel,
    temps: &[u32],
) -> Result<Listed<CodeCell>, AllocError> {
    let mut made = Listed::new(alloc);
    for temp in temps {
        add_cell(alloc, kernel, *temp, &mut made)?;
    }
    Ok(made)
}
