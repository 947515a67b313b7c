//! The lines of a Fortran file for those of the text that says what its block says.
use affine_rows::Listed;
use kernel_ir::{Fault, Insn, Kernel, Refusal};
use std::alloc::{AllocError, Global};

/// The line for which a line of the text stands, counted from 1; 0 is none.
pub(crate) fn line_for(lines: &[u32], line: u32) -> u32 {
    match line.checked_sub(1) {
        Some(at) => match lines.get(at as usize) {
            Some(found) => *found,
            None => 0,
        },
        None => 0,
    }
}

/// A fault at its line of the file.
pub(crate) fn placed_fault(lines: &[u32], fault: Fault) -> Fault {
    match fault {
        Fault::Rule(refusal) => {
            let line = line_for(lines, refusal.line);
            Fault::Rule(refusal.at_line(line))
        }
        Fault::OutOfMemory => Fault::OutOfMemory,
    }
}

/// An instruction at its line of the file.
fn placed_insn(lines: &[u32], insn: Insn) -> Insn {
    let line = line_for(lines, insn.line);
    let Insn {
        id,
        line: _,
        inames,
        rows,
        test,
        cell,
        place,
        storing,
        value,
        deps,
        auto,
    } = insn;
    Insn {
        id,
        line,
        inames,
        rows,
        test,
        cell,
        place,
        storing,
        value,
        deps,
        auto,
    }
}

/// Instructions at their lines of the file.
fn placed_insns(
    alloc: Global,
    lines: &[u32],
    insns: Listed<Insn>,
) -> Result<Listed<Insn>, AllocError> {
    let mut placed = Listed::new(alloc);
    for insn in insns.into_vec() {
        placed.push(placed_insn(lines, insn))?;
    }
    Ok(placed)
}

/// A kernel with its instructions at their lines of the file.
pub(crate) fn placed_kernel(
    alloc: Global,
    lines: &[u32],
    kernel: Kernel,
) -> Result<Kernel, AllocError> {
    let Kernel {
        names,
        params,
        inames,
        priority,
        rows,
        assumptions,
        arrays,
        temps,
        rules,
        insns,
    } = kernel;
    let insns = placed_insns(alloc, lines, insns)?;
    Ok(Kernel {
        names,
        params,
        inames,
        priority,
        rows,
        assumptions,
        arrays,
        temps,
        rules,
        insns,
    })
}
