//! What stays the same during an evaluation.
use crate::homes::homed_temps;
use crate::rows::rows_of;
use crate::steps::Spans;
use affine_rows::Listed;
use kernel_ir::{Insn, Kernel, QuasiRow};
use std::alloc::{AllocError, Global};

/// The kernel, which uses no rules, the rows of each instruction, the spans of the inames, and for each variable the
/// temporaries that begin anew in each of its turns.
#[derive(Drop)]
pub struct Scene {
    pub kernel: Kernel,
    pub spans: Spans,
    rows: Vec<Listed<QuasiRow>>,
    homed: Vec<Vec<u32>>,
}

/// Adds the rows of an instruction.
fn add_rows(
    alloc: Global,
    kernel: &Kernel,
    insn: &Insn,
    rows: &mut Vec<Listed<QuasiRow>>,
) -> Result<(), AllocError> {
    rows.push(rows_of(alloc, kernel, insn)?)?;
    Ok(())
}

/// The rows of each instruction.
fn rows_of_all(alloc: Global, kernel: &Kernel) -> Result<Vec<Listed<QuasiRow>>, AllocError> {
    let mut rows = Vec::new(alloc);
    for insn in kernel.insns.as_slice() {
        add_rows(alloc, kernel, insn, &mut rows)?;
    }
    Ok(rows)
}

impl Scene {
    /// The scene of a kernel that uses no rules.
    pub fn new(alloc: Global, kernel: Kernel, spans: Spans) -> Result<Scene, AllocError> {
        let rows = rows_of_all(alloc, &kernel)?;
        let homed = homed_temps(alloc, &kernel)?;
        Ok(Scene {
            kernel,
            spans,
            rows,
            homed,
        })
    }

    /// The rows of the instruction with so many before it.
    pub fn rows(&self, at: usize) -> &[QuasiRow] {
        match self.rows.get(at) {
            Some(rows) => rows.as_slice(),
            None => &[],
        }
    }

    /// The temporaries that begin anew in each turn of a variable.
    pub fn homed(&self, var: u32) -> &[u32] {
        match self.homed.get(var as usize) {
            Some(temps) => temps.as_slice(),
            None => &[],
        }
    }
}
