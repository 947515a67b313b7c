//! What is known of a code beside its text.
use affine_rows::{Listed, Name};
use code_tree::{Facts, Nest};
use expr_tree::QuasiRow;
use kernel_ir::{Fault, Insn, Kernel};
use kernel_rules::{add_context, name_of, set_fault};
use loop_bounds::{AXES, iname_on};
use quasi_forms::Difference;
use std::alloc::{AllocError, Global};

/// Rows that say that forms are at least 0, or equal 0, as rows over their forms.
fn rows_of(rows: Vec<Difference>, alloc: Global) -> Result<Listed<QuasiRow>, AllocError> {
    let mut made = Listed::new(alloc);
    for row in rows {
        let Difference {
            form,
            less: _,
            equal,
        } = row;
        made.push(QuasiRow { form, equal })?;
    }
    Ok(made)
}

/// The context over the names of a code, in which the parameters stand first.
fn context_rows(alloc: Global, kernel: &Kernel) -> Result<Listed<QuasiRow>, Fault> {
    if kernel.params.len() > 128 {
        return Err(set_fault(alloc, elimination::SetFault::TooWide { stage: 0, row: 0 }));
    }
    let mut rows = Vec::new(alloc);
    add_context(alloc, kernel, kernel.params.as_slice(), &mut rows)?;
    Ok(rows_of(rows, alloc)?)
}

/// The instruction's inames on axes.
fn axes_of(alloc: Global, kernel: &Kernel, insn: &Insn) -> Result<Listed<(u8, Name)>, AllocError> {
    let mut made = Listed::new(alloc);
    for axis in 0..6u8 {
        if let Some(var) = iname_on(kernel, insn, AXES[axis as usize]) {
            made.push((axis, name_of(alloc, kernel, var)?))?;
        }
    }
    Ok(made)
}

fn add_insn(
    alloc: Global,
    kernel: &Kernel,
    insn: &Insn,
    made: &mut Facts,
) -> Result<(), AllocError> {
    made.ids.push(insn.id.copy(alloc)?)?;
    made.axes.push(axes_of(alloc, kernel, insn)?)
}

/// Adds the assignments of nests in text order.
#[cycle(facts)]
fn add_nests(
    alloc: Global,
    kernel: &Kernel,
    nests: &[Nest],
    made: &mut Facts,
) -> Result<(), AllocError> {
    for nest in nests {
        add_nest(alloc, kernel, nest, made)?;
    }
    Ok(())
}

#[cycle(facts)]
fn add_nest(
    alloc: Global,
    kernel: &Kernel,
    nest: &Nest,
    made: &mut Facts,
) -> Result<(), AllocError> {
    match nest {
        Nest::Insn(at) => match kernel.insns.get(*at as usize) {
            None => Ok(()),
            Some(insn) => add_insn(alloc, kernel, insn, made),
        },
        Nest::Loop(_, inside) => add_nests(alloc, kernel, inside.as_slice(), made),
    }
}

/// What is known of the code of a kernel and its nest: the context over the code's names, and for each assignment in text
/// order the id of its instruction and its inames on axes. The only error is want of memory.
pub fn facts(alloc: Global, kernel: &Kernel, nest: &[Nest]) -> Result<Facts, Fault> {
    let mut made = Facts {
        rows: context_rows(alloc, kernel)?,
        ids: Listed::new(alloc),
        axes: Listed::new(alloc),
    };
    add_nests(alloc, kernel, nest, &mut made)?;
    Ok(made)
}
