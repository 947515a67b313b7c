//! The code of a kernel and its nest.
ghost use Rattle.std.specs.Prelude.{◌≡◌, IfOk};

use crate::checks::{check_axes, check_written};
use crate::groups::group_bound;
use crate::items::{few_items, local_items};
use crate::statements::block_of;
use crate::temps::check_temps;
use affine_rows::{Listed, Name};
use code_parts::{
    Gathered, Spelling, block_cells, code_vars, homes_of, local_temps, loop_inames, text_temps,
};
use code_tree::{Code, CodeArray, Nest, Target};
use kernel_ir::{Fault, Kernel};
use kernel_rules::name_of;
use loop_bounds::{at_top, number_to};
use std::alloc::{AllocError, Global};

/// Adds the names of variables.
fn add_names(
    alloc: Global,
    kernel: &Kernel,
    vars: &[u32],
    made: &mut Listed<Name>,
) -> Result<(), AllocError> {
    for var in vars {
        made.push(name_of(alloc, kernel, *var)?)?;
    }
    Ok(())
}

/// Adds the names of the axes.
fn add_axes(alloc: Global, made: &mut Listed<Name>) -> Result<(), AllocError> {
    for name in ["g.0", "g.1", "g.2", "l.0", "l.1", "l.2"] {
        made.push(Name::from_str(alloc, name)?)?;
    }
    Ok(())
}

/// The names of a code: parameters, for OpenCL the axes, then the loops in text order.
fn names_of(
    alloc: Global,
    kernel: &Kernel,
    target: Target,
    loops: &[u32],
) -> Result<Listed<Name>, AllocError> {
    let mut made = Listed::new(alloc);
    add_names(alloc, kernel, kernel.params.as_slice(), &mut made)?;
    if target == Target::OpenCl {
        add_axes(alloc, &mut made)?;
    }
    add_names(alloc, kernel, loops, &mut made)?;
    Ok(made)
}

fn arrays_of(alloc: Global, kernel: &Kernel) -> Result<Listed<CodeArray>, AllocError> {
    let mut made = Listed::new(alloc);
    for array in kernel.arrays.as_slice() {
        made.push(CodeArray {
            name: array.name.copy(alloc)?,
            kind: array.kind,
            stored: array.stored,
        })?;
    }
    Ok(made)
}

/// The numbers of the parameters in a code.
fn params_of(alloc: Global, kernel: &Kernel) -> Result<Listed<u32>, AllocError> {
    let mut made = Listed::new(alloc);
    for at in 0..kernel.params.len() {
        made.push(number_to(at))?;
    }
    Ok(made)
}

/// The code of a kernel whose instructions use no rule and have no reduction, for the nest of its loops.
///
/// It refuses in this order: rule 38, for C, the first iname on an axis or else the first local temporary; rules 24 and 22 of
/// each iname on an axis; rule 36 where a group would have more than 1,024 items; rule 35 where a temporary's words would
/// cross items; rule 34 with the first written row or form that passes a limit. Rules 18 and 19 come at the query in which
/// they arise, and rule 3 where a tree would be deeper than its limit.
pub fn linearize(
    alloc: Global,
    kernel: &Kernel,
    nest: &[Nest],
    target: Target,
) -> Result<Code, Fault>
    ensures target { IfOk result (λ code. code.target ≡ target) }
{
    check_axes(alloc, kernel, target)?;
    let items = local_items(alloc, kernel)?;
    let items = few_items(alloc, items)?;
    let homes = homes_of(alloc, kernel)?;
    check_temps(alloc, kernel, &homes)?;
    let loops = loop_inames(alloc, nest)?;
    let vars = code_vars(alloc, kernel, target, loops.as_slice())?;
    let temps = text_temps(alloc, kernel, &homes, nest)?;
    let spelling = Spelling {
        kernel,
        vars: vars.as_slice(),
        temps: temps.as_slice(),
    };
    let top = at_top(alloc, items)?;
    let mut gathered = Gathered {
        flats: Listed::new(alloc),
        wide: None,
    };
    let g0 = group_bound(alloc, spelling, &top, 0, &mut gathered)?;
    let g1 = group_bound(alloc, spelling, &top, 1, &mut gathered)?;
    let g2 = group_bound(alloc, spelling, &top, 2, &mut gathered)?;
    let body = block_of(alloc, spelling, &homes, nest, &top, &mut gathered)?;
    check_written(alloc, &gathered)?;
    let local = local_temps(alloc, kernel)?;
    Ok(Code {
        target,
        names: names_of(alloc, kernel, target, loops.as_slice())?,
        params: params_of(alloc, kernel)?,
        arrays: arrays_of(alloc, kernel)?,
        g0,
        g1,
        g2,
        l0: items[0],
        l1: items[1],
        l2: items[2],
        locals: block_cells(alloc, kernel, local.as_slice())?,
        flats: gathered.flats,
        body,
    })
}
