//! Lists of inames in which others stand in the places of some.
ghost use Rattle.std.specs.Prelude.{◌≡◌, ◌++◌, ◌∷◌, [], IfOk, OnOk};
ghost use Rattle.kernel_edits.specs.Changing.{changed_at, changed_list};

use affine_rows::Listed;
use kernel_ir::{Iname, Tag};
use quasi_forms::is_among;
use std::alloc::{AllocError, Global};

/// Adds inames at the end of others.
fn add_all(put: &[u32], made: &mut Listed<u32>) -> Result<(), AllocError>
    ensures { OnOk result (made.new ≡ made.old ++ put.now) }
{
    for &iname in put {
        made.push(iname)?;
    }
    Ok(())
}

/// Adds what stands in the place of an iname.
fn add_changed(
    first: u32,
    vars: &[u32],
    put: &[u32],
    iname: u32,
    made: &mut Listed<u32>,
) -> Result<(), AllocError>
    ensures { OnOk result (made.new ≡ made.old ++ changed_at first vars.now put.now iname) }
{
    if iname == first {
        return add_all(put, made);
    }
    if !is_among(vars, iname) {
        made.push(iname)?;
    }
    Ok(())
}

/// The list with other inames in the place of the first of the variables, and without the others.
pub fn changed_list(
    alloc: Global,
    first: u32,
    vars: &[u32],
    put: &[u32],
    inames: &[u32],
) -> Result<Listed<u32>, AllocError>
    ensures { IfOk result (λ us. us ≡ changed_list first vars.now put.now inames.now) }
{
    let mut made = Listed::new(alloc);
    for &iname in inames {
        add_changed(first, vars, put, iname, &mut made)?;
    }
    Ok(made)
}

/// Adds inames on no axis.
fn add_plain(put: &[u32], made: &mut Listed<Iname>) -> Result<(), AllocError> {
    for &var in put {
        made.push(Iname {
            var,
            tag: Tag::Plain,
        })?;
    }
    Ok(())
}

/// The same for declared inames; the new ones are on no axis.
pub fn changed_inames(
    alloc: Global,
    first: u32,
    vars: &[u32],
    put: &[u32],
    inames: &[Iname],
) -> Result<Listed<Iname>, AllocError> {
    let mut made = Listed::new(alloc);
    for iname in inames {
        if iname.var == first {
            add_plain(put, &mut made)?;
        } else if !is_among(vars, iname.var) {
            made.push(*iname)?;
        }
    }
    Ok(made)
}
