//! The parts of a kernel in which forms stand in the places of inames.
use crate::change::Change;
use crate::trees::rewritten;
use affine_rows::Listed;
use expr_tree::ExprFault;
use kernel_ir::{Insn, QuasiRow};
use std::alloc::Global;

/// The rows with the change. `Limit` comes where a form, or a part that is collected on the way, passes its limit.
pub fn changed_rows(
    alloc: Global,
    change: &Change<'_>,
    rows: &[QuasiRow],
) -> Result<Listed<QuasiRow>, ExprFault> {
    let mut made = Listed::new(alloc);
    for row in rows {
        let form = change.changed_form(alloc, &row.form)?;
        made.push(QuasiRow {
            form,
            equal: row.equal,
        })?;
    }
    Ok(made)
}

fn changed_insn(alloc: Global, change: &Change<'_>, insn: &Insn) -> Result<Insn, ExprFault> {
    let inames = change.changed_list(alloc, insn.inames.as_slice())?;
    let rows = changed_rows(alloc, change, insn.rows.as_slice())?;
    let place = change.changed_forms(alloc, insn.place.as_slice())?;
    let copied = rewritten(alloc, insn, change)?;
    Ok(Insn {
        inames,
        rows,
        place,
        ..copied
    })
}

/// The instructions with the change in their inames, rows, subscripts, values and data tests. `Limit` comes as in
/// `changed_rows`.
pub fn changed_insns(
    alloc: Global,
    change: &Change<'_>,
    insns: &[Insn],
) -> Result<Listed<Insn>, ExprFault> {
    let mut made = Listed::new(alloc);
    for insn in insns {
        made.push(changed_insn(alloc, change, insn)?)?;
    }
    Ok(made)
}
