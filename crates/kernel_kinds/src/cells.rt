//! The kinds of cells.
ghost use Rattle.std.specs.Prelude.{◌≡◌, ℕ, map, IfOk};
ghost use Rattle.kind_faults.specs.Leads.{leading_at};
ghost use Rattle.type_infer.specs.Inferred.{kind_by};
ghost use Rattle.type_infer.specs.Orders.{IsCallOrder};
ghost use Rattle.kernel_kinds.specs.Leads.{cell_kind};
ghost use Rattle.kernel_kinds.specs.Tables.{cells_in, kind_at, uses_among};

use crate::found::Cells;
use crate::leads::{rule_leads, stored_leads};
use affine_rows::Listed;
use kernel_ir::{Array, Kernel};
use kind_faults::Leading;
use std::alloc::{AllocError, Global};
use type_infer::temp_kind;
use untyped_parts::{InsnTree, RuleTree};
use wrap_words::Kind;

fn array_kinds(alloc: Global, arrays: &[Array]) -> Result<Listed<Kind>, AllocError>
    ensures { IfOk result (λ kinds. kinds ≡ map (λ a. a.kind) arrays.now) }
{
    let mut kinds = Listed::new(alloc);
    for array in arrays {
        kinds.push(array.kind)?;
    }
    Ok(kinds)
}

/// The kinds of temporaries, by what the values lead with that are stored first to each.
fn temp_kinds(
    alloc: Global,
    kernel: &Kernel,
    stored: &[Option<Leading>],
) -> Result<Listed<Option<Kind>>, AllocError>
    ensures { IfOk result (λ kinds. (t : ℕ) → kind_at kinds t ≡ kind_by kernel.now (leading_at stored.now) t) }
{
    let mut kinds = Listed::new(alloc);
    for temp in 0..kernel.temps.len() {
        kinds.push(temp_kind(kernel, stored, temp))?;
    }
    Ok(kinds)
}

/// The kinds of all cells, by an order of the rules.
pub(crate) fn cell_kinds(
    alloc: Global,
    kernel: &Kernel,
    rules: &[RuleTree],
    insns: &[InsnTree],
    order: &[usize],
) -> Result<Cells, AllocError>
    requires { IsCallOrder (uses_among rules.now) order.now }
    ensures { IfOk result (λ c. cells_in c ≡ cell_kind kernel.now rules.now insns.now) }
{
    let leads = rule_leads(alloc, rules, order)?;
    let stored = stored_leads(alloc, rules, insns, leads.as_slice(), kernel.temps.len())?;
    Ok(Cells {
        arrays: array_kinds(alloc, kernel.arrays.as_slice())?,
        temps: temp_kinds(alloc, kernel, stored.as_slice())?,
    })
}
