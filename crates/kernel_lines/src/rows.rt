//! Comparisons of index expressions as rows.
ghost use Rattle.std.specs.Prelude.{◌≡◌, ◌++◌, map, IfOk, OnOk};
ghost use Rattle.untyped_parts.specs.Rows.{row_of};
ghost use Rattle.kernel_lines.specs.Rows.{rows_between, rows_in, is_over};

use affine_rows::{Form, Listed};
use expr_tree::QuasiRow;
use kernel_grammar::Relation;
use std::alloc::{AllocError, Global};
use untyped_parts::{RowReading, row_of};

fn push_rows(
    alloc: Global,
    relation: Relation,
    a: &Form,
    right: &[Form],
    rows: &mut Listed<RowReading>,
) -> Result<(), AllocError>
    ensures { OnOk result (rows.new ≡ rows.old ++ map (row_of relation a.now) right.now) }
{
    'right: for b in right {
        rows.push(row_of(alloc, relation, a, b)?)?;
    }
    Ok(())
}

/// The rows that say that each left form is in a relation to each right form.
pub(crate) fn rows_between(
    alloc: Global,
    relation: Relation,
    left: &[Form],
    right: &[Form],
) -> Result<Listed<RowReading>, AllocError>
    ensures { IfOk result (λ rows. rows ≡ rows_between relation left.now right.now) }
{
    let mut rows = Listed::new(alloc);
    'left: for a in left {
        push_rows(alloc, relation, a, right, &mut rows)?;
    }
    Ok(rows)
}

/// Adds the rows at the end, and tells whether a form of one passes a limit.
pub(crate) fn add_rows(
    compared: Listed<RowReading>,
    rows: &mut Listed<QuasiRow>,
) -> Result<bool, AllocError>
    ensures over { IfOk result (λ over. over ≡ is_over compared) }
    ensures rows { OnOk result (rows.new ≡ rows.old ++ rows_in compared) }
{
    let mut over = false;
    'compared: for one in compared.into_vec() {
        over = over || one.over;
        rows.push(one.row)?;
    }
    Ok(over)
}
