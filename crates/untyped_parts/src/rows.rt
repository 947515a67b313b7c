//! Comparisons of index expressions as rows.
ghost use Rattle.std.specs.Prelude.{◌≡◌, IfOk};
ghost use Rattle.untyped_parts.specs.Rows.{difference, less_one, row_of, row_reading};

use affine_rows::{Form, Listed};
use expr_tree::QuasiRow;
use kernel_grammar::Relation;
use std::alloc::{AllocError, Global};
use untyped::{Collected, collected_sum};

/// A row, and whether a form that is collected on the way passes a limit, in which case 1 stands for it.
#[derive(Drop)]
pub struct RowReading {
    pub row: QuasiRow,
    pub over: bool,
}

/// The difference of two forms.
fn difference(alloc: Global, a: &Form, b: &Form) -> Result<Collected, AllocError>
    ensures { IfOk result (λ c. c ≡ difference a.now b.now) }
{
    collected_sum(alloc, false, a, -1, b)
}

/// A collected form less 1.
fn less_one(alloc: Global, collected: &Collected) -> Result<Collected, AllocError>
    ensures { IfOk result (λ c. c ≡ less_one collected.now) }
{
    let one = Form::affine(alloc, 1, Listed::new(alloc));
    let less = collected_sum(alloc, false, &collected.form, -1, &one)?;
    Ok(Collected {
        form: less.form,
        constant: less.constant,
        over: collected.over || less.over,
    })
}

fn row_reading(equal: bool, collected: Collected) -> RowReading
    ensures { result ≡ row_reading equal collected }
{
    RowReading {
        row: QuasiRow {
            form: collected.form,
            equal,
        },
        over: collected.over,
    }
}

/// The row of a comparison: `a <= b` is `b - a >= 0`, `a < b` is `b - a - 1 >= 0`, `a >= b` and `a > b` are the same turned,
/// and `a = b` is `a - b = 0`. The only error is want of memory.
pub fn row_of(
    alloc: Global,
    relation: Relation,
    a: &Form,
    b: &Form,
) -> Result<RowReading, AllocError>
    ensures { IfOk result (λ r. r ≡ row_of relation a.now b.now) }
{
    match relation {
        Relation::LessEqual => Ok(row_reading(false, difference(alloc, b, a)?)),
        Relation::Less => Ok(row_reading(false, less_one(alloc, &difference(alloc, b, a)?)?)),
        Relation::GreaterEqual => Ok(row_reading(false, difference(alloc, a, b)?)),
        Relation::Greater => Ok(row_reading(false, less_one(alloc, &difference(alloc, a, b)?)?)),
        Relation::Equal => Ok(row_reading(true, difference(alloc, a, b)?)),
    }
}
