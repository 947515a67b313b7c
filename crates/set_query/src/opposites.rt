//! Rows as inequalities.
ghost use Rattle.std.specs.Prelude.{◌≡◌, All, IfOk, map, false, neg_ℤ};
ghost use Rattle.affine_rows.specs.Reduced.{IsSomeRow};
ghost use Rattle.affine_rows.specs.Rows.{IsEntry};
ghost use Rattle.set_query.specs.Bounding.{inequality, negated_term, opposite};

use affine_rows::{Row, Terms};
use std::alloc::{AllocError, Global};

fn negated(number: i64) -> i64
    requires { IsEntry number }
    ensures { result ≡ neg_ℤ number }
{
    -number
}

fn negated_term(term: (u32, i64)) -> (u32, i64)
    requires { IsEntry term.1 }
    ensures { result ≡ negated_term term }
{
    (term.0, negated(term.1))
}

fn negated_terms(alloc: Global, terms: &[(u32, i64)]) -> Result<Terms, AllocError>
    requires { All (λ t. IsEntry t.1) terms.now }
    ensures { IfOk result (λ made. made ≡ map negated_term terms.now) }
{
    let mut made = Terms::with_capacity(alloc, terms.len())?;
    for term in terms {
        made.push(negated_term(*term))?;
    }
    Ok(made)
}

/// The row is at least 0.
pub(crate) fn inequality(alloc: Global, row: &Row) -> Result<Row, AllocError>
    ensures { IfOk result (λ made. made ≡ inequality row.now) }
{
    Ok(Row {
        constant: row.constant,
        terms: Terms::from_slice(alloc, row.terms.as_slice())?,
        equal: false,
    })
}

/// The row is at most 0.
pub(crate) fn opposite(alloc: Global, row: &Row) -> Result<Row, AllocError>
    requires { IsSomeRow row.now }
    ensures { IfOk result (λ made. made ≡ opposite row.now) }
{
    Ok(Row {
        constant: negated(row.constant),
        terms: negated_terms(alloc, row.terms.as_slice())?,
        equal: false,
    })
}
