//! Predicates as rows and the rest.
ghost use Rattle.std.specs.Prelude.{◌≡◌, ◌++◌, IfOk};
ghost use Rattle.untyped.specs.Exprs.{form_of};
ghost use Rattle.untyped_parts.specs.Conjuncts.{both, compared, joined, link_of, parted_of, row_alone, split_of, whole};

use crate::rows::{RowReading, row_of};
use affine_rows::Listed;
use expr_tree::QuasiRow;
use kernel_grammar::{Infix, Relation};
use std::alloc::{AllocError, Global};
use untyped::{Term, Untyped, form_of};

/// A predicate: the rows of its conjuncts that compare two index expressions, other than by `!=`, whether a form that is
/// collected for them passes a limit, and the tree of the other conjuncts, if there are some.
#[derive(Drop)]
pub struct Split {
    pub rows: Listed<QuasiRow>,
    pub over: bool,
    pub rest: Option<Untyped>,
}

/// How an operator links two predicates.
#[derive(Clone, Copy)]
enum Link {
    Conjunction,
    Compared(Relation),
    Other,
}

fn link_of(op: Infix) -> Link
    ensures { result ≡ link_of op }
{
    match op {
        Infix::And => Link::Conjunction,
        Infix::Compare(relation) => Link::Compared(relation),
        _ => Link::Other,
    }
}

fn whole(alloc: Global, tree: &Untyped) -> Result<Split, AllocError>
    ensures { IfOk result (λ s. s ≡ whole (parted_of tree.now).tree) }
{
    Ok(Split {
        rows: Listed::new(alloc),
        over: false,
        rest: Some(tree.copy()?),
    })
}

fn row_alone(alloc: Global, reading: RowReading) -> Result<Split, AllocError>
    ensures { IfOk result (λ s. s ≡ row_alone reading) }
{
    Ok(Split {
        rows: Listed::of_one(alloc, reading.row)?,
        over: reading.over,
        rest: None,
    })
}

/// What is left of two predicates that both have to hold.
fn both(
    alloc: Global,
    a: Option<Untyped>,
    b: Option<Untyped>,
) -> Result<Option<Untyped>, AllocError>
    ensures { IfOk result (λ o. o ≡ both a b) }
{
    match (a, b) {
        (Some(a), Some(b)) => Ok(Some(Untyped::of_term(alloc, Term::Infix(Infix::And, a, b))?)),
        (Some(a), None) => Ok(Some(a)),
        (None, b) => Ok(b),
    }
}

/// Rows and then others.
fn appended(rows: Listed<QuasiRow>, more: Listed<QuasiRow>) -> Result<Listed<QuasiRow>, AllocError>
    ensures { IfOk result (λ all. all ≡ rows ++ more) }
{
    let mut all = rows.into_vec();
    let mut more = more.into_vec();
    all.append(&mut more)?;
    Ok(Listed::from_vec(all))
}

/// Two predicates that both have to hold.
fn joined(alloc: Global, a: Split, b: Split) -> Result<Split, AllocError>
    ensures { IfOk result (λ s. s ≡ joined a b) }
{
    Ok(Split {
        rows: appended(a.rows, b.rows)?,
        over: a.over || b.over,
        rest: both(alloc, a.rest, b.rest)?,
    })
}

/// A comparison, of index expressions or of words.
fn compared(
    alloc: Global,
    relation: Relation,
    a: &Untyped,
    b: &Untyped,
    tree: &Untyped,
) -> Result<Split, AllocError>
    ensures { IfOk result (λ s. s ≡ compared relation (form_of (parted_of a.now).tree) (form_of (parted_of b.now).tree) (parted_of tree.now).tree) }
{
    match (form_of(alloc, a)?, form_of(alloc, b)?) {
        (Some(f), Some(g)) => {
            let reading = row_of(alloc, relation, &f, &g)?;
            row_alone(alloc, reading)
        }
        _ => whole(alloc, tree),
    }
}

/// The predicate as the rows of its conjuncts that compare two index expressions, other than by `!=`, and the tree of the
/// others. Conjuncts are found through nested `and`, and what is left keeps the shape of the tree. The only error is want of
/// memory.
#[cycle(split)]
pub fn split_predicate(alloc: Global, tree: &Untyped) -> Result<Split, AllocError>
    ensures { IfOk result (λ s. s ≡ split_of tree.now) }
{
    match tree.term() {
        Term::Infix(op, a, b) => match link_of(*op) {
            Link::Conjunction => {
                let first = split_predicate(alloc, a)?;
                let second = split_predicate(alloc, b)?;
                joined(alloc, first, second)
            }
            Link::Compared(relation) => compared(alloc, relation, a, b, tree),
            Link::Other => whole(alloc, tree),
        },
        _ => whole(alloc, tree),
    }
}
