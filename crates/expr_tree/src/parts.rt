//! Parts of a node or a test, where those that are not replaced are shared: none where no part is replaced.
ghost use Rattle.std.specs.Prelude.{◌≡◌, ◌||◌, IfOk, is_some, unwrap_or};

use crate::shared::Shared;
use crate::tree::{Expr, Test};
use affine_rows::{Form, Listed};
use std::alloc::{AllocError, Global};

pub(crate) fn trees(
    old_a: &Expr,
    new_a: Option<Expr>,
    old_b: &Expr,
    new_b: Option<Expr>,
) -> Result<Option<(Expr, Expr)>, AllocError>
    ensures new { IfOk result (λ both. unwrap_or both (old_a.now, old_b.now) ≡ (unwrap_or new_a old_a.now, unwrap_or new_b old_b.now)) }
    ensures changed { IfOk result (λ both. is_some both ≡ (is_some new_a || is_some new_b)) }
{
    match (new_a, new_b) {
        (None, None) => Ok(None),
        (Some(a), None) => Ok(Some((a, old_b.copy()?))),
        (None, Some(b)) => Ok(Some((old_a.copy()?, b))),
        (Some(a), Some(b)) => Ok(Some((a, b))),
    }
}

pub(crate) fn test_and_trees(
    alloc: Global,
    old_test: &Test,
    new_test: Option<Test>,
    old_a: &Expr,
    old_b: &Expr,
    new_trees: Option<(Expr, Expr)>,
) -> Result<Option<(Test, (Expr, Expr))>, AllocError>
    ensures new { IfOk result (λ all. unwrap_or all (old_test.now, (old_a.now, old_b.now)) ≡ (unwrap_or new_test old_test.now, unwrap_or new_trees (old_a.now, old_b.now))) }
    ensures changed { IfOk result (λ all. is_some all ≡ (is_some new_test || is_some new_trees)) }
{
    match (new_test, new_trees) {
        (None, None) => Ok(None),
        (Some(test), None) => Ok(Some((test, (old_a.copy()?, old_b.copy()?)))),
        (None, Some(trees)) => Ok(Some((old_test.copy(alloc)?, trees))),
        (Some(test), Some(trees)) => Ok(Some((test, trees))),
    }
}

pub(crate) fn tree_and_inames(
    alloc: Global,
    old_tree: &Expr,
    new_tree: Option<Expr>,
    old_inames: &Listed<u32>,
    new_inames: Option<Listed<u32>>,
) -> Result<Option<(Expr, Listed<u32>)>, AllocError>
    ensures new { IfOk result (λ both. unwrap_or both (old_tree.now, old_inames.now) ≡ (unwrap_or new_tree old_tree.now, unwrap_or new_inames old_inames.now)) }
    ensures changed { IfOk result (λ both. is_some both ≡ (is_some new_tree || is_some new_inames)) }
{
    match (new_tree, new_inames) {
        (None, None) => Ok(None),
        (Some(tree), None) => {
            let inames = Listed::from_slice(alloc, old_inames.as_slice())?;
            Ok(Some((tree, inames)))
        }
        (None, Some(inames)) => Ok(Some((old_tree.copy()?, inames))),
        (Some(tree), Some(inames)) => Ok(Some((tree, inames))),
    }
}

pub(crate) fn forms(
    alloc: Global,
    old_a: &Form,
    new_a: Option<Form>,
    old_b: &Form,
    new_b: Option<Form>,
) -> Result<Option<(Form, Form)>, AllocError>
    ensures new { IfOk result (λ both. unwrap_or both (old_a.now, old_b.now) ≡ (unwrap_or new_a old_a.now, unwrap_or new_b old_b.now)) }
    ensures changed { IfOk result (λ both. is_some both ≡ (is_some new_a || is_some new_b)) }
{
    match (new_a, new_b) {
        (None, None) => Ok(None),
        (Some(a), None) => Ok(Some((a, old_b.copy(alloc)?))),
        (None, Some(b)) => Ok(Some((old_a.copy(alloc)?, b))),
        (Some(a), Some(b)) => Ok(Some((a, b))),
    }
}

pub(crate) fn tests(
    alloc: Global,
    old_p: &Shared<Test>,
    new_p: Option<Test>,
    old_q: &Shared<Test>,
    new_q: Option<Test>,
) -> Result<Option<(Shared<Test>, Shared<Test>)>, AllocError>
    ensures new { IfOk result (λ both. unwrap_or both (old_p.now, old_q.now) ≡ (unwrap_or new_p old_p.now, unwrap_or new_q old_q.now)) }
    ensures changed { IfOk result (λ both. is_some both ≡ (is_some new_p || is_some new_q)) }
{
    match (new_p, new_q) {
        (None, None) => Ok(None),
        (Some(p), None) => Ok(Some((Shared::new(alloc, p)?, old_q.share()?))),
        (None, Some(q)) => Ok(Some((old_p.share()?, Shared::new(alloc, q)?))),
        (Some(p), Some(q)) => Ok(Some((Shared::new(alloc, p)?, Shared::new(alloc, q)?))),
    }
}
