//! Sums of multiples of terms, exactly.
ghost use Rattle.std.specs.Prelude.{◌≡◌, ◌⊎◌, ◌+◌, ◌<◌, ◌≤◌, ◌^◌, ◌+ℤ◌, ◌*ℤ◌, length, drop, slice_index_or, pos, true, false, All, IfOk, unsigned_abs};
ghost use Rattle.affine_rows.specs.Reduced.{AreRising, cons_term, mixed_terms};

use std::alloc::{AllocError, Global};

fn product(p: i64, factor: i64) -> i128
    requires { unsigned_abs p ≤ 2 ^ 62 }
    ensures value { result ≡ p *ℤ factor }
    ensures small { unsigned_abs result ≤ 2 ^ 125 }
{
    i128::from(p) * i128::from(factor)
}

/// The sum of two products.
pub(crate) fn products(p: i64, first: i64, q: i64, second: i64) -> i128
    requires p_small { unsigned_abs p ≤ 2 ^ 62 }
    requires q_small { unsigned_abs q ≤ 2 ^ 62 }
    ensures value { result ≡ p *ℤ first +ℤ q *ℤ second }
    ensures small { unsigned_abs result ≤ 2 ^ 126 }
{
    product(p, first) + product(q, second)
}

/// A term of a sum, and how far both lists are used up.
#[derive(Clone, Copy)]
struct Step {
    var: u32,
    factor: i128,
    left: usize,
    right: usize,
}

/// Whether there is a term at `i`, before the term of the others at `j`, where there is one.
fn comes_first(terms: &[(u32, i64)], i: usize, others: &[(u32, i64)], j: usize) -> bool
    requires others_in { j ≤ length others.now }
    ensures first { result ≡ true → i < length terms.now }
    ensures before { result ≡ true → j < length others.now → (slice_index_or terms.now i (0, pos 0)).0 < (slice_index_or others.now j (0, pos 0)).0 }
    ensures other { result ≡ false → i < length terms.now → j < length others.now }
    ensures after { result ≡ false → i < length terms.now → (slice_index_or others.now j (0, pos 0)).0 ≤ (slice_index_or terms.now i (0, pos 0)).0 }
{
    i < terms.len() && (j == others.len() || terms[i].0 < others[j].0)
}

/// The first term of p times the left terms from `i` on plus q times the right ones from `j` on.
fn next_term(left: &[(u32, i64)], i: usize, p: i64, right: &[(u32, i64)], j: usize, q: i64) -> Step
    requires p_small { unsigned_abs p ≤ 2 ^ 62 }
    requires q_small { unsigned_abs q ≤ 2 ^ 62 }
    requires left_rising { AreRising left.now }
    requires right_rising { AreRising right.now }
    requires left_in { i ≤ length left.now }
    requires right_in { j ≤ length right.now }
    requires more { (i < length left.now) ⊎ (j < length right.now) }
    ensures next { mixed_terms p (drop i left.now) q (drop j right.now) ≡ cons_term result.var result.factor (mixed_terms p (drop result.left left.now) q (drop result.right right.now)) }
    ensures small { unsigned_abs result.factor ≤ 2 ^ 126 }
    ensures left_in { result.left ≤ length left.now }
    ensures right_in { result.right ≤ length right.now }
    ensures onward { i + j < result.left + result.right }
{
    if comes_first(left, i, right, j) {
        let (var, factor) = left[i];
        return Step {
            var,
            factor: product(p, factor),
            left: i + 1,
            right: j,
        };
    }
    if comes_first(right, j, left, i) {
        let (var, factor) = right[j];
        return Step {
            var,
            factor: product(q, factor),
            left: i,
            right: j + 1,
        };
    }
    let (var, first) = left[i];
    let (_, second) = right[j];
    Step {
        var,
        factor: products(p, first, q, second),
        left: i + 1,
        right: j + 1,
    }
}

/// p times the left terms plus q times the right ones, without zeros.
pub(crate) fn mixed_terms(
    alloc: Global,
    left: &[(u32, i64)],
    p: i64,
    right: &[(u32, i64)],
    q: i64,
) -> Result<Vec<(u32, i128)>, AllocError>
    requires p_small { unsigned_abs p ≤ 2 ^ 62 }
    requires q_small { unsigned_abs q ≤ 2 ^ 62 }
    requires left_rising { AreRising left.now }
    requires right_rising { AreRising right.now }
    ensures value { IfOk result (λ terms. terms.items ≡ mixed_terms p left.now q right.now) }
    ensures small { IfOk result (λ terms. All (λ t. unsigned_abs t.1 ≤ 2 ^ 126) terms.items) }
{
    let mut terms = Vec::new(alloc);
    let mut i = 0;
    let mut j = 0;
    'steps: while i < left.len() || j < right.len() {
        let step = next_term(left, i, p, right, j, q);
        if step.factor != 0 {
            terms.push((step.var, step.factor))?;
        }
        i = step.left;
        j = step.right;
    }
    Ok(terms)
}
