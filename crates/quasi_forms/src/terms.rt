//! Terms in which equal variables are collected.
ghost use Rattle.std.specs.Prelude.{◌≡◌, ◌≤◌, ◌^◌, ◌+◌, ◌-◌, ◌++◌, ◌+ℤ◌, ◌*ℤ◌, [], IfOk, OnOk, sum_by, unsigned_abs};
ghost use Rattle.affine_rows.specs.Reduced.{AreRising, add_term, cons_term};
ghost use Rattle.std.specs.List.{AllByRecursion};
ghost use Rattle.quasi_forms.specs.Collected.{collected_terms, scaled_terms};

use std::alloc::{AllocError, Global};

/// The sum of two numbers.
pub(crate) fn plus(a: i128, b: i128) -> i128
    requires { unsigned_abs a + unsigned_abs b ≤ 2 ^ 127 - 1 }
    ensures value { result ≡ a +ℤ b }
    ensures small { unsigned_abs result ≤ unsigned_abs a + unsigned_abs b }
{
    a + b
}

/// The product of two numbers.
pub(crate) fn product(a: i64, b: i64) -> i128
    ensures value { result ≡ a *ℤ b }
{
    i128::from(a) * i128::from(b)
}

/// Adds the multiples of terms at the end of others.
pub(crate) fn add_scaled(
    terms: &[(u32, i64)],
    by: i64,
    made: &mut Vec<(u32, i128)>,
) -> Result<(), AllocError>
    ensures { OnOk result (made.new.items ≡ made.old.items ++ scaled_terms by terms.now) }
{
    for &(var, factor) in terms {
        made.push((var, product(by, factor)))?;
    }
    Ok(())
}

/// Adds a term at the end, unless its factor is 0.
fn push_nonzero(made: &mut Vec<(u32, i128)>, var: u32, factor: i128) -> Result<(), AllocError>
    ensures { OnOk result (made.new.items ≡ made.old.items ++ cons_term var factor []) }
{
    if factor != 0 {
        made.push((var, factor))?;
    }
    Ok(())
}

/// Adds a term to terms that rise and have no later variable.
fn add_last(made: &mut Vec<(u32, i128)>, var: u32, factor: i128) -> Result<(), AllocError>
    requires rising { AreRising made.old.items }
    requires last { AllByRecursion (λ t. t.0 ≤ var) made.old.items }
    requires small { unsigned_abs factor + sum_by (λ t. unsigned_abs t.1) made.old.items ≤ 2 ^ 126 }
    ensures { OnOk result (made.new.items ≡ add_term var factor made.old.items) }
{
    let Some((last, before)) = made.pop() else {
        return push_nonzero(made, var, factor);
    };
    if last == var {
        return push_nonzero(made, var, plus(factor, before));
    }
    made.push((last, before))?;
    push_nonzero(made, var, factor)
}

/// The terms by rising variables, each variable once and none with factor 0.
pub(crate) fn collected_terms(
    alloc: Global,
    terms: Vec<(u32, i128)>,
) -> Result<Vec<(u32, i128)>, AllocError>
    requires { sum_by (λ t. unsigned_abs t.1) terms.items ≤ 2 ^ 126 }
    ensures { IfOk result (λ made. made.items ≡ collected_terms terms.items) }
{
    let mut sorted = terms;
    sorted.sort_by_key(|term| term.0)?;
    let mut made = Vec::new(alloc);
    for &(var, factor) in &sorted {
        add_last(&mut made, var, factor)?;
    }
    Ok(made)
}
