//! Forms in the places of variables.
ghost use Rattle.std.specs.Prelude.{◌≡◌, ◌≢◌, ◌≤◌, ◌^◌, ◌+◌, ◌-◌, ◌++◌, ◌∷◌, [], ◌+ℤ◌, map, flat_map, not, pos, true, length, All, IfOk, OnOk, Err, sum_by, unsigned_abs};
ghost use Rattle.std.specs.List.{filter, AllByRecursion};
ghost use Rattle.affine_rows.specs.declared.quasi.Quasi.{out-Quasi};
ghost use Rattle.affine_rows.specs.declared.quasi.Floor.{out-Floor};
ghost use Rattle.affine_rows.specs.Rows.{Env};
ghost use Rattle.affine_rows.specs.Forms.{form_at, IsForm, IsFloor};
ghost use Rattle.affine_rows.specs.Reduced.{factor_of};
ghost use Rattle.expr_tree.specs.Scenes.{given, is_among};
ghost use Rattle.quasi_forms.specs.Collected.{IsWide, put_parts, put_form, put_over};
ghost use Rattle.quasi_forms.specs.Combined.{IsPart, Multiples, IsSum, HasRoom};
ghost use Rattle.quasi_forms.specs.Limits.{IsWithin, floors_within};
ghost use Rattle.quasi_forms.specs.Placed.{vars_differ, put_floor, PutsInner, PutsWithin};

use crate::fault::FormFault;
use crate::sums::Sum;
use affine_rows::{Floor, Form, Listed, Quasi};
use std::alloc::{AllocError, Global};
use std::slice;

/// The sum of two numbers.
fn plus(a: i64, b: i64) -> i64
    requires { unsigned_abs a + unsigned_abs b ≤ 2 ^ 62 }
    ensures value { result ≡ a +ℤ b }
    ensures small { unsigned_abs result ≤ unsigned_abs a + unsigned_abs b }
{
    a + b
}

/// The factor of a term, where it is of the variable.
fn factor_if(term: (u32, i64), var: u32) -> i64
    ensures value { result ≡ factor_of var (term ∷ []) }
    ensures small { unsigned_abs result ≤ unsigned_abs term.1 }
{
    if term.0 == var { term.1 } else { 0 }
}

/// The sum of a variable's factors.
fn factor_of(terms: &[(u32, i64)], var: u32) -> i64
    requires { sum_by (λ t. unsigned_abs t.1) terms.now ≤ 2 ^ 62 }
    ensures { result ≡ factor_of var terms.now }
{
    let mut sum = 0i64;
    for term in terms {
        sum = plus(sum, factor_if(*term, var));
    }
    sum
}

/// Adds a term at the end, unless it is of one of the variables.
fn push_other(
    made: &mut Listed<(u32, i64)>,
    term: (u32, i64),
    vars: &[u32],
) -> Result<(), AllocError>
    ensures { OnOk result (made.new ≡ made.old ++ filter (λ t. not (is_among vars.now t.0)) (term ∷ [])) }
{
    if !vars.contains(&term.0) {
        made.push(term)?;
    }
    Ok(())
}

/// The terms of other variables.
fn other_terms(
    alloc: Global,
    terms: &[(u32, i64)],
    vars: &[u32],
) -> Result<Listed<(u32, i64)>, AllocError>
    ensures { IfOk result (λ others. others ≡ filter (λ t. not (is_among vars.now t.0)) terms.now) }
{
    let mut others = Listed::new(alloc);
    for term in terms {
        push_other(&mut others, *term, vars)?;
    }
    Ok(others)
}

/// Adds a form times the factor of its variable.
fn add_one(
    alloc: Global,
    terms: &[(u32, i64)],
    var: u32,
    form: &Form,
    sum: &mut Sum,
) -> Result<(), AllocError>
    requires terms { sum_by (λ t. unsigned_abs t.1) terms.now ≤ 2 ^ 62 }
    requires room { HasRoom (unsigned_abs (factor_of var terms.now)) sum.old.constant sum.old.terms.items sum.old.floors.items }
    ensures { OnOk result ((ms : Multiples) → IsSum ms sum.old.constant sum.old.terms.items sum.old.floors.items → IsSum (ms ++ (factor_of var terms.now, form.now) ∷ []) sum.new.constant sum.new.terms.items sum.new.floors.items) }
{
    sum.add(alloc, factor_of(terms, var), form.quasi())
}

/// The sum of all forms times the factors of their variables.
fn put_sum(
    alloc: Global,
    terms: &[(u32, i64)],
    vars: &[u32],
    forms: &[Form],
) -> Result<Sum, AllocError>
    requires terms { sum_by (λ t. unsigned_abs t.1) terms.now ≤ 2 ^ 62 }
    requires differ { vars_differ vars.now ≡ true }
    requires count { length vars.now ≡ length forms.now }
    ensures { IfOk result (λ s. IsSum (put_parts vars.now forms.now terms.now) s.constant s.terms.items s.floors.items) }
{
    let mut sum = Sum::new(alloc);
    for at in 0..vars.len() {
        add_one(alloc, terms, vars[at], &forms[at], &mut sum)?;
    }
    Ok(sum)
}

/// The form with others in the places of variables, over its floors with the others put in.
fn put_over(
    alloc: Global,
    a: &Quasi,
    floors: Listed<Floor>,
    vars: &[u32],
    forms: &[Form],
) -> Result<Form, FormFault>
    requires form { IsForm a.now }
    requires factors { sum_by (λ f. unsigned_abs (out-Floor f).times) floors ≤ 2 ^ 63 }
    requires floors { All IsWide floors }
    requires differ { vars_differ vars.now ≡ true }
    requires count { length vars.now ≡ length forms.now }
    ensures form { IfOk result (λ f. f ≡ put_over vars.now forms.now a.now floors) }
    ensures within { OnOk result (IsWithin (put_over vars.now forms.now a.now floors)) }
    ensures limit { result ≡ Err FormFault.Limit → IsWithin (put_over vars.now forms.now a.now floors) → ⊥ }
    ensures affine { result ≢ Err FormFault.NotAffine }
{
    let rest = Quasi {
        constant: a.constant,
        terms: other_terms(alloc, a.terms.as_slice(), vars)?,
        floors,
    };
    let mut sum = put_sum(alloc, a.terms.as_slice(), vars, forms)?;
    sum.add(alloc, 1, &rest)?;
    sum.collected(alloc)
}

#[cycle(put)]
fn put_form(alloc: Global, a: &Quasi, vars: &[u32], forms: &[Form]) -> Result<Form, FormFault>
    requires form { IsForm a.now }
    requires differ { vars_differ vars.now ≡ true }
    requires count { length vars.now ≡ length forms.now }
    ensures form { IfOk result (λ f. f ≡ put_form vars.now forms.now a.now) }
    ensures within { OnOk result (PutsWithin vars.now forms.now a.now) }
    ensures limit { result ≡ Err FormFault.Limit → PutsWithin vars.now forms.now a.now → ⊥ }
    ensures affine { result ≢ Err FormFault.NotAffine }
{
    let floors = put_floors(alloc, a.floors.as_slice(), vars, forms)?;
    put_over(alloc, a, floors, vars, forms)
}

#[cycle(put)]
fn put_floors(
    alloc: Global,
    floors: &[Floor],
    vars: &[u32],
    forms: &[Form],
) -> Result<Listed<Floor>, FormFault>
    requires floors { All IsFloor floors.now }
    requires differ { vars_differ vars.now ≡ true }
    requires count { length vars.now ≡ length forms.now }
    ensures floors { IfOk result (λ fs. fs ≡ map (put_floor vars.now forms.now) floors.now) }
    ensures within { OnOk result (AllByRecursion (PutsInner vars.now forms.now) (flat_map floors_within floors.now)) }
    ensures limit { result ≡ Err FormFault.Limit → AllByRecursion (PutsInner vars.now forms.now) (flat_map floors_within floors.now) → ⊥ }
    ensures affine { result ≢ Err FormFault.NotAffine }
{
    let mut made = Listed::new(alloc);
    for floor in floors {
        made.push(put_floor(alloc, floor, vars, forms)?)?;
    }
    Ok(made)
}

#[cycle(put)]
fn put_floor(alloc: Global, floor: &Floor, vars: &[u32], forms: &[Form]) -> Result<Floor, FormFault>
    requires floor { IsFloor floor.now }
    requires differ { vars_differ vars.now ≡ true }
    requires count { length vars.now ≡ length forms.now }
    ensures floor { IfOk result (λ f. f ≡ put_floor vars.now forms.now floor.now) }
    ensures within { OnOk result (AllByRecursion (PutsInner vars.now forms.now) (floors_within floor.now)) }
    ensures limit { result ≡ Err FormFault.Limit → AllByRecursion (PutsInner vars.now forms.now) (floors_within floor.now) → ⊥ }
    ensures affine { result ≢ Err FormFault.NotAffine }
{
    let inner = put_form(alloc, &floor.inner, vars, forms)?;
    Ok(Floor {
        times: floor.times,
        inner: inner.quasi().copy(alloc)?,
        by: floor.by,
    })
}

/// The form `a` with a form in the place of each of the different variables, the first for the first and so on, all at once
/// and under floors too; the floors of what is put in come before its own, in the order of the variables. `Limit` comes
/// exactly where it, or a form under one of its floors with the others put in, passes a limit, as for `sum_of`.
pub fn put_all(alloc: Global, a: &Form, vars: &[u32], forms: &[Form]) -> Result<Form, FormFault>
    requires differ { vars_differ vars.now ≡ true }
    requires count { length vars.now ≡ length forms.now }
    ensures form { IfOk result (λ f. f ≡ put_form vars.now forms.now a.now) }
    ensures within { OnOk result (PutsWithin vars.now forms.now a.now) }
    ensures limit { result ≡ Err FormFault.Limit → PutsWithin vars.now forms.now a.now → ⊥ }
    ensures affine { result ≢ Err FormFault.NotAffine }
    ensures value { IfOk result (λ f. (env : Env) → form_at env f ≡ form_at (given vars.now (map (form_at env) forms.now) env) a.now) }
{
    put_form(alloc, a.quasi(), vars, forms)
}

/// The form `a` with `b` in the place of the variable, as by `put_all`.
pub fn put_in(alloc: Global, a: &Form, var: u32, b: &Form) -> Result<Form, FormFault>
    ensures form { IfOk result (λ f. f ≡ put_form (var ∷ []) (b.now ∷ []) a.now) }
    ensures within { OnOk result (PutsWithin (var ∷ []) (b.now ∷ []) a.now) }
    ensures limit { result ≡ Err FormFault.Limit → PutsWithin (var ∷ []) (b.now ∷ []) a.now → ⊥ }
    ensures affine { result ≢ Err FormFault.NotAffine }
    ensures value { IfOk result (λ f. (env : Env) → form_at env f ≡ form_at (given (var ∷ []) (form_at env b.now ∷ []) env) a.now) }
{
    put_all(alloc, a, slice::from_ref(&var), slice::from_ref(b))
}
