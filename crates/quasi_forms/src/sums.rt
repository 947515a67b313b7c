//! Sums of multiples of forms.
ghost use Rattle.std.specs.Prelude.{◌≡◌, ◌≢◌, ◌≤◌, ◌≤ℤ◌, ◌^◌, ◌+◌, ◌*◌, ◌+ℤ◌, ◌*ℤ◌, ◌++◌, ◌∷◌, [], pos, true, false, IfOk, OnOk, Err, unsigned_abs};
ghost use Rattle.std.specs.List.{list_all};
ghost use Rattle.std.specs.Int.{int_div_euclid};
ghost use Rattle.affine_rows.specs.Rows.{Env};
ghost use Rattle.affine_rows.specs.Forms.{form_at, IsForm};
ghost use Rattle.affine_rows.specs.Reduced.{fits_entry};
ghost use Rattle.quasi_forms.specs.Collected.{collected_form, sum_form, floor_form};
ghost use Rattle.quasi_forms.specs.Combined.{IsPart, Multiples, IsSum, HasRoom};
ghost use Rattle.quasi_forms.specs.Limits.{IsWithin};

use crate::fault::FormFault;
use crate::floors::{WideFloor, add_multiples, collected_floors, narrow};
use crate::limits::{limited, small};
use crate::terms::{add_scaled, collected_terms, product};
use affine_rows::{Floor, Form, Listed, Quasi};
use std::alloc::{AllocError, Global};

/// A sum of multiples of forms in which nothing is collected yet, so that no part of it refuses what fits in the end.
#[derive(Drop)]
pub(crate) struct Sum {
    constant: i128,
    terms: Vec<(u32, i128)>,
    floors: Vec<WideFloor>,
}

/// The sum of a wide number and a product.
fn plus_product(sum: i128, by: i64, number: i64) -> i128
    requires { unsigned_abs sum + unsigned_abs by * unsigned_abs number ≤ 2 ^ 126 }
    ensures { result ≡ sum +ℤ by *ℤ number }
{
    sum + product(by, number)
}

/// The terms, where no factor passes 2^62 in absolute value.
pub(crate) fn narrow_terms(
    alloc: Global,
    wide: &[(u32, i128)],
) -> Result<Listed<(u32, i64)>, FormFault>
    ensures same { IfOk result (λ terms. terms ≡ wide.now) }
    ensures fits { OnOk result (list_all (λ t. fits_entry t.1) wide.now ≡ true) }
    ensures limit { result ≡ Err FormFault.Limit → list_all (λ t. fits_entry t.1) wide.now ≡ false }
    ensures affine { result ≢ Err FormFault.NotAffine }
{
    let mut terms = Listed::new(alloc);
    for &(var, factor) in wide {
        terms.push((var, narrow(factor).ok_or(FormFault::Limit)?))?;
    }
    Ok(terms)
}

impl Sum {
    /// The empty sum.
    pub(crate) fn new(alloc: Global) -> Sum
        ensures { IsSum [] result.constant result.terms.items result.floors.items }
    {
        Sum {
            constant: 0,
            terms: Vec::new(alloc),
            floors: Vec::new(alloc),
        }
    }

    /// Adds the multiple of a form.
    pub(crate) fn add(&mut self, alloc: Global, by: i64, form: &Quasi) -> Result<(), AllocError>
        requires part { IsPart form.now }
        requires room { HasRoom (unsigned_abs by) self.old.constant self.old.terms.items self.old.floors.items }
        ensures { OnOk result ((ms : Multiples) → IsSum ms self.old.constant self.old.terms.items self.old.floors.items → IsSum (ms ++ (by, form.now) ∷ []) self.new.constant self.new.terms.items self.new.floors.items) }
    {
        self.constant = plus_product(self.constant, by, form.constant);
        add_scaled(form.terms.as_slice(), by, &mut self.terms)?;
        add_multiples(alloc, by, form.floors.as_slice(), &mut self.floors)
    }

    /// The sum as a form in which equal variables and floors that are alike are collected, however many floors it has.
    /// `Limit` comes exactly where another limit is passed.
    fn gathered(self, alloc: Global) -> Result<Form, FormFault>
        requires { HasRoom 0 self.constant self.terms.items self.floors.items }
        ensures form { IfOk result (λ f. f ≡ collected_form self.constant self.terms.items self.floors.items) }
        ensures small { OnOk result (IsForm (collected_form self.constant self.terms.items self.floors.items)) }
        ensures limit { result ≡ Err FormFault.Limit → IsForm (collected_form self.constant self.terms.items self.floors.items) → ⊥ }
        ensures affine { result ≢ Err FormFault.NotAffine }
    {
        let Sum {
            constant,
            terms,
            floors,
        } = self;
        let Some(constant) = narrow(constant) else {
            return Err(FormFault::Limit);
        };
        let terms = collected_terms(alloc, terms)?;
        let terms = narrow_terms(alloc, &terms)?;
        let floors = collected_floors(alloc, &floors)?;
        small(Quasi {
            constant,
            terms,
            floors,
        })
    }

    /// The same with at most 32 different floors. `Limit` comes exactly where it passes a limit.
    pub(crate) fn collected(self, alloc: Global) -> Result<Form, FormFault>
        requires { HasRoom 0 self.constant self.terms.items self.floors.items }
        ensures form { IfOk result (λ f. f ≡ collected_form self.constant self.terms.items self.floors.items) }
        ensures within { OnOk result (IsWithin (collected_form self.constant self.terms.items self.floors.items)) }
        ensures limit { result ≡ Err FormFault.Limit → IsWithin (collected_form self.constant self.terms.items self.floors.items) → ⊥ }
        ensures affine { result ≢ Err FormFault.NotAffine }
    {
        limited(alloc, self.gathered(alloc)?)
    }
}

/// The form `a + times*b`, collected as by `sum_of`, however many floors it has. `Limit` comes exactly where it passes
/// another limit: its sum or its constant 2^62, the factor of a floor 2^62 or all of them together 2^63.
pub fn small_sum_of(alloc: Global, a: &Form, times: i64, b: &Form) -> Result<Form, FormFault>
    ensures form { IfOk result (λ f. f ≡ sum_form a.now times b.now) }
    ensures small { OnOk result (IsForm (sum_form a.now times b.now)) }
    ensures limit { result ≡ Err FormFault.Limit → IsForm (sum_form a.now times b.now) → ⊥ }
    ensures affine { result ≢ Err FormFault.NotAffine }
{
    let mut sum = Sum::new(alloc);
    sum.add(alloc, 1, a.quasi())?;
    sum.add(alloc, times, b.quasi())?;
    sum.gathered(alloc)
}

/// The form `a + times*b`, in which equal variables and floors of the same form by the same divisor are collected, floors
/// in the order of first occurrence, and parts with factor 0 are gone. `Limit` comes exactly where it passes a limit: its
/// sum or its constant 2^62, its different floors 32, the factor of a floor 2^62 or all of them together 2^63.
pub fn sum_of(alloc: Global, a: &Form, times: i64, b: &Form) -> Result<Form, FormFault>
    ensures form { IfOk result (λ f. f ≡ sum_form a.now times b.now) }
    ensures within { OnOk result (IsWithin (sum_form a.now times b.now)) }
    ensures limit { result ≡ Err FormFault.Limit → IsWithin (sum_form a.now times b.now) → ⊥ }
    ensures affine { result ≢ Err FormFault.NotAffine }
    ensures value { IfOk result (λ f. (env : Env) → form_at env f ≡ form_at env a.now +ℤ times *ℤ form_at env b.now) }
{
    limited(alloc, small_sum_of(alloc, a, times, b)?)
}

/// The form `a // by`, however many floors it has. `Limit` comes exactly where it is not small.
fn small_floor_of(alloc: Global, a: &Form, by: i64) -> Result<Form, FormFault>
    requires { pos 1 ≤ℤ by }
    ensures form { IfOk result (λ f. f ≡ floor_form a.now by) }
    ensures limit { result ≡ Err FormFault.Limit → IsForm (floor_form a.now by) → ⊥ }
    ensures affine { result ≢ Err FormFault.NotAffine }
{
    let floor = Floor {
        times: 1,
        inner: a.quasi().copy(alloc)?,
        by,
    };
    small(Quasi {
        constant: 0,
        terms: Listed::new(alloc),
        floors: Listed::of_one(alloc, floor)?,
    })
}

/// The form `a // by`, rounded down, also where `by` is 1. `Limit` comes exactly where it has
/// more than 32 different floors.
pub fn floor_of(alloc: Global, a: &Form, by: i64) -> Result<Form, FormFault>
    requires { pos 1 ≤ℤ by }
    ensures form { IfOk result (λ f. f ≡ floor_form a.now by) }
    ensures within { OnOk result (IsWithin (floor_form a.now by)) }
    ensures limit { result ≡ Err FormFault.Limit → IsWithin (floor_form a.now by) → ⊥ }
    ensures affine { result ≢ Err FormFault.NotAffine }
    ensures value { IfOk result (λ f. (env : Env) → form_at env f ≡ int_div_euclid (form_at env a.now) by) }
{
    limited(alloc, small_floor_of(alloc, a, by)?)
}
