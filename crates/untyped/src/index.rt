//! Index expressions as they are collected.
ghost use Rattle.std.specs.Prelude.{◌≡◌, ◌≤ℤ◌, ◌≢◌, ◌&&◌, pos, Some, None, IfOk, IfSome};
ghost use Rattle.quasi_forms.specs.Affine.{times_form};
ghost use Rattle.quasi_forms.specs.Collected.{sum_form, floor_form};
ghost use Rattle.untyped.specs.Indexes.{one, collected, product, divisor, quotient, left, remainder, operated, negated};

use affine_rows::{Form, Listed};
use kernel_grammar::Infix;
use quasi_forms::{FormFault, floor_of, number_of, sum_of};
use std::alloc::{AllocError, Global};

/// An index expression, whether no variable is written in it, and whether a form that is collected on the way passes a
/// limit, in which case 1 stands for it.
#[derive(Drop)]
pub struct Collected {
    pub form: Form,
    pub constant: bool,
    pub over: bool,
}

/// What stands for an index expression that is refused.
pub(crate) fn one(alloc: Global) -> Form
    ensures { result ≡ one }
{
    Form::affine(alloc, 1, Listed::new(alloc))
}

/// The sum of a form and a multiple of another one. The only error is want of memory.
pub fn collected_sum(
    alloc: Global,
    constant: bool,
    a: &Form,
    times: i64,
    b: &Form,
) -> Result<Collected, AllocError>
    ensures { IfOk result (λ c. c ≡ collected constant (sum_form a.now times b.now)) }
{
    match sum_of(alloc, a, times, b) {
        Ok(form) => Ok(Collected {
            form,
            constant,
            over: false,
        }),
        Err(FormFault::Limit) => Ok(Collected {
            form: one(alloc),
            constant,
            over: true,
        }),
        Err(FormFault::NotAffine) => unreachable!(),
        Err(FormFault::OutOfMemory) => Err(AllocError),
    }
}

/// The quotient of a form, rounded down.
fn floored(alloc: Global, constant: bool, a: &Form, by: i64) -> Result<Collected, AllocError>
    requires { pos 1 ≤ℤ by }
    ensures { IfOk result (λ c. c ≡ collected constant (floor_form a.now by)) }
{
    match floor_of(alloc, a, by) {
        Ok(form) => Ok(Collected {
            form,
            constant,
            over: false,
        }),
        Err(FormFault::Limit) => Ok(Collected {
            form: one(alloc),
            constant,
            over: true,
        }),
        Err(FormFault::NotAffine) => unreachable!(),
        Err(FormFault::OutOfMemory) => Err(AllocError),
    }
}

/// The multiple of a form by the number of a form without variables.
fn multiple(alloc: Global, constant: bool, number: &Form, a: &Form) -> Result<Collected, AllocError>
    ensures { IfOk result (λ c. c ≡ collected constant (times_form number.now a.now)) }
{
    let zero = Form::affine(alloc, 0, Listed::new(alloc));
    collected_sum(alloc, constant, &zero, number_of(number), a)
}

fn product(
    alloc: Global,
    a: &Form,
    a_constant: bool,
    b: &Form,
    b_constant: bool,
) -> Result<Option<Collected>, AllocError>
    ensures { IfOk result (λ o. o ≡ product a.now a_constant b.now b_constant) }
{
    let constant = a_constant && b_constant;
    if a_constant {
        Ok(Some(multiple(alloc, constant, a, b)?))
    } else if b_constant {
        Ok(Some(multiple(alloc, constant, b, a)?))
    } else {
        Ok(None)
    }
}

/// The positive number that is written as an index expression, if it is one.
fn divisor(form: &Form, constant: bool) -> Option<i64>
    ensures same { result ≡ divisor form.now constant }
    ensures positive { IfSome result (λ number. pos 1 ≤ℤ number) }
{
    if !constant {
        return None;
    }
    let number = number_of(form);
    if number >= 1 { Some(number) } else { None }
}

/// A quotient by a positive number, rounded down.
fn quotient(
    alloc: Global,
    form: &Form,
    constant: bool,
    by: &Form,
    by_constant: bool,
) -> Result<Option<Collected>, AllocError>
    ensures { IfOk result (λ o. o ≡ quotient form.now constant (divisor by.now by_constant)) }
{
    match divisor(by, by_constant) {
        Some(by) => Ok(Some(floored(alloc, constant, form, by)?)),
        None => Ok(None),
    }
}

/// What is left of a form without a multiple of its quotient.
fn left(alloc: Global, form: &Form, quotient: &Collected, by: i64) -> Result<Collected, AllocError>
    requires { pos 1 ≤ℤ by }
    ensures { IfOk result (λ c. c ≡ left form.now quotient.now by) }
{
    let rest = collected_sum(alloc, quotient.constant, form, -by, &quotient.form)?;
    Ok(Collected {
        form: rest.form,
        constant: rest.constant,
        over: quotient.over || rest.over,
    })
}

/// What a quotient by a positive number leaves.
fn remainder(
    alloc: Global,
    form: &Form,
    constant: bool,
    by: &Form,
    by_constant: bool,
) -> Result<Option<Collected>, AllocError>
    ensures { IfOk result (λ o. o ≡ remainder form.now constant (divisor by.now by_constant)) }
{
    match divisor(by, by_constant) {
        Some(by) => {
            let quotient = floored(alloc, constant, form, by)?;
            Ok(Some(left(alloc, form, &quotient, by)?))
        }
        None => Ok(None),
    }
}

/// An operation on two index expressions, if it is one.
pub(crate) fn operated(
    alloc: Global,
    op: Infix,
    a: &Form,
    a_constant: bool,
    b: &Form,
    b_constant: bool,
) -> Result<Option<Collected>, AllocError>
    ensures { IfOk result (λ o. o ≡ operated op a.now a_constant b.now b_constant) }
{
    match op {
        Infix::Add => Ok(Some(collected_sum(alloc, a_constant && b_constant, a, 1, b)?)),
        Infix::Subtract => Ok(Some(collected_sum(alloc, a_constant && b_constant, a, -1, b)?)),
        Infix::Multiply => product(alloc, a, a_constant, b, b_constant),
        Infix::Divide => quotient(alloc, a, a_constant, b, b_constant),
        Infix::Remainder => remainder(alloc, a, a_constant, b, b_constant),
        _ => Ok(None),
    }
}

/// The form times -1.
pub(crate) fn negated(alloc: Global, form: &Form, constant: bool) -> Result<Collected, AllocError>
    ensures { IfOk result (λ c. c ≡ negated form.now constant) }
{
    let zero = Form::affine(alloc, 0, Listed::new(alloc));
    collected_sum(alloc, constant, &zero, -1, form)
}
