//! Trees that are index expressions.
ghost use Rattle.std.specs.Prelude.{◌≡◌, ◌≢◌, ◌≤◌, ◌↔◌, [], pos, Some, None, IfOk, OnOk, Err};
ghost use Rattle.std.specs.List.{list_all};
ghost use Rattle.affine_rows.specs.declared.quasi.Floor.{out-Floor};
ghost use Rattle.quasi_forms.specs.Limits.{IsWithin};
ghost use Rattle.quasi_forms.specs.Affine.{Part, is_constant, number_of_form, times_form, number_part, collected_part, product_of_parts, operation_part, affine_part, constant_of, IsMade, IsMadeOf, IsFormOf, OfBoth, PassesLimit, CannotBeMade, Means};

use crate::fault::FormFault;
use crate::limits::limited;
use crate::sums::sum_of;
use affine_rows::{Floor, Form, Listed, Quasi, Vars};
use expr_tree::{Expr, Node, Op};
use std::alloc::Global;

/// The largest number that may be written in an index expression.
const LARGEST_NUMBER: u64 = 1_048_576;

/// Whether no variable occurs in the form.
#[cycle(constant)]
pub fn is_constant(form: &Quasi) -> bool
    ensures { result ≡ is_constant form.now }
{
    form.terms.is_empty() && are_constant(form.floors.as_slice())
}

#[cycle(constant)]
fn are_constant(floors: &[Floor]) -> bool
    ensures { result ≡ list_all (λ f. is_constant (out-Floor f).inner) floors.now }
{
    for floor in floors {
        if !is_constant(&floor.inner) {
            return false;
        }
    }
    true
}

/// Whether no variable is written in an operation, if it is an index expression.
fn joined(op: Op, first: bool, second: bool) -> Option<bool>
    ensures { (p q : Part) → first ≡ p.constant → second ≡ q.constant → result ≡ constant_of (operation_part op (Some p) (Some q)) }
{
    match op {
        Op::Add | Op::Sub => Some(first && second),
        Op::Mul => {
            if first || second {
                Some(first && second)
            } else {
                None
            }
        }
        _ => None,
    }
}

/// Whether no variable is written in the tree, if it is an index expression.
fn affinity(expr: &Expr) -> Option<bool>
    ensures { result ≡ constant_of (affine_part expr.now) }
{
    match expr.node() {
        Node::Literal(number) => {
            if *number <= LARGEST_NUMBER {
                Some(true)
            } else {
                None
            }
        }
        Node::Leaf(form) => Some(is_constant(form.quasi())),
        Node::Neg(a) => affinity(a),
        Node::Bin(op, a, b) => joined(*op, affinity(a)?, affinity(b)?),
        _ => None,
    }
}

/// Zero for each variable.
struct Zeros;

impl Vars for Zeros {
    ghost use Rattle.std.specs.Prelude.{pos};

    ghost number = { λ zeros v. pos 0 };

    fn var(&self, _var: u32) -> i64 {
        0
    }
}

/// The number of a form without variables; of another form its value where each variable is 0.
pub fn number_of(form: &Form) -> i64
    ensures { result ≡ number_of_form form.now }
{
    // The number is small, since the form is.
    let _small = form.quasi();
    form.value(&Zeros) as i64
}

/// The form of an index expression, and whether no variable is written in it.
#[derive(Drop)]
struct Made {
    form: Form,
    constant: bool,
}

/// A number.
fn number(alloc: Global, number: u64) -> Made
    requires { number ≤ 1048576 }
    ensures { IsMade (number_part (pos number)) result.constant result.form }
{
    Made {
        form: Form::affine(alloc, number as i64, Listed::new(alloc)),
        constant: true,
    }
}

/// A form.
fn leaf(alloc: Global, form: &Form) -> Result<Made, FormFault>
    ensures made { IfOk result (λ m. IsMade (collected_part (is_constant form.now) [] form.now) m.constant m.form) }
    ensures limit { result ≡ Err FormFault.Limit → IsWithin form.now → ⊥ }
    ensures affine { result ≢ Err FormFault.NotAffine }
{
    Ok(Made {
        form: limited(alloc, form.copy(alloc)?)?,
        constant: is_constant(form.quasi()),
    })
}

/// The multiple of a form by the number of a form without variables.
fn multiple(alloc: Global, number: &Form, a: &Form) -> Result<Form, FormFault>
    ensures form { IfOk result (λ f. f ≡ times_form number.now a.now) }
    ensures within { OnOk result (IsWithin (times_form number.now a.now)) }
    ensures limit { result ≡ Err FormFault.Limit → IsWithin (times_form number.now a.now) → ⊥ }
    ensures affine { result ≢ Err FormFault.NotAffine }
{
    let zero = Form::affine(alloc, 0, Listed::new(alloc));
    sum_of(alloc, &zero, number_of(number), a)
}

/// The product of two forms of which one has no variable.
fn product(alloc: Global, a: &Made, b: &Made) -> Result<Form, FormFault>
    ensures form { IfOk result (λ f. OfBoth a.now.constant a.now.form b.now.constant b.now.form (λ p q. IsFormOf (product_of_parts (Some p) (Some q)) f)) }
    ensures limit { result ≡ Err FormFault.Limit → OfBoth a.now.constant a.now.form b.now.constant b.now.form (λ p q. CannotBeMade (product_of_parts (Some p) (Some q))) }
    ensures affine { result ≡ Err FormFault.NotAffine → OfBoth a.now.constant a.now.form b.now.constant b.now.form (λ p q. product_of_parts (Some p) (Some q) ≡ None) }
{
    if a.constant {
        multiple(alloc, &a.form, &b.form)
    } else if b.constant {
        multiple(alloc, &b.form, &a.form)
    } else {
        Err(FormFault::NotAffine)
    }
}

/// The form of an operation.
fn operation(alloc: Global, op: Op, a: &Made, b: &Made) -> Result<Form, FormFault>
    ensures form { IfOk result (λ f. OfBoth a.now.constant a.now.form b.now.constant b.now.form (λ p q. IsFormOf (operation_part op (Some p) (Some q)) f)) }
    ensures limit { result ≡ Err FormFault.Limit → OfBoth a.now.constant a.now.form b.now.constant b.now.form (λ p q. CannotBeMade (operation_part op (Some p) (Some q))) }
    ensures affine { result ≡ Err FormFault.NotAffine → OfBoth a.now.constant a.now.form b.now.constant b.now.form (λ p q. operation_part op (Some p) (Some q) ≡ None) }
{
    match op {
        Op::Add => sum_of(alloc, &a.form, 1, &b.form),
        Op::Sub => sum_of(alloc, &a.form, -1, &b.form),
        Op::Mul => product(alloc, a, b),
        _ => Err(FormFault::NotAffine),
    }
}

/// An operation, which is a number where both its sides are.
fn joined_made(alloc: Global, op: Op, a: &Made, b: &Made) -> Result<Made, FormFault>
    ensures made { IfOk result (λ m. OfBoth a.now.constant a.now.form b.now.constant b.now.form (λ p q. IsMadeOf (operation_part op (Some p) (Some q)) m.constant m.form)) }
    ensures limit { result ≡ Err FormFault.Limit → OfBoth a.now.constant a.now.form b.now.constant b.now.form (λ p q. CannotBeMade (operation_part op (Some p) (Some q))) }
    ensures affine { result ≡ Err FormFault.NotAffine → OfBoth a.now.constant a.now.form b.now.constant b.now.form (λ p q. operation_part op (Some p) (Some q) ≡ None) }
{
    Ok(Made {
        form: operation(alloc, op, a, b)?,
        constant: a.constant && b.constant,
    })
}

/// The tree as an index expression.
fn made_of(alloc: Global, expr: &Expr) -> Result<Made, FormFault>
    ensures made { IfOk result (λ m. IsMadeOf (affine_part expr.now) m.constant m.form) }
    ensures limit { result ≡ Err FormFault.Limit → CannotBeMade (affine_part expr.now) }
    ensures affine { result ≡ Err FormFault.NotAffine → affine_part expr.now ≡ None }
{
    match expr.node() {
        Node::Literal(value) => {
            if *value > LARGEST_NUMBER {
                return Err(FormFault::NotAffine);
            }
            Ok(number(alloc, *value))
        }
        Node::Leaf(form) => leaf(alloc, form),
        Node::Neg(a) => joined_made(alloc, Op::Sub, &number(alloc, 0), &made_of(alloc, a)?),
        Node::Bin(op, a, b) => { joined_made(alloc, *op, &made_of(alloc, a)?, &made_of(alloc, b)?) }
        _ => Err(FormFault::NotAffine),
    }
}

/// The form of a tree that is an index expression: of numbers up to 1,048,576 and forms by sums, differences and products
/// with a number, which is any index expression in which no variable is written. Its value is the tree's in every scene and
/// at each kind. `NotAffine` comes exactly where the tree is none, and `Limit` exactly where it is one and a form that is
/// collected on the way, as by `sum_of`, passes a limit.
pub fn quasi_of(alloc: Global, expr: &Expr) -> Result<Form, FormFault>
    ensures form { IfOk result (IsFormOf (affine_part expr.now)) }
    ensures limit { result ≡ Err FormFault.Limit → PassesLimit (affine_part expr.now) }
    ensures affine { (result ≡ Err FormFault.NotAffine) ↔ (affine_part expr.now ≡ None) }
    ensures value { IfOk result (Means expr.now) }
{
    if affinity(expr).is_none() {
        return Err(FormFault::NotAffine);
    }
    Ok(made_of(alloc, expr)?.form)
}
