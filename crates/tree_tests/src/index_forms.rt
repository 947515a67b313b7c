ghost use Rattle.std.specs.Prelude.{◌≡◌, ◌<◌, ◌≤◌, ◌^◌, ◌∷◌, [], pos, IfOk, unsigned_abs};
ghost use Rattle.affine_rows.specs.Forms.{affine};

use affine_rows::{Form, Listed, Vars};
use expr_tree::{Expr, ExprFault, Node, Op, Steps, make};
use quasi_forms::{FormFault, floor_of, put_all, put_in, quasi_of, rows_of, sum_of};
use std::alloc::{AllocError, Global};
use std::marker::Brand;
use std::sync::ledger::{Blank, Ledger};
use std::test::Fail;

/// A number for variable 0, and one for all others.
struct Numbers {
    first: i64,
    other: i64,
}

impl Vars for Numbers {
    ghost use Rattle.std.specs.Prelude.{nat_eq, if◌then◌else◌};

    ghost number = { λ n v. if nat_eq v 0 then n.first else n.other };

    fn var(&self, var: u32) -> i64 {
        if var == 0 { self.first } else { self.other }
    }
}

const SIGHT: Numbers = Numbers {
    first: -7,
    other: 10,
};

fn number(alloc: Global, number: i64) -> Form
    requires { unsigned_abs number ≤ 2 ^ 62 }
{
    Form::affine(alloc, number, Listed::new(alloc))
}

fn variable(alloc: Global, var: u32) -> Result<Form, AllocError>
    ensures { IfOk result (λ f. f ≡ affine (pos 0) ((var, pos 1) ∷ [])) }
{
    Ok(Form::affine(alloc, 0, Listed::of_one(alloc, (var, 1))?))
}

/// Whether the first form passes no limit, and the second, which is one more, passes one.
fn ends(first: Result<Form, FormFault>, second: Result<Form, FormFault>) -> bool {
    matches!(first, Ok(_)) && matches!(second, Err(FormFault::Limit))
}

#[test]
fn equal_floors_are_gone(rt: HostRuntime) -> Result<(), Fail> {
    let alloc = rt.alloc();
    let half = floor_of(alloc, &variable(alloc, 0)?, 2)?;
    let none = sum_of(alloc, &half, -1, &half)?;
    assert_eq!(rt; none.quasi().floors.len(), 0);
    Ok(())
}

#[test]
fn a_rest_is_a_difference(rt: HostRuntime) -> Result<(), Fail> {
    let alloc = rt.alloc();
    let x = variable(alloc, 0)?;
    let third = floor_of(alloc, &x, 3)?;
    let rest = sum_of(alloc, &x, -3, &third)?;
    assert_eq!(rt; third.value(&SIGHT), -3);
    assert_eq!(rt; rest.value(&SIGHT), 2);
    Ok(())
}

#[test]
fn a_sum_and_a_constant_are_at_most_2_62(rt: HostRuntime) -> Result<(), Fail> {
    let alloc = rt.alloc();
    let (zero, one, x, y) = (
        number(alloc, 0),
        number(alloc, 1),
        variable(alloc, 0)?,
        variable(alloc, 1)?,
    );
    let most = sum_of(alloc, &zero, 1 << 62, &one)?;
    assert!(rt; ends(sum_of(alloc, &most, 0, &one), sum_of(alloc, &most, 1, &one)));
    let widest = sum_of(alloc, &zero, -(1 << 62), &x)?;
    assert!(rt; ends(sum_of(alloc, &widest, 0, &y), sum_of(alloc, &widest, 1, &y)));
    Ok(())
}

#[test]
fn factors_of_floors_are_at_most_2_62_and_2_63_together(rt: HostRuntime) -> Result<(), Fail> {
    let alloc = rt.alloc();
    let zero = number(alloc, 0);
    let (half, third, fourth) = (
        floor_of(alloc, &zero, 2)?,
        floor_of(alloc, &zero, 3)?,
        floor_of(alloc, &zero, 4)?,
    );
    let most = sum_of(alloc, &zero, 1 << 62, &half)?;
    assert!(rt;
        ends(
            sum_of(alloc, &most, 1, &third),
            sum_of(alloc, &most, 1, &half)
        )
    );
    let both = sum_of(alloc, &most, -(1 << 62), &third)?;
    assert!(rt;
        ends(
            sum_of(alloc, &both, 0, &fourth),
            sum_of(alloc, &both, 1, &fourth)
        )
    );
    Ok(())
}

/// The sum of `x//1`, `x//2` and so on, by each divisor below the last.
fn floors_below(alloc: Global, last: u8) -> Result<Form, FormFault> {
    let x = variable(alloc, 0)?;
    let mut sum = number(alloc, 0);
    for by in 1..last {
        sum = sum_of(alloc, &sum, 1, &floor_of(alloc, &x, i64::from(by))?)?;
    }
    Ok(sum)
}

#[test]
fn there_are_at_most_32_floors(rt: HostRuntime) -> Result<(), Fail> {
    let alloc = rt.alloc();
    assert!(rt; ends(floors_below(alloc, 33), floors_below(alloc, 34)));
    Ok(())
}

#[test]
fn a_number_is_put_under_a_floor(rt: HostRuntime) -> Result<(), Fail> {
    let alloc = rt.alloc();
    let half = floor_of(alloc, &variable(alloc, 0)?, 2)?;
    let put = put_in(alloc, &half, 0, &number(alloc, -7))?;
    assert_eq!(rt; put.quasi().floors.len(), 1);
    assert_eq!(rt; put.quasi().terms.len(), 0);
    assert_eq!(rt; put.value(&SIGHT), -4);
    Ok(())
}

#[test]
fn two_variables_change_places(rt: HostRuntime) -> Result<(), Fail> {
    let alloc = rt.alloc();
    let (x, y) = (variable(alloc, 0)?, variable(alloc, 1)?);
    let a = sum_of(alloc, &x, 100, &floor_of(alloc, &y, 3)?)?;
    let put = put_all(
        alloc,
        &a,
        &[0, 1],
        &[variable(alloc, 1)?, variable(alloc, 0)?],
    )?;
    assert_eq!(rt; a.value(&SIGHT), 293);
    assert_eq!(rt; put.value(&SIGHT), -290);
    Ok(())
}

#[test]
fn what_is_put_for_no_variable_of_the_form_changes_nothing(rt: HostRuntime) -> Result<(), Fail> {
    let alloc = rt.alloc();
    let x = variable(alloc, 0)?;
    let (half, third) = (floor_of(alloc, &x, 2)?, floor_of(alloc, &x, 3)?);
    let both = sum_of(alloc, &half, 1, &third)?;
    let put = put_in(alloc, &both, 1, &third)?;
    assert_eq!(rt; put.quasi().floors.get(0).map(|floor| floor.by), Some(2));
    Ok(())
}

#[test]
fn each_floor_has_two_rows(rt: HostRuntime) -> Result<(), Fail> {
    let alloc = rt.alloc();
    let half = floor_of(alloc, &variable(alloc, 0)?, 2)?;
    let sixth = floor_of(alloc, &half, 3)?;
    let flat = rows_of(alloc, &sixth, 1)?;
    assert_eq!(rt; flat.width, 3);
    assert_eq!(rt; flat.defining.len(), 4);
    Ok(())
}

/// Trees over the variable `i`.
#[derive(Drop)]
struct Trees {
    doubled: Expr,
    by_sum: Expr,
    square: Expr,
    largest: Expr,
    larger: Expr,
    past: Expr,
}

fn leaf<L: Ledger>(alloc: Global, form: Form, steps: &mut Steps<L>) -> Result<Expr, ExprFault> {
    make(alloc, Node::Leaf(form), steps)
}

fn literal<L: Ledger>(alloc: Global, number: u64, steps: &mut Steps<L>) -> Result<Expr, ExprFault> {
    make(alloc, Node::Literal(number), steps)
}

/// The tree times `i`.
fn times_i<L: Ledger>(alloc: Global, tree: Expr, steps: &mut Steps<L>) -> Result<Expr, ExprFault> {
    let i = leaf(alloc, variable(alloc, 0)?, steps)?;
    make(alloc, Node::Bin(Op::Mul, tree, i), steps)
}

/// The sum of two trees.
fn plus<L: Ledger>(
    alloc: Global,
    first: Expr,
    second: Expr,
    steps: &mut Steps<L>,
) -> Result<Expr, ExprFault> {
    make(alloc, Node::Bin(Op::Add, first, second), steps)
}

fn sample_trees<L: Ledger>(alloc: Global, blank: Blank) -> Result<Trees, ExprFault>
    requires name { blank.name ≡ L.name }
    requires parts { blank.parts ≡ L.parts }
    requires some { 0 < blank.parts }
{
    let mut steps = Steps::<L>::open(blank);
    let two = literal(alloc, 2, &mut steps)?;
    let three = literal(alloc, 3, &mut steps)?;
    let five = plus(alloc, two.copy()?, three, &mut steps)?;
    let i = leaf(alloc, variable(alloc, 0)?, &mut steps)?;
    let most = leaf(alloc, number(alloc, 1 << 62), &mut steps)?;
    Ok(Trees {
        doubled: times_i(alloc, two.copy()?, &mut steps)?,
        by_sum: times_i(alloc, five, &mut steps)?,
        square: times_i(alloc, i, &mut steps)?,
        largest: literal(alloc, 1_048_576, &mut steps)?,
        larger: literal(alloc, 1_048_577, &mut steps)?,
        past: plus(alloc, most, two, &mut steps)?,
    })
}

#[test]
fn trees_are_index_expressions(rt: HostRuntime) -> Result<(), Fail> {
    let alloc = rt.alloc();
    let trees = sample_trees::<Brand>(alloc, Blank::new(1))?;
    assert_eq!(rt; quasi_of(alloc, &trees.doubled)?.value(&SIGHT), -14);
    assert_eq!(rt; quasi_of(alloc, &trees.by_sum)?.value(&SIGHT), -35);
    assert_eq!(rt; quasi_of(alloc, &trees.largest)?.value(&SIGHT), 1_048_576);
    assert!(rt; matches!(quasi_of(alloc, &trees.square), Err(FormFault::NotAffine)));
    assert!(rt; matches!(quasi_of(alloc, &trees.larger), Err(FormFault::NotAffine)));
    assert!(rt; matches!(quasi_of(alloc, &trees.past), Err(FormFault::Limit)));
    Ok(())
}
