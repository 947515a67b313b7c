//! The code of a kernel of the form.
ghost use Rattle.std.specs.Prelude.{◌≡◌, ℤ, pos, negsuc, true, false, [], ◌∷◌, ◌<◌, ◌≤◌, ◌^◌, unsigned_abs, IfOk};
ghost use Rattle.affine_rows.specs.Forms.{affine};
ghost use Rattle.expr_tree.specs.Depth.{depth_of_node};
ghost use Rattle.expr_tree.specs.Trees.{node_of};
ghost use Rattle.first_form.specs.Codes.{block_of, code_of, code_value, loop_subscript, no_axis, the_loop};

use crate::form::FirstForm;
use affine_rows::{Form, Listed};
use code_tree::{Block, Bound, Code, CodeArray, Flat, Stmt, Target};
use expr_tree::{Cell, Expr, ExprFault, Node, Op, Steps, make};
use std::alloc::{AllocError, Global};
use std::marker::Brand;
use std::sync::ledger::{Blank, Ledger};
use wrap_words::Kind;

/// The number of the parameter, and that of the loop's variable.
const PARAM: u32 = 0;

const INAME: u32 = 1;

/// The list of two elements.
fn list_of_two<T: Drop>(alloc: Global, first: T, second: T) -> Result<Listed<T>, AllocError>
    ensures { IfOk result (λ list. list ≡ first ∷ second ∷ []) }
{
    let mut list = Listed::of_one(alloc, first)?;
    list.push(second)?;
    Ok(list)
}

/// The form 0.
fn zero(alloc: Global) -> Form
    ensures { result ≡ affine (pos 0) [] }
{
    Form::affine(alloc, 0, Listed::new(alloc))
}

/// A variable and a constant.
fn shifted(alloc: Global, var: u32, by: i64) -> Result<Form, AllocError>
    requires { unsigned_abs by ≤ 2 ^ 62 }
    ensures { IfOk result (λ form. form ≡ affine by ((var, pos 1) ∷ [])) }
{
    Ok(Form::affine(alloc, by, Listed::of_one(alloc, (var, 1))?))
}

/// The loop variable as a subscript.
fn loop_subscript(alloc: Global) -> Result<Flat, AllocError>
    ensures { IfOk result (λ flat. flat ≡ loop_subscript) }
{
    Ok(Flat::Form(shifted(alloc, INAME, 0)?))
}

/// The tree of a node that is not too deep.
fn tree<L: Ledger>(alloc: Global, node: Node, steps: &mut Steps<L>) -> Result<Expr, AllocError>
    requires { depth_of_node node ≤ 64 }
    ensures { IfOk result (λ expr. node_of expr ≡ node) }
{
    match make(alloc, node, steps) {
        Ok(expr) => Ok(expr),
        Err(ExprFault::OutOfMemory) => Err(AllocError),
        Err(ExprFault::Depth | ExprFault::Limit) => unreachable!(),
    }
}

/// The factor times the read of the first array at the first subscript.
fn product<L: Ledger>(alloc: Global, factor: u32, blank: Blank) -> Result<Expr, AllocError>
    requires name { blank.name ≡ L.name }
    requires parts { blank.parts ≡ L.parts }
    requires some { 0 < blank.parts }
    ensures { IfOk result (λ expr. expr ≡ code_value factor) }
{
    let mut steps = Steps::<L>::open(blank);
    let place = Listed::of_one(alloc, zero(alloc))?;
    let number = tree(alloc, Node::Literal(u64::from(factor)), &mut steps)?;
    let read = tree(alloc, Node::Read(Cell::Array(0), place), &mut steps)?;
    tree(alloc, Node::Bin(Op::Mul, number, read), &mut steps)
}

/// The block of one statement, without cells.
fn block_of(alloc: Global, one: Stmt) -> Result<Block, AllocError>
    ensures { IfOk result (λ block. block ≡ block_of one) }
{
    Ok(Block {
        cells: Listed::new(alloc),
        children: Listed::of_one(alloc, one)?,
    })
}

/// One less than the parameter, the last value of the loop's variable.
fn last_place(alloc: Global) -> Result<Bound, AllocError>
    ensures { IfOk result (λ bound. bound ≡ Bound.Form (affine (negsuc 0) ((0, pos 1) ∷ []))) }
{
    Ok(Bound::Form(shifted(alloc, PARAM, -1)?))
}

/// The loop round the assignment.
fn whole_loop(alloc: Global, factor: u32) -> Result<Stmt, AllocError>
    ensures { IfOk result (λ one. one ≡ the_loop factor) }
{
    let assignment = Stmt::Set {
        target: Cell::Array(1),
        flat: Some(loop_subscript(alloc)?),
        value: product::<Brand>(alloc, factor, Blank::new(1))?,
    };
    Ok(Stmt::Loop {
        var: INAME,
        lower: Bound::Form(zero(alloc)),
        upper: last_place(alloc)?,
        body: block_of(alloc, assignment)?,
    })
}

fn no_axis(alloc: Global) -> Bound
    ensures { result ≡ no_axis }
{
    Bound::Form(zero(alloc))
}

/// The two arrays, of which the second is stored.
fn arrays(alloc: Global, form: &FirstForm) -> Result<Listed<CodeArray>, AllocError>
    ensures { IfOk result (λ list. list ≡ record { name = form.now.input; kind = Kind.I32; stored = false } ∷ record { name = form.now.output; kind = Kind.I32; stored = true } ∷ []) }
{
    let input = CodeArray {
        name: form.input.copy(alloc)?,
        kind: Kind::I32,
        stored: false,
    };
    let output = CodeArray {
        name: form.output.copy(alloc)?,
        kind: Kind::I32,
        stored: true,
    };
    list_of_two(alloc, input, output)
}

/// The code of the form: for each value of the iname from 0 to one less than the parameter, the element of the output
/// is the factor times the element of the input.
pub fn code_of(alloc: Global, form: &FirstForm) -> Result<Code, AllocError>
    ensures { IfOk result (λ code. code ≡ code_of form.now) }
{
    Ok(Code {
        target: Target::C,
        names: list_of_two(alloc, form.param.copy(alloc)?, form.iname.copy(alloc)?)?,
        params: Listed::of_one(alloc, PARAM)?,
        arrays: arrays(alloc, form)?,
        g0: no_axis(alloc),
        g1: no_axis(alloc),
        g2: no_axis(alloc),
        l0: 1,
        l1: 1,
        l2: 1,
        locals: Listed::new(alloc),
        flats: Listed::of_one(alloc, loop_subscript(alloc)?)?,
        body: block_of(alloc, whole_loop(alloc, form.factor)?)?,
    })
}
