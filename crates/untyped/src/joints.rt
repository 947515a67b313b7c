//! What operators make of their operands.
ghost use Rattle.std.specs.Prelude.{◌≡◌};
ghost use Rattle.untyped.specs.Exprs.{folding_op, index_test, joint_of, op_of, relation_joint, shift_by, words_test};

use affine_rows::Form;
use expr_tree::{Expr, Op, Rel, Test};
use kernel_grammar::{Extreme, Folding, Infix, Relation};

/// What an operator makes of its operands as a test.
#[derive(Clone, Copy)]
pub(crate) enum Joint {
    Any,
    All,
    /// A comparison, of the second operand with the first where it is turned.
    Compared { rel: Rel, turned: bool },
    Nothing,
}

/// The operator on words, if it is one.
pub(crate) fn op_of(op: Infix) -> Option<Op>
    ensures { result ≡ op_of op }
{
    match op {
        Infix::Add => Some(Op::Add),
        Infix::Subtract => Some(Op::Sub),
        Infix::Multiply => Some(Op::Mul),
        Infix::BitOr => Some(Op::Or),
        Infix::BitXor => Some(Op::Xor),
        Infix::BitAnd => Some(Op::And),
        Infix::Extreme(Extreme::Min) => Some(Op::Min),
        Infix::Extreme(Extreme::Max) => Some(Op::Max),
        _ => None,
    }
}

pub(crate) fn folding_op(how: Folding) -> Op
    ensures { result ≡ folding_op how }
{
    match how {
        Folding::Sum => Op::Add,
        Folding::Product => Op::Mul,
        Folding::Extreme(Extreme::Min) => Op::Min,
        Folding::Extreme(Extreme::Max) => Op::Max,
    }
}

fn relation_joint(relation: Relation) -> Joint
    ensures { result ≡ relation_joint relation }
{
    let (rel, turned) = match relation {
        Relation::LessEqual => (Rel::LessEqual, false),
        Relation::Less => (Rel::Less, false),
        Relation::GreaterEqual => (Rel::LessEqual, true),
        Relation::Greater => (Rel::Less, true),
        Relation::Equal => (Rel::Equal, false),
    };
    Joint::Compared { rel, turned }
}

pub(crate) fn joint_of(op: Infix) -> Joint
    ensures { result ≡ joint_of op }
{
    match op {
        Infix::Or => Joint::Any,
        Infix::And => Joint::All,
        Infix::Compare(relation) => relation_joint(relation),
        Infix::NotEqual => Joint::Compared {
            rel: Rel::NotEqual,
            turned: false,
        },
        _ => Joint::Nothing,
    }
}

pub(crate) fn words_test(rel: Rel, turned: bool, a: Expr, b: Expr) -> Test
    ensures { result ≡ words_test rel turned a b }
{
    if turned {
        Test::Words(rel, b, a)
    } else {
        Test::Words(rel, a, b)
    }
}

pub(crate) fn index_test(rel: Rel, turned: bool, a: Form, b: Form) -> Test
    ensures { result ≡ index_test rel turned a b }
{
    if turned {
        Test::Index(rel, b, a)
    } else {
        Test::Index(rel, a, b)
    }
}

/// A count of bits; one that is too large stays so.
pub(crate) fn shift_by(by: u64) -> u32
    ensures { result ≡ shift_by by }
{
    by.min(4_294_967_295) as u32
}
