//! Values of expressions of a kernel that uses no rules.
use crate::points::{count_points, set_point};
use crate::rows::{both, rows_over};
use crate::scene::Scene;
use crate::world::{World, ZERO};
use affine_rows::Form;
use expr_tree::{Expr, Node, Op, Rel, Test};
use kernel_edits::{leading_kind, leading_of_test};
use run_words::words::{
    applied, compares, converted, inverted, negated, number_in, shifted_down, shifted_up,
};
use std::alloc::{AllocError, Global};
use wrap_words::{Kind, Word, of_number};

/// The greatest number of a kind.
fn greatest_word(kind: Kind) -> Word {
    Word {
        bits: match kind {
            Kind::I32 => 0x7fff_ffff,
            Kind::I64 => 0x7fff_ffff_ffff_ffff,
            Kind::U32 => 0xffff_ffff,
            Kind::U64 => 0xffff_ffff_ffff_ffff,
        },
    }
}

/// The least number of a kind.
fn least_word(kind: Kind) -> Word {
    Word {
        bits: match kind {
            Kind::I32 => 0x8000_0000,
            Kind::I64 => 0x8000_0000_0000_0000,
            Kind::U32 | Kind::U64 => 0,
        },
    }
}

/// The word from which a reduction begins.
fn neutral(op: Op, kind: Kind) -> Word {
    match op {
        Op::Mul => Word { bits: 1 },
        Op::Min => greatest_word(kind),
        Op::Max => least_word(kind),
        Op::Add | Op::Sub | Op::And | Op::Or | Op::Xor => ZERO,
    }
}

fn leaf(kind: Kind, form: &Form, world: &World) -> Word {
    of_number(kind, form.value(&world.numbers))
}

fn forms_compare(rel: Rel, a: &Form, b: &Form, world: &World) -> bool {
    compares(rel, a.value(&world.numbers), b.value(&world.numbers))
}

/// The value of an expression of which a kind is asked, where these inames and the parameters are in scope.
#[cycle(value)]
pub fn value(
    alloc: Global,
    expr: &Expr,
    kind: Kind,
    scope: &[u32],
    scene: &Scene,
    world: &mut World,
) -> Result<Word, AllocError> {
    match expr.node() {
        Node::Literal(number) => Ok(of_number(kind, i128::from(*number))),
        Node::Leaf(form) => Ok(leaf(kind, form, world)),
        Node::Read(cell, place) => Ok(world.read(*cell, place.as_slice())),
        Node::Call(_, _) => Ok(ZERO),
        Node::Neg(a) => {
            let word = value(alloc, a, kind, scope, scene, world)?;
            Ok(negated(kind, word))
        }
        Node::Inv(a) => {
            let word = value(alloc, a, kind, scope, scene, world)?;
            Ok(inverted(kind, word))
        }
        Node::Shl(a, by) => {
            let word = value(alloc, a, kind, scope, scene, world)?;
            Ok(shifted_up(kind, word, *by))
        }
        Node::Shr(a, by) => {
            let word = value(alloc, a, kind, scope, scene, world)?;
            Ok(shifted_down(word, *by))
        }
        Node::Bin(op, a, b) => {
            let x = value(alloc, a, kind, scope, scene, world)?;
            let y = value(alloc, b, kind, scope, scene, world)?;
            Ok(applied(*op, kind, x, y))
        }
        Node::Pick(test, a, b) => {
            if holds(alloc, test, kind, scope, scene, world)? {
                value(alloc, a, kind, scope, scene, world)
            } else {
                value(alloc, b, kind, scope, scene, world)
            }
        }
        Node::Cast(to, a) => {
            let from = leading_kind(&scene.kernel, &[], a).unwrap_or(*to);
            let word = value(alloc, a, from, scope, scene, world)?;
            Ok(converted(from, *to, word))
        }
        Node::Fold(op, inames, a) => {
            fold_value(alloc, *op, inames.as_slice(), a, kind, scope, scene, world)
        }
    }
}

/// The values at the points of a reduction combined, from the neutral value on.
#[cycle(value)]
fn fold_value(
    alloc: Global,
    op: Op,
    inames: &[u32],
    expr: &Expr,
    kind: Kind,
    scope: &[u32],
    scene: &Scene,
    world: &mut World,
) -> Result<Word, AllocError> {
    let rows = rows_over(alloc, &scene.kernel, scope, inames)?;
    let within = both(alloc, scope, inames)?;
    let mut sum = neutral(op, kind);
    for point in 0..count_points(&scene.spans, inames) {
        set_point(&scene.spans, &mut world.numbers, inames, point);
        if world.numbers.holds_all(rows.as_slice()) {
            let word = value(alloc, expr, kind, &within, scene, world)?;
            sum = applied(op, kind, sum, word);
        }
    }
    Ok(sum)
}

/// Whether a test holds, standing in a node of which a kind is asked.
#[cycle(value)]
pub fn holds(
    alloc: Global,
    test: &Test,
    kind: Kind,
    scope: &[u32],
    scene: &Scene,
    world: &mut World,
) -> Result<bool, AllocError> {
    match test {
        Test::Words(rel, a, b) => {
            let side = leading_of_test(&scene.kernel, &[], a, b, kind);
            let x = value(alloc, a, side, scope, scene, world)?;
            let y = value(alloc, b, side, scope, scene, world)?;
            Ok(compares(*rel, number_in(side, x), number_in(side, y)))
        }
        Test::Index(rel, a, b) => Ok(forms_compare(*rel, a, b, world)),
        Test::All(p, q) => {
            if holds(alloc, p.get(), kind, scope, scene, world)? {
                holds(alloc, q.get(), kind, scope, scene, world)
            } else {
                Ok(false)
            }
        }
        Test::Any(p, q) => {
            if holds(alloc, p.get(), kind, scope, scene, world)? {
                Ok(true)
            } else {
                holds(alloc, q.get(), kind, scope, scene, world)
            }
        }
        Test::Not(p) => {
            let held = holds(alloc, p.get(), kind, scope, scene, world)?;
            Ok(!held)
        }
    }
}
