//! The value of a tree.
ghost use Rattle.std.specs.Prelude.{◌≡◌, ◌≤◌, true, length, map, take, Option, All, FitsSigned};
ghost use Rattle.std.specs.Int.{w64};
ghost use Rattle.wrap_words.specs.Words.{IsWord, number_of};
ghost use Rattle.affine_rows.specs.Forms.{form_at};
ghost use Rattle.expr_tree.specs.Value.{apply, compares, sense_of, sense_of_node, sense_of_test, first_of_two};

use crate::sight::Sight;
use crate::tree::{Cell, Expr, Node, Op, Rel, Test};
use affine_rows::{Form, Vars};
use wrap_words::{
    Kind, Word, add, bit_and, bit_not, bit_or, bit_xor, cast, greatest, least, mul, neg, number,
    of_number, shift_left, shift_right, sub,
};

/// The most subscripts of a read.
const MAX_SUBSCRIPTS: usize = 8;

/// An operator on two words.
fn applied(op: Op, kind: Kind, a: Word, b: Word) -> Word
    requires a { IsWord kind a }
    requires b { IsWord kind b }
    ensures value { result ≡ apply op kind a b }
    ensures word { IsWord kind result }
{
    match op {
        Op::Add => add(kind, a, b),
        Op::Mul => mul(kind, a, b),
        Op::Min => least(kind, a, b),
        Op::Max => greatest(kind, a, b),
        Op::Sub => sub(kind, a, b),
        Op::And => bit_and(kind, a, b),
        Op::Or => bit_or(kind, a, b),
        Op::Xor => bit_xor(kind, a, b),
    }
}

/// A comparison of two integers.
fn compared(rel: Rel, a: i128, b: i128) -> bool
    ensures { result ≡ compares rel a b }
{
    match rel {
        Rel::Less => a < b,
        Rel::LessEqual => a <= b,
        Rel::Equal => a == b,
        Rel::NotEqual => a != b,
    }
}

/// A comparison of two words of one kind by their numbers.
fn words_compared(rel: Rel, kind: Kind, a: Word, b: Word) -> bool
    requires a { IsWord kind a }
    requires b { IsWord kind b }
    ensures { result ≡ compares rel (number_of kind a) (number_of kind b) }
{
    compared(rel, number(kind, a), number(kind, b))
}

fn subscript<V: Vars>(form: &Form, vars: &V) -> i64
    requires { FitsSigned w64 (form_at (V.number vars.now) form.now) }
    ensures { result ≡ form_at (V.number vars.now) form.now }
{
    form.value(vars) as i64
}

/// The values of up to eight forms.
fn places<V: Vars>(forms: &[Form], vars: &V) -> [i64; MAX_SUBSCRIPTS]
    requires few { length forms.now ≤ 8 }
    requires fit { All (FitsSigned w64) (map (form_at (V.number vars.now)) forms.now) }
    ensures { take (length forms.now) result ≡ map (form_at (V.number vars.now)) forms.now }
{
    let mut place = [0i64; MAX_SUBSCRIPTS];
    for i in 0..forms.len() {
        place[i] = subscript(&forms[i], vars);
    }
    place
}

/// The word of a cell at the values of the forms.
fn read_word<S: Sight>(cell: &Cell, forms: &[Form], sight: &S) -> Word
    requires few { length forms.now ≤ 8 }
    requires has { (S.store sight.now).has cell.now (map (form_at (S.number sight.now)) forms.now) ≡ true }
    ensures value { result ≡ (S.store sight.now).word cell.now (map (form_at (S.number sight.now)) forms.now) }
    ensures word { IsWord ((S.store sight.now).kind cell.now) result }
{
    let place = places(forms, sight);
    sight.cell(cell, &place[..forms.len()])
}

impl Expr {
    /// The kind of the first read or cast outside inner tests.
    #[cycle(first)]
    fn first_kind<S: Sight>(&self, sight: &S) -> Option<Kind>
        ensures { result ≡ (sense_of (S.number sight.now) (S.store sight.now) self.now).first }
    {
        node_first(self.node(), sight)
    }

    /// The tree's value at the kind, for a tree that has one there: without uses of rules and reductions, typed at the
    /// kind, with at most 8 subscripts a read, and each read that is reached at a place that the sight has. Takes no
    /// memory.
    #[cycle(value)]
    pub fn value<S: Sight>(&self, kind: Kind, sight: &S) -> Word
        requires { (sense_of (S.number sight.now) (S.store sight.now) self.now).has kind ≡ true }
        ensures value { result ≡ (sense_of (S.number sight.now) (S.store sight.now) self.now).at kind }
        ensures word { IsWord kind result }
    {
        node_value(self.node(), kind, sight)
    }
}

#[cycle(first)]
fn node_first<S: Sight>(node: &Node, sight: &S) -> Option<Kind>
    ensures { result ≡ (sense_of_node (S.number sight.now) (S.store sight.now) node.now).first }
{
    match node {
        Node::Literal(_) | Node::Leaf(_) | Node::Call(_, _) => None,
        Node::Read(cell, _) => Some(sight.kind(cell)),
        Node::Neg(a) | Node::Inv(a) | Node::Shl(a, _) | Node::Shr(a, _) | Node::Fold(_, _, a) => {
            a.first_kind(sight)
        }
        Node::Bin(_, a, b) | Node::Pick(_, a, b) => match a.first_kind(sight) {
            Some(kind) => Some(kind),
            None => b.first_kind(sight),
        },
        Node::Cast(kind, _) => Some(*kind),
    }
}

#[cycle(value)]
fn node_value<S: Sight>(node: &Node, kind: Kind, sight: &S) -> Word
    requires { (sense_of_node (S.number sight.now) (S.store sight.now) node.now).has kind ≡ true }
    ensures value { result ≡ (sense_of_node (S.number sight.now) (S.store sight.now) node.now).at kind }
    ensures word { IsWord kind result }
{
    match node {
        Node::Literal(number) => of_number(kind, i128::from(*number)),
        Node::Leaf(form) => of_number(kind, form.value(sight)),
        Node::Read(cell, forms) => read_word(cell, forms.as_slice(), sight),
        Node::Call(_, _) => unreachable!(),
        Node::Neg(a) => neg(kind, a.value(kind, sight)),
        Node::Inv(a) => bit_not(kind, a.value(kind, sight)),
        Node::Shl(a, by) => shift_left(kind, a.value(kind, sight), *by),
        Node::Shr(a, by) => shift_right(kind, a.value(kind, sight), *by),
        Node::Bin(op, a, b) => applied(*op, kind, a.value(kind, sight), b.value(kind, sight)),
        Node::Pick(test, a, b) => {
            if test.holds(kind, sight) {
                a.value(kind, sight)
            } else {
                b.value(kind, sight)
            }
        }
        Node::Cast(to, a) => {
            let from = a.first_kind(sight).unwrap_or(*to);
            cast(from, *to, a.value(from, sight))
        }
        Node::Fold(_, _, _) => unreachable!(),
    }
}

impl Test {
    /// Whether the test holds, standing in a node of which the kind is asked. The conditions are those of `Expr::value`.
    /// Takes no memory.
    #[cycle(value)]
    pub fn holds<S: Sight>(&self, kind: Kind, sight: &S) -> bool
        requires { (sense_of_test (S.number sight.now) (S.store sight.now) self.now).has kind ≡ true }
        ensures { result ≡ (sense_of_test (S.number sight.now) (S.store sight.now) self.now).holds kind }
    {
        match self {
            Test::Words(rel, a, b) => {
                let first = match a.first_kind(sight) {
                    Some(first) => Some(first),
                    None => b.first_kind(sight),
                };
                let side = first.unwrap_or(kind);
                words_compared(*rel, side, a.value(side, sight), b.value(side, sight))
            }
            Test::Index(rel, a, b) => compared(*rel, a.value(sight), b.value(sight)),
            Test::All(p, q) => p.get().holds(kind, sight) && q.get().holds(kind, sight),
            Test::Any(p, q) => p.get().holds(kind, sight) || q.get().holds(kind, sight),
            Test::Not(p) => !p.get().holds(kind, sight),
        }
    }
}
