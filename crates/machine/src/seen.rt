//! What is seen on the way to an expression's value: overflow, the reads that are reached, and the value where there is
//! one. A part that is not reached is not looked at.
use crate::clashes::Visit;
use crate::history::History;
use crate::states::{Store, Touch};
use affine_rows::Form;
use code_tree::Code;
use expr_tree::{Cell, Expr, Node, Test};
use run_words::exact::{Numbers, exact_flat, exact_form};
use run_words::words::{
    applied, compares, converted, inverted, negated, number_in, shifted_down, shifted_up,
};
use wrap_words::{Kind, Word, of_number};

/// What an item sees in one step: the code, the numbers of variables, and the words of arrays and cells.
#[derive(Clone, Copy)]
pub struct Sights<'a> {
    pub code: &'a Code,
    pub store: &'a Store,
    pub numbers: Numbers<'a>,
    pub visit: Visit,
}

/// The kind of an array or a cell.
pub fn kind_of(cell: Cell, sights: &Sights) -> Kind {
    let kind = match cell {
        Cell::Array(place) => match sights.code.arrays.get(place as usize) {
            Some(array) => Some(array.kind),
            None => None,
        },
        Cell::Temp(place) => match sights.store.setup.plan.cells.get(place as usize) {
            Some(cell) => Some(cell.0),
            None => None,
        },
    };
    kind.unwrap_or(Kind::I32)
}

/// The index of a read: 0 for a cell without a length, else the subscript of the code that the form's constant counts.
fn read_index(place: &[Form], sights: &Sights) -> Option<i64> {
    match place.first() {
        None => Some(0),
        Some(form) => {
            let entry = form.quasi().constant.unsigned_abs();
            exact_flat(sights.code.flats.get(entry as usize)?, &sights.numbers)
        }
    }
}

/// A read.
fn read(cell: Cell, place: &[Form], sights: &Sights, history: &mut History) -> Option<Word> {
    let index = history.known(read_index(place, sights))?;
    let touch = Touch { cell, index };
    let word = sights.store.word_in(sights.visit, touch);
    if word.is_none() {
        history.misses(sights.store, touch);
    }
    history.access(sights.store, sights.visit, touch, false);
    word
}

/// A write, before its word is put.
pub fn write(touch: Touch, sights: &Sights, history: &mut History) {
    if sights.store.is_outside(touch) {
        history.misses(sights.store, touch);
    }
    history.access(sights.store, sights.visit, touch, true);
}

/// A form's value. Overflow is found.
fn form_seen(form: &Form, sights: &Sights, history: &mut History) -> Option<i128> {
    let number = history.known(exact_form(form, &sights.numbers))?;
    Some(i128::from(number))
}

/// The kind of the first read or cast outside inner tests.
#[cycle(first)]
fn first_kind(expr: &Expr, sights: &Sights) -> Option<Kind> {
    node_first(expr.node(), sights)
}

#[cycle(first)]
fn node_first(node: &Node, sights: &Sights) -> Option<Kind> {
    match node {
        Node::Literal(_) | Node::Leaf(_) | Node::Call(_, _) => None,
        Node::Read(cell, _) => Some(kind_of(*cell, sights)),
        Node::Neg(a) | Node::Inv(a) | Node::Shl(a, _) | Node::Shr(a, _) | Node::Fold(_, _, a) => {
            first_kind(a, sights)
        }
        Node::Bin(_, a, b) | Node::Pick(_, a, b) => match first_kind(a, sights) {
            Some(kind) => Some(kind),
            None => first_kind(b, sights),
        },
        Node::Cast(kind, _) => Some(*kind),
    }
}

/// The kind of the two sides of a comparison of words.
fn side_kind(a: &Expr, b: &Expr, kind: Kind, sights: &Sights) -> Kind {
    match first_kind(a, sights) {
        Some(first) => first,
        None => first_kind(b, sights).unwrap_or(kind),
    }
}

/// What is seen on the way to the value of an expression of which a kind is asked.
#[cycle(seen)]
pub fn seen_in(expr: &Expr, kind: Kind, sights: &Sights, history: &mut History) -> Option<Word> {
    node_seen(expr.node(), kind, sights, history)
}

/// No code has uses of rules or reductions; to meet one counts as overflow.
#[cycle(seen)]
fn node_seen(node: &Node, kind: Kind, sights: &Sights, history: &mut History) -> Option<Word> {
    match node {
        Node::Literal(number) => Some(of_number(kind, i128::from(*number))),
        Node::Leaf(form) => Some(of_number(kind, form_seen(form, sights, history)?)),
        Node::Read(cell, place) => read(*cell, place.as_slice(), sights, history),
        Node::Call(_, _) | Node::Fold(_, _, _) => history.known(None),
        Node::Neg(a) => Some(negated(kind, seen_in(a, kind, sights, history)?)),
        Node::Inv(a) => Some(inverted(kind, seen_in(a, kind, sights, history)?)),
        Node::Shl(a, by) => Some(shifted_up(kind, seen_in(a, kind, sights, history)?, *by)),
        Node::Shr(a, by) => Some(shifted_down(seen_in(a, kind, sights, history)?, *by)),
        Node::Bin(op, a, b) => {
            let first = seen_in(a, kind, sights, history);
            let second = seen_in(b, kind, sights, history);
            Some(applied(*op, kind, first?, second?))
        }
        Node::Pick(test, a, b) => {
            if seen_in_test(test, kind, sights, history)? {
                seen_in(a, kind, sights, history)
            } else {
                seen_in(b, kind, sights, history)
            }
        }
        Node::Cast(to, a) => {
            let from = first_kind(a, sights).unwrap_or(*to);
            Some(converted(from, *to, seen_in(a, from, sights, history)?))
        }
    }
}

/// What is seen on the way to the answer of a test. The second part is looked at only where it counts.
#[cycle(seen)]
pub fn seen_in_test(
    test: &Test,
    kind: Kind,
    sights: &Sights,
    history: &mut History,
) -> Option<bool> {
    match test {
        Test::Words(rel, a, b) => {
            let side = side_kind(a, b, kind, sights);
            let first = seen_in(a, side, sights, history);
            let second = seen_in(b, side, sights, history);
            Some(compares(*rel, number_in(side, first?), number_in(side, second?)))
        }
        Test::Index(rel, a, b) => {
            let first = form_seen(a, sights, history);
            let second = form_seen(b, sights, history);
            Some(compares(*rel, first?, second?))
        }
        Test::All(p, q) => {
            if seen_in_test(p.get(), kind, sights, history)? {
                seen_in_test(q.get(), kind, sights, history)
            } else {
                Some(false)
            }
        }
        Test::Any(p, q) => {
            if seen_in_test(p.get(), kind, sights, history)? {
                Some(true)
            } else {
                seen_in_test(q.get(), kind, sights, history)
            }
        }
        Test::Not(p) => Some(!seen_in_test(p.get(), kind, sights, history)?),
    }
}
