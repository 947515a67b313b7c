//! What an item would do next by itself, by what it sees.
use crate::history::History;
use crate::plan::Task;
use crate::seen::{Sights, kind_of, seen_in, seen_in_test, write};
use crate::states::Touch;
use code_tree::{Bound, Flat, Stmt};
use expr_tree::{Cell, Expr};
use run_words::exact::{exact, exact_bound, exact_flat, exact_rows};
use wrap_words::{Kind, Word};

/// What an item does by a task: past the statement, into its body, into the body of a loop of which the variable has
/// this value, past an assignment that puts the word, or to wait.
#[derive(Clone, Copy)]
pub enum Move {
    Past,
    Into,
    Turn(i64),
    Put(Touch, Word),
    Wait,
}

/// Into the body, or past it.
fn branches(holds: bool) -> Move {
    if holds { Move::Into } else { Move::Past }
}

/// The test of a loop, with its variable's new value where that does not overflow.
fn tests(
    value: Option<i64>,
    upper: &Bound,
    sights: &Sights,
    history: &mut History,
) -> Option<Move> {
    let value = history.known(value)?;
    let most = history.known(exact_bound(upper, &sights.numbers))?;
    Some(if value <= most {
        Move::Turn(value)
    } else {
        Move::Past
    })
}

/// The value of a loop's variable, one more.
fn moved_on(task: &Task, sights: &Sights) -> Option<i64> {
    let value = sights.numbers.own.get(task.turn? as usize)?;
    exact(i128::from(*value) + 1)
}

/// An assignment, to index 0 of a cell without a length.
fn sets(
    cell: Cell,
    flat: Option<&Flat>,
    value: &Expr,
    sights: &Sights,
    history: &mut History,
) -> Option<Move> {
    let index = match flat {
        None => 0,
        Some(flat) => history.known(exact_flat(flat, &sights.numbers))?,
    };
    let touch = Touch { cell, index };
    let word = seen_in(value, kind_of(cell, sights), sights, history);
    write(touch, sights, history);
    Some(Move::Put(touch, word?))
}

/// The move of a task, none where the step meets a fault.
pub fn move_of(task: &Task, stmt: &Stmt, sights: &Sights, history: &mut History) -> Option<Move> {
    match stmt {
        Stmt::Loop { lower, upper, .. } => {
            let value = if task.is_again {
                moved_on(task, sights)
            } else {
                exact_bound(lower, &sights.numbers)
            };
            tests(value, upper, sights, history)
        }
        Stmt::When { rows, .. } => {
            let holds = exact_rows(rows.as_slice(), &sights.numbers);
            Some(branches(history.known(holds)?))
        }
        Stmt::Check { test, .. } => {
            let kind = match task.asked {
                Some(cell) => kind_of(cell, sights),
                None => Kind::I32,
            };
            Some(branches(seen_in_test(test, kind, sights, history)?))
        }
        Stmt::Set {
            target,
            flat,
            value,
        } => sets(*target, flat.as_ref(), value, sights, history),
        Stmt::Barrier => Some(Move::Wait),
    }
}
