//! Rows and variables that are those of a system, so that queries can be asked of it.
ghost use Rattle.std.specs.Prelude.{◌≡◌, ◌≤◌, ◌^◌, nat_le, unsigned_abs, filter};
ghost use Rattle.std.specs.List.{list_all};
ghost use Rattle.elimination.specs.Stages.{IsSystem};
ghost use Rattle.kernel_rules.specs.Kept.{are_rising, are_two, differ_of, differ_where, is_below, is_row, is_term, kept_system, pair_over};

use affine_rows::{Listed, Row, System};
use set_query::{Differ, Pair};

/// The largest entry of a row.
const LARGEST: u64 = 1 << 62;

fn is_entry(number: i64) -> bool
    ensures { result ≡ nat_le (unsigned_abs number) (2 ^ 62) }
{
    number.unsigned_abs() <= LARGEST
}

/// Whether the term is of a variable below the width, and its factor an entry of a row and not 0.
fn is_term(width: u32, term: (u32, i64)) -> bool
    ensures { result ≡ is_term width term }
{
    term.0 < width && 0 < term.1.unsigned_abs() && is_entry(term.1)
}

fn is_below(var: u32, terms: &[(u32, i64)]) -> bool
    ensures { result ≡ is_below var terms.now }
{
    match terms.split_first() {
        None => true,
        Some((term, _)) => var < term.0,
    }
}

/// Whether each variable is below the next.
fn are_rising(terms: &[(u32, i64)]) -> bool
    ensures { result ≡ are_rising terms.now }
{
    match terms.split_first() {
        None => true,
        Some((term, others)) => is_below(term.0, others) && are_rising(others),
    }
}

fn are_terms(width: u32, terms: &[(u32, i64)]) -> bool
    ensures { result ≡ list_all (is_term width) terms.now }
{
    terms.iter().all(|term| is_term(width, *term))
}

/// Whether the row is one over variables below the width.
#[tactic(auto, unfolding(crate::specs::Kept::is_row))]
fn is_row(width: u32, row: &Row) -> bool
    ensures { result ≡ is_row width row.now }
{
    is_entry(row.constant)
        && are_terms(width, row.terms.as_slice())
        && are_rising(row.terms.as_slice())
}

/// Takes out the rows that are not over variables below the width.
fn keep_rows(width: u32, rows: &mut Vec<Row>)
    ensures { rows.new.items ≡ filter (is_row width) rows.old.items }
{
    rows.retain(|row| is_row(width, row));
}

/// The system without rows of variables that are not its own. Such rows come only of forms that mention variables which are
/// neither parameters nor inames of what is asked, so that those of a valid kernel all stay.
pub fn kept_system(system: System) -> System
    requires { system.width ≤ 128 }
    ensures kept { result ≡ kept_system system }
    ensures queried { IsSystem result }
{
    let width = system.width;
    let mut rows = system.rows.into_vec();
    keep_rows(width, &mut rows);
    System {
        width,
        rows: Listed::from_vec(rows),
    }
}

/// Whether both are variables below the width, and two.
fn are_two(width: u32, pair: (u32, u32)) -> bool
    ensures { result ≡ are_two width pair }
{
    pair.0 < width && pair.1 < width && pair.0 != pair.1
}

fn are_all_two(width: u32, pairs: &[(u32, u32)]) -> bool
    ensures { result ≡ list_all (are_two width) pairs.now }
{
    pairs.iter().all(|pair| are_two(width, *pair))
}

/// Which variables are to differ: these, if it is asked.
fn differ_where(asked: bool, pairs: Listed<(u32, u32)>) -> Differ
    ensures { result ≡ differ_where asked pairs }
{
    if asked {
        Differ::Among(pairs)
    } else {
        Differ::Free
    }
}

/// Which variables are to differ: these, if it is asked and they are those of the system.
fn differ_of(asked: bool, width: u32, pairs: Listed<(u32, u32)>) -> Differ
    ensures { result ≡ differ_of asked width pairs }
{
    let all = are_all_two(width, pairs.as_slice());
    differ_where(asked && all, pairs)
}

/// The system of two instances of which one of these variables of the first is to differ from its partner in the second, if
/// it is asked and all are variables of the system; else none is, which asks of more instances.
pub fn pair_over(system: System, pairs: Listed<(u32, u32)>, asked: bool) -> Pair
    ensures { result ≡ pair_over system pairs asked }
{
    let width = system.width;
    Pair {
        system,
        differ: differ_of(asked, width, pairs),
    }
}
