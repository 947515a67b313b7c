//! The step count, read off a code and its parameters. All numbers of it stop at the last one of 64 bits.
use crate::launch::{launch_of, param_ranges};
use crate::ranges::{Range, bound_range, near, only};
use code_tree::{Block, Bound, Code, Stmt, Target};
use std::alloc::{AllocError, Global};

/// Past this number no count is told apart from a greater one.
const MAX_COUNT: u64 = 10_000_001;

/// What the count asks of a body: assignments, all statements that are no loops, loops, and the product of turns plus
/// one over its loops.
#[derive(Clone, Copy)]
struct Tally {
    sets: u64,
    plain: u64,
    loops: u64,
    turns: u64,
}

/// How many numbers there are from the least to the greatest.
fn span(range: Range) -> u64 {
    let span = i128::from(range.high) - i128::from(range.low) + 1;
    span.clamp(0, i128::from(u64::MAX)) as u64
}

/// Counts a loop, and gives its variable the range that it has inside: the least value alone where it is empty.
fn tally_loop(tally: &mut Tally, ranges: &mut [Range], var: u32, lower: &Bound, upper: &Bound) {
    let low = bound_range(lower, ranges).low;
    let high = bound_range(upper, ranges).high;
    tally.loops = tally.loops.saturating_add(1);
    tally.turns = tally
        .turns
        .saturating_mul(span(Range { low, high }).saturating_add(1));
    if (var as usize) < ranges.len() {
        ranges[var as usize] = Range {
            low,
            high: low.max(high),
        };
    }
}

#[cycle(tally)]
fn tally_stmt(tally: &mut Tally, ranges: &mut [Range], stmt: &Stmt) {
    match stmt {
        Stmt::Loop {
            var,
            lower,
            upper,
            body,
        } => {
            tally_loop(tally, ranges, *var, lower, upper);
            tally_block(tally, ranges, body);
        }
        Stmt::When { body, .. } | Stmt::Check { body, .. } => {
            tally.plain = tally.plain.saturating_add(1);
            tally_block(tally, ranges, body);
        }
        Stmt::Set { .. } => {
            tally.plain = tally.plain.saturating_add(1);
            tally.sets = tally.sets.saturating_add(1);
        }
        Stmt::Barrier => tally.plain = tally.plain.saturating_add(1),
    }
}

#[cycle(tally)]
fn tally_block(tally: &mut Tally, ranges: &mut [Range], block: &Block) {
    for child in block.children.as_slice() {
        tally_stmt(tally, ranges, child);
    }
}

/// How many steps so many items may make. A quarter of the plain statements is rounded up.
fn count_of(items: u64, tally: Tally) -> u64 {
    let quarter = tally.plain / 4 + u64::from(tally.plain % 4 > 0);
    let each = tally.sets.max(quarter).saturating_add(tally.loops);
    let turns = each.saturating_mul(4).saturating_mul(tally.turns);
    items.saturating_mul(turns.saturating_add(1))
}

/// How many steps a run of the code may have, and 10,000,001 where they are more.
pub fn step_count(alloc: Global, code: &Code, params: &[i64]) -> Result<u64, AllocError> {
    let mut ranges = param_ranges(alloc, params)?;
    let launch = launch_of(code, ranges.as_slice());
    if code.target == Target::OpenCl {
        for axes in [launch.group_axes, launch.item_axes] {
            for axis in axes {
                let high = near(i128::from(axis) - 1);
                ranges.push(Range { low: 0, high })?;
            }
        }
    }
    for _ in ranges.len()..code.names.len() {
        ranges.push(only(0))?;
    }
    let mut tally = Tally {
        sets: 0,
        plain: 0,
        loops: 0,
        turns: 1,
    };
    tally_block(&mut tally, ranges.as_mut_slice(), &code.body);
    Ok(count_of(launch.items(), tally).min(MAX_COUNT))
}
