//! Expressions in postfix order.
ghost use Rattle.std.specs.Prelude.{◌≡◌, [], ◌∷◌, ◌++◌, IfOk, OnOk};
ghost use Rattle.untyped.specs.Depths.{IsMeasured};
ghost use Rattle.untyped.specs.Readings.{top, under, before_last, last_parts, place_reading, use_reading, step_read, steps_read, untyped_of};

use crate::faults::Faults;
use crate::operators::{
    cast_reading, choose_reading, extreme_reading, fold_reading, inames_in, infix_reading,
    no_iname_in, prefix_reading, shift_left_reading, shift_right_reading,
};
use crate::places::{place_reading, use_reading};
use crate::reading::{Reading, name_reading, number_reading, refused_reading};
use crate::scope::{Role, Scope};
use affine_rows::Name;
use kernel_grammar::Step;
use std::alloc::{AllocError, Global};

/// The last part that is read, taken off.
fn take_top(alloc: Global, parts: &mut Vec<Reading>) -> Reading
    ensures top { result ≡ top parts.old.items }
    ensures under { parts.new.items ≡ under parts.old.items }
{
    match parts.pop() {
        Some(part) => part,
        None => refused_reading(alloc, Faults::none()),
    }
}

/// A name at the last parts as subscripts, which are taken off.
fn take_place(
    alloc: Global,
    role: Role,
    name: &Name,
    count: u32,
    parts: &mut Vec<Reading>,
) -> Result<Reading, AllocError>
    ensures reading { IfOk result (λ r. r ≡ place_reading role name.now count (last_parts count parts.old.items)) }
    ensures rest { OnOk result (parts.new.items ≡ before_last count parts.old.items) }
{
    let from = parts.len().saturating_sub(count as usize);
    let reading = place_reading(alloc, role, name, count, &parts[from..])?;
    parts.truncate(from);
    Ok(reading)
}

/// A name at the last parts as arguments, which are taken off.
fn take_use(
    alloc: Global,
    role: Role,
    name: &Name,
    count: u32,
    parts: &mut Vec<Reading>,
) -> Result<Reading, AllocError>
    ensures reading { IfOk result (λ r. r ≡ use_reading role name.now (last_parts count parts.old.items)) }
    ensures rest { OnOk result (parts.new.items ≡ before_last count parts.old.items) }
{
    let from = parts.len().saturating_sub(count as usize);
    let reading = use_reading(alloc, role, name, &parts[from..])?;
    parts.truncate(from);
    Ok(reading)
}

/// What one step makes of the parts that it takes off.
fn read_step<S: Scope>(
    alloc: Global,
    scope: &S,
    step: &Step,
    parts: &mut Vec<Reading>,
) -> Result<Reading, AllocError>
    ensures { IfOk result (λ r. parts.new.items ++ r ∷ [] ≡ step_read (S.roles scope.now) step.now parts.old.items) }
{
    match step {
        Step::Number(number) => number_reading(alloc, *number),
        Step::Name(name) => name_reading(alloc, scope.role(name), name),
        Step::Index { name, places } => {
            take_place(alloc, scope.role(name), name, *places, parts)
        }
        Step::Call { name, arguments } => {
            take_use(alloc, scope.role(name), name, *arguments, parts)
        }
        Step::Prefix(op) => prefix_reading(alloc, *op, take_top(alloc, parts)),
        Step::Infix(op) => {
            let b = take_top(alloc, parts);
            infix_reading(alloc, *op, take_top(alloc, parts), b)
        }
        Step::ShiftLeft(by) => shift_left_reading(alloc, *by, take_top(alloc, parts)),
        Step::ShiftRight(by) => shift_right_reading(alloc, *by, take_top(alloc, parts)),
        Step::Cast(kind) => cast_reading(alloc, *kind, take_top(alloc, parts)),
        Step::Choose => {
            let c = take_top(alloc, parts);
            let b = take_top(alloc, parts);
            choose_reading(alloc, take_top(alloc, parts), b, c)
        }
        Step::Fold { folding, inames } => {
            let list = inames_in(alloc, scope, inames.as_slice())?;
            let unknown = no_iname_in(alloc, scope, inames.as_slice())?;
            fold_reading(alloc, *folding, list, unknown, take_top(alloc, parts))
        }
        Step::ExtremeOf { extreme, name } => {
            extreme_reading(
                alloc,
                scope.role(name),
                *extreme,
                name,
                take_top(alloc, parts),
            )
        }
    }
}

/// What the steps of an expression mean where names stand for what the scope says, with what is wrong in it. What is read is
/// at most 64 deep, and as deep as `depth` says. It takes time in proportion to the steps and the sizes of the index forms.
/// The only error is want of memory.
pub fn read_untyped<S: Scope>(
    alloc: Global,
    scope: &S,
    steps: &[Step],
) -> Result<Reading, AllocError>
    ensures reading { IfOk result (λ r. r ≡ untyped_of (S.roles scope.now) steps.now) }
    ensures measured { IfOk result IsMeasured }
{
    let mut parts = Vec::new(alloc);
    for step in steps {
        let part = read_step(alloc, scope, step, &mut parts)?;
        parts.push(part)?;
    }
    Ok(take_top(alloc, &mut parts))
}
