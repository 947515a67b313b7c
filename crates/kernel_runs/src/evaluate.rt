//! Evaluations.
use crate::matching::match_kernel;
use crate::numbers::Numbers;
use crate::opening::{opening, words_of};
use crate::scene::Scene;
use crate::steps::{Spans, count_of, spans_of};
use crate::value::{holds, value};
use crate::world::{Held, World};
use affine_rows::{Listed, Names};
use code_tree::Nest;
use kernel_ir::{Fault, Insn, Kernel, Storing};
use ref_runs::{MAX_STEPS, MAX_WORDS, Results, line_names, too_many_steps, too_many_words};
use run_words::Args;
use run_words::words::{applied, number_in};
use std::alloc::{AllocError, Global};
use subst_rules::expand;

/// Whether an instruction's data test holds.
fn test_holds(
    alloc: Global,
    scene: &Scene,
    insn: &Insn,
    world: &mut World,
) -> Result<bool, AllocError> {
    match &insn.test {
        None => Ok(true),
        Some(test) => {
            let kind = world.kind(insn.cell);
            holds(alloc, test, kind, insn.inames.as_slice(), scene, world)
        }
    }
}

/// Stores the value, or combines the cell with it.
fn store(alloc: Global, scene: &Scene, insn: &Insn, world: &mut World) -> Result<(), AllocError> {
    let kind = world.kind(insn.cell);
    let made = value(
        alloc,
        &insn.value,
        kind,
        insn.inames.as_slice(),
        scene,
        world,
    )?;
    let place = insn.place.as_slice();
    let word = match insn.storing {
        Storing::Plain => made,
        Storing::Update(op) => applied(op, kind, world.read(insn.cell, place), made),
    };
    world.write(insn.cell, place, word);
    Ok(())
}

/// Runs the instruction with so many before it at the numbers of its inames, if it has an instance there.
fn run_insn(alloc: Global, scene: &Scene, at: usize, world: &mut World) -> Result<(), AllocError> {
    let Some(insn) = scene.kernel.insns.get(at) else {
        return Ok(());
    };
    if !world.numbers.holds_all(scene.rows(at)) || !test_holds(alloc, scene, insn, world)? {
        return Ok(());
    }
    store(alloc, scene, insn, world)
}

/// Begins a turn of a loop.
fn begin_turn(scene: &Scene, var: u32, number: i64, world: &mut World) {
    world.numbers.set(var, number);
    world.begin(scene.homed(var));
}

#[cycle(run)]
fn run_nest(
    alloc: Global,
    scene: &Scene,
    nest: &Nest,
    world: &mut World,
) -> Result<(), AllocError> {
    match nest {
        Nest::Insn(at) => run_insn(alloc, scene, *at as usize, world),
        Nest::Loop(var, children) => {
            let Some(span) = scene.spans.of(*var) else {
                return Ok(());
            };
            // Where the numbers end at the greatest one of 64 bits, the turn of that one is left out.
            for number in span.low..span.high.saturating_add(1) {
                begin_turn(scene, *var, number, world);
                run_all(alloc, scene, children.as_slice(), world)?;
            }
            Ok(())
        }
    }
}

/// Runs children one after the other.
#[cycle(run)]
fn run_all(
    alloc: Global,
    scene: &Scene,
    nest: &[Nest],
    world: &mut World,
) -> Result<(), AllocError> {
    for child in nest {
        run_nest(alloc, scene, child, world)?;
    }
    Ok(())
}

/// The numbers of an array's words.
fn numbers_of(alloc: Global, held: &Held) -> Result<Listed<i128>, AllocError> {
    let mut numbers = Vec::with_capacity(alloc, held.len())?;
    for at in 0..held.len() {
        numbers.push(number_in(held.kind, held.word(at)))?;
    }
    Ok(Listed::from_vec(numbers))
}

fn results_of(alloc: Global, kernel: &Kernel, world: &World) -> Result<Results, AllocError> {
    let mut results = Listed::new(alloc);
    let arrays = kernel.arrays.as_slice();
    for at in 0..arrays.len().min(world.arrays.len()) {
        if arrays[at].stored {
            let numbers = numbers_of(alloc, &world.arrays[at])?;
            results.push((arrays[at].name.copy(alloc)?, numbers))?;
        }
    }
    Ok(results)
}

/// The spans of the inames, where the evaluation has few enough steps: else rule 39.
fn checked_spans(alloc: Global, kernel: &Kernel, numbers: &Numbers) -> Result<Spans, Fault> {
    let spans = spans_of(alloc, kernel, numbers)?;
    if count_of(kernel, &spans) > MAX_STEPS {
        return Err(Fault::Rule(too_many_steps(alloc)?));
    }
    Ok(spans)
}

/// Rule 3 where an evaluation has too many words. `lines` are the names of the arguments' lines.
fn check_words(alloc: Global, plain: &Kernel, args: &Args, lines: &Names) -> Result<(), Fault> {
    if words_of(plain, args, lines) > MAX_WORDS {
        return Err(Fault::Rule(too_many_words(alloc)?));
    }
    Ok(())
}

/// What stays the same during the evaluation of a kernel that uses no rules.
fn scene_of(alloc: Global, plain: Kernel, numbers: &Numbers) -> Result<Scene, Fault> {
    let spans = checked_spans(alloc, &plain, numbers)?;
    Ok(Scene::new(alloc, plain, spans)?)
}

/// What the nest leaves in the output arrays.
fn eval_scene(
    alloc: Global,
    scene: &Scene,
    nest: &[Nest],
    args: &Args,
    lines: &Names,
    numbers: Numbers,
) -> Result<Results, AllocError> {
    let mut world = opening(alloc, &scene.kernel, args, lines, numbers)?;
    run_all(alloc, scene, nest, &mut world)?;
    results_of(alloc, &scene.kernel, &world)
}

/// The evaluation of a kernel that uses no rules, where its parameters have these numbers.
fn eval_plain(
    alloc: Global,
    plain: Kernel,
    nest: &[Nest],
    args: &Args,
    lines: &Names,
    numbers: Numbers,
) -> Result<Results, Fault> {
    check_words(alloc, &plain, args, lines)?;
    let scene = scene_of(alloc, plain, &numbers)?;
    Ok(eval_scene(alloc, &scene, nest, args, lines, numbers)?)
}

/// What a kernel stores in its output arrays for given arguments, its instances run in the order of its nest. `nest` is the
/// kernel's.
///
/// It is refused by rules 1 and 40 where the arguments do not meet the kernel; else by rule 3 where it has more than
/// 16,777,216 words: those of the arrays, the cells of each temporary once, the inames, and one more; and else by rule 39
/// where its step count passes 10,000,000.
pub fn eval_kernel(
    alloc: Global,
    kernel: &Kernel,
    nest: &[Nest],
    args: &Args,
) -> Result<Results, Fault> {
    let lines = line_names(alloc, args)?;
    let numbers = match_kernel(alloc, kernel, args, &lines)?;
    let plain = expand(alloc, kernel)?;
    eval_plain(alloc, plain, nest, args, &lines, numbers)
}
