//! Rule 3 of kernels that commands make.
use affine_rows::{Listed, Names};
use kernel_edits::{fold_count_of_all, iname_count, refused};
use kernel_ir::{Fault, Insn, Kernel, Refusal, Site, Temp};
use std::alloc::{AllocError, Global};
use subst_rules::expand;

const MOST_INAMES: usize = 16;

const MOST_INSNS: usize = 64;

const MOST_PLACES: usize = 8;

/// The kernel with this one instruction, and without what has limits of its own.
fn alone(alloc: Global, kernel: &Kernel, insn: &Insn) -> Result<Kernel, Fault> {
    let copied = kernel.copy(alloc)?;
    Ok(Kernel {
        names: Names::new(alloc),
        temps: Listed::new(alloc),
        insns: Listed::of_one(alloc, insn.copy(alloc)?)?,
        ..copied
    })
}

/// The refusal with the script as its site, without a line.
fn of_script(refusal: Refusal) -> Refusal {
    Refusal {
        site: Site::Script,
        line: 0,
        ..refusal
    }
}

/// How a kernel is refused with its rules replaced, if it is.
fn expansion_refusal(alloc: Global, kernel: &Kernel) -> Result<Option<Refusal>, Fault> {
    match expand(alloc, kernel) {
        Ok(_) => Ok(None),
        Err(Fault::Rule(refusal)) => Ok(Some(of_script(refusal))),
        Err(Fault::OutOfMemory) => Err(Fault::OutOfMemory),
    }
}

/// The place of a limit of instructions in the order in which these are asked.
fn rank(refusal: &Refusal) -> u32 {
    let word = match refusal.names.get(0) {
        None => "",
        Some(word) => word.as_str(),
    };
    match word {
        "depth" => 0,
        "nodes" => 1,
        "accesses" => 2,
        "floors" => 3,
        _ => 4,
    }
}

/// The one of two refusals of which the limit is asked first.
fn earlier(first: Option<Refusal>, second: Option<Refusal>) -> Option<Refusal> {
    match (first, second) {
        (Some(first), Some(second)) => {
            if rank(&second) < rank(&first) {
                Some(second)
            } else {
                Some(first)
            }
        }
        (first, None) => first,
        (None, second) => second,
    }
}

/// The first limit that an instruction passes with its rules replaced: depth, nodes, accesses, floors or a form. The accesses and
/// floors of an instruction in which a form can't be made are not counted.
fn insn_refusal(alloc: Global, kernel: &Kernel) -> Result<Option<Refusal>, Fault> {
    let mut found = None;
    for insn in kernel.insns.as_slice() {
        let own = alone(alloc, kernel, insn)?;
        found = earlier(found, expansion_refusal(alloc, &own)?);
    }
    Ok(found)
}

fn has_many_inames(insns: &[Insn]) -> bool {
    insns.iter().any(|insn| iname_count(insn) > MOST_INAMES)
}

fn has_many_insns(insns: &[Insn]) -> bool {
    let folds = fold_count_of_all(insns);
    insns.len().saturating_add(folds).saturating_add(folds) > MOST_INSNS
}

fn has_many_places(temps: &[Temp]) -> bool {
    temps.iter().any(|temp| temp.shape.len() > MOST_PLACES)
}

fn ask(alloc: Global, passed: bool, what: &str, limit: usize) -> Result<(), Fault> {
    if passed {
        let limit = limit as i128;
        return Err(refused(Refusal::limit(alloc, Site::Script, what, limit)));
    }
    Ok(())
}

/// The limits before those that are asked with rules replaced.
fn check_counts(alloc: Global, kernel: &Kernel) -> Result<(), Fault> {
    let insns = kernel.insns.as_slice();
    ask(alloc, has_many_inames(insns), "inames", MOST_INAMES)?;
    ask(alloc, has_many_insns(insns), "instructions", MOST_INSNS)?;
    let places = has_many_places(kernel.temps.as_slice());
    ask(alloc, places, "places", MOST_PLACES)
}

/// Rule 3: the first limit that a new kernel passes, of those that commands can lead past, in the order inames of an instruction,
/// instructions, places of a temporary, depth, nodes, accesses and floors of an instruction, a form, names, cells.
pub fn check_new(alloc: Global, kernel: &Kernel) -> Result<(), Fault> {
    let Some(last) = expansion_refusal(alloc, kernel)? else {
        return Ok(());
    };
    check_counts(alloc, kernel)?;
    let own = insn_refusal(alloc, kernel)?;
    Err(Fault::Rule(own.unwrap_or(last)))
}
