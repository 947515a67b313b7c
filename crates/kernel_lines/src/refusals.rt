//! Refusals of lines.
ghost use Rattle.std.specs.Prelude.{◌≡◌, IfOk};
ghost use Rattle.kernel_ir.specs.Refusals.{Refuses};
ghost use Rattle.kernel_lines.specs.Refusals.{limit_word, limit_most, limit_refusal, not_affine, faults_refusal, line_refusal};

use affine_rows::Name;
use kernel_ir::{Fault, Refusal, Site};
use kernel_names::{Limit, LineFaults};
use std::alloc::{AllocError, Global};

/// The word of a limit.
fn limit_word(limit: Limit) -> &'static str
    ensures { result.now ≡ limit_word limit }
{
    match limit {
        Limit::Parameters => "parameters",
        Limit::Names => "names",
        Limit::Places => "places",
        Limit::Wide | Limit::Number => "number",
        Limit::Cells => "cells",
        Limit::Depth => "depth",
        Limit::Form => "form",
        Limit::Inames => "inames",
        Limit::Instructions => "instructions",
    }
}

/// What is allowed at most.
fn limit_most(limit: Limit) -> i128
    ensures { result ≡ limit_most limit }
{
    match limit {
        Limit::Parameters | Limit::Inames => 16,
        Limit::Names => 65_536,
        Limit::Places => 8,
        Limit::Wide => 18_446_744_073_709_551_615,
        Limit::Number => 1_048_576,
        Limit::Cells => 4_096,
        Limit::Depth | Limit::Instructions => 64,
        Limit::Form => 4_611_686_018_427_387_904,
    }
}

fn limit_refusal(alloc: Global, limit: Limit) -> Result<Refusal, AllocError>
    ensures { IfOk result (λ r. r ≡ limit_refusal limit) }
{
    Refusal::limit(alloc, Site::Kernel, limit_word(limit), limit_most(limit))
}

/// Rule 6: the word, or the name of an array or a rule, of what is no index expression.
fn not_affine(alloc: Global, word: &Name) -> Result<Refusal, AllocError>
    ensures { IfOk result (λ r. r ≡ not_affine word.now) }
{
    Refusal::of_rule(alloc, Site::Kernel, 6).with_name(alloc, word)
}

/// The refusal of a line by what is wrong in it, if anything is: rule 3 first, then rules 1, 2 and 6.
fn faults_refusal(alloc: Global, faults: &LineFaults) -> Result<Option<Refusal>, AllocError>
    ensures { IfOk result (λ r. r ≡ faults_refusal faults.now) }
{
    if let Some(limit) = faults.limit {
        return Ok(Some(limit_refusal(alloc, limit)?));
    }
    if let Some(name) = &faults.unknown {
        return Ok(Some(Refusal::unknown(alloc, Site::Kernel, name)?));
    }
    if let Some(name) = &faults.taken {
        return Ok(Some(Refusal::taken(alloc, Site::Kernel, name)?));
    }
    match &faults.shape {
        Some(word) => Ok(Some(not_affine(alloc, word)?)),
        None => Ok(None),
    }
}

/// Refuses a line where something is wrong in it: by rule 3 first, then by rules 1, 2 and 6. The only other error is want of
/// memory.
pub fn check_line(alloc: Global, line: u32, faults: &LineFaults) -> Result<(), Fault>
    ensures { Refuses (line_refusal line faults.now) result }
{
    match faults_refusal(alloc, faults)? {
        Some(refusal) => Err(Fault::Rule(refusal.at_line(line))),
        None => Ok(()),
    }
}
