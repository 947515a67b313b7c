//! Refusals of nests.
ghost use Rattle.std.specs.Prelude.{◌≡◌, ◌++◌, IfOk, map};
ghost use Rattle.kernel_ir.specs.NameSpace.{name_of};
ghost use Rattle.nest_tree.specs.Refused.{id_of, label, nest_cycle, not_nested};

use crate::child::Head;
use affine_rows::{Listed, Name};
use kernel_edits::name_of;
use kernel_ir::{Kernel, Refusal, Site};
use std::alloc::{AllocError, Global};

/// The id of the instruction at a place.
fn id_at(kernel: &Kernel, at: u32) -> &str
    ensures { result.now ≡ id_of kernel.now at }
{
    match kernel.insns.get(at as usize) {
        None => "",
        Some(insn) => insn.id.as_str(),
    }
}

/// A child by its words: the id of an instruction, or the iname of a loop.
fn label(alloc: Global, kernel: &Kernel, head: Head) -> Result<Name, AllocError>
    ensures { IfOk result (λ name. name ≡ label kernel.now head) }
{
    match head {
        Head::Insn(at) => Name::from_str(alloc, id_at(kernel, at)),
        Head::Loop(var) => {
            let mut text = String::from_str(alloc, "loop ")?;
            text.push_str(name_of(kernel, var))?;
            Ok(Name::new(text))
        }
    }
}

fn labels(alloc: Global, kernel: &Kernel, heads: &[Head]) -> Result<Listed<Name>, AllocError>
    ensures { IfOk result (λ made. made ≡ map (label kernel.now) heads.now) }
{
    let mut made = Listed::new(alloc);
    for head in heads {
        made.push(label(alloc, kernel, *head)?)?;
    }
    Ok(made)
}

/// Rule 32 keeps two inames.
pub(crate) fn not_nested(
    alloc: Global,
    kernel: &Kernel,
    first: u32,
    second: u32,
) -> Result<Refusal, AllocError>
    ensures { IfOk result (λ r. r ≡ not_nested kernel.now first second) }
{
    let first = Name::from_str(alloc, name_of(kernel, first))?;
    let second = Name::from_str(alloc, name_of(kernel, second))?;
    Refusal::of_rule(alloc, Site::Kernel, 32)
        .with_name(alloc, &first)?
        .with_name(alloc, &second)
}

/// Rule 33 keeps the children of a cycle.
pub(crate) fn nest_cycle(
    alloc: Global,
    kernel: &Kernel,
    heads: &[Head],
) -> Result<Refusal, AllocError>
    ensures { IfOk result (λ r. r ≡ nest_cycle kernel.now heads.now) }
{
    let names = labels(alloc, kernel, heads)?;
    Ok(Refusal {
        names,
        ..Refusal::of_rule(alloc, Site::Kernel, 33)
    })
}
