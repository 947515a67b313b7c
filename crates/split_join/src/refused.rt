//! Refusals of the commands.
use affine_rows::Name;
use kernel_edits::{name_of, refused};
use kernel_ir::{Fault, Insn, Kernel, Refusal, Site, Tag};
use std::alloc::{AllocError, Global};

/// Rule 1.
pub(crate) fn unknown(alloc: Global, name: &Name) -> Fault {
    refused(Refusal::unknown(alloc, Site::Script, name))
}

/// Rule 2.
pub(crate) fn taken(alloc: Global, name: &Name) -> Fault {
    refused(Refusal::taken(alloc, Site::Script, name))
}

/// Rule 3: an instruction has too many inames.
pub(crate) fn many_inames(alloc: Global, limit: usize) -> Fault {
    refused(Refusal::limit(alloc, Site::Script, "inames", limit as i128))
}

/// Rule 20: the number is no factor.
pub(crate) fn factor(alloc: Global, number: u64) -> Fault {
    refused(Refusal::of_rule(alloc, Site::Script, 20).with_number(i128::from(number)))
}

/// Rule 21: the iname is on an axis.
pub(crate) fn tagged(alloc: Global, kernel: &Kernel, iname: u32) -> Fault {
    refused(Refusal::of_rule(alloc, Site::Script, 21).with_word(alloc, name_of(kernel, iname)))
}

/// The word of an axis, of which there are three of each sort.
fn axis_word(tag: Tag) -> &'static str {
    match tag {
        Tag::Plain => "",
        Tag::Group(0) => "g.0",
        Tag::Group(1) => "g.1",
        Tag::Group(_) => "g.2",
        Tag::Local(0) => "l.0",
        Tag::Local(1) => "l.1",
        Tag::Local(_) => "l.2",
    }
}

/// Rule 23: another iname of the instruction is on the axis.
pub(crate) fn axis_taken(
    alloc: Global,
    kernel: &Kernel,
    insn: &Insn,
    iname: u32,
    tag: Tag,
) -> Fault {
    refused(axis_refusal(alloc, kernel, insn, iname, tag))
}

fn axis_refusal(
    alloc: Global,
    kernel: &Kernel,
    insn: &Insn,
    iname: u32,
    tag: Tag,
) -> Result<Refusal, AllocError> {
    Refusal::of_rule(alloc, Site::Script, 23)
        .with_word(alloc, name_of(kernel, iname))?
        .with_name(alloc, &insn.id)?
        .with_word(alloc, axis_word(tag))
}

/// Rule 26: the instruction, or a reduction of it, has some of the joined inames and lacks this one.
pub(crate) fn not_invertible(alloc: Global, kernel: &Kernel, insn: &Insn, iname: u32) -> Fault {
    refused(lacking_refusal(alloc, kernel, insn, iname))
}

fn lacking_refusal(
    alloc: Global,
    kernel: &Kernel,
    insn: &Insn,
    iname: u32,
) -> Result<Refusal, AllocError> {
    Refusal::of_rule(alloc, Site::Script, 26)
        .with_name(alloc, &insn.id)?
        .with_word(alloc, name_of(kernel, iname))
}
