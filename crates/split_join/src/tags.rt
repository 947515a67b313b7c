//! Inames that are put on axes.
use crate::asked::{ask_untagged, iname_of, tag_of};
use crate::refused::axis_taken;
use affine_rows::Listed;
use axis_rules::{check_not_negative, constant_extent};
use kernel_ir::{Fault, Iname, Insn, Kernel, Tag};
use quasi_forms::is_among;
use script_reader::Command;
use std::alloc::{AllocError, Global};

/// Whether an iname of the instruction other than this one is on the axis.
fn has_other(kernel: &Kernel, insn: &Insn, iname: u32, tag: Tag) -> bool {
    insn.inames
        .as_slice()
        .iter()
        .any(|other| *other != iname && tag_of(kernel, *other) == tag)
}

/// Rule 23 refuses the first instruction with the iname that has another one on the axis.
fn ask_axis(alloc: Global, kernel: &Kernel, iname: u32, tag: Tag) -> Result<(), Fault> {
    for insn in kernel.insns.as_slice() {
        if is_among(insn.inames.as_slice(), iname) && has_other(kernel, insn, iname, tag) {
            return Err(axis_taken(alloc, kernel, insn, iname, tag));
        }
    }
    Ok(())
}

/// Rule 22 asks constant bounds of an iname on a local axis.
fn ask_extent(alloc: Global, kernel: &Kernel, iname: u32, tag: Tag) -> Result<(), Fault> {
    match tag {
        Tag::Local(_) => {
            constant_extent(alloc, kernel, iname)?;
            Ok(())
        }
        Tag::Plain | Tag::Group(_) => Ok(()),
    }
}

/// The inames with the tag at one of them.
fn tagged_inames(
    alloc: Global,
    inames: &[Iname],
    var: u32,
    tag: Tag,
) -> Result<Listed<Iname>, AllocError> {
    let mut made = Listed::new(alloc);
    for iname in inames {
        let own = if iname.var == var { tag } else { iname.tag };
        made.push(Iname {
            var: iname.var,
            tag: own,
        })?;
    }
    Ok(made)
}

/// The kernel with the iname on the axis, refused by rules 21, 23, 22 and 24; with `Plain` the kernel itself.
pub(crate) fn with_tag(
    alloc: Global,
    kernel: Kernel,
    iname: u32,
    tag: Tag,
) -> Result<Kernel, Fault> {
    if tag == Tag::Plain {
        return Ok(kernel);
    }
    ask_untagged(alloc, &kernel, iname)?;
    ask_axis(alloc, &kernel, iname, tag)?;
    ask_extent(alloc, &kernel, iname, tag)?;
    check_not_negative(alloc, &kernel, iname)?;
    let inames = tagged_inames(alloc, kernel.inames.as_slice(), iname, tag)?;
    Ok(Kernel { inames, ..kernel })
}

/// The kernel with inames put on axes, one after the other. Each is refused by rule 1 for a name of no iname, 21 for one that is
/// on an axis, 23 where an instruction has another one on this axis, 22, for a local axis, where a constant bound is missing, and
/// 24 where a number below 0 is not excluded.
pub fn tag_inames(alloc: Global, kernel: &Kernel, command: &Command) -> Result<Kernel, Fault> {
    let mut made = kernel.copy(alloc)?;
    let tags = command.tags.as_slice();
    let names = command.names.as_slice();
    for at in 0..names.len().min(tags.len()) {
        let iname = iname_of(alloc, &made, &names[at])?;
        made = with_tag(alloc, made, iname, tags[at])?;
    }
    Ok(made)
}
