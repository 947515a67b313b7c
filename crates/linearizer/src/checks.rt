//! What a target refuses.
use affine_rows::Name;
use code_parts::Gathered;
use code_tree::Target;
use kernel_ir::{Fault, Kernel, Refusal, Site, Tag};
use kernel_rules::name_of;
use std::alloc::{AllocError, Global};

/// The first iname on an axis, or else the first local temporary.
fn first_of_axes(alloc: Global, kernel: &Kernel) -> Result<Option<Name>, AllocError> {
    for iname in kernel.inames.as_slice() {
        if iname.tag != Tag::Plain {
            return Ok(Some(name_of(alloc, kernel, iname.var)?));
        }
    }
    for temp in kernel.temps.as_slice() {
        if temp.local {
            return Ok(Some(temp.name.copy(alloc)?));
        }
    }
    Ok(None)
}

/// Rule 38: the target C has no axes.
pub(crate) fn check_axes(alloc: Global, kernel: &Kernel, target: Target) -> Result<(), Fault> {
    if target == Target::OpenCl {
        return Ok(());
    }
    match first_of_axes(alloc, kernel)? {
        None => Ok(()),
        Some(name) => Err(Fault::Rule(Refusal::of_rule(alloc, Site::Kernel, 38).with_name(
            alloc, &name,
        )?)),
    }
}

/// Rule 34: the first written row or form that passes a limit.
pub(crate) fn check_written(alloc: Global, gathered: &Gathered) -> Result<(), Fault> {
    match &gathered.wide {
        None => Ok(()),
        Some(text) => Err(Fault::Rule(Refusal::of_rule(alloc, Site::Kernel, 34).with_name(
            alloc, text,
        )?)),
    }
}
