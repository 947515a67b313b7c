//! What commands ask of names and inames.
use crate::refused::{tagged, taken, unknown};
use affine_rows::{Listed, Name};
use kernel_edits::{has_name, iname_named, is_taken};
use kernel_ir::{Fault, Kernel, Tag};
use std::alloc::Global;

/// The iname with the name; rule 1 refuses where there is none.
pub(crate) fn iname_of(alloc: Global, kernel: &Kernel, name: &Name) -> Result<u32, Fault> {
    match iname_named(kernel, name) {
        Some(iname) => Ok(iname),
        None => Err(unknown(alloc, name)),
    }
}

/// The inames with the names; rule 1 refuses for the first name of none.
pub(crate) fn inames_of(
    alloc: Global,
    kernel: &Kernel,
    names: &[Name],
) -> Result<Listed<u32>, Fault> {
    let mut inames = Listed::new(alloc);
    for name in names {
        inames.push(iname_of(alloc, kernel, name)?)?;
    }
    Ok(inames)
}

/// The tag of a variable, `Plain` where it is no iname.
pub(crate) fn tag_of(kernel: &Kernel, var: u32) -> Tag {
    for iname in kernel.inames.as_slice() {
        if iname.var == var {
            return iname.tag;
        }
    }
    Tag::Plain
}

/// Rule 21 refuses an iname on an axis.
pub(crate) fn ask_untagged(alloc: Global, kernel: &Kernel, iname: u32) -> Result<(), Fault> {
    match tag_of(kernel, iname) {
        Tag::Plain => Ok(()),
        Tag::Group(_) | Tag::Local(_) => Err(tagged(alloc, kernel, iname)),
    }
}

/// Rule 2 refuses a name that is taken.
pub(crate) fn ask_free(alloc: Global, kernel: &Kernel, name: &Name) -> Result<(), Fault> {
    if is_taken(kernel, name) {
        Err(taken(alloc, name))
    } else {
        Ok(())
    }
}

/// Rule 2 refuses the first name that stands among those before it.
pub(crate) fn ask_distinct(alloc: Global, names: &[Name]) -> Result<(), Fault> {
    for at in 0..names.len() {
        if has_name(&names[..at], &names[at]) {
            return Err(taken(alloc, &names[at]));
        }
    }
    Ok(())
}
