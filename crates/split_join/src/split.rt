//! The split of an iname.
use crate::asked::{ask_free, ask_untagged, iname_of};
use crate::changed::changed_kernel;
use crate::folds::folds_of;
use crate::refused::{factor, many_inames, taken};
use crate::tags::with_tag;
use affine_rows::{Form, Listed, Name, Names};
use command_parts::check_new;
use kernel_edits::{Change, form_fault, iname_count, numbered, with_suffix};
use kernel_ir::{Fault, Insn, Kernel, QuasiRow, Tag};
use quasi_forms::{FormFault, is_among, sum_of};
use script_reader::Command;
use std::alloc::{AllocError, Global};

/// The greatest factor.
const MAX_FACTOR: u64 = 1_048_576;

/// An instruction has at most so many inames, those of its reductions included.
const MAX_INAMES: usize = 16;

/// The iname that is split, the factor, and the variables of the two new ones.
#[derive(Clone, Copy)]
struct Split {
    iname: u32,
    factor: u32,
    outer: u32,
    inner: u32,
}

/// A variable as a form.
fn variable(alloc: Global, var: u32) -> Result<Form, AllocError> {
    Ok(Form::affine(alloc, 0, Listed::of_one(alloc, (var, 1))?))
}

/// `factor*outer + inner`.
fn whole(alloc: Global, split: Split) -> Result<Form, FormFault> {
    let outer = variable(alloc, split.outer)?;
    let inner = variable(alloc, split.inner)?;
    sum_of(alloc, &inner, i64::from(split.factor), &outer)
}

/// The inner iname is at least 0, and at most one less than the factor.
fn inner_rows(alloc: Global, split: Split) -> Result<Listed<QuasiRow>, AllocError> {
    let most = i64::from(split.factor.saturating_sub(1));
    let mut rows = Listed::of_one(
        alloc,
        QuasiRow {
            form: variable(alloc, split.inner)?,
            equal: false,
        },
    )?;
    rows.push(QuasiRow {
        form: Form::affine(alloc, most, Listed::of_one(alloc, (split.inner, -1))?),
        equal: false,
    })?;
    Ok(rows)
}

/// The name that is given, or that of the iname with an ending.
fn new_name(alloc: Global, iname: &Name, given: &Name, ending: &str) -> Result<Name, AllocError> {
    if given.as_bytes().is_empty() {
        with_suffix(alloc, iname, ending)
    } else {
        given.copy(alloc)
    }
}

/// The name of the command at a place, empty where it has none.
fn name_at(alloc: Global, command: &Command, at: usize) -> Result<Name, AllocError> {
    match command.names.get(at) {
        Some(name) => name.copy(alloc),
        None => Name::from_str(alloc, ""),
    }
}

/// The tag of the command at a place, `Plain` where it has none.
fn tag_at(command: &Command, at: usize) -> Tag {
    match command.tags.get(at) {
        Some(tag) => *tag,
        None => Tag::Plain,
    }
}

/// Rule 2 refuses the name of the outer iname, and then that of the inner one, where it is taken, also by the outer one.
fn ask_names(alloc: Global, kernel: &Kernel, outer: &Name, inner: &Name) -> Result<(), Fault> {
    ask_free(alloc, kernel, outer)?;
    if outer.as_bytes() == inner.as_bytes() {
        return Err(taken(alloc, inner));
    }
    ask_free(alloc, kernel, inner)
}

/// The factor; rule 20 refuses one that is not from 1 to 1,048,576.
fn factor_of(alloc: Global, number: u64) -> Result<u32, Fault> {
    if number == 0 || number > MAX_FACTOR {
        return Err(factor(alloc, number));
    }
    Ok(number as u32)
}

/// Whether the instruction or one of its reductions has the iname.
fn has_iname(alloc: Global, insn: &Insn, iname: u32) -> Result<bool, AllocError> {
    let folds = folds_of(alloc, insn)?;
    let in_folds = folds
        .as_slice()
        .iter()
        .any(|inames| is_among(inames.as_slice(), iname));
    Ok(in_folds || is_among(insn.inames.as_slice(), iname))
}

/// Rule 3 refuses where an instruction would have too many inames with two in the place of this one. It is asked before forms
/// are made, whose limit comes later.
fn ask_room(alloc: Global, kernel: &Kernel, iname: u32) -> Result<(), Fault> {
    for insn in kernel.insns.as_slice() {
        if iname_count(insn) >= MAX_INAMES && has_iname(alloc, insn, iname)? {
            return Err(many_inames(alloc, MAX_INAMES));
        }
    }
    Ok(())
}

/// The kernel with the two new inames in the iname's place, and `factor*outer + inner` where it stood.
fn split_kernel(
    alloc: Global,
    kernel: &Kernel,
    split: Split,
    names: Names,
) -> Result<Kernel, Fault> {
    let form = match whole(alloc, split) {
        Ok(form) => form,
        Err(fault) => return Err(form_fault(alloc, fault)),
    };
    let change = Change {
        vars: &[split.iname],
        forms: std::slice::from_ref(&form),
        first: split.iname,
        put: &[split.outer, split.inner],
    };
    let made = changed_kernel(alloc, kernel, &change, names, inner_rows(alloc, split)?)?;
    check_new(alloc, &made)?;
    Ok(made)
}

/// The kernel of which an iname is split: `N*outer + inner` stands for it, and the two in its place.
///
/// It is refused by rule 1 for a name of no iname, 20 for a factor that is not from 1 to 1,048,576, 21 for an iname on an axis, 2
/// for a new name that is taken, then by rule 3 where the new kernel passes a limit, and then as by `tag_inames` for the outer
/// and then the inner iname where a tag is given.
pub fn split_iname(alloc: Global, kernel: &Kernel, command: &Command) -> Result<Kernel, Fault> {
    let name = name_at(alloc, command, 0)?;
    let iname = iname_of(alloc, kernel, &name)?;
    let factor = factor_of(alloc, command.number)?;
    ask_untagged(alloc, kernel, iname)?;
    let outer_name = new_name(alloc, &name, &name_at(alloc, command, 1)?, "_outer")?;
    let inner_name = new_name(alloc, &name, &name_at(alloc, command, 2)?, "_inner")?;
    ask_names(alloc, kernel, &outer_name, &inner_name)?;
    ask_room(alloc, kernel, iname)?;
    let mut names = kernel.names.copy(alloc)?;
    let outer = numbered(alloc, &mut names, &outer_name)?;
    let inner = numbered(alloc, &mut names, &inner_name)?;
    let split = Split {
        iname,
        factor,
        outer,
        inner,
    };
    let made = split_kernel(alloc, kernel, split, names)?;
    let made = with_tag(alloc, made, outer, tag_at(command, 0))?;
    with_tag(alloc, made, inner, tag_at(command, 1))
}
