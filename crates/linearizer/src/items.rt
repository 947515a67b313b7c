//! Rules 24, 22 and 36: the items of local axes.
use axis_rules::{check_not_negative, constant_hull};
use kernel_ir::{Fault, Iname, Kernel, Refusal, Site, Tag};
use kernel_rules::name_of;
use std::alloc::{AllocError, Global};

/// The most items of a group.
const MOST_ITEMS: u128 = 1_024;

fn is_had(kernel: &Kernel, var: u32) -> bool {
    kernel
        .insns
        .as_slice()
        .iter()
        .any(|insn| insn.inames.as_slice().contains(&var))
}

/// Rule 22: the iname has no constant upper bound.
fn unbounded(alloc: Global, kernel: &Kernel, var: u32) -> Result<Fault, AllocError> {
    Ok(Fault::Rule(
        Refusal::of_rule(alloc, Site::Kernel, 22)
            .with_name(alloc, &name_of(alloc, kernel, var)?)?
            .with_word(alloc, "upper")?,
    ))
}

/// How many numbers there are from 0 to the greatest, at least 1.
fn items_to(greatest: i64) -> u64 {
    match u64::try_from(greatest) {
        Ok(greatest) => greatest.saturating_add(1),
        Err(_) => 1,
    }
}

/// The items that an iname on a local axis needs, by rule 22.
fn items_of(alloc: Global, kernel: &Kernel, var: u32) -> Result<u64, Fault> {
    match constant_hull(alloc, kernel, var)?.upper {
        Some(greatest) => Ok(items_to(greatest)),
        None => Err(unbounded(alloc, kernel, var)?),
    }
}

/// The items of the three local axes.
#[derive(Clone, Copy)]
pub(crate) struct Items {
    pub(crate) first: u64,
    pub(crate) second: u64,
    pub(crate) third: u64,
}

impl Items {
    /// The items with so many at least on a local axis.
    fn with(self, axis: u8, items: u64) -> Items {
        match axis {
            0 => Items {
                first: self.first.max(items),
                ..self
            },
            1 => Items {
                second: self.second.max(items),
                ..self
            },
            _ => Items {
                third: self.third.max(items),
                ..self
            },
        }
    }
}

/// The items with what an iname needs, by rules 24 and 22.
fn with_iname(alloc: Global, kernel: &Kernel, iname: &Iname, items: Items) -> Result<Items, Fault> {
    match iname.tag {
        Tag::Plain => Ok(items),
        Tag::Group(_) => {
            check_not_negative(alloc, kernel, iname.var)?;
            Ok(items)
        }
        Tag::Local(axis) => {
            check_not_negative(alloc, kernel, iname.var)?;
            Ok(items.with(axis, items_of(alloc, kernel, iname.var)?))
        }
    }
}

/// The items of the local axes: of each the greatest value of its inames plus 1, and at least 1. Each iname on an axis that
/// an instruction has is asked in declared order, by rule 24 and on a local axis by rule 22.
pub(crate) fn local_items(alloc: Global, kernel: &Kernel) -> Result<Items, Fault> {
    let mut items = Items {
        first: 1,
        second: 1,
        third: 1,
    };
    for iname in kernel.inames.as_slice() {
        if is_had(kernel, iname.var) {
            items = with_iname(alloc, kernel, iname, items)?;
        }
    }
    Ok(items)
}

/// The product, 2^128 - 1 standing for all that is more.
fn product(items: Items) -> u128 {
    u128::from(items.first)
        .saturating_mul(u128::from(items.second))
        .saturating_mul(u128::from(items.third))
}

/// A number that is shown, 2^127 - 1 standing for all that is more.
fn shown(number: u128) -> i128 {
    i128::try_from(number).unwrap_or(i128::MAX)
}

fn few(items: u64) -> u32 {
    items.min(1_024) as u32
}

/// The items, if a group has at most 1,024, by rule 36.
pub(crate) fn few_items(alloc: Global, items: Items) -> Result<[u32; 3], Fault> {
    let all = product(items);
    if all > MOST_ITEMS {
        return Err(Fault::Rule(Refusal::of_rule(alloc, Site::Kernel, 36).with_number(shown(all))?));
    }
    Ok([few(items.first), few(items.second), few(items.third)])
}
