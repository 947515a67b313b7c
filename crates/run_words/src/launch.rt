//! The groups and items of a code.
use crate::ranges::{Range, bound_range, near, only};
use code_tree::{Bound, Code, Target};
use std::alloc::{AllocError, Global};

/// How many axes a code has among its names, and the launch numbers of the three group axes and of the three local axes.
#[derive(Clone, Copy)]
pub struct Launch {
    pub axes: u32,
    pub group_axes: [u64; 3],
    pub item_axes: [u64; 3],
}

/// The ranges of the parameters, each its number alone.
pub fn param_ranges(alloc: Global, params: &[i64]) -> Result<Vec<Range>, AllocError> {
    let mut ranges = Vec::new(alloc);
    for param in params {
        ranges.push(only(*param))?;
    }
    Ok(ranges)
}

/// One more than the bound of a group axis, and at least 1.
fn launch_number(bound: &Bound, ranges: &[Range]) -> u64 {
    let number = near(1 + i128::from(bound_range(bound, ranges).low));
    if number < 1 { 1 } else { number as u64 }
}

/// The launch numbers of a code, by the ranges of its parameters. A C code has one item.
pub fn launch_of(code: &Code, ranges: &[Range]) -> Launch {
    match code.target {
        Target::C => Launch {
            axes: 0,
            group_axes: [1; 3],
            item_axes: [1; 3],
        },
        Target::OpenCl => Launch {
            axes: 6,
            group_axes: [
                launch_number(&code.g0, ranges),
                launch_number(&code.g1, ranges),
                launch_number(&code.g2, ranges),
            ],
            item_axes: [u64::from(code.l0), u64::from(code.l1), u64::from(code.l2)],
        },
    }
}

/// A number of groups or items, which is small where the words of a run fit.
pub fn few(number: u64) -> u32 {
    number.min(u64::from(u32::MAX)) as u32
}

fn product(numbers: [u64; 3]) -> u64 {
    numbers[0]
        .saturating_mul(numbers[1])
        .saturating_mul(numbers[2])
}

/// The three digits of a number, the first one fastest.
fn digits(number: u32, values: [u64; 3]) -> [i64; 3] {
    let first = values[0].max(1);
    let second = values[1].max(1);
    let rest = u64::from(number) / first;
    [
        near(i128::from(u64::from(number) % first)),
        near(i128::from(rest % second)),
        near(i128::from(rest / second)),
    ]
}

impl Launch {
    /// How many groups there are, or the last number where they are more.
    pub fn groups(&self) -> u64 {
        product(self.group_axes)
    }

    /// How many items all groups have, or the last number where they are more.
    pub fn items(&self) -> u64 {
        self.groups().saturating_mul(product(self.item_axes))
    }

    /// How many items a group has, which are few where the words of a run fit.
    pub fn size(&self) -> u32 {
        few(product(self.item_axes))
    }

    /// The numbers of the group axes and of the local axes of an item, axis 0 fastest. Items are counted by group, then
    /// by place.
    pub fn axes_of(&self, item: u32) -> [i64; 6] {
        let size = self.size().max(1);
        let [g0, g1, g2] = digits(item / size, self.group_axes);
        let [l0, l1, l2] = digits(item % size, self.item_axes);
        [g0, g1, g2, l0, l1, l2]
    }
}
