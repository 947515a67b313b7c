//! Axes, the inames on them, and their variables in rows.
use kernel_ir::{Insn, Kernel, Tag};

/// The axes in order: group axes, then local ones.
pub const AXES: [Tag; 6] = [
    Tag::Group(0),
    Tag::Group(1),
    Tag::Group(2),
    Tag::Local(0),
    Tag::Local(1),
    Tag::Local(2),
];

/// The variable of an axis in rows, by its place among the axes. No name of a kernel has this number.
pub fn axis_var(axis: u8) -> u32 {
    u32::MAX - u32::from(axis)
}

/// The tag of a variable. One that is no iname is on no axis.
pub fn tag_of(kernel: &Kernel, var: u32) -> Tag {
    for iname in kernel.inames.as_slice() {
        if iname.var == var {
            return iname.tag;
        }
    }
    Tag::Plain
}

/// Whether the variable is on no axis.
pub fn is_sequential(kernel: &Kernel, var: u32) -> bool {
    tag_of(kernel, var) == Tag::Plain
}

/// The variable in rows: that of its axis, or itself.
pub fn scope_var(kernel: &Kernel, var: u32) -> u32 {
    let tag = tag_of(kernel, var);
    for axis in 0..6u8 {
        if AXES[axis as usize] == tag {
            return axis_var(axis);
        }
    }
    var
}

/// The first iname of the instruction on the axis.
pub fn iname_on(kernel: &Kernel, insn: &Insn, axis: Tag) -> Option<u32> {
    for var in insn.inames.as_slice() {
        if tag_of(kernel, *var) == axis {
            return Some(*var);
        }
    }
    None
}

/// Whether an instruction has an iname on the axis.
pub fn is_in_use(kernel: &Kernel, axis: Tag) -> bool {
    kernel
        .insns
        .as_slice()
        .iter()
        .any(|insn| iname_on(kernel, insn, axis).is_some())
}
