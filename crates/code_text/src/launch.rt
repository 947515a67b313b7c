//! The first lines of a text.
ghost use Rattle.std.specs.Prelude.{◌≡◌, ◌++◌, OnOk};
ghost use Rattle.code_text.specs.BoundText.{bound_text};
ghost use Rattle.code_text.specs.Names.{name_text};
ghost use Rattle.code_text.specs.LaunchText.{bound_number, launch_number, group_text, groups_text, items_text, all_items, launch_text, title_text};

use crate::bounds::write_bound;
use code_tree::{Bound, Code, Target};
use std::alloc::AllocError;
use text_writer::{put, put_digits, put_next};

/// The number of a bound that is one.
fn plain_number(bound: &Bound) -> Option<i64>
    ensures { result ≡ bound_number bound.now }
{
    match bound {
        Bound::Form(form) => {
            let quasi = form.quasi();
            if quasi.terms.is_empty() && quasi.floors.is_empty() {
                Some(quasi.constant)
            } else {
                None
            }
        }
        Bound::FloorOf(_, _) | Bound::MinusFloorOf(_, _) | Bound::Least(_) | Bound::Greatest(_) =>
            None,
    }
}

/// Adds a launch number, one more than the number of its bound or than the bound.
fn write_number(
    out: &mut Vec<u8>,
    code: &Code,
    bound: &Bound,
    number: Option<i64>,
) -> Result<(), AllocError>
    ensures { OnOk result (out.new.items ≡ out.old.items ++ launch_number (bound_text (name_text code.now) bound.now) number) }
{
    match number {
        Some(number) => {
            put(out, "[")?;
            put_next(out, number)?;
            put(out, "]")
        }
        None => {
            put(out, "[lp_max(1, 1 + ")?;
            write_bound(out, code, bound)?;
            put(out, ")]")
        }
    }
}

/// Adds the launch number of a group axis.
fn write_group(out: &mut Vec<u8>, code: &Code, bound: &Bound) -> Result<(), AllocError>
    ensures { OnOk result (out.new.items ≡ out.old.items ++ group_text (name_text code.now) bound.now) }
{
    write_number(out, code, bound, plain_number(bound))
}

/// Adds a number of items of a local axis.
fn write_items(out: &mut Vec<u8>, items: u32) -> Result<(), AllocError>
    ensures { OnOk result (out.new.items ≡ out.old.items ++ items_text items) }
{
    put(out, " [")?;
    put_digits(out, u64::from(items))?;
    put(out, "]")
}

/// Adds the launch numbers of the group axes.
fn write_groups(out: &mut Vec<u8>, code: &Code) -> Result<(), AllocError>
    ensures { OnOk result (out.new.items ≡ out.old.items ++ groups_text code.now) }
{
    write_group(out, code, &code.g0)?;
    put(out, " ")?;
    write_group(out, code, &code.g1)?;
    put(out, " ")?;
    write_group(out, code, &code.g2)
}

/// Adds the items of the local axes.
fn write_all_items(out: &mut Vec<u8>, code: &Code) -> Result<(), AllocError>
    ensures { OnOk result (out.new.items ≡ out.old.items ++ all_items code.now) }
{
    write_items(out, code.l0)?;
    write_items(out, code.l1)?;
    write_items(out, code.l2)
}

/// Adds the launch line.
fn write_launch(out: &mut Vec<u8>, code: &Code) -> Result<(), AllocError>
    ensures { OnOk result (out.new.items ≡ out.old.items ++ launch_text code.now) }
{
    put(out, "/* loopw opencl groups ")?;
    write_groups(out, code)?;
    put(out, " items")?;
    write_all_items(out, code)?;
    put(out, " */\n")
}

/// Adds what stands before the functions.
pub fn write_title(out: &mut Vec<u8>, code: &Code) -> Result<(), AllocError>
    ensures { OnOk result (out.new.items ≡ out.old.items ++ title_text code.now code.now.target) }
{
    match code.target {
        Target::C => put(out, "/* loopw c */\n#include <stdint.h>\n"),
        Target::OpenCl => write_launch(out, code),
    }
}
