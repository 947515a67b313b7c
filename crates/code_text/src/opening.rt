//! The axes and the local cells, which open a body.
ghost use Rattle.std.specs.Prelude.{◌≡◌, ◌++◌, OnOk};
ghost use Rattle.code_text.specs.OpeningText.{axis_line, axis_lines, local_line, local_lines};

use crate::statements::{write_blanks, write_declared};
use code_tree::{CodeCell, Target};
use std::alloc::AllocError;
use text_writer::put;

/// Adds the line of an axis.
fn write_axis(out: &mut Vec<u8>, name: &str, call: &str) -> Result<(), AllocError>
    ensures { OnOk result (out.new.items ≡ out.old.items ++ axis_line name.now call.now) }
{
    put(out, "  const long ")?;
    put(out, name)?;
    put(out, " = (long)")?;
    put(out, call)?;
    put(out, ";\n")
}

/// Adds the lines of the axes.
pub fn write_axes(out: &mut Vec<u8>, target: Target) -> Result<(), AllocError>
    ensures { OnOk result (out.new.items ≡ out.old.items ++ axis_lines target) }
{
    match target {
        Target::C => Ok(()),
        Target::OpenCl => {
            write_axis(out, "lp_g0", "get_group_id(0)")?;
            write_axis(out, "lp_g1", "get_group_id(1)")?;
            write_axis(out, "lp_g2", "get_group_id(2)")?;
            write_axis(out, "lp_l0", "get_local_id(0)")?;
            write_axis(out, "lp_l1", "get_local_id(1)")?;
            write_axis(out, "lp_l2", "get_local_id(2)")
        }
    }
}

/// Adds the line of a local cell.
fn write_local(out: &mut Vec<u8>, target: Target, cell: &CodeCell) -> Result<(), AllocError>
    ensures { OnOk result (out.new.items ≡ out.old.items ++ local_line target cell.now) }
{
    write_blanks(out, 1)?;
    put(out, "__local ")?;
    write_declared(out, target, cell)?;
    put(out, ";\n")
}

/// Adds the lines of the local cells.
pub fn write_locals(out: &mut Vec<u8>, target: Target, cells: &[CodeCell]) -> Result<(), AllocError>
    ensures { OnOk result (out.new.items ≡ out.old.items ++ local_lines target cells.now) }
{
    for cell in cells {
        write_local(out, target, cell)?;
    }
    Ok(())
}
