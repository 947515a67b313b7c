//! The writers.
ghost use Rattle.std.specs.Prelude.{◌≡◌, IfOk};
ghost use Rattle.code_tree.specs.declared.code.Target.TheVariants.{C, OpenCl};
ghost use Rattle.code_text.specs.Text.{text_of};

use crate::cells::list_cells;
use crate::launch::write_title;
use crate::opening::{write_axes, write_locals};
use crate::prelude::write_prelude;
use crate::signature::write_signature;
use crate::spelling::Spelling;
use crate::statements::write_block;
use code_tree::Code;
use std::alloc::{AllocError, Global};
use text_writer::put;

/// The text of a code for its target, in one pass.
fn write_text(alloc: Global, code: &Code) -> Result<Vec<u8>, AllocError>
    ensures { IfOk result (λ v. v.items ≡ text_of code.now) }
{
    let cells = list_cells(alloc, code)?;
    let spelling = Spelling {
        code,
        cells: cells.as_slice(),
    };
    let mut out = Vec::new(alloc);
    write_title(&mut out, code)?;
    write_prelude(&mut out, code.target)?;
    write_signature(&mut out, code)?;
    write_axes(&mut out, code.target)?;
    write_locals(&mut out, code.target, code.locals.as_slice())?;
    write_block(&mut out, &spelling, 1, &code.body)?;
    put(&mut out, "}\n")?;
    Ok(out)
}

/// The text of a code for the target C, byte for byte. It fails where there is no memory, and in no other case.
pub fn write_c(alloc: Global, code: &Code) -> Result<Vec<u8>, AllocError>
    requires { code.now.target ≡ C }
    ensures { IfOk result (λ v. v.items ≡ text_of code.now) }
{
    write_text(alloc, code)
}

/// The text of a code for the target OpenCL, byte for byte. It fails where there is no memory, and in no other case.
pub fn write_opencl(alloc: Global, code: &Code) -> Result<Vec<u8>, AllocError>
    requires { code.now.target ≡ OpenCl }
    ensures { IfOk result (λ v. v.items ≡ text_of code.now) }
{
    write_text(alloc, code)
}
