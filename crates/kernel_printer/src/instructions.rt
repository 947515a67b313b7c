//! Instructions.
ghost use Rattle.std.specs.Prelude.{◌≡◌, ◌++◌, ◌∷◌, [], true, OnOk};
ghost use Rattle.kernel_printer.specs.KernelText.{dep_option, if_option, inames_option, insn_line, options_text, store_text, storing_text};
ghost use Rattle.kernel_printer.specs.Spelled.{spelling_of};
ghost use Rattle.text_writer.specs.Bytes.{separated};

use crate::forms::{write_place, write_rows};
use crate::spelling::{Spelling, write_cell, write_vars};
use crate::values::{Standing, write_test, write_value};
use affine_rows::Name;
use expr_tree::Op;
use kernel_ir::{Insn, Kernel, Storing};
use std::alloc::{AllocError, Global};
use text_writer::{put, put_gap};

/// The sign of a store.
fn storing(storing: Storing) -> &'static str
    ensures { result.now ≡ storing_text storing }
{
    match storing {
        Storing::Plain => " = ",
        Storing::Update(Op::Add) => " += ",
        Storing::Update(Op::Mul) => " *= ",
        Storing::Update(Op::Min) => " min= ",
        Storing::Update(Op::Max) => " max= ",
        Storing::Update(Op::Sub | Op::And | Op::Or | Op::Xor) => " = ",
    }
}

/// Adds the option of an instruction's inames, where it has any.
fn write_inames(out: &mut Vec<u8>, kernel: &Kernel, inames: &[u32]) -> Result<(), AllocError>
    ensures { OnOk result (out.new.items ≡ out.old.items ++ inames_option kernel.now inames.now) }
{
    if inames.is_empty() {
        return Ok(());
    }
    put(out, ", inames=")?;
    write_vars(out, kernel, ":", inames)
}

/// Adds the ids with `:` between them.
fn write_ids(out: &mut Vec<u8>, ids: &[Name]) -> Result<(), AllocError>
    ensures { OnOk result (out.new.items ≡ out.old.items ++ separated true (58 ∷ []) ids.now) }
{
    let mut first = true;
    for id in ids {
        put_gap(out, first, ":")?;
        put(out, id.as_str())?;
        first = false;
    }
    Ok(())
}

/// Adds the option of dependences. All are listed, so the automatic ones are turned off.
fn write_deps(out: &mut Vec<u8>, deps: &[Name]) -> Result<(), AllocError>
    ensures { OnOk result (out.new.items ≡ out.old.items ++ dep_option deps.now) }
{
    put(out, ", dep=*")?;
    write_ids(out, deps)
}

/// Adds the option of rows and a data test, where there are any.
fn write_predicate(
    alloc: Global,
    out: &mut Vec<u8>,
    spelling: &Spelling,
    insn: &Insn,
) -> Result<(), AllocError>
    ensures { OnOk result (out.new.items ≡ out.old.items ++ if_option spelling.now.kernel.now (spelling_of spelling.now) insn.now.rows insn.now.test) }
{
    let rows = insn.rows.as_slice();
    match (rows.is_empty(), &insn.test) {
        (true, None) => Ok(()),
        (true, Some(test)) => {
            put(out, ", if=")?;
            write_test(alloc, out, spelling, test)
        }
        (false, None) => {
            put(out, ", if=")?;
            write_rows(alloc, out, spelling, rows)
        }
        (false, Some(test)) => {
            put(out, ", if=")?;
            write_rows(alloc, out, spelling, rows)?;
            put(out, " and ")?;
            write_test(alloc, out, spelling, test)
        }
    }
}

/// Adds the store of an instruction.
fn write_store(
    alloc: Global,
    out: &mut Vec<u8>,
    spelling: &Spelling,
    insn: &Insn,
) -> Result<(), AllocError>
    ensures { OnOk result (out.new.items ≡ out.old.items ++ store_text spelling.now.kernel.now (spelling_of spelling.now) insn.now) }
{
    write_cell(out, spelling.kernel, &insn.cell)?;
    write_place(alloc, out, spelling, insn.place.as_slice())?;
    put(out, storing(insn.storing))?;
    write_value(alloc, out, spelling, Standing::Alone, &insn.value)
}

/// Adds the options of an instruction.
fn write_options(
    alloc: Global,
    out: &mut Vec<u8>,
    spelling: &Spelling,
    insn: &Insn,
) -> Result<(), AllocError>
    ensures { OnOk result (out.new.items ≡ out.old.items ++ options_text spelling.now.kernel.now (spelling_of spelling.now) insn.now) }
{
    put(out, " {id=")?;
    put(out, insn.id.as_str())?;
    write_inames(out, spelling.kernel, insn.inames.as_slice())?;
    write_deps(out, insn.deps.as_slice())?;
    write_predicate(alloc, out, spelling, insn)?;
    put(out, "}\n")
}

/// Adds the line of an instruction.
#[tactic(auto, unfolding(crate::specs::KernelText::insn_line))]
pub fn write_insn(
    alloc: Global,
    out: &mut Vec<u8>,
    spelling: &Spelling,
    insn: &Insn,
) -> Result<(), AllocError>
    ensures { OnOk result (out.new.items ≡ out.old.items ++ insn_line spelling.now.kernel.now (spelling_of spelling.now) insn.now) }
{
    write_store(alloc, out, spelling, insn)?;
    write_options(alloc, out, spelling, insn)
}
