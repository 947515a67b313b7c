//! Whole kernels.
ghost use Rattle.std.specs.Prelude.{◌≡◌, ◌++◌, flat_map, OnOk, IfOk};
ghost use Rattle.std.specs.Result.{IfErr};
ghost use Rattle.kernel_ir.specs.declared.fault.Fault.TheVariants.{OutOfMemory};
ghost use Rattle.kernel_printer.specs.KernelText.{array_line, declarations_text, extras_text, insn_line, kernel_text, lines_text, rule_line, tag_line, temp_line};
ghost use Rattle.kernel_printer.specs.Spelled.{spelling_of};

use crate::instructions::write_insn;
use crate::lines::{
    write_array, write_assume, write_domain, write_priority, write_rule, write_tag, write_temp,
};
use crate::spelling::{Spelling, kernel_order};
use kernel_ir::{Array, Fault, Iname, Insn, Kernel, SubstRule, Temp};
use std::alloc::{AllocError, Global};
use text_writer::put;

fn write_arrays(
    alloc: Global,
    out: &mut Vec<u8>,
    spelling: &Spelling,
    arrays: &[Array],
) -> Result<(), AllocError>
    ensures { OnOk result (out.new.items ≡ out.old.items ++ flat_map (array_line (spelling_of spelling.now)) arrays.now) }
{
    for array in arrays {
        write_array(alloc, out, spelling, array)?;
    }
    Ok(())
}

fn write_temps(out: &mut Vec<u8>, temps: &[Temp]) -> Result<(), AllocError>
    ensures { OnOk result (out.new.items ≡ out.old.items ++ flat_map temp_line temps.now) }
{
    for temp in temps {
        write_temp(out, temp)?;
    }
    Ok(())
}

fn write_rules(
    alloc: Global,
    out: &mut Vec<u8>,
    kernel: &Kernel,
    rules: &[SubstRule],
) -> Result<(), AllocError>
    ensures { OnOk result (out.new.items ≡ out.old.items ++ flat_map (rule_line kernel.now) rules.now) }
{
    for rule in rules {
        write_rule(alloc, out, kernel, rule)?;
    }
    Ok(())
}

fn write_insns(
    alloc: Global,
    out: &mut Vec<u8>,
    spelling: &Spelling,
    insns: &[Insn],
) -> Result<(), AllocError>
    ensures { OnOk result (out.new.items ≡ out.old.items ++ flat_map (insn_line spelling.now.kernel.now (spelling_of spelling.now)) insns.now) }
{
    for insn in insns {
        write_insn(alloc, out, spelling, insn)?;
    }
    Ok(())
}

fn write_tags(out: &mut Vec<u8>, kernel: &Kernel, inames: &[Iname]) -> Result<(), AllocError>
    ensures { OnOk result (out.new.items ≡ out.old.items ++ flat_map (tag_line kernel.now) inames.now) }
{
    for iname in inames {
        write_tag(out, kernel, *iname)?;
    }
    Ok(())
}

fn write_declarations(
    alloc: Global,
    out: &mut Vec<u8>,
    spelling: &Spelling,
) -> Result<(), AllocError>
    ensures { OnOk result (out.new.items ≡ out.old.items ++ declarations_text spelling.now.kernel.now (spelling_of spelling.now)) }
{
    let kernel = spelling.kernel;
    write_domain(alloc, out, spelling)?;
    write_assume(alloc, out, spelling)?;
    write_arrays(alloc, out, spelling, kernel.arrays.as_slice())?;
    write_temps(out, kernel.temps.as_slice())?;
    write_rules(alloc, out, kernel, kernel.rules.as_slice())
}

/// Adds what a file cannot say.
fn write_extras(alloc: Global, out: &mut Vec<u8>, kernel: &Kernel) -> Result<(), AllocError>
    ensures { OnOk result (out.new.items ≡ out.old.items ++ extras_text kernel.now) }
{
    write_tags(out, kernel, kernel.inames.as_slice())?;
    write_priority(alloc, out, kernel)
}

/// Adds all lines of a kernel.
fn write_lines(alloc: Global, out: &mut Vec<u8>, spelling: &Spelling) -> Result<(), AllocError>
    ensures { OnOk result (out.new.items ≡ out.old.items ++ lines_text spelling.now.kernel.now (spelling_of spelling.now)) }
{
    let kernel = spelling.kernel;
    put(out, "kernel 1\n")?;
    write_declarations(alloc, out, spelling)?;
    write_insns(alloc, out, spelling, kernel.insns.as_slice())?;
    write_extras(alloc, out, kernel)
}

/// The text of a kernel: a kernel file, with tags, priority and local marks in comments.
pub fn print_kernel(alloc: Global, kernel: &Kernel) -> Result<Vec<u8>, Fault>
    ensures text { IfOk result (λ out. out.items ≡ kernel_text kernel.now) }
    ensures fault { IfErr result (λ fault. fault ≡ OutOfMemory) }
{
    let order = kernel_order(alloc, kernel)?;
    let spelling = Spelling {
        kernel,
        order: &order,
    };
    let mut out = Vec::new(alloc);
    write_lines(alloc, &mut out, &spelling)?;
    Ok(out)
}
