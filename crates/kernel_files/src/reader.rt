//! The syntax of kernel files, from their bytes.
ghost use Rattle.std.specs.Prelude.{◌≡◌, ◌≤◌, length, IfOk, OnOk};
ghost use Rattle.kernel_grammar.specs.Files.{IsKernelFile};
ghost use Rattle.kernel_ir.specs.Refusals.{Refuses};
ghost use Rattle.subst_rules.specs.Refused.{RefusesAs};
ghost use Rattle.kernel_files.specs.Reading.{bytes_refusal, front_refusal, syntax_refusal, IsFileRefusal};

use crate::files::read_entries;
use crate::first_line::check_form;
use kernel_grammar::KernelFile;
use kernel_ir::{Fault, Kernel, Refusal, Site};
use kernel_syntax::read_syntax;
use std::alloc::{AllocError, Global};
use text_reader::TextFault;

/// The most bytes of a file.
const MAX_BYTES: usize = 1_048_576;

/// Refuses a file that is too long.
fn check_length(alloc: Global, bytes: &[u8]) -> Result<(), Fault>
    ensures refused { Refuses (bytes_refusal bytes.now) result }
    ensures within { OnOk result (length bytes.now ≤ 1048576) }
{
    if bytes.len() <= MAX_BYTES {
        return Ok(());
    }
    let refusal = Refusal::limit(alloc, Site::Kernel, "bytes", 1_048_576)?;
    Err(Fault::Rule(refusal))
}

/// Refuses a file that is too long, or else one of another form.
fn check_front(alloc: Global, bytes: &[u8]) -> Result<(), Fault>
    ensures refused { Refuses (front_refusal bytes.now) result }
    ensures within { OnOk result (length bytes.now ≤ 1048576) }
{
    check_length(alloc, bytes)?;
    check_form(alloc, bytes)
}

/// Rule 4: the text is no kernel file after so many bytes of a line.
fn syntax_refusal(alloc: Global, line: u32, count: u32) -> Result<Refusal, AllocError>
    ensures { IfOk result (λ r. r ≡ syntax_refusal line count) }
{
    let refusal = Refusal::of_rule(alloc, Site::Kernel, 4).with_number(count as i128)?;
    Ok(refusal.at_line(line))
}

/// The syntax of the bytes of a kernel file. They are refused by rule 3 where they are more than 1,048,576; else by rule 5 where
/// their first line that says something is not `kernel 1`, with that line and its first word; else by rule 4 where they are no
/// kernel file, with the line and the count of its bytes that belong to the longest front with which some kernel file begins.
pub fn read_file(alloc: Global, bytes: &[u8]) -> Result<KernelFile, Fault>
    ensures read { IfOk result (IsKernelFile bytes.now) }
    ensures refused { RefusesAs (IsFileRefusal bytes.now) result }
{
    check_front(alloc, bytes)?;
    match read_syntax(alloc, bytes) {
        Ok(file) => Ok(file),
        Err(TextFault::Syntax { line, bytes: count }) => {
            let refusal = syntax_refusal(alloc, line, count)?;
            Err(Fault::Rule(refusal))
        }
        Err(TextFault::Limit { .. }) => unreachable!(),
        Err(TextFault::OutOfMemory) => Err(Fault::OutOfMemory),
    }
}
