//! The reader of marked blocks.
ghost use Rattle.std.specs.Prelude.{◌<◌, ◌^◌, ◌-◌, length};

use crate::homes::check_temps;
use crate::lines::{BlockText, lines_of};
use crate::places::{placed_fault, placed_kernel};
use fortran_syntax::read_statements;
use kernel_files::read_entries;
use kernel_grammar::KernelFile;
use kernel_ir::{Fault, Kernel, Refusal, Site};
use kernel_reader::kernel_of_file;
use kernel_syntax::read_syntax;
use std::alloc::{AllocError, Global};
use text_reader::TextFault;

/// The text of a block's kernel file is never so long.
const MAX_BYTES: usize = 4_294_967_294;

/// Rule 4 at a line of the text.
fn syntax_at(alloc: Global, line: u32) -> Result<Fault, AllocError> {
    let refusal = Refusal::of_rule(alloc, Site::Kernel, 4).with_number(0)?;
    Ok(Fault::Rule(refusal.at_line(line)))
}

/// A fault of the text, which is always one of a kernel file.
fn text_fault(alloc: Global, fault: TextFault) -> Result<Fault, AllocError> {
    match fault {
        TextFault::OutOfMemory => Ok(Fault::OutOfMemory),
        TextFault::Syntax { line, .. } => syntax_at(alloc, line),
        TextFault::Limit { line } => syntax_at(alloc, line),
    }
}

/// Refuses lines, and then temporaries.
fn check_file(alloc: Global, file: &KernelFile) -> Result<(), Fault> {
    match read_entries(alloc, file) {
        Ok(_) => check_temps(alloc, file.entries.as_slice()),
        Err(fault) => Err(fault),
    }
}

/// The kernel of a text, at the lines of the text.
fn kernel_of_text(alloc: Global, text: &[u8]) -> Result<Kernel, Fault>
    requires { length text.now < 2 ^ 32 - 1 }
{
    match read_syntax(alloc, text) {
        Ok(file) => match check_file(alloc, &file) {
            Ok(()) => kernel_of_file(alloc, &file),
            Err(fault) => Err(fault),
        },
        Err(fault) => Err(text_fault(alloc, fault)?),
    }
}

/// The kernel of a block's text.
fn kernel_of_block(alloc: Global, block: &BlockText) -> Result<Kernel, Fault> {
    let end = block.text.len().min(MAX_BYTES);
    match kernel_of_text(alloc, &block.text[..end]) {
        Ok(kernel) => Ok(placed_kernel(alloc, &block.lines, kernel)?),
        Err(fault) => Err(placed_fault(&block.lines, fault)),
    }
}

/// The kernel of the first marked block of a Fortran file, with the kinds of its temporaries. Each statement depends on all
/// earlier ones and has the inames of all loops round it, so that the block's own order is one of the kernel's.
///
/// The first of these that holds refuses: rule 3, more than 1,048,576 bytes; rule 11, the file has no marked block; rule 4, the
/// text is no block after so many bytes of a line; line by line, of one item in this order, rule 3, a limit, rule 1, a name that
/// is unknown there, rule 2, a name that is taken, and rule 6, what is no index expression; rule 13, at the first statement that
/// mentions it, a temporary that this statement does not make for all others; and then the rules of kernel files over the whole
/// kernel: 3, what passes a limit, and 9, another kind than is asked. `OutOfMemory` may come in place of any answer.
pub fn read_marked(alloc: Global, bytes: &[u8]) -> Result<Kernel, Fault> {
    match read_statements(alloc, bytes) {
        Ok(stated) => {
            let block = lines_of(alloc, stated)?;
            kernel_of_block(alloc, &block)
        }
        Err(fault) => Err(fault),
    }
}
