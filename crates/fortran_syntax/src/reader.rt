//! The statements of a marked block, from the bytes of a file.
ghost use Rattle.std.specs.Prelude.{◌≤◌, length};

use crate::block::read_block;
use crate::lexeme::lexemes;
use crate::marks::block_text;
use crate::place::fault_at;
use crate::statement::Stated;
use affine_rows::Listed;
use kernel_expressions::stop::Stop;
use kernel_ir::{Fault, Refusal, Site};
use std::alloc::Global;
use text_reader::{Form, read_front};

/// A file has at most so many bytes.
const MAX_BYTES: usize = 1_048_576;

/// The statements of the block of a text, which is refused by rule 4 where it is none.
fn statements(alloc: Global, text: &[u8]) -> Result<Listed<Stated>, Fault>
    requires { length text.now ≤ 1048576 }
{
    let front = read_front(alloc, text, Form::Fortran)?;
    let lexemes = lexemes(alloc, text, &front.tokens)?;
    let end = front.place.at;
    let at = match read_block(alloc, &lexemes) {
        Ok(stated) if end >= text.len() => return Ok(stated),
        Ok(_) => lexemes.len(),
        Err(Stop::Refused { at }) => at,
        Err(Stop::OutOfMemory) => return Err(Fault::OutOfMemory),
    };
    Err(fault_at(alloc, text, &front.tokens, &lexemes, at, end)?)
}

/// The text of the marked block of a file.
fn marked_text(alloc: Global, bytes: &[u8]) -> Result<Vec<u8>, Fault> {
    if bytes.len() > MAX_BYTES {
        let refusal = Refusal::limit(alloc, Site::Kernel, "bytes", MAX_BYTES as i128)?;
        return Err(Fault::Rule(refusal));
    }
    match block_text(alloc, bytes)? {
        Some(text) => Ok(text),
        None => Err(Fault::Rule(Refusal::of_rule(alloc, Site::Kernel, 11))),
    }
}

/// The statements of the first marked block of a file. It is refused by rule 3 where it has more than 1,048,576 bytes; else by
/// rule 11 where it has no marked block; else by rule 4 where the block is none, with the line and the count of its bytes that
/// belong to the longest front with which some block begins.
pub fn read_statements(alloc: Global, bytes: &[u8]) -> Result<Listed<Stated>, Fault> {
    let text = marked_text(alloc, bytes)?;
    statements(alloc, &text[..text.len().min(MAX_BYTES)])
}
