//! Scripts from their bytes.
ghost use Rattle.std.specs.Prelude.{◌≤◌, length};

use crate::command::Command;
use crate::draft::Draft;
use crate::line::read_command;
use crate::places::{limit, syntax};
use affine_rows::Listed;
use kernel_ir::Fault;
use std::alloc::Global;
use text_reader::{Class, Form, Token, read_front};

/// A script has at most so many bytes.
const MAX_BYTES: usize = 1_048_576;

/// A script has at most so many commands.
const MAX_COMMANDS: usize = 256;

/// The greatest number of a script.
const LARGEST_NUMBER: i128 = 18_446_744_073_709_551_615;

/// The commands of the lines that say something, as they are written.
fn read_lines(alloc: Global, bytes: &[u8], tokens: &[Token]) -> Result<Listed<Draft>, Fault> {
    let mut drafts = Listed::new(alloc);
    for words in tokens.split(|token| token.class == Class::LineEnd) {
        if let [first, rest @ ..] = words {
            drafts.push(read_command(alloc, bytes, *first, rest)?)?;
        }
    }
    Ok(drafts)
}

/// The commands as they are written; rule 4 refuses a text that is no script.
fn read_drafts(alloc: Global, bytes: &[u8]) -> Result<Listed<Draft>, Fault>
    requires { length bytes.now ≤ 1048576 }
{
    let front = read_front(alloc, bytes, Form::Words)?;
    let drafts = read_lines(alloc, bytes, &front.tokens)?;
    if front.place.at < bytes.len() {
        return Err(syntax(alloc, &bytes[..front.place.at]));
    }
    Ok(drafts)
}

/// The commands, of which rule 3 refuses one past the 256th, or with too large a number.
fn commands_of(alloc: Global, drafts: Listed<Draft>) -> Result<Listed<Command>, Fault> {
    let mut commands = Listed::new(alloc);
    for draft in drafts.into_vec() {
        let line = draft.line;
        if commands.len() >= MAX_COMMANDS {
            return Err(limit(alloc, line, "lines", MAX_COMMANDS as i128));
        }
        match draft.command()? {
            Some(command) => commands.push(command)?,
            None => return Err(limit(alloc, line, "number", LARGEST_NUMBER)),
        }
    }
    Ok(commands)
}

/// The commands of a script. It is refused by rule 3 where it has more than 1,048,576 bytes; else by rule 4 where it is no
/// script, with the line and the count of its bytes that belong to the longest front with which some script begins; else by
/// rule 3 at the first line that is past 256 commands or has a number past 18446744073709551615.
pub fn read_script(alloc: Global, bytes: &[u8]) -> Result<Listed<Command>, Fault> {
    if bytes.len() > MAX_BYTES {
        return Err(limit(alloc, 0, "bytes", MAX_BYTES as i128));
    }
    let drafts = read_drafts(alloc, bytes)?;
    commands_of(alloc, drafts)
}
