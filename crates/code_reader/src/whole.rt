//! Whole codes.
use crate::cells::read_locals;
use crate::launch::{read_launch, skip_title};
use crate::signature::read_signature;
use crate::statements::read_body;
use affine_rows::Listed;
use code_grammar::{Limit, Passed, Reader, Stop};
use code_text::{write_axes, write_prelude};
use code_tree::{Code, CodeCell, Target};
use kernel_ir::{Fault, Refusal, Site};
use std::alloc::{AllocError, Global};
use std::mem;

/// The most bytes of a file.
const MAX_BYTES: usize = 1_048_576;

/// The functions that a text may call.
fn take_prelude(reader: &mut Reader) -> Result<(), Stop> {
    let mut written = Vec::new(reader.alloc);
    write_prelude(&mut written, reader.target)?;
    reader.take_bytes(&written)
}

/// The lines of the axes, which are variables from here on.
fn take_axes(reader: &mut Reader) -> Result<(), Stop> {
    let mut written = Vec::new(reader.alloc);
    write_axes(&mut written, reader.target)?;
    reader.take_bytes(&written)?;
    Ok(reader.declare_axes()?)
}

/// The axes and the local cells, before a body.
fn read_opening(reader: &mut Reader) -> Result<Listed<CodeCell>, Stop> {
    match reader.target {
        Target::C => Ok(Listed::new(reader.alloc)),
        Target::OpenCl => {
            take_axes(reader)?;
            read_locals(reader)
        }
    }
}

/// The last line feed may be missing, and nothing follows it.
fn take_end(reader: &mut Reader) -> Result<(), Stop> {
    let _ended = reader.takes("\n");
    if reader.rest.is_empty() {
        Ok(())
    } else {
        Err(Stop::Refused)
    }
}

/// The code of a text. Limits that it passes are kept in the reader.
fn read_text<'a>(reader: &mut Reader<'a>, bytes: &'a [u8]) -> Result<Code, Stop> {
    let alloc = reader.alloc;
    skip_title(reader)?;
    take_prelude(reader)?;
    let params = read_signature(reader)?;
    let launch = read_launch(reader, bytes)?;
    reader.take("{\n")?;
    let locals = read_opening(reader)?;
    let body = read_body(reader)?;
    take_end(reader)?;
    let (g0, g1, g2) = launch.groups;
    let (l0, l1, l2) = launch.items;
    Ok(Code {
        target: reader.target,
        names: mem::replace(&mut reader.names, Listed::new(alloc)),
        params,
        arrays: mem::replace(&mut reader.arrays, Listed::new(alloc)),
        g0,
        g1,
        g2,
        l0,
        l1,
        l2,
        locals,
        flats: mem::replace(&mut reader.flats, Listed::new(alloc)),
        body,
    })
}

/// Rule 4: no text of the grammar goes on past this place.
fn syntax(reader: &Reader) -> Result<Refusal, AllocError> {
    Refusal::of_rule(reader.alloc, Site::Code, 4)
        .at_line(reader.line)
        .with_number(i128::from(reader.column))
}

/// Rule 3: a line passes a limit.
fn limit(alloc: Global, passed: Passed) -> Result<Refusal, AllocError> {
    let (word, most) = match passed.limit {
        Limit::Depth => ("depth", 64),
        Limit::Number => ("number", i128::from(u64::MAX)),
        Limit::Form => ("form", 1 << 62),
    };
    Ok(Refusal::limit(alloc, Site::Code, word, most)?.at_line(passed.line))
}

/// The code of a text of `write_c` or `write_opencl`, whose last line feed may be missing. Rule 3 comes first where there are
/// more than 1,048,576 bytes. Then rule 4 comes where the bytes are no text of a code in normal form, with the line, and the
/// count of its bytes up to which some such text begins with the same bytes. Then rule 3 comes where a line passes a limit, at
/// the first such line: a depth of 64, a number of 2^64 - 1, or a sum or a constant of a form of 2^62, in this order.
pub fn read_code(alloc: Global, bytes: &[u8]) -> Result<Code, Fault> {
    if bytes.len() > MAX_BYTES {
        return Err(Fault::Rule(Refusal::limit(alloc, Site::Code, "bytes", 1_048_576)?));
    }
    let mut reader = Reader::new(alloc, bytes);
    match read_text(&mut reader, bytes) {
        Ok(code) => match reader.passed {
            None => Ok(code),
            Some(passed) => Err(Fault::Rule(limit(alloc, passed)?)),
        },
        Err(Stop::OutOfMemory) => Err(Fault::OutOfMemory),
        Err(Stop::Refused) => {
            reader.skip_agreed();
            Err(Fault::Rule(syntax(&reader)?))
        }
    }
}
