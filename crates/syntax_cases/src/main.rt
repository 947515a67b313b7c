//! Reads kernel files from its input, with a line `----` between each two, and prints of each how many of its lines say something, or
//! where it stops being a kernel file.
#![tactic(auto)]

ghost use Rattle.std.specs.Prelude.{◌<◌, ◌-◌, ◌^◌, length};

use kernel_syntax::read_syntax;
use std::io::{self, Read};
use text_reader::TextFault;

/// The longest file that is read, in bytes.
const MAX_BYTES: usize = 1_048_576;

/// Prints what is read of a file.
fn tell(rt: &HostRuntime, bytes: &[u8]) -> io::Result<()> {
    if bytes.len() > MAX_BYTES {
        return println!(rt; "more than {MAX_BYTES} bytes");
    }
    match read_syntax(rt.alloc(), bytes) {
        Ok(file) => println!(rt; "{} lines behind the first", file.entries.len()),
        Err(TextFault::Syntax { line, bytes }) => println!(rt; "line {line}: after {bytes} bytes"),
        Err(TextFault::Limit { line }) => println!(rt; "line {line}: a number"),
        Err(TextFault::OutOfMemory) => println!(rt; "out of memory"),
    }
}

fn main(rt: HostRuntime) -> io::Result<()> {
    let mut text = Vec::new(rt.alloc());
    rt.stdin().read_to_end(&mut text)?;
    let mut file = Vec::new(rt.alloc());
    let mut is_begun = false;
    for line in text.split(|byte| *byte == b'\n') {
        if line == b"----".as_slice() {
            tell(&rt, &file)?;
            file.clear();
            is_begun = false;
        } else {
            if is_begun {
                file.push(b'\n')?;
            }
            file.extend_from_slice(line)?;
            is_begun = true;
        }
    }
    tell(&rt, &file)
}
