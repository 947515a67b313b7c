//! Refusals at places of a script.
use kernel_ir::{Fault, Refusal, Site};
use std::alloc::{AllocError, Global};

/// The refusal, or want of memory.
fn refused(refusal: Result<Refusal, AllocError>) -> Fault {
    match refusal {
        Ok(refusal) => Fault::Rule(refusal),
        Err(_) => Fault::OutOfMemory,
    }
}

/// The line of the byte behind these ones, counted from 1.
fn line_behind(bytes: &[u8]) -> u32 {
    let mut line = 1u32;
    for byte in bytes {
        if *byte == b'\n' {
            line = line.saturating_add(1);
        }
    }
    line
}

/// How many of these bytes stand behind the last line feed.
fn bytes_behind_feed(bytes: &[u8]) -> usize {
    let mut count = 0usize;
    for byte in bytes {
        count = if *byte == b'\n' {
            0
        } else {
            count.saturating_add(1)
        };
    }
    count
}

/// Rule 4: these bytes are the longest front with which some script begins. It keeps how many of them are of the last line.
pub(crate) fn syntax(alloc: Global, front: &[u8]) -> Fault {
    let refusal = Refusal::of_rule(alloc, Site::Script, 4)
        .at_line(line_behind(front))
        .with_number(bytes_behind_feed(front) as i128);
    refused(refusal)
}

/// Rule 3: the limit is passed at a line, or at none where it is 0.
pub(crate) fn limit(alloc: Global, line: u32, what: &str, limit: i128) -> Fault {
    match Refusal::limit(alloc, Site::Script, what, limit) {
        Ok(refusal) => Fault::Rule(refusal.at_line(line)),
        Err(_) => Fault::OutOfMemory,
    }
}
