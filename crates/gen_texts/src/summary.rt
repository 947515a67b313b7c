//! What is counted of a job.
use std::alloc::{AllocError, Global};

/// The counts of instructions and commands, and of loops and lines of the code.
#[derive(Clone, Copy)]
pub struct Summary {
    pub insns: u32,
    pub commands: u32,
    pub loops: u32,
    pub lines: u32,
}

/// The bytes behind blanks at the front.
fn without_blanks(line: &[u8]) -> &[u8] {
    for at in 0..line.len() {
        if line[at] != b' ' {
            return &line[at..];
        }
    }
    &[]
}

/// Whether a line begins a loop.
fn is_loop(line: &[u8]) -> bool {
    without_blanks(line).starts_with(b"for ")
}

/// The count of lines that begin a loop.
fn loop_count(code: &[u8]) -> u32 {
    let mut count = 0u32;
    for line in code.split(|byte| *byte == b'\n') {
        if is_loop(line) {
            count = count.saturating_add(1);
        }
    }
    count
}

/// The count of line feeds.
fn line_count(code: &[u8]) -> u32 {
    let mut count = 0u32;
    for byte in code {
        if *byte == b'\n' {
            count = count.saturating_add(1);
        }
    }
    count
}

/// The counts of a code.
pub fn count_code(insns: u32, commands: u32, code: &[u8]) -> Summary {
    Summary {
        insns,
        commands,
        loops: loop_count(code),
        lines: line_count(code),
    }
}

/// The line that tells the counts.
pub fn summary_line(alloc: Global, number: u32, summary: Summary) -> Result<String, AllocError> {
    let Summary {
        insns,
        commands,
        loops,
        lines,
    } = summary;
    format!(in alloc;
        "gen {number}: instructions {insns}, commands {commands}, loops {loops}, lines {lines}\n"
    )
}
