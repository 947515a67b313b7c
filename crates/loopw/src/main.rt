//! The program: its words and the real host, handed to the top call.
#![tactic(auto)]

use host_io::RealHost;
use loopw_core::top;
use std::alloc::{AllocError, Global};
use std::process::ExitCode;
use std::{env, io};

// The status where the runtime gives no words for want of memory, as that of the top call.
const NO_MEMORY: u8 = 5;
// The status where the runtime gives no words for another reason, such as a word that is no text.
const NO_WORDS: u8 = 6;

// The words without the program's own name.
fn words_of(alloc: Global, mut arguments: env::Args) -> Result<Vec<String>, AllocError> {
    arguments.next();
    arguments.collect(alloc)
}

fn main(rt: HostRuntime) -> ExitCode {
    let alloc = rt.alloc();
    let status = match env::args(&rt) {
        Ok(arguments) => match words_of(alloc, arguments) {
            Ok(words) => {
                let mut host = RealHost::new(rt);
                top(alloc, &words, &mut host)
            }
            Err(_) => NO_MEMORY,
        },
        Err(fault) if fault.kind() == io::ErrorKind::OutOfMemory => NO_MEMORY,
        Err(_) => NO_WORDS,
    };
    ExitCode::from(status)
}
