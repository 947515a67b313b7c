//! The top call.
ghost use Rattle.std.specs.Prelude.{◌≡◌, ◌≢◌, ◌↔◌, ◌≤◌, None, IfOk, IfErr};
ghost use Rattle.loopw_core.specs.Words.{bytes_of_words, form_of, sources_of};
ghost use Rattle.loopw_core.specs.Lines.{usage_line};
ghost use Rattle.loopw_core.specs.Ends.{Completes, Ends, FailsToRead, FailsToWrite, Gives, IsRefused, OfWords, Prepares, Says, Stops, Tells, WantsMemory, WritesText};

use crate::lines::{read_fault, usage};
use crate::reading::read_sources;
use crate::stop::Stop;
use crate::texts::text_for;
use crate::words::{Form, form_of, sources_of};
use affine_rows::Listed;
use host_io::{Host, write_all, write_all_err};
use refusal_lines::refusal_text;
use std::alloc::Global;

const DONE: u8 = 0;

const REFUSED: u8 = 1;

const NO_FORM: u8 = 2;

const READ_FAULT: u8 = 3;

const WRITE_FAULT: u8 = 4;

const NO_MEMORY: u8 = 5;

// Writes a line on err, as far as it goes.
fn say<H: Host>(host: &mut H, line: &[u8])
    ensures { Says (H.told host.old) (H.told host.new) line.now }
{
    let _ = write_all_err(host, line);
}

/// Says why there is no text.
fn tell<H: Host>(alloc: Global, stop: &Stop, host: &mut H) -> u8
    ensures { Tells stop.now result (H.told host.old) (H.told host.new) }
{
    match stop {
        Stop::OutOfMemory => NO_MEMORY,
        Stop::Unread(name) => match read_fault(alloc, name.as_str()) {
            Ok(line) => {
                say(host, line.as_bytes());
                READ_FAULT
            }
            Err(_) => NO_MEMORY,
        },
        Stop::Refused(refusal, word) => match refusal_text(alloc, refusal, word.as_str()) {
            Ok(line) => {
                say(host, line.as_bytes());
                REFUSED
            }
            Err(_) => NO_MEMORY,
        },
    }
}

/// Writes the text on out.
fn give<H: Host>(text: &[u8], host: &mut H) -> u8
    ensures { Gives text.now result (H.told host.old) (H.told host.new) }
{
    match write_all(host, text) {
        Ok(()) => DONE,
        Err(_) => WRITE_FAULT,
    }
}

/// Reads the files that the words name, and makes the text for them.
fn prepare<H: Host>(
    alloc: Global,
    form: Form,
    words: &[String],
    host: &mut H,
) -> Result<Vec<u8>, Stop>
    ensures text { IfOk result (λ text. Prepares form (H.told host.old) (H.told host.new) (sources_of form (bytes_of_words words.now)) text.items) }
    ensures stop { IfErr result (λ stop. Stops form (H.told host.old) (H.told host.new) (sources_of form (bytes_of_words words.now)) stop) }
{
    let sources = sources_of(alloc, form, words)?;
    let mut files = Listed::new(alloc);
    read_sources(alloc, &sources, host, &mut files)?;
    let text = text_for(alloc, form, files.as_slice())?;
    Ok(text)
}

fn perform<H: Host>(alloc: Global, form: Form, words: &[String], host: &mut H) -> u8
    ensures { Ends result (H.told host.old) (H.told host.new) form (sources_of form (bytes_of_words words.now)) }
{
    match prepare(alloc, form, words, host) {
        Ok(text) => give(&text, host),
        Err(stop) => tell(alloc, &stop, host),
    }
}

/// Does what the words ask over the host, and answers the status: 0 done, 1 refused by a rule, 2 words of no form, 3 an
/// open or a read failed, 4 a write on out failed, 5 want of memory.
pub fn top<H: Host>(alloc: Global, words: &[String], host: &mut H) -> u8
    ensures known { result ≤ 5 }

    // 2 exactly where the words are of no form; the usage line is then said, and nothing else done.
    ensures words { (result ≡ 2) ↔ (form_of (bytes_of_words words.now) ≡ None) }
    ensures usage { result ≡ 2 → Says (H.told host.old) (H.told host.new) usage_line }

    // Where the status is 0, out has grown by exactly the text for the files: that of a code tree for `write`, and where
    // the kernel file is of the one form of five lines, of code that is right for it; that of a kernel for `show`.
    ensures done { result ≡ 0 → OfWords (bytes_of_words words.now) (WritesText (H.told host.old) (H.told host.new)) }
    ensures refused { result ≡ 1 → OfWords (bytes_of_words words.now) (IsRefused (H.told host.old) (H.told host.new)) }
    ensures read_fault { result ≡ 3 → OfWords (bytes_of_words words.now) (FailsToRead (H.told host.old) (H.told host.new)) }
    ensures write_fault { result ≡ 4 → OfWords (bytes_of_words words.now) (FailsToWrite (H.told host.old) (H.told host.new)) }
    ensures no_memory { result ≡ 5 → OfWords (bytes_of_words words.now) (WantsMemory (H.told host.old) (H.told host.new)) }

    // Where a count grew, the status says so, want of memory aside.
    ensures read_count { result ≢ 3 → result ≢ 5 → (H.told host.new).read_faults ≡ (H.told host.old).read_faults }
    ensures out_count { result ≢ 4 → (H.told host.new).out_faults ≡ (H.told host.old).out_faults }

    // A well-formed kernel of the one form over a host without a fault is written, or memory is wanting.
    ensures complete { Completes result (H.told host.old) (H.told host.new) (bytes_of_words words.now) }
{
    match form_of(words) {
        Some(form) => perform(alloc, form, words, host),
        None => {
            say(host, usage().as_bytes());
            NO_FORM
        }
    }
}
