//! The words of a call.
ghost use Rattle.std.specs.Prelude.{◌≡◌, [], ◌∷◌, ◌++◌, bytes_eq, IfOk, OnOk};
ghost use Rattle.std.specs.String.{string_bytes};
ghost use Rattle.kernel_ir.specs.declared.fault.Site.TheVariants.{Kernel, Args, Code, Schedule};
ghost use Rattle.loopw_core.specs.Words.{bytes_of_words, count_of, form_of, four_words, is_digit, script_sources, sources_of, target_of, three_words, two_words, with_command, with_first, with_second, with_third, word_at};

use code_tree::Target;
use kernel_ir::{Name, Site};
use std::alloc::{AllocError, Global};

/// What the words ask for. A generated input has its size, from 1 to 64.
#[derive(Clone, Copy, Debug, PartialEq, Eq)]
pub enum Form {
    Write(Target),
    Show,
    Eval,
    Run,
    Gen(u32),
}

/// A file that is read, and the site of what is refused in it.
#[derive(Drop)]
pub struct Source {
    pub site: Site,
    pub path: Name,
}

fn is(word: &String, text: &str) -> bool
    ensures { result ≡ bytes_eq (string_bytes word.now) text.now }
{
    word.as_str() == text
}

fn target_of(word: &String) -> Option<Target>
    ensures { result ≡ target_of (string_bytes word.now) }
{
    if is(word, "c") {
        Some(Target::C)
    } else if is(word, "opencl") {
        Some(Target::OpenCl)
    } else {
        None
    }
}

fn is_digit(least: u8, byte: u8) -> bool
    ensures { result ≡ is_digit least byte }
{
    least <= byte && byte <= b'9'
}

/// The number from 1 to 64 that the bytes are, without sign or leading zero.
fn count_of(bytes: &[u8]) -> Option<u32>
    ensures { result ≡ count_of bytes.now }
{
    match bytes {
        [ones] => {
            if is_digit(b'1', *ones) {
                Some(u32::from(*ones - b'0'))
            } else {
                None
            }
        }
        [tens, ones] => {
            if is_digit(b'1', *tens) && is_digit(b'0', *ones) {
                let count = 10 * u32::from(*tens - b'0') + u32::from(*ones - b'0');
                if count <= 64 { Some(count) } else { None }
            } else {
                None
            }
        }
        _ => None,
    }
}

fn two_words(command: &String, number: &String) -> Option<Form>
    ensures { result ≡ two_words (string_bytes command.now) (string_bytes number.now) }
{
    if is(command, "gen") {
        match count_of(number.as_bytes()) {
            Some(count) => Some(Form::Gen(count)),
            None => None,
        }
    } else {
        None
    }
}

fn three_words(command: &String) -> Option<Form>
    ensures { result ≡ three_words (string_bytes command.now) }
{
    if is(command, "show") {
        Some(Form::Show)
    } else if is(command, "eval") {
        Some(Form::Eval)
    } else {
        None
    }
}

fn four_words(command: &String, target: &String) -> Option<Form>
    ensures { result ≡ four_words (string_bytes command.now) (string_bytes target.now) }
{
    if is(command, "write") {
        match target_of(target) {
            Some(target) => Some(Form::Write(target)),
            None => None,
        }
    } else if is(command, "run") {
        Some(Form::Run)
    } else {
        None
    }
}

fn with_third(command: &String, target: &String, more: &[String]) -> Option<Form>
    ensures { result ≡ with_third (string_bytes command.now) (string_bytes target.now) (bytes_of_words more.now) }
{
    match more {
        [] => four_words(command, target),
        [_, ..] => None,
    }
}

fn with_second(command: &String, target: &String, more: &[String]) -> Option<Form>
    ensures { result ≡ with_second (string_bytes command.now) (string_bytes target.now) (bytes_of_words more.now) }
{
    match more {
        [] => three_words(command),
        [_, more @ ..] => with_third(command, target, more),
    }
}

fn with_first(command: &String, first: &String, more: &[String]) -> Option<Form>
    ensures { result ≡ with_first (string_bytes command.now) (string_bytes first.now) (bytes_of_words more.now) }
{
    match more {
        [] => two_words(command, first),
        [_, more @ ..] => with_second(command, first, more),
    }
}

fn with_command(command: &String, more: &[String]) -> Option<Form>
    ensures { result ≡ with_command (string_bytes command.now) (bytes_of_words more.now) }
{
    match more {
        [] => None,
        [first, more @ ..] => with_first(command, first, more),
    }
}

/// What the words ask for, where they are of a form.
pub(crate) fn form_of(words: &[String]) -> Option<Form>
    ensures { result ≡ form_of (bytes_of_words words.now) }
{
    match words {
        [] => None,
        [command, more @ ..] => with_command(command, more),
    }
}

fn word_at(alloc: Global, words: &[String], at: usize) -> Result<Name, AllocError>
    ensures { IfOk result (λ word. word ≡ word_at (bytes_of_words words.now) at) }
{
    match words.get(at) {
        Some(word) => Name::from_str(alloc, word.as_str()),
        None => Name::from_str(alloc, ""),
    }
}

/// Adds the file of a script. The word `-` is no file.
fn add_script(path: Name, sources: &mut Vec<Source>) -> Result<(), AllocError>
    ensures { OnOk result (sources.new.items ≡ sources.old.items ++ script_sources path) }
{
    if path.as_str() != "-" {
        sources.push(Source {
            site: Site::Script,
            path,
        })?;
    }
    Ok(())
}

/// Adds a file that is named by a word.
fn add_file(
    alloc: Global,
    words: &[String],
    at: usize,
    site: Site,
    sources: &mut Vec<Source>,
) -> Result<(), AllocError>
    ensures { OnOk result (sources.new.items ≡ sources.old.items ++ record { site = site; path = word_at (bytes_of_words words.now) at } ∷ []) }
{
    let path = word_at(alloc, words, at)?;
    sources.push(Source { site, path })?;
    Ok(())
}

/// A kernel file and the file of a script, if there is one.
fn kernel_and_script(
    alloc: Global,
    words: &[String],
    kernel: usize,
    script: usize,
) -> Result<Vec<Source>, AllocError>
    ensures { IfOk result (λ sources. sources.items ≡ record { site = Kernel; path = word_at (bytes_of_words words.now) kernel } ∷ script_sources (word_at (bytes_of_words words.now) script)) }
{
    let mut sources = Vec::new(alloc);
    add_file(alloc, words, kernel, Site::Kernel, &mut sources)?;
    let path = word_at(alloc, words, script)?;
    add_script(path, &mut sources)?;
    Ok(sources)
}

/// The kernel file and its arguments.
fn kernel_and_args(alloc: Global, words: &[String]) -> Result<Vec<Source>, AllocError>
    ensures { IfOk result (λ sources. sources.items ≡ record { site = Kernel; path = word_at (bytes_of_words words.now) 1 } ∷ record { site = Args; path = word_at (bytes_of_words words.now) 2 } ∷ []) }
{
    let mut sources = Vec::new(alloc);
    add_file(alloc, words, 1, Site::Kernel, &mut sources)?;
    add_file(alloc, words, 2, Site::Args, &mut sources)?;
    Ok(sources)
}

/// The code file, its arguments and the schedule.
fn code_and_args(alloc: Global, words: &[String]) -> Result<Vec<Source>, AllocError>
    ensures { IfOk result (λ sources. sources.items ≡ record { site = Code; path = word_at (bytes_of_words words.now) 1 } ∷ record { site = Args; path = word_at (bytes_of_words words.now) 2 } ∷ record { site = Schedule; path = word_at (bytes_of_words words.now) 3 } ∷ []) }
{
    let mut sources = Vec::new(alloc);
    add_file(alloc, words, 1, Site::Code, &mut sources)?;
    add_file(alloc, words, 2, Site::Args, &mut sources)?;
    add_file(alloc, words, 3, Site::Schedule, &mut sources)?;
    Ok(sources)
}

/// The files that are read, in their order.
pub(crate) fn sources_of(
    alloc: Global,
    form: Form,
    words: &[String],
) -> Result<Vec<Source>, AllocError>
    ensures { IfOk result (λ sources. sources.items ≡ sources_of form (bytes_of_words words.now)) }
{
    match form {
        Form::Write(_) => kernel_and_script(alloc, words, 2, 3),
        Form::Show => kernel_and_script(alloc, words, 1, 2),
        Form::Eval => kernel_and_args(alloc, words),
        Form::Run => code_and_args(alloc, words),
        Form::Gen(_) => Ok(Vec::new(alloc)),
    }
}
