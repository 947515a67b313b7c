//! Refusals as lines of text.
ghost use Rattle.std.specs.Prelude.{◌≡◌, ◌++◌, IfOk, OnOk};
ghost use Rattle.std.specs.String.{string_bytes};
ghost use Rattle.refusal_lines.specs.Lines.{head_of, line_text, refusal_line, site_text, spaced, word_text};

use crate::keeping::kept_words;
use crate::rules::name_of_rule;
use kernel_ir::{Name, Refusal, Site};
use std::alloc::{AllocError, Global};

fn name_of_site(site: Site) -> &'static str
    ensures { result.now ≡ site_text site }
{
    match site {
        Site::Kernel => "kernel",
        Site::Script => "script",
        Site::Target => "target",
        Site::Args => "args",
        Site::Code => "code",
        Site::Schedule => "schedule",
    }
}

fn line_number(alloc: Global, line: u32) -> Result<String, AllocError>
    ensures { IfOk result (λ text. string_bytes text ≡ line_text line) }
{
    if line == 0 {
        Ok(String::new(alloc))
    } else {
        format!(in alloc; " line {line}")
    }
}

fn word_behind(alloc: Global, word: &str) -> Result<String, AllocError>
    ensures { IfOk result (λ text. string_bytes text ≡ word_text word.now) }
{
    if word.is_empty() {
        Ok(String::new(alloc))
    } else {
        format!(in alloc; " {word}")
    }
}

fn head(alloc: Global, site: Site, line: u32, word: &str, number: u8) -> Result<String, AllocError>
    ensures { IfOk result (λ text. string_bytes text ≡ head_of site line word.now number) }
{
    let place = line_number(alloc, line)?;
    let behind = word_behind(alloc, word)?;
    let middle = format!(in alloc; ": rule {number} ")?;
    let mut text = String::from_str(alloc, name_of_site(site))?;
    text.push_str(place.as_str())?;
    text.push_str(behind.as_str())?;
    text.push_str(middle.as_str())?;
    text.push_str(name_of_rule(number))?;
    text.push_str(":")?;
    Ok(text)
}

fn push_words(line: &mut String, words: &[Name]) -> Result<(), AllocError>
    ensures { OnOk result (string_bytes line.new ≡ string_bytes line.old ++ spaced words.now) }
{
    match words {
        [] => Ok(()),
        [word, rest @ ..] => {
            line.push_str(" ")?;
            line.push_str(word.as_str())?;
            push_words(line, rest)
        }
    }
}

/// The line of a refusal, with its line feed. Behind the site and its line stands the word: the command of a script's
/// line or the target, or nothing where it is empty. It fails only for want of memory.
#[tactic(auto, unfolding(crate::specs::Lines::refusal_line))]
pub fn refusal_text(alloc: Global, refusal: &Refusal, word: &str) -> Result<String, AllocError>
    ensures { IfOk result (λ line. string_bytes line ≡ refusal_line refusal.now word.now) }
{
    let kept = kept_words(alloc, refusal)?;
    let mut line = head(alloc, refusal.site, refusal.line, word, refusal.number)?;
    push_words(&mut line, &kept)?;
    line.push_str("\n")?;
    Ok(line)
}
