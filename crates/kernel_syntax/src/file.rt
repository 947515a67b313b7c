//! Whole files.
ghost use Rattle.std.specs.Prelude.{◌≡◌, ◌+◌, ◌<◌, ◌≤◌, [], length, IfOk, MatchOption};
ghost use Rattle.std.specs.Result.{IfErr};
ghost use Rattle.kernel_grammar.specs.Files.{file_of, file_text, lines_text};
ghost use Rattle.kernel_grammar.specs.Lexicals.{key, line_end};
ghost use Rattle.kernel_expressions.specs.Reads.{IsItem, Next, Reads};
ghost use Rattle.kernel_expressions.specs.Texts.{texts, IsFit};
ghost use Rattle.kernel_expressions.specs.Settled.{AnyRest, Ends, Halts, NoneNext, Spells, Stops};
ghost use Rattle.kernel_syntax.specs.FileParts.{ended_text, head_text, AreLines, IsEnded, RefusesFile};
ghost use Rattle.kernel_syntax.specs.Parts.{Is};

use crate::lines::line;
use affine_rows::Listed;
use kernel_expressions::ahead::{digits, lexeme_at};
use kernel_expressions::key::Key;
use kernel_expressions::lexeme::Lexeme;
use kernel_expressions::stop::Stop;
use kernel_grammar::{Entry, Item, KernelFile};
use std::alloc::Global;

/// The place behind the end of a line, if one stands there.
fn behind_end(lexemes: &[Lexeme], at: usize) -> Option<usize>
    ensures { MatchOption result (Next (texts lexemes.now) at line_end → ⊥) (λ next. (next ≡ at + 1) × Next (texts lexemes.now) at line_end) }
{
    match lexeme_at(lexemes, at) {
        Some(Lexeme::LineEnd) => Some(at + 1),
        _ => None,
    }
}

/// Reads the end of a line.
fn end_of_line(lexemes: &[Lexeme], at: usize) -> Result<usize, Stop>
    ensures read { IfOk result (λ next. (next ≡ at + 1) × Next (texts lexemes.now) at line_end) }
    ensures stops { IfErr result (Halts (NoneNext (texts lexemes.now) at (λ x. x ≡ line_end))) }
{
    behind_end(lexemes, at).ok_or(Stop::Refused { at })
}

/// The place behind `kernel`, if it stands there.
fn behind_kernel(lexemes: &[Lexeme], at: usize) -> Option<usize>
    ensures { MatchOption result (Next (texts lexemes.now) at (key "kernel") → ⊥) (λ next. (next ≡ at + 1) × Next (texts lexemes.now) at (key "kernel")) }
{
    match lexeme_at(lexemes, at) {
        Some(Lexeme::Key(Key::Kernel)) => Some(at + 1),
        _ => None,
    }
}

/// Reads `kernel 1` and the end of its line.
fn head(lexemes: &[Lexeme], at: usize) -> Result<usize, Stop>
    ensures read { IfOk result (λ next. Reads (texts lexemes.now) at next (Is head_text)) }
    ensures ends { IfOk result (λ next. Ends (texts lexemes.now) (Is head_text) AnyRest at next) }
    ensures stops { at ≤ length (texts lexemes.now) → IfErr result (Halts (Stops (texts lexemes.now) (Is head_text) AnyRest at)) }
{
    let Some(next) = behind_kernel(lexemes, at) else {
        return Err(Stop::Refused { at });
    };
    let (digits, behind) = digits(lexemes, next)?;
    if digits != b"1".as_slice() {
        return Err(Stop::Refused { at: next });
    }
    end_of_line(lexemes, behind)
}

/// Reads a line with its end, and answers what it says, unless it says nothing.
fn ended_line(alloc: Global, lexemes: &[Lexeme], at: usize) -> Result<(Option<Item>, usize), Stop>
    requires { at ≤ length (texts lexemes.now) }
    ensures on { IfOk result (λ read. at < read.1) }
    ensures read { IfOk result (λ read. Reads (texts lexemes.now) at read.1 (IsEnded (IsFit (texts lexemes.now)) read.0)) }
    ensures ends { IfOk result (λ read. Ends (texts lexemes.now) (Spells ended_text) AnyRest at read.1) }
    ensures stops { IfErr result (Halts (Stops (texts lexemes.now) (Spells ended_text) AnyRest at)) }
{
    if let Some(next) = behind_end(lexemes, at) {
        return Ok((None, next));
    }
    let (item, end) = line(alloc, lexemes, at)?;
    Ok((Some(item), end_of_line(lexemes, end)?))
}

/// Reads the lines behind the first that says something, with which so many are read.
fn entries(alloc: Global, lexemes: &[Lexeme], at: usize, before: u32) -> Result<Listed<Entry>, Stop>
    requires { at ≤ length (texts lexemes.now) }
    ensures read { IfOk result (λ entries. Reads (texts lexemes.now) at (length (texts lexemes.now)) (AreLines (IsFit (texts lexemes.now)) before entries)) }
    ensures stops { IfErr result (Halts (Stops (texts lexemes.now) (Spells lines_text) (Is []) at)) }
{
    let mut entries = Listed::new(alloc);
    let mut at = at;
    let mut number = before;
    'lines: while at < lexemes.len() {
        number = number.saturating_add(1);
        let (item, next) = ended_line(alloc, lexemes, at)?;
        at = next;
        if let Some(item) = item {
            entries.push(Entry { line: number, item })?;
        }
    }
    Ok(entries)
}

/// Reads a whole file.
pub fn file(alloc: Global, lexemes: &[Lexeme]) -> Result<KernelFile, Stop>
    ensures read { IfOk result (λ file. IsItem (IsFit (texts lexemes.now)) file_text file_of file (texts lexemes.now)) }
    ensures stops { IfErr result (Halts (RefusesFile (texts lexemes.now))) }
{
    let mut before: u32 = 1;
    let mut at = 0;
    'skipped: while let Some(next) = behind_end(lexemes, at) {
        before = before.saturating_add(1);
        at = next;
    }
    let at = head(lexemes, at)?;
    let entries = entries(alloc, lexemes, at, before)?;
    Ok(KernelFile { entries })
}
