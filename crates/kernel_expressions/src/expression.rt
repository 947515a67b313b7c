//! Whole expressions.
ghost use Rattle.std.specs.Prelude.{◌≤◌, ◌<◌, length, IfOk};
ghost use Rattle.std.specs.Result.{IfErr};
ghost use Rattle.kernel_grammar.specs.Spelling.{or_text, sum_text};
ghost use Rattle.kernel_grammar.specs.Steps.{or_steps, sum_steps};
ghost use Rattle.kernel_expressions.specs.Leads.{Begun};
ghost use Rattle.kernel_expressions.specs.Follows.{Never};
ghost use Rattle.kernel_expressions.specs.Levels.{Tree};
ghost use Rattle.kernel_expressions.specs.Reads.{IsItem, Reads};
ghost use Rattle.kernel_expressions.specs.Settled.{Behind, Ends, Halts, Spells, Stops, ends_level};
ghost use Rattle.kernel_expressions.specs.Tails.{IsText};
ghost use Rattle.kernel_expressions.specs.Texts.{texts, IsFit};

use crate::lexeme::Lexeme;
use crate::operand::operand;
use crate::operator::operator;
use crate::partial::{Partial, Turn};
use crate::stop::Stop;
use affine_rows::Listed;
use kernel_grammar::Step;
use std::alloc::Global;

/// Reads an expression of a level, up to the first token that can't go on with it. Each turn but the last takes a token.
fn of_level(
    alloc: Global,
    lexemes: &[Lexeme],
    at: usize,
    least: u8,
) -> Result<(Listed<Step>, usize), Stop>
    requires { least ≤ 11 }
    ensures read { IfOk result (λ read. Reads (texts lexemes.now) at read.1 (Tree (IsFit (texts lexemes.now)) least read.0)) }
    ensures begun { at ≤ length (texts lexemes.now) → IfErr result (Halts (Begun (texts lexemes.now) (IsText least) at)) }
    ensures ends { 0 < least → IfOk result (λ read. Ends (texts lexemes.now) (IsText least) (Behind (ends_level least)) at read.1) }
    ensures none { 0 < least → IfErr result (Halts (Never (texts lexemes.now) (Behind (ends_level least)) at (IsText least))) }
{
    let mut part = Partial::new(alloc);
    let mut turn = Turn::Operand { at };
    'turns: loop {
        turn = match turn {
            Turn::Operand { at } => operand(alloc, lexemes, at, least, &mut part)?,
            Turn::Operator { at, level } => operator(alloc, lexemes, at, level, least, &mut part)?,
            Turn::End { at } => return Ok((Listed::from_vec(part.steps), at)),
        };
    }
}

/// Reads an expression.
pub fn expression(
    alloc: Global,
    lexemes: &[Lexeme],
    at: usize,
) -> Result<(Listed<Step>, usize), Stop>
    ensures read { IfOk result (λ read. Reads (texts lexemes.now) at read.1 (IsItem (IsFit (texts lexemes.now)) or_text or_steps read.0)) }
    ensures ends { IfOk result (λ read. Ends (texts lexemes.now) (Spells or_text) (Behind (ends_level 1)) at read.1) }
    ensures stops { at ≤ length (texts lexemes.now) → IfErr result (Halts (Stops (texts lexemes.now) (Spells or_text) (Behind (ends_level 1)) at)) }
{
    of_level(alloc, lexemes, at, 1)
}

/// Reads a sum.
pub fn sum(alloc: Global, lexemes: &[Lexeme], at: usize) -> Result<(Listed<Step>, usize), Stop>
    ensures read { IfOk result (λ read. Reads (texts lexemes.now) at read.1 (IsItem (IsFit (texts lexemes.now)) sum_text sum_steps read.0)) }
    ensures ends { IfOk result (λ read. Ends (texts lexemes.now) (Spells sum_text) (Behind (ends_level 9)) at read.1) }
    ensures stops { at ≤ length (texts lexemes.now) → IfErr result (Halts (Stops (texts lexemes.now) (Spells sum_text) (Behind (ends_level 9)) at)) }
{
    of_level(alloc, lexemes, at, 9)
}
