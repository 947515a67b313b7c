//! Lists of expressions and of numbers.
ghost use Rattle.std.specs.Prelude.{◌≤◌, codes, length, map, not, IfOk};
ghost use Rattle.std.specs.Result.{IfErr};
ghost use Rattle.kernel_grammar.specs.Lexicals.{number_in};
ghost use Rattle.kernel_grammar.specs.Lines.{numbers_text};
ghost use Rattle.kernel_grammar.specs.Spelling.{sums_text};
ghost use Rattle.kernel_grammar.specs.Steps.{sums_steps};
ghost use Rattle.kernel_expressions.specs.Reads.{bracketed, IsItem, Reads};
ghost use Rattle.kernel_expressions.specs.Settled.{AnyRest, Behind, Ends, Halts, Spells, Stops, ends_sums, is_mark};
ghost use Rattle.kernel_expressions.specs.Texts.{texts, IsFit};

use crate::ahead::{behind_sign, digits, sign};
use crate::expression::sum;
use crate::lexeme::Lexeme;
use crate::lexemes::number_of;
use crate::sign::Sign;
use crate::stop::Stop;
use affine_rows::Listed;
use kernel_grammar::Step;
use std::alloc::Global;

/// Reads sums with `,` between them.
pub fn sums(
    alloc: Global,
    lexemes: &[Lexeme],
    at: usize,
) -> Result<(Listed<Listed<Step>>, usize), Stop>
    ensures read { IfOk result (λ read. Reads (texts lexemes.now) at read.1 (IsItem (IsFit (texts lexemes.now)) sums_text sums_steps read.0)) }
    ensures ends { IfOk result (λ read. Ends (texts lexemes.now) (Spells sums_text) (Behind ends_sums) at read.1) }
    ensures stops { at ≤ length (texts lexemes.now) → IfErr result (Halts (Stops (texts lexemes.now) (Spells sums_text) (Behind ends_sums) at)) }
{
    let (first, mut at) = sum(alloc, lexemes, at)?;
    let mut sums = Listed::of_one(alloc, first)?;
    'sums: while let Some(next) = behind_sign(lexemes, at, Sign::Comma) {
        let (other, behind) = sum(alloc, lexemes, next)?;
        sums.push(other)?;
        at = behind;
    }
    Ok((sums, at))
}

/// Reads sums in brackets.
pub fn places(
    alloc: Global,
    lexemes: &[Lexeme],
    at: usize,
) -> Result<(Listed<Listed<Step>>, usize), Stop>
    ensures read { IfOk result (λ read. Reads (texts lexemes.now) at read.1 (IsItem (IsFit (texts lexemes.now)) bracketed sums_steps read.0)) }
    ensures ends { IfOk result (λ read. Ends (texts lexemes.now) (Spells bracketed) AnyRest at read.1) }
    ensures stops { at ≤ length (texts lexemes.now) → IfErr result (Halts (Stops (texts lexemes.now) (Spells bracketed) AnyRest at)) }
{
    let at = sign(lexemes, at, Sign::OpenBracket)?;
    let (sums, at) = sums(alloc, lexemes, at)?;
    Ok((sums, sign(lexemes, at, Sign::CloseBracket)?))
}

/// Reads numbers with `,` between them, in brackets, if there are any.
pub fn numbers(
    alloc: Global,
    lexemes: &[Lexeme],
    at: usize,
) -> Result<(Listed<Option<u64>>, usize), Stop>
    requires { at ≤ length (texts lexemes.now) }
    ensures read { IfOk result (λ read. Reads (texts lexemes.now) at read.1 (IsItem (IsFit (texts lexemes.now)) numbers_text (map number_in) read.0)) }
    ensures ends { IfOk result (λ read. Ends (texts lexemes.now) (Spells numbers_text) (Behind (λ x. not (is_mark (codes "[") x))) at read.1) }
    ensures stops { at ≤ length (texts lexemes.now) → IfErr result (Halts (Stops (texts lexemes.now) (Spells numbers_text) (Behind (λ x. not (is_mark (codes "[") x))) at)) }
{
    let Some(at) = behind_sign(lexemes, at, Sign::OpenBracket) else {
        return Ok((Listed::new(alloc), at));
    };
    let (first, mut at) = digits(lexemes, at)?;
    let mut numbers = Listed::of_one(alloc, number_of(first))?;
    'numbers: while let Some(next) = behind_sign(lexemes, at, Sign::Comma) {
        let (other, behind) = digits(lexemes, next)?;
        numbers.push(number_of(other))?;
        at = behind;
    }
    let at = sign(lexemes, at, Sign::CloseBracket)?;
    Ok((numbers, at))
}
