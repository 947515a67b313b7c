//! What stands behind an operand.
ghost use Rattle.std.specs.Prelude.{◌≡◌, IfOk, ℕ};
ghost use Rattle.std.specs.Result.{IfErr};
ghost use Rattle.kernel_grammar.specs.Lexicals.{Lexical};
ghost use Rattle.kernel_expressions.specs.Follows.{Goes, GoesOut, Halted, HaltsOut, Stopped};
ghost use Rattle.kernel_expressions.specs.Frames.{own_level};
ghost use Rattle.kernel_expressions.specs.Leads.{LeadsBehind};
ghost use Rattle.kernel_expressions.specs.Levels.{IsInfix};
ghost use Rattle.kernel_expressions.specs.Reads.{Next};
ghost use Rattle.kernel_expressions.specs.Settled.{Halts};
ghost use Rattle.kernel_expressions.specs.Tails.{ClosesAll};
ghost use Rattle.kernel_expressions.specs.Texts.{texts};
ghost use Rattle.kernel_expressions.specs.Turns.{MovesBehind, MovesOut, Passes, shift_step, shift_text};
ghost use Rattle.kernel_expressions.specs.declared.frame.Frame.TheVariants.{Body, First, Group, Places, Test, Then};

use crate::ahead::{behind_sign, digits, lexeme_at, sign};
use crate::first_place::{FirstPlace, first_place};
use crate::frame::{Bracket, Frame};
use crate::levels::{first_level, infix_of, level, shift_of};
use crate::lexeme::Lexeme;
use crate::lexemes::number_of;
use crate::operand::opened;
use crate::partial::{Partial, Turn};
use crate::sign::Sign;
use crate::stop::Stop;
use affine_rows::{Listed, Name};
use kernel_grammar::laws::lone_words;
use kernel_grammar::{Extreme, Folding, Infix, Step};
use std::alloc::Global;

/// Reads what stands behind a place: another one, or the end of the places.
fn place(
    lexemes: &[Lexeme],
    at: usize,
    name: Name,
    bracket: Bracket,
    before: u32,
    part: &mut Partial,
) -> Result<Turn, Stop>
    ensures passes { IfOk result (Passes (texts lexemes.now) at) }
    ensures moves { IfOk result (λ turn. MovesOut lexemes.now (Places name bracket before) part.old at part.new turn) }
    ensures begun { IfErr result (Halts (λ last. last ≡ at)) }
    ensures goes { IfOk result (λ turn. GoesOut lexemes.now (Places name bracket before) part.old at part.new turn) }
    ensures none { IfErr result (Halts (HaltsOut lexemes.now (Places name bracket before) part.old at)) }
{
    let count = before.saturating_add(1);
    if let Some(at) = behind_sign(lexemes, at, Sign::Comma) {
        let frame = Frame::Places {
            name,
            bracket,
            count,
        };
        return opened(part, frame, at);
    }
    match bracket {
        Bracket::Index => {
            let at = sign(lexemes, at, Sign::CloseBracket)?;
            let places = count;
            part.step(Step::Index { name, places })?;
            Ok(Turn::Operator { at, level: 11 })
        }
        Bracket::Call => {
            let at = sign(lexemes, at, Sign::CloseParenthesis)?;
            let arguments = count;
            part.step(Step::Call { name, arguments })?;
            Ok(Turn::Operator { at, level: 11 })
        }
    }
}

/// Reads `)`.
fn group(lexemes: &[Lexeme], at: usize, part: &mut Partial) -> Result<Turn, Stop>
    ensures passes { IfOk result (Passes (texts lexemes.now) at) }
    ensures moves { IfOk result (λ turn. MovesOut lexemes.now Group part.old at part.new turn) }
    ensures begun { IfErr result (Halts (λ last. last ≡ at)) }
    ensures goes { IfOk result (λ turn. GoesOut lexemes.now Group part.old at part.new turn) }
    ensures none { IfErr result (Halts (HaltsOut lexemes.now Group part.old at)) }
{
    let _ = &part.frames;
    let at = sign(lexemes, at, Sign::CloseParenthesis)?;
    Ok(Turn::Operator { at, level: 11 })
}

/// Reads `)`, behind which a step follows.
fn body(lexemes: &[Lexeme], at: usize, step: Step, part: &mut Partial) -> Result<Turn, Stop>
    ensures passes { IfOk result (Passes (texts lexemes.now) at) }
    ensures moves { IfOk result (λ turn. MovesOut lexemes.now (Body step) part.old at part.new turn) }
    ensures begun { IfErr result (Halts (λ last. last ≡ at)) }
    ensures goes { IfOk result (λ turn. GoesOut lexemes.now (Body step) part.old at part.new turn) }
    ensures none { IfErr result (Halts (HaltsOut lexemes.now (Body step) part.old at)) }
{
    let at = sign(lexemes, at, Sign::CloseParenthesis)?;
    part.step(step)?;
    Ok(Turn::Operator { at, level: 11 })
}

/// Reads `,` behind a test.
fn test(lexemes: &[Lexeme], at: usize, part: &mut Partial) -> Result<Turn, Stop>
    ensures passes { IfOk result (Passes (texts lexemes.now) at) }
    ensures moves { IfOk result (λ turn. MovesOut lexemes.now Test part.old at part.new turn) }
    ensures begun { IfErr result (Halts (λ last. last ≡ at)) }
    ensures goes { IfOk result (λ turn. GoesOut lexemes.now Test part.old at part.new turn) }
    ensures none { IfErr result (Halts (HaltsOut lexemes.now Test part.old at)) }
{
    let at = sign(lexemes, at, Sign::Comma)?;
    opened(part, Frame::Then, at)
}

/// Reads `,` behind the second place of a choice.
fn then(lexemes: &[Lexeme], at: usize, part: &mut Partial) -> Result<Turn, Stop>
    ensures passes { IfOk result (Passes (texts lexemes.now) at) }
    ensures moves { IfOk result (λ turn. MovesOut lexemes.now Then part.old at part.new turn) }
    ensures begun { IfErr result (Halts (λ last. last ≡ at)) }
    ensures goes { IfOk result (λ turn. GoesOut lexemes.now Then part.old at part.new turn) }
    ensures none { IfErr result (Halts (HaltsOut lexemes.now Then part.old at)) }
{
    let at = sign(lexemes, at, Sign::Comma)?;
    opened(part, Frame::Body(Step::Choose), at)
}

/// Reads `,` behind the first place of `min` or `max`. A name there is kept, and a name in parentheses is an iname.
fn first(
    alloc: Global,
    lexemes: &[Lexeme],
    at: usize,
    extreme: Extreme,
    start: usize,
    part: &mut Partial,
) -> Result<Turn, Stop>
    ensures passes { IfOk result (Passes (texts lexemes.now) at) }
    ensures moves { IfOk result (λ turn. MovesOut lexemes.now (First extreme start) part.old at part.new turn) }
    ensures begun { IfErr result (Halts (λ last. last ≡ at)) }
    ensures goes { IfOk result (λ turn. GoesOut lexemes.now (First extreme start) part.old at part.new turn) }
    ensures none { IfErr result (Halts (HaltsOut lexemes.now (First extreme start) part.old at)) }
{
    lone_words();
    let next = sign(lexemes, at, Sign::Comma)?;
    match first_place(lexemes, start, at) {
        FirstPlace::Lone(word) => {
            let name = Name::from_str(alloc, word)?;
            part.forget_last();
            opened(part, Frame::Body(Step::ExtremeOf { extreme, name }), next)
        }
        FirstPlace::Grouped(word) => {
            let name = Name::from_str(alloc, word)?;
            let inames = Listed::of_one(alloc, name)?;
            let folding = Folding::Extreme(extreme);
            part.forget_last();
            opened(part, Frame::Body(Step::Fold { folding, inames }), next)
        }
        FirstPlace::Other => {
            let step = Step::Infix(Infix::Extreme(extreme));
            opened(part, Frame::Body(step), next)
        }
    }
}

/// Reads on behind a whole part.
fn close(
    alloc: Global,
    lexemes: &[Lexeme],
    at: usize,
    frame: Frame,
    part: &mut Partial,
) -> Result<Turn, Stop>
    requires { own_level frame ≡ 0 }
    ensures passes { IfOk result (Passes (texts lexemes.now) at) }
    ensures moves { IfOk result (λ turn. MovesOut lexemes.now frame part.old at part.new turn) }
    ensures begun { IfErr result (Halts (λ last. last ≡ at)) }
    ensures goes { IfOk result (λ turn. GoesOut lexemes.now frame part.old at part.new turn) }
    ensures none { IfErr result (Halts (HaltsOut lexemes.now frame part.old at)) }
{
    match frame {
        Frame::Group => group(lexemes, at, part),
        Frame::Body(step) => body(lexemes, at, step, part),
        Frame::Places {
            name,
            bracket,
            count,
        } => place(lexemes, at, name, bracket, count, part),
        Frame::First { extreme, start } => first(alloc, lexemes, at, extreme, start, part),
        Frame::Test => test(lexemes, at, part),
        Frame::Then => then(lexemes, at, part),
        Frame::Infix(_) | Frame::Prefix(_) => unreachable!(),
    }
}

/// Reads on behind an operand of a level where no operator stands.
fn end(
    alloc: Global,
    lexemes: &[Lexeme],
    at: usize,
    level: u8,
    part: &mut Partial,
) -> Result<Turn, Stop>
    ensures passes { IfOk result (Passes (texts lexemes.now) at) }
    ensures moves { IfOk result (λ turn. (least : ℕ) → MovesBehind lexemes.now least part.old level at part.new turn) }
    ensures begun { IfErr result (Halts (λ last. last ≡ at)) }
    ensures goes { IfOk result (λ turn. (least : ℕ) → Goes (texts lexemes.now) least at (Stopped least part.old.frames level) part.new.frames turn) }
    ensures none { IfErr result (Halts (λ last. (least : ℕ) → Halted (texts lexemes.now) least at (Stopped least part.old.frames level) last)) }
{
    part.end_operators(1, level)?;
    match part.frames.pop() {
        Some(frame) => close(alloc, lexemes, at, frame, part),
        None => Ok(Turn::End { at }),
    }
}

/// Reads an operator between operands, if it may stand behind an operand of this level.
fn infixed(
    alloc: Global,
    lexemes: &[Lexeme],
    at: usize,
    found: Infix,
    operand: u8,
    least: u8,
    part: &mut Partial,
) -> Result<Turn, Stop>
    requires { (x : Lexical) × Next (texts lexemes.now) at x × IsInfix found x }
    ensures passes { IfOk result (Passes (texts lexemes.now) at) }
    ensures moves { IfOk result (λ turn. MovesBehind lexemes.now least part.old operand at part.new turn) }
    ensures begun { IfErr result (Halts (λ last. last ≡ at)) }
    ensures goes { IfOk result (λ turn. Goes (texts lexemes.now) least at (ClosesAll least part.old.frames operand) part.new.frames turn) }
    ensures none { IfErr result (Halts (Halted (texts lexemes.now) least at (ClosesAll least part.old.frames operand))) }
{
    let made = part.end_operators(first_level(found), operand)?;
    if first_level(found) <= made && part.frames.wanted_level(least) <= level(found) {
        return opened(part, Frame::Infix(found), at + 1);
    }
    end(alloc, lexemes, at, made, part)
}

/// Reads the number of a shift to the left or to the right, if a shift may stand behind an operand of this level.
fn shifted(
    alloc: Global,
    lexemes: &[Lexeme],
    at: usize,
    is_left: bool,
    operand: u8,
    least: u8,
    part: &mut Partial,
) -> Result<Turn, Stop>
    requires { Next (texts lexemes.now) at (shift_text is_left) }
    ensures passes { IfOk result (Passes (texts lexemes.now) at) }
    ensures moves { IfOk result (λ turn. MovesBehind lexemes.now least part.old operand at part.new turn) }
    ensures begun { IfErr result (Halts (λ last. LeadsBehind lexemes.now least part.old operand at last)) }
    ensures goes { IfOk result (λ turn. Goes (texts lexemes.now) least at (ClosesAll least part.old.frames operand) part.new.frames turn) }
    ensures none { IfErr result (Halts (Halted (texts lexemes.now) least at (ClosesAll least part.old.frames operand))) }
{
    let made = part.end_operators(8, operand)?;
    if made < 8 || part.frames.wanted_level(least) > 8 {
        return end(alloc, lexemes, at, made, part);
    }
    let (digits, at) = digits(lexemes, at + 1)?;
    part.step(shift_step(is_left, number_of(digits)))?;
    Ok(Turn::Operator { at, level: 8 })
}

/// The step of a shift.
fn shift_step(is_left: bool, count: Option<u64>) -> Step
    ensures { result ≡ shift_step is_left count }
{
    if is_left {
        Step::ShiftLeft(count)
    } else {
        Step::ShiftRight(count)
    }
}

/// Reads on behind an operand of this level.
pub fn operator(
    alloc: Global,
    lexemes: &[Lexeme],
    at: usize,
    level: u8,
    least: u8,
    part: &mut Partial,
) -> Result<Turn, Stop>
    ensures passes { IfOk result (Passes (texts lexemes.now) at) }
    ensures moves { IfOk result (λ turn. MovesBehind lexemes.now least part.old level at part.new turn) }
    ensures begun { IfErr result (Halts (λ last. LeadsBehind lexemes.now least part.old level at last)) }
    ensures goes { IfOk result (λ turn. Goes (texts lexemes.now) least at (ClosesAll least part.old.frames level) part.new.frames turn) }
    ensures none { IfErr result (Halts (Halted (texts lexemes.now) least at (ClosesAll least part.old.frames level))) }
{
    let Some(lexeme) = lexeme_at(lexemes, at) else {
        return end(alloc, lexemes, at, level, part);
    };
    if let Some(found) = infix_of(lexeme) {
        return infixed(alloc, lexemes, at, found, level, least, part);
    }
    if let Some(is_left) = shift_of(lexeme) {
        return shifted(alloc, lexemes, at, is_left, level, least, part);
    }
    end(alloc, lexemes, at, level, part)
}
