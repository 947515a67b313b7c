//! Expressions of blocks, as the steps of those of kernel files. Nesting costs no stack.
use crate::ahead::{behind_sign, listed, read_name, sign};
use crate::lexeme::Lexeme;
use crate::value::{Places, Value};
use affine_rows::{Listed, Name};
use kernel_expressions::stop::Stop;
use kernel_grammar::{Extreme, Infix, Step};
use std::alloc::{AllocError, Global};
use text_reader::{Class, number_of};

const OPERATORS: [(&[u8], Infix); 3] = [
    (b"+", Infix::Add),
    (b"-", Infix::Subtract),
    (b"*", Infix::Multiply),
];

const EXTREMES: [(&[u8], Extreme); 2] = [(b"min", Extreme::Min), (b"max", Extreme::Max)];

/// An operator whose last operand is not read to its end.
#[derive(Drop)]
enum Operator {
    Negate,
    Infix(Value, Infix),
}

/// What a bracket stands round.
#[derive(Drop)]
enum Bracket {
    Group,
    /// The subscript of a cell behind these.
    Place(Name, Places),
    First(Extreme),
    /// The second value of `min` or `max`.
    Second(Extreme, Value),
}

/// What is open in an expression.
#[derive(Drop)]
enum Frame {
    Operator(Operator),
    Bracket(Bracket),
}

/// What comes next, at a place.
#[derive(Drop)]
enum Turn {
    Operand { at: usize },
    /// An operand stands before it.
    Behind { at: usize, value: Value },
    End { at: usize, value: Value },
}

/// How tightly an operator between operands binds.
fn level(infix: Infix) -> u8 {
    match infix {
        Infix::Multiply => 2,
        _ => 1,
    }
}

impl Operator {
    /// Whether it binds at least as tightly as this level. A sign before an operand is tightest.
    fn is_tight(&self, least: u8) -> bool {
        match self {
            Operator::Negate => true,
            Operator::Infix(_, infix) => level(*infix) >= least,
        }
    }

    /// What it makes of its last operand.
    fn end(self, value: Value) -> Result<Value, AllocError> {
        match self {
            Operator::Negate => value.negated(),
            Operator::Infix(left, infix) => left.combined(infix, value),
        }
    }
}

/// What an operand makes with the operators before it that bind at least as tightly as this level.
fn end_tight(frames: &mut Vec<Frame>, least: u8, value: Value) -> Result<Value, AllocError> {
    let mut value = value;
    'frames: while let Some(frame) = frames.pop() {
        match frame {
            Frame::Operator(operator) => {
                if !operator.is_tight(least) {
                    frames.push(Frame::Operator(operator))?;
                    return Ok(value);
                }
                value = operator.end(value)?;
            }
            Frame::Bracket(bracket) => {
                frames.push(Frame::Bracket(bracket))?;
                return Ok(value);
            }
        }
    }
    Ok(value)
}

/// What an operand makes with all operators before it, and the bracket round that.
fn end_all(frames: &mut Vec<Frame>, value: Value) -> Result<(Value, Option<Bracket>), AllocError> {
    let mut value = value;
    'frames: while let Some(frame) = frames.pop() {
        match frame {
            Frame::Operator(operator) => value = operator.end(value)?,
            Frame::Bracket(bracket) => return Ok((value, Some(bracket))),
        }
    }
    Ok((value, None))
}

/// Opens a part that begins at a place.
fn opened(frames: &mut Vec<Frame>, frame: Frame, at: usize) -> Result<Turn, AllocError> {
    frames.push(frame)?;
    Ok(Turn::Operand { at })
}

/// What begins with a name.
fn named(
    alloc: Global,
    lexemes: &[Lexeme],
    at: usize,
    frames: &mut Vec<Frame>,
) -> Result<Turn, Stop> {
    let (name, at) = read_name(alloc, lexemes, at)?;
    if let Some(at) = behind_sign(lexemes, at, b"(") {
        let bracket = Bracket::Place(name, Places::none(alloc));
        return Ok(opened(frames, Frame::Bracket(bracket), at)?);
    }
    let value = Value::of_step(alloc, Step::Name(name))?;
    Ok(Turn::Behind { at, value })
}

/// What begins with a word.
fn worded(
    alloc: Global,
    lexemes: &[Lexeme],
    at: usize,
    frames: &mut Vec<Frame>,
) -> Result<Turn, Stop> {
    match listed(lexemes, at, Class::Word, &EXTREMES) {
        Ok((extreme, at)) => {
            let at = sign(lexemes, at, b"(")?;
            Ok(opened(frames, Frame::Bracket(Bracket::First(extreme)), at)?)
        }
        Err(_) => named(alloc, lexemes, at, frames),
    }
}

/// What begins with a sign.
fn signed(lexemes: &[Lexeme], at: usize, frames: &mut Vec<Frame>) -> Result<Turn, Stop> {
    if let Some(at) = behind_sign(lexemes, at, b"-") {
        return Ok(opened(frames, Frame::Operator(Operator::Negate), at)?);
    }
    let at = sign(lexemes, at, b"(")?;
    Ok(opened(frames, Frame::Bracket(Bracket::Group), at)?)
}

/// Reads on where an operand is wanted.
fn operand(
    alloc: Global,
    lexemes: &[Lexeme],
    at: usize,
    frames: &mut Vec<Frame>,
) -> Result<Turn, Stop> {
    let Some(lexeme) = lexemes.get(at) else {
        return Err(Stop::Refused { at });
    };
    match lexeme.class {
        Class::Number => {
            let value = Value::of_step(alloc, Step::Number(number_of(lexeme.text)))?;
            let at = at.saturating_add(1);
            Ok(Turn::Behind { at, value })
        }
        Class::Word => worded(alloc, lexemes, at, frames),
        Class::Sign => signed(lexemes, at, frames),
        Class::LineEnd => Err(Stop::Refused { at }),
    }
}

/// Reads `)`, behind which a value stands.
fn closed(lexemes: &[Lexeme], at: usize, value: Value) -> Result<Turn, Stop> {
    let at = sign(lexemes, at, b")")?;
    Ok(Turn::Behind { at, value })
}

/// Reads on behind a value in a bracket.
fn bracketed(
    alloc: Global,
    lexemes: &[Lexeme],
    at: usize,
    bracket: Bracket,
    value: Value,
    frames: &mut Vec<Frame>,
) -> Result<Turn, Stop> {
    match bracket {
        Bracket::Group => closed(lexemes, at, value),
        Bracket::Place(name, places) => {
            let places = places.with(alloc, value)?;
            if let Some(at) = behind_sign(lexemes, at, b",") {
                let bracket = Bracket::Place(name, places);
                return Ok(opened(frames, Frame::Bracket(bracket), at)?);
            }
            closed(lexemes, at, places.cell(name)?)
        }
        Bracket::First(extreme) => {
            let at = sign(lexemes, at, b",")?;
            let bracket = Bracket::Second(extreme, value);
            Ok(opened(frames, Frame::Bracket(bracket), at)?)
        }
        Bracket::Second(extreme, first) => {
            closed(lexemes, at, first.combined(Infix::Extreme(extreme), value)?)
        }
    }
}

/// Reads on behind an operand.
fn behind(
    alloc: Global,
    lexemes: &[Lexeme],
    at: usize,
    value: Value,
    frames: &mut Vec<Frame>,
) -> Result<Turn, Stop> {
    if let Ok((infix, at)) = listed(lexemes, at, Class::Sign, &OPERATORS) {
        let left = end_tight(frames, level(infix), value)?;
        let operator = Operator::Infix(left, infix);
        return Ok(opened(frames, Frame::Operator(operator), at)?);
    }
    match end_all(frames, value)? {
        (value, Some(bracket)) => bracketed(alloc, lexemes, at, bracket, value, frames),
        (value, None) => Ok(Turn::End { at, value }),
    }
}

/// Reads an expression, up to the first token that can't go on with it. Each turn but the last two takes a token, so the turns
/// are enough for all tokens, and what stands behind the loop is never reached.
pub(crate) fn read_expression(
    alloc: Global,
    lexemes: &[Lexeme],
    at: usize,
) -> Result<(Value, usize), Stop> {
    let mut frames = Vec::new(alloc);
    let mut turn = Turn::Operand { at };
    for _token in 0..lexemes.len().saturating_add(2) {
        turn = match turn {
            Turn::Operand { at } => operand(alloc, lexemes, at, &mut frames)?,
            Turn::Behind { at, value } => behind(alloc, lexemes, at, value, &mut frames)?,
            Turn::End { at, value } => return Ok((value, at)),
        };
    }
    Err(Stop::Refused { at: lexemes.len() })
}

/// Reads an expression.
pub(crate) fn read_sum(
    alloc: Global,
    lexemes: &[Lexeme],
    at: usize,
) -> Result<(Listed<Step>, usize), Stop> {
    let (value, at) = read_expression(alloc, lexemes, at)?;
    Ok((value.into_steps(alloc)?, at))
}

/// Reads expressions with `,` between them, in parentheses, if a parenthesis opens there. Each turn takes a token, and no
/// expression stands behind the last one.
pub(crate) fn read_expressions(
    alloc: Global,
    lexemes: &[Lexeme],
    at: usize,
) -> Result<(Vec<Value>, usize), Stop> {
    let mut values = Vec::new(alloc);
    let Some(mut next) = behind_sign(lexemes, at, b"(") else {
        return Ok((values, at));
    };
    for _value in 0..lexemes.len() {
        let (value, end) = read_expression(alloc, lexemes, next)?;
        add(&mut values, value)?;
        match behind_sign(lexemes, end, b",") {
            Some(behind) => next = behind,
            None => return Ok((values, sign(lexemes, end, b")")?)),
        }
    }
    Err(Stop::Refused { at: next })
}

fn add(values: &mut Vec<Value>, value: Value) -> Result<(), AllocError> {
    values.push(value)?;
    Ok(())
}
