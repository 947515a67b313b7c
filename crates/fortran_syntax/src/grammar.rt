//! The statements of blocks.
use crate::ahead::{behind_sign, behind_word, is_class, listed, name_at, read_name, sign, word};
use crate::expression::{read_expression, read_expressions, read_sum};
use crate::lexeme::Lexeme;
use crate::statement::{Declared, Intent, Statement};
use crate::value::Value;
use affine_rows::Listed;
use kernel_expressions::stop::Stop;
use kernel_grammar::{Infix, Relation, Step};
use std::alloc::{AllocError, Global};
use text_reader::Class;
use wrap_words::Kind;

const RELATIONS: [(&[u8], Infix); 6] = [
    (b"<=", Infix::Compare(Relation::LessEqual)),
    (b"<", Infix::Compare(Relation::Less)),
    (b">=", Infix::Compare(Relation::GreaterEqual)),
    (b">", Infix::Compare(Relation::Greater)),
    (b"==", Infix::Compare(Relation::Equal)),
    (b"/=", Infix::NotEqual),
];

const INTENTS: [(&[u8], Intent); 3] = [
    (b"in", Intent::In),
    (b"out", Intent::Stored),
    (b"inout", Intent::Stored),
];

const KINDS: [(&[u8], Kind); 2] = [(b"4", Kind::I32), (b"8", Kind::I64)];

/// Reads `subroutine NAME(args)`.
pub(crate) fn read_head(alloc: Global, lexemes: &[Lexeme], at: usize) -> Result<usize, Stop> {
    let at = word(lexemes, at, b"subroutine")?;
    let (_, at) = read_name(alloc, lexemes, at)?;
    let at = sign(lexemes, at, b"(")?;
    if let Some(at) = behind_sign(lexemes, at, b")") {
        return Ok(at);
    }
    let at = read_names(alloc, lexemes, at)?;
    sign(lexemes, at, b")")
}

/// Reads names with `,` between them. Each turn takes a token, and no name stands behind the last one.
fn read_names(alloc: Global, lexemes: &[Lexeme], at: usize) -> Result<usize, Stop> {
    let mut at = at;
    for _name in 0..lexemes.len() {
        let (_, end) = read_name(alloc, lexemes, at)?;
        match behind_sign(lexemes, end, b",") {
            Some(behind) => at = behind,
            None => return Ok(end),
        }
    }
    Err(Stop::Refused { at })
}

/// Reads the kind behind `integer`, which is 4 where none stands there.
fn read_kind(lexemes: &[Lexeme], at: usize) -> Result<(Kind, usize), Stop> {
    let Some(at) = behind_sign(lexemes, at, b"(") else {
        return Ok((Kind::I32, at));
    };
    let (kind, at) = listed(lexemes, at, Class::Number, &KINDS)?;
    Ok((kind, sign(lexemes, at, b")")?))
}

/// Whether a declaration stands there, and not a statement that begins with the name `integer`.
fn is_declaration(lexemes: &[Lexeme], at: usize) -> bool {
    let Some(at) = behind_word(lexemes, at, b"integer") else {
        return false;
    };
    match read_kind(lexemes, at) {
        Ok((_, end)) => {
            behind_sign(lexemes, end, b",").is_some() || behind_sign(lexemes, end, b"::").is_some()
        }
        Err(_) => false,
    }
}

/// Reads `, intent(..)`, if it is there.
fn read_intent(lexemes: &[Lexeme], at: usize) -> Result<(Intent, usize), Stop> {
    let Some(at) = behind_sign(lexemes, at, b",") else {
        return Ok((Intent::Local, at));
    };
    let at = word(lexemes, at, b"intent")?;
    let at = sign(lexemes, at, b"(")?;
    let (intent, at) = listed(lexemes, at, Class::Word, &INTENTS)?;
    Ok((intent, sign(lexemes, at, b")")?))
}

/// Reads the items of a declaration. Each turn takes a token, and no item stands behind the last one.
fn read_items(
    alloc: Global,
    lexemes: &[Lexeme],
    at: usize,
) -> Result<(Listed<Declared>, usize), Stop> {
    let mut items = Listed::new(alloc);
    let mut at = at;
    for _item in 0..lexemes.len() {
        let (name, behind) = read_name(alloc, lexemes, at)?;
        let (values, end) = read_expressions(alloc, lexemes, behind)?;
        let shape = turned_shape(alloc, values)?;
        items.push(Declared { name, shape })?;
        match behind_sign(lexemes, end, b",") {
            Some(next) => at = next,
            None => return Ok((items, end)),
        }
    }
    Err(Stop::Refused { at })
}

/// Reads `integer[(4|8)] [, intent(..)] :: item, ..`.
fn read_declaration(
    alloc: Global,
    lexemes: &[Lexeme],
    at: usize,
) -> Result<(Statement, usize), Stop> {
    let at = word(lexemes, at, b"integer")?;
    let (kind, at) = read_kind(lexemes, at)?;
    let (intent, at) = read_intent(lexemes, at)?;
    let at = sign(lexemes, at, b"::")?;
    let (items, at) = read_items(alloc, lexemes, at)?;
    Ok((
        Statement::Declaration {
            kind,
            intent,
            items,
        },
        at,
    ))
}

/// Reads `do V = e, e`.
fn read_do(alloc: Global, lexemes: &[Lexeme], at: usize) -> Result<(Statement, usize), Stop> {
    let at = word(lexemes, at, b"do")?;
    let (var, at) = read_name(alloc, lexemes, at)?;
    let at = sign(lexemes, at, b"=")?;
    let (lower, at) = read_sum(alloc, lexemes, at)?;
    let at = sign(lexemes, at, b",")?;
    let (upper, at) = read_sum(alloc, lexemes, at)?;
    Ok((Statement::Do { var, lower, upper }, at))
}

/// Reads `end do` in a loop, else `end subroutine`.
fn read_end(lexemes: &[Lexeme], at: usize, depth: u32) -> Result<(Statement, usize), Stop> {
    let at = word(lexemes, at, b"end")?;
    if depth > 0 {
        Ok((Statement::EndDo, word(lexemes, at, b"do")?))
    } else {
        Ok((Statement::End, word(lexemes, at, b"subroutine")?))
    }
}

/// Reads `if (e < e)`, if `if` stands there.
fn read_condition(
    alloc: Global,
    lexemes: &[Lexeme],
    at: usize,
) -> Result<(Option<Listed<Step>>, usize), Stop> {
    let Some(at) = behind_word(lexemes, at, b"if") else {
        return Ok((None, at));
    };
    let at = sign(lexemes, at, b"(")?;
    let (left, at) = read_expression(alloc, lexemes, at)?;
    let (relation, at) = listed(lexemes, at, Class::Sign, &RELATIONS)?;
    let (right, at) = read_expression(alloc, lexemes, at)?;
    let at = sign(lexemes, at, b")")?;
    let condition = left.combined(relation, right)?;
    Ok((Some(condition.into_steps(alloc)?), at))
}

/// The subscripts, counted from 0 and turned round.
fn turned_place(alloc: Global, values: Vec<Value>) -> Result<Listed<Listed<Step>>, AllocError> {
    let mut values = values;
    let mut place = Listed::new(alloc);
    'values: while let Some(value) = values.pop() {
        place.push(value.less_one(alloc)?.into_steps(alloc)?)?;
    }
    Ok(place)
}

/// The entries of a shape, turned round.
fn turned_shape(alloc: Global, values: Vec<Value>) -> Result<Listed<Listed<Step>>, AllocError> {
    let mut values = values;
    let mut shape = Listed::new(alloc);
    'values: while let Some(value) = values.pop() {
        shape.push(value.into_steps(alloc)?)?;
    }
    Ok(shape)
}

/// Reads `[if (e < e)] x[(e, ..)] = e`.
fn read_assignment(
    alloc: Global,
    lexemes: &[Lexeme],
    at: usize,
) -> Result<(Statement, usize), Stop> {
    let (condition, at) = read_condition(alloc, lexemes, at)?;
    let (name, at) = read_name(alloc, lexemes, at)?;
    let (values, at) = read_expressions(alloc, lexemes, at)?;
    let place = turned_place(alloc, values)?;
    let at = sign(lexemes, at, b"=")?;
    let (value, at) = read_sum(alloc, lexemes, at)?;
    let statement = Statement::Assignment {
        condition,
        name,
        place,
        value,
    };
    Ok((statement, at))
}

/// Reads what a line says in so many open loops, where a declaration may stand or not. `do`, `end` and `integer` are names
/// where what stands behind them says so.
pub(crate) fn read_statement(
    alloc: Global,
    lexemes: &[Lexeme],
    at: usize,
    declares: bool,
    depth: u32,
) -> Result<(Statement, usize), Stop> {
    let next = at.saturating_add(1);
    if declares && is_declaration(lexemes, at) {
        read_declaration(alloc, lexemes, at)
    } else if behind_word(lexemes, at, b"do").is_some() && name_at(lexemes, next).is_some() {
        read_do(alloc, lexemes, at)
    } else if behind_word(lexemes, at, b"end").is_some() && is_class(lexemes, next, Class::Word) {
        read_end(lexemes, at, depth)
    } else {
        read_assignment(alloc, lexemes, at)
    }
}
