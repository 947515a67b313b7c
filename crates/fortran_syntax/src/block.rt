//! Whole blocks.
use crate::ahead::{is_class, line_end};
use crate::grammar::{read_head, read_statement};
use crate::lexeme::Lexeme;
use crate::statement::{Stated, Statement};
use affine_rows::Listed;
use kernel_expressions::stop::Stop;
use std::alloc::Global;
use text_reader::Class;

/// The place of the first token from a place on that is no end of a line.
fn behind_ends(lexemes: &[Lexeme], at: usize) -> usize {
    for next in at..lexemes.len() {
        if !is_class(lexemes, next, Class::LineEnd) {
            return next;
        }
    }
    lexemes.len()
}

/// The count of open loops behind a statement.
fn depth_behind(depth: u32, statement: &Statement) -> u32 {
    match statement {
        Statement::Do { .. } => depth.saturating_add(1),
        Statement::EndDo => depth.saturating_sub(1),
        Statement::Declaration { .. } | Statement::Assignment { .. } | Statement::End => depth,
    }
}

/// The number of the line at a place.
fn line_of(lexemes: &[Lexeme], at: usize) -> u32 {
    match lexemes.get(at) {
        Some(lexeme) => lexeme.line,
        None => 0,
    }
}

/// Nothing further is said from a place on.
fn whole(lexemes: &[Lexeme], at: usize, stated: Listed<Stated>) -> Result<Listed<Stated>, Stop> {
    let at = behind_ends(lexemes, at);
    if at < lexemes.len() {
        Err(Stop::Refused { at })
    } else {
        Ok(stated)
    }
}

/// Reads a whole block, up to `end subroutine`. Each line takes a token, and no line stands behind the last one.
pub(crate) fn read_block(alloc: Global, lexemes: &[Lexeme]) -> Result<Listed<Stated>, Stop> {
    let mut at = line_end(lexemes, read_head(alloc, lexemes, behind_ends(lexemes, 0))?)?;
    let mut stated = Listed::new(alloc);
    let mut declares = true;
    let mut depth = 0;
    for _line in 0..lexemes.len() {
        at = behind_ends(lexemes, at);
        let line = line_of(lexemes, at);
        let (statement, end) = read_statement(alloc, lexemes, at, declares, depth)?;
        at = line_end(lexemes, end)?;
        if matches!(statement, Statement::End) {
            return whole(lexemes, at, stated);
        }
        declares = matches!(statement, Statement::Declaration { .. });
        depth = depth_behind(depth, &statement);
        stated.push(Stated { line, statement })?;
    }
    Err(Stop::Refused { at })
}
