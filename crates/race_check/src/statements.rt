//! The statements of a code in text order.
use affine_rows::Listed;
use code_systems::{
    Access, Assigned, Frame, Statement, There, assignment, assignment_count, lone_tests, with_test,
};
use code_tree::{Block, Stmt};
use elimination::SetFault;
use std::alloc::{AllocError, Global};

/// The reads of the tests round a statement that no assignment before it has: all, where none was added.
fn tests_left<'a>(tests: &'a [Access], added: bool) -> &'a [Access] {
    if added { &[] } else { tests }
}

/// Adds the statements of a block behind others. The reads are those of the tests round it that no assignment before it has.
#[cycle(statements)]
fn add_block(
    alloc: Global,
    frame: &Frame<'_>,
    there: &There,
    tests: &[Access],
    block: &Block,
    made: &mut Listed<Statement>,
) -> Result<(), SetFault> {
    let before = made.len();
    for stmt in block.children.as_slice() {
        let left = tests_left(tests, made.len() != before);
        add_stmt(alloc, frame, there, left, stmt, made)?;
    }
    Ok(())
}

/// Adds the reads of data tests, where their body has no statement.
fn add_lone(
    alloc: Global,
    tests: &[Access],
    before: usize,
    made: &mut Listed<Statement>,
) -> Result<(), AllocError> {
    if made.len() == before && !tests.is_empty() {
        made.push(lone_tests(alloc, tests)?)?;
    }
    Ok(())
}

#[cycle(statements)]
fn add_stmt(
    alloc: Global,
    frame: &Frame<'_>,
    there: &There,
    tests: &[Access],
    stmt: &Stmt,
    made: &mut Listed<Statement>,
) -> Result<(), SetFault> {
    match stmt {
        Stmt::Loop {
            var,
            lower,
            upper,
            body,
        } => {
            let there = there.in_loop(alloc, frame, *var, lower, upper)?;
            add_block(alloc, frame, &there, tests, body, made)
        }
        Stmt::When { rows, body } => {
            let there = there.under(alloc, rows.as_slice())?;
            add_block(alloc, frame, &there, tests, body, made)
        }
        Stmt::Check { test, body } => {
            let tests = with_test(alloc, frame, there, tests, test)?;
            let before = made.len();
            add_block(alloc, frame, there, tests.as_slice(), body, made)?;
            add_lone(alloc, tests.as_slice(), before, made)?;
            Ok(())
        }
        Stmt::Set {
            target,
            flat,
            value,
        } => {
            let set = Assigned {
                target: *target,
                flat,
                value,
            };
            let number = assignment_count(made.as_slice());
            let statement = assignment(alloc, frame, there, number, tests, set)?;
            made.push(statement)?;
            Ok(())
        }
        Stmt::Barrier => Ok(()),
    }
}

/// The statements of the body of a code in text order, each with what stands round its accesses.
pub(crate) fn statements_of(
    alloc: Global,
    frame: &Frame<'_>,
    body: &Block,
) -> Result<Listed<Statement>, SetFault> {
    let there = There::top(alloc, frame)?;
    let mut made = Listed::new(alloc);
    add_block(alloc, frame, &there, &[], body, &mut made)?;
    Ok(made)
}
