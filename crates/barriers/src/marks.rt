//! Where the barriers of a code stand.
use crate::crossing::cross;
use affine_rows::Listed;
use code_systems::{
    Access, Assigned, Frame, Statement, There, Turns, assignment, assignment_count, lone_tests,
    with_test,
};
use code_tree::{Block, Stmt};
use elimination::SetFault;
use std::alloc::{AllocError, Global};

/// The statements of a block's children so far, and how many of these stand before its last barrier.
#[derive(Drop)]
struct Passed {
    statements: Listed<Statement>,
    before: usize,
}

/// The statements but so many first ones.
fn rest_of(statements: &[Statement], before: usize) -> &[Statement] {
    &statements[before.min(statements.len())..]
}

fn add_all(made: &mut Listed<Statement>, more: Listed<Statement>) -> Result<(), AllocError> {
    for statement in more.into_vec() {
        made.push(statement)?;
    }
    Ok(())
}

impl Passed {
    fn new(alloc: Global) -> Passed {
        Passed {
            statements: Listed::new(alloc),
            before: 0,
        }
    }

    /// Whether the next child has an access which crosses one of a child since the last barrier.
    fn is_crossed(
        &self,
        alloc: Global,
        frame: &Frame<'_>,
        next: &[Statement],
    ) -> Result<bool, SetFault> {
        let since = rest_of(self.statements.as_slice(), self.before);
        cross(alloc, frame, Turns::Same, since, next)
    }

    /// Adds the statements of the next child and the mark of the place before it.
    fn add(
        &mut self,
        alloc: Global,
        frame: &Frame<'_>,
        next: Listed<Statement>,
        marks: &mut Listed<bool>,
    ) -> Result<(), SetFault> {
        let crossed = self.is_crossed(alloc, frame, next.as_slice())?;
        if crossed {
            self.before = self.statements.len();
        }
        marks.push(crossed)?;
        add_all(&mut self.statements, next)?;
        Ok(())
    }
}

/// The reads of the tests round a statement that no assignment before it has: all, where there is no assignment before it.
fn tests_left<'a>(tests: &'a [Access], before: &[Statement]) -> &'a [Access] {
    if before.is_empty() { tests } else { &[] }
}

/// The statements under data tests with these reads, which are a statement by themselves where there is none.
fn with_lone(
    alloc: Global,
    tests: &[Access],
    statements: Listed<Statement>,
) -> Result<Listed<Statement>, AllocError> {
    let mut statements = statements;
    if statements.is_empty() && !tests.is_empty() {
        statements.push(lone_tests(alloc, tests)?)?;
    }
    Ok(statements)
}

/// Adds the mark of the place at the end of a loop's body: whether one of the accesses in it crosses one at a later turn of
/// the loop.
fn add_last(
    alloc: Global,
    frame: &Frame<'_>,
    var: u32,
    statements: &[Statement],
    marks: &mut Listed<bool>,
) -> Result<(), SetFault> {
    marks.push(cross(alloc, frame, Turns::Earlier(var), statements, statements)?)?;
    Ok(())
}

/// Adds the marks of a block, for each child those in it and then whether a barrier stands before it: the child has an
/// access which crosses one of a child since the block's last barrier. Returns the block's statements in text order. The
/// number is that of its first assignment, and the reads are those of the tests round it that no assignment before it has.
#[cycle(marked)]
fn mark_block(
    alloc: Global,
    frame: &Frame<'_>,
    there: &There,
    number: usize,
    tests: &[Access],
    block: &Block,
    marks: &mut Listed<bool>,
) -> Result<Listed<Statement>, SetFault> {
    let mut passed = Passed::new(alloc);
    for child in block.children.as_slice() {
        let before = passed.statements.as_slice();
        let next = number.saturating_add(assignment_count(before));
        let left = tests_left(tests, before);
        let statements = mark_stmt(alloc, frame, there, next, left, child, marks)?;
        passed.add(alloc, frame, statements, marks)?;
    }
    Ok(passed.statements)
}

/// Adds the marks in a statement, those in a body and then, of a loop, that of the end of its body. Returns its statements.
#[cycle(marked)]
fn mark_stmt(
    alloc: Global,
    frame: &Frame<'_>,
    there: &There,
    number: usize,
    tests: &[Access],
    stmt: &Stmt,
    marks: &mut Listed<bool>,
) -> Result<Listed<Statement>, SetFault> {
    match stmt {
        Stmt::Loop {
            var,
            lower,
            upper,
            body,
        } => {
            let inside = there.in_loop(alloc, frame, *var, lower, upper)?;
            let statements = mark_block(alloc, frame, &inside, number, tests, body, marks)?;
            add_last(alloc, frame, *var, statements.as_slice(), marks)?;
            Ok(statements)
        }
        Stmt::When { rows, body } => {
            let inside = there.under(alloc, rows.as_slice())?;
            mark_block(alloc, frame, &inside, number, tests, body, marks)
        }
        Stmt::Check { test, body } => {
            let reads = with_test(alloc, frame, there, tests, test)?;
            let inside = reads.as_slice();
            let statements = mark_block(alloc, frame, there, number, inside, body, marks)?;
            Ok(with_lone(alloc, inside, statements)?)
        }
        Stmt::Set {
            target,
            flat,
            value,
        } => {
            let set = Assigned {
                target: *target,
                flat,
                value,
            };
            let statement = assignment(alloc, frame, there, number, tests, set)?;
            Ok(Listed::of_one(alloc, statement)?)
        }
        Stmt::Barrier => Ok(Listed::new(alloc)),
    }
}

/// The marks of the body of a code: for each place where a barrier could stand, whether one does. They stand in the order
/// in which the body is built from inside to outside: before a child is marked behind all that is in the child, and the end
/// of a loop's body behind all that is in the body.
pub(crate) fn marks_of(
    alloc: Global,
    frame: &Frame<'_>,
    body: &Block,
) -> Result<Listed<bool>, SetFault> {
    let there = There::top(alloc, frame)?;
    let mut marks = Listed::new(alloc);
    mark_block(alloc, frame, &there, 0, &[], body, &mut marks)?;
    Ok(marks)
}
