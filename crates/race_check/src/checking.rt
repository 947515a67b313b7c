//! Codes in which no two items race.
ghost use Rattle.std.specs.Prelude.{◌≡◌, IfOk};

use crate::statements::statements_of;
use crate::telling::race_not_excluded;
use affine_rows::Listed;
use code_systems::{
    Apart, Frame, Question, Statement, Turns, add_between, add_within, open_case, refused,
};
use code_tree::{Code, Facts, Target};
use kernel_ir::Fault;
use kernel_rules::told;
use std::alloc::{AllocError, Global};

/// A code in which no two items race, where each crossing has its barrier.
#[derive(Drop)]
pub struct RaceFree {
    code: Code,
}

impl RaceFree {
    /// The code.
    pub fn code(&self) -> &Code
        ensures { result.now ≡ self.now.code }
    {
        &self.code
    }

    /// The code, as a value of its own.
    pub fn into_code(self) -> Code
        ensures { result ≡ self.code }
    {
        self.code
    }
}

/// Adds the questions of races between groups: of each two accesses of one argument array, one of them a store, of two
/// statements or of one, at any turns.
fn add_group_races<'a>(
    frame: &Frame<'_>,
    statements: &'a [Statement],
    made: &mut Vec<Question<'a>>,
) -> Result<(), AllocError> {
    for at in 0..statements.len() {
        add_within(frame, Apart::Groups, Turns::Any, &statements[at], made)?;
        for other in &statements[at + 1..] {
            add_between(
                frame,
                Apart::Groups,
                Turns::Any,
                &statements[at],
                other,
                made,
            )?;
        }
    }
    Ok(())
}

/// Adds the questions of races within a group: of each two accesses of one argument or local array, one of them a store,
/// of one statement at one turn.
fn add_item_races<'a>(
    frame: &Frame<'_>,
    statements: &'a [Statement],
    made: &mut Vec<Question<'a>>,
) -> Result<(), AllocError> {
    for statement in statements {
        add_within(frame, Apart::Items, Turns::Same, statement, made)?;
    }
    Ok(())
}

/// The questions of all races in order: those between groups, and then those within one.
fn race_questions<'a>(
    alloc: Global,
    frame: &Frame<'_>,
    statements: &'a [Statement],
) -> Result<Vec<Question<'a>>, AllocError> {
    let mut made = Vec::new(alloc);
    add_group_races(frame, statements, &mut made)?;
    add_item_races(frame, statements, &mut made)?;
    Ok(made)
}

/// Refuses the race, where it is open.
fn refuse_race(
    alloc: Global,
    code: &Code,
    frame: &Frame<'_>,
    question: Question<'_>,
) -> Result<(), Fault> {
    match open_case(alloc, frame, question) {
        Ok(None) => Ok(()),
        Ok(Some(open)) => Err(told(race_not_excluded(alloc, code, question, open))),
        Err(fault) => Err(refused(alloc, fault)),
    }
}

/// Refuses the first race of the statements that is open.
fn refuse_among(
    alloc: Global,
    code: &Code,
    frame: &Frame<'_>,
    statements: &[Statement],
) -> Result<(), Fault> {
    let questions = race_questions(alloc, frame, statements)?;
    for question in &questions {
        refuse_race(alloc, code, frame, *question)?;
    }
    Ok(())
}

/// Refuses the first race that is open.
fn refuse_races(alloc: Global, code: &Code, facts: &Facts) -> Result<(), Fault> {
    let frame = Frame::of(code, facts);
    match statements_of(alloc, &frame, &code.body) {
        Ok(statements) => refuse_among(alloc, code, &frame, statements.as_slice()),
        Err(fault) => Err(refused(alloc, fault)),
    }
}

/// The code, where no race of it is open: first those of two accesses of one cell of an argument array, one of them a
/// store, by items of two groups, at any turns of loops; then those of two such accesses of one statement, of a local array
/// too, by two items of a group at the same turns. A C code has one item and no race.
///
/// A race is asked by the system of the rows that hold round each of its accesses, the rows of the facts, equal subscripts
/// and, within a group, equal group axes and loops; it is open where one of its cases, in which an axis differs, has a
/// rational point. Rule 37 comes exactly for the first open race, with the first case that has a point. Rules 18 and 19
/// come at the first question whose system passes a limit before that.
pub fn check_code_with(alloc: Global, code: Code, facts: &Facts) -> Result<RaceFree, Fault>
    ensures code { IfOk result (λ free. free.code ≡ code) }
{
    match code.target {
        Target::C => Ok(RaceFree { code }),
        Target::OpenCl => {
            refuse_races(alloc, &code, facts)?;
            Ok(RaceFree { code })
        }
    }
}

/// The same with no rows, with the ids `#0`, `#1` and so on, and with no inames on axes.
pub fn check_code(alloc: Global, code: Code) -> Result<RaceFree, Fault>
    ensures code { IfOk result (λ free. free.code ≡ code) }
{
    let facts = Facts {
        rows: Listed::new(alloc),
        ids: Listed::new(alloc),
        axes: Listed::new(alloc),
    };
    check_code_with(alloc, code, &facts)
}
