//! What is read of an expression.
ghost use Rattle.std.specs.Prelude.{◌≡◌, ◌≤◌, None, IfOk, MatchOption};
ghost use Rattle.untyped.specs.Readings.{tree_of, is_index, index_reading, refused_reading, tree_reading, index_or_tree, number_reading, small_reading, variable_reading, read_reading, name_reading, unknown_unless, no_faults};

use crate::faults::Faults;
use crate::index::{Collected, one};
use crate::scope::Role;
use crate::tree::{Term, Untyped};
use affine_rows::{Form, Listed, Name};
use expr_tree::Cell;
use std::alloc::{AllocError, Global};

/// The largest number that may be written in an index expression.
const LARGEST_NUMBER: u64 = 1_048_576;

/// The deepest expression that there may be.
const MAX_DEPTH: u32 = 64;

/// An expression that is read.
#[derive(Drop)]
pub enum Part {
    /// An index expression, and whether no variable is written in it.
    Index(Form, bool),
    /// Any other value, or a test.
    Tree(Untyped),
}

impl Part {
    /// Whether it is an index expression.
    pub fn is_index(&self) -> bool
        ensures { result ≡ is_index self.now }
    {
        match self {
            Part::Index(_, _) => true,
            Part::Tree(_) => false,
        }
    }

    /// The part as a tree.
    pub fn into_tree(self, alloc: Global) -> Result<Untyped, AllocError>
        ensures { IfOk result (λ e. e ≡ tree_of self) }
    {
        match self {
            Part::Index(form, constant) => Untyped::of_term(alloc, Term::Index(form, constant)),
            Part::Tree(tree) => Ok(tree),
        }
    }
}

/// What is read of an expression: the part, how deep it is, an index expression being 1 deep, and what is wrong in it.
/// Where something is wrong another part may stand in the place of what is refused.
#[derive(Drop)]
pub struct Reading {
    pub part: Part,
    pub depth: u32,
    pub faults: Faults,
}

/// An index expression over parts with these faults.
pub(crate) fn index_reading(collected: Collected, faults: Faults) -> Reading
    ensures { result ≡ index_reading collected faults }
{
    Reading {
        part: Part::Index(collected.form, collected.constant),
        depth: 1,
        faults: Faults {
            form: faults.form || collected.over,
            ..faults
        },
    }
}

/// What stands for an expression that is refused.
pub(crate) fn refused_reading(alloc: Global, faults: Faults) -> Reading
    ensures { result ≡ refused_reading faults }
{
    Reading {
        part: Part::Index(one(alloc), false),
        depth: 1,
        faults,
    }
}

/// A term over parts of a depth.
pub(crate) fn tree_reading(
    alloc: Global,
    below: u32,
    term: Term,
    faults: Faults,
) -> Result<Reading, AllocError>
    ensures { IfOk result (λ r. r ≡ tree_reading below term faults) }
{
    if below >= MAX_DEPTH {
        let deep = Faults {
            depth: true,
            ..faults
        };
        return Ok(refused_reading(alloc, deep));
    }
    Ok(Reading {
        part: Part::Tree(Untyped::of_term(alloc, term)?),
        depth: below + 1,
        faults,
    })
}

/// An index expression where there is one, and else a term.
pub(crate) fn index_or_tree(
    alloc: Global,
    collected: Option<Collected>,
    below: u32,
    term: Term,
    faults: Faults,
) -> Result<Reading, AllocError>
    ensures { IfOk result (λ r. r ≡ index_or_tree collected below term faults) }
{
    match collected {
        Some(collected) => Ok(index_reading(collected, faults)),
        None => tree_reading(alloc, below, term, faults),
    }
}

/// A number that is at most 18446744073709551615.
fn small_reading(alloc: Global, number: u64) -> Result<Reading, AllocError>
    ensures { IfOk result (λ r. r ≡ small_reading number) }
{
    if number <= LARGEST_NUMBER {
        let form = Form::affine(alloc, number as i64, Listed::new(alloc));
        return Ok(Reading {
            part: Part::Index(form, true),
            depth: 1,
            faults: Faults::none(),
        });
    }
    Ok(Reading {
        part: Part::Tree(Untyped::of_term(alloc, Term::Literal(number))?),
        depth: 1,
        faults: Faults {
            large: true,
            ..Faults::none()
        },
    })
}

/// A number.
pub(crate) fn number_reading(alloc: Global, number: Option<u64>) -> Result<Reading, AllocError>
    ensures { IfOk result (λ r. r ≡ number_reading number) }
{
    match number {
        Some(number) => small_reading(alloc, number),
        None => Ok(refused_reading(
            alloc,
            Faults {
                wide: true,
                large: true,
                ..Faults::none()
            },
        )),
    }
}

fn variable_reading(alloc: Global, variable: u32) -> Result<Reading, AllocError>
    ensures { IfOk result (λ r. r ≡ variable_reading variable) }
{
    let terms = Listed::of_one(alloc, (variable, 1))?;
    Ok(Reading {
        part: Part::Index(Form::affine(alloc, 0, terms), false),
        depth: 1,
        faults: Faults::none(),
    })
}

fn unknown_unless(
    alloc: Global,
    fine: bool,
    name: &Name,
    faults: Faults,
) -> Result<Faults, AllocError>
    ensures { IfOk result (λ f. f ≡ unknown_unless fine name.now faults) }
{
    if fine {
        Ok(faults)
    } else {
        faults.behind_unknown(alloc, name)
    }
}

/// A read of a cell, at as many subscripts as it has places or not.
pub(crate) fn read_reading(
    alloc: Global,
    name: &Name,
    cell: Cell,
    fits: bool,
    place: Listed<Form>,
    faults: Faults,
) -> Result<Reading, AllocError>
    ensures { IfOk result (λ r. r ≡ read_reading name.now cell fits place faults) }
{
    Ok(Reading {
        part: Part::Tree(Untyped::of_term(alloc, Term::Read(cell, place))?),
        depth: 1,
        faults: unknown_unless(alloc, fits, name, faults)?,
    })
}

/// A name without subscripts.
pub(crate) fn name_reading(alloc: Global, role: Role, name: &Name) -> Result<Reading, AllocError>
    ensures { IfOk result (λ r. r ≡ name_reading role name.now) }
{
    match role {
        Role::Parameter(variable) | Role::Iname(variable) => variable_reading(alloc, variable),
        Role::Cell { cell, places } => {
            read_reading(
                alloc,
                name,
                cell,
                places == 0,
                Listed::new(alloc),
                Faults::none(),
            )
        }
        Role::Rule(_) | Role::Unknown => {
            let faults = Faults::none().behind_unknown(alloc, name)?;
            Ok(refused_reading(alloc, faults))
        }
    }
}
