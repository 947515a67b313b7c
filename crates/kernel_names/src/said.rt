//! The names that a line says.
ghost use Rattle.std.specs.Prelude.{◌≡◌, [], ◌∷◌, ◌++◌, IfOk, OnOk};
ghost use Rattle.kernel_names.specs.Said.{said_as, said_in, is_declaration};

use affine_rows::{Listed, Name};
use kernel_grammar::{Declared, Item};
use std::alloc::{AllocError, Global};

/// As what a line says a name.
#[derive(Clone, Copy, Debug, PartialEq, Eq)]
pub enum Sort {
    /// Before the arrow of a domain: a parameter, if it is no variable yet.
    Parameter,
    /// Behind the arrow of a domain.
    Iname,
    /// An array of so many places, and whether it may be stored to.
    Array(u32, bool),
    /// A temporary of so many places.
    Temp(u32),
    Rule,
    /// A parameter of a rule's own, which is in no name space.
    Own,
}

impl Sort {
    /// Whether the name is declared in the one name space.
    pub(crate) fn is_declaration(self) -> bool
        ensures { result ≡ is_declaration self }
    {
        !matches!(self, Sort::Own)
    }
}

/// A name that a line says.
#[derive(Drop)]
pub struct Said {
    pub(crate) sort: Sort,
    pub(crate) name: Name,
}

/// A count in 32 bits; a greater one is answered as want of memory.
fn count(length: usize) -> Result<u32, AllocError>
    ensures { IfOk result (λ n. n ≡ length) }
{
    if length > u32::MAX as usize {
        return Err(AllocError);
    }
    Ok(length as u32)
}

fn say(alloc: Global, sort: Sort, name: &Name, said: &mut Listed<Said>) -> Result<(), AllocError>
    ensures { OnOk result (said.new ≡ said.old ++ record { sort = sort; name = name.now } ∷ []) }
{
    let name = name.copy(alloc)?;
    said.push(Said { sort, name })
}

fn say_all(
    alloc: Global,
    sort: Sort,
    names: &[Name],
    said: &mut Listed<Said>,
) -> Result<(), AllocError>
    ensures { OnOk result (said.new ≡ said.old ++ said_as sort names.now) }
{
    'names: for name in names {
        say(alloc, sort, name, said)?;
    }
    Ok(())
}

/// The names that a line declares, and a rule's own parameters, in the order of the text. Want of memory is the one error.
pub(crate) fn said_in(alloc: Global, line: &Item) -> Result<Listed<Said>, AllocError>
    ensures { IfOk result (λ said. said ≡ said_in line.now) }
{
    let mut said = Listed::new(alloc);
    match line {
        Item::Domain { known, inames, .. } => {
            say_all(alloc, Sort::Parameter, known.as_slice(), &mut said)?;
            say_all(alloc, Sort::Iname, inames.as_slice(), &mut said)?;
        }
        Item::Assume { .. } => {}
        Item::Array {
            name,
            shape,
            stored,
            ..
        } => {
            say(
                alloc,
                Sort::Array(count(shape.len())?, *stored),
                name,
                &mut said,
            )?;
        }
        Item::Temp { name, shape, .. } => {
            say(alloc, Sort::Temp(count(shape.len())?), name, &mut said)?;
        }
        Item::Rule { name, params, .. } => {
            say(alloc, Sort::Rule, name, &mut said)?;
            say_all(alloc, Sort::Own, params.as_slice(), &mut said)?;
        }
        Item::Insn { declared, name, .. } => match declared {
            Declared::Not => {}
            Declared::Inferred | Declared::Of(_) => {
                say(alloc, Sort::Temp(0), name, &mut said)?;
            }
        },
    }
    Ok(said)
}
