//! What is wrong in an expression.
ghost use Rattle.std.specs.Prelude.{◌≡◌, IfOk};
ghost use Rattle.untyped.specs.Readings.{no_faults, joined, unknown_first};

use affine_rows::Name;
use std::alloc::{AllocError, Global};

/// What is wrong in an expression, kinds aside. Names are the first ones in text order.
#[derive(Drop)]
pub struct Faults {
    /// A number past 18446744073709551615 is written in it.
    pub wide: bool,
    /// A number past 1,048,576 is written in it, which no index expression may hold.
    pub large: bool,
    /// Such a number is written in a subscript or an argument.
    pub number: bool,
    /// It is deeper than 64.
    pub depth: bool,
    /// An index form, or a part of one that is collected on the way, passes a limit.
    pub form: bool,
    /// A name that does not stand for what is written.
    pub unknown: Option<Name>,
    /// An array, a temporary or a rule of which a subscript or an argument is no index expression.
    pub shape: Option<Name>,
}

fn name_copy(alloc: Global, name: &Option<Name>) -> Result<Option<Name>, AllocError>
    ensures { IfOk result (λ n. n ≡ name.now) }
{
    match name {
        Some(name) => Ok(Some(name.copy(alloc)?)),
        None => Ok(None),
    }
}

impl Faults {
    /// Nothing is wrong.
    pub(crate) fn none() -> Faults
        ensures { result ≡ no_faults }
    {
        Faults {
            wide: false,
            large: false,
            number: false,
            depth: false,
            form: false,
            unknown: None,
            shape: None,
        }
    }

    /// An equal list of faults.
    pub(crate) fn copy(&self, alloc: Global) -> Result<Faults, AllocError>
        ensures { IfOk result (λ f. f ≡ self.now) }
    {
        Ok(Faults {
            wide: self.wide,
            large: self.large,
            number: self.number,
            depth: self.depth,
            form: self.form,
            unknown: name_copy(alloc, &self.unknown)?,
            shape: name_copy(alloc, &self.shape)?,
        })
    }

    /// These faults and those of what stands behind.
    pub(crate) fn and(self, behind: Faults) -> Faults
        ensures { result ≡ joined self behind }
    {
        Faults {
            wide: self.wide || behind.wide,
            large: self.large || behind.large,
            number: self.number || behind.number,
            depth: self.depth || behind.depth,
            form: self.form || behind.form,
            unknown: self.unknown.or(behind.unknown),
            shape: self.shape.or(behind.shape),
        }
    }

    /// These faults behind a name that stands for something else.
    pub(crate) fn behind_unknown(self, alloc: Global, name: &Name) -> Result<Faults, AllocError>
        ensures { IfOk result (λ f. f ≡ unknown_first name.now self) }
    {
        let unknown = name.copy(alloc)?;
        Ok(Faults {
            unknown: Some(unknown),
            ..self
        })
    }
}
