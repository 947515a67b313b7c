//! Lines, one after the other.
ghost use Rattle.std.specs.Prelude.{◌≡◌, [], ◌∷◌, ◌++◌, List, Some, None, if◌then◌else◌, IfOk, OnOk};
ghost use Rattle.kernel_names.specs.declared.said.Said.{Said};
ghost use Rattle.kernel_names.specs.Said.{said_in, said_by};
ghost use Rattle.kernel_names.specs.Lines.{is_taken_as, said_faults, faults_along, line_faults, faults_of};
ghost use Rattle.kernel_names.specs.Readings.{IsRead};

use crate::limit::{LineFaults, limit_with};
use crate::numbering::Numbering;
use crate::said::{Said, Sort, said_in};
use crate::shapes::{repeated_own, shape_limit};
use crate::table::Table;
use affine_rows::{Listed, Name};
use kernel_grammar::{Entry, Item};
use std::alloc::{AllocError, Global};
use untyped::Role;

/// The declarations of the lines that are read, and all names that they say.
#[derive(Drop)]
pub(crate) struct Reading {
    pub(crate) table: Table,
    pub(crate) said: Numbering,
}

/// Whether a name that stands for this is taken where a line says it.
fn is_taken_as(sort: Sort, role: Role) -> bool
    ensures { result ≡ is_taken_as sort role }
{
    match (sort, role) {
        (Sort::Own, _) | (_, Role::Unknown) => false,
        (Sort::Parameter, Role::Parameter(_) | Role::Iname(_)) => false,
        _ => true,
    }
}

/// The name, where something is so.
fn name_if(alloc: Global, so: bool, name: &Name) -> Result<Option<Name>, AllocError>
    ensures { IfOk result (λ n. n ≡ (if so then Some name.now else None)) }
{
    if so {
        Ok(Some(name.copy(alloc)?))
    } else {
        Ok(None)
    }
}

impl Reading {
    pub(crate) fn new(alloc: Global) -> Reading
        ensures { IsRead result [] }
    {
        Reading {
            table: Table::new(alloc),
            said: Numbering::new(alloc),
        }
    }

    /// Reads a name, and tells what is wrong with it.
    fn read_name(&mut self, alloc: Global, said: &Said) -> Result<LineFaults, AllocError>
        ensures faults { IfOk result (λ f. (before : List Said) → IsRead self.old before → f ≡ said_faults before said.now) }
        ensures read { OnOk result ((before : List Said) → IsRead self.old before → IsRead self.new (before ++ said.now ∷ [])) }
    {
        let taken = is_taken_as(said.sort, self.table.role(&said.name));
        self.table.declare(alloc, said.sort, &said.name)?;
        self.said.insert(alloc, &said.name)?;
        Ok(LineFaults {
            limit: limit_with(self.table.counts.parameters, self.said.len()),
            unknown: None,
            shape: None,
            taken: name_if(alloc, taken, &said.name)?,
        })
    }

    /// Reads names in order, and tells what is wrong first.
    fn read_names(&mut self, alloc: Global, said: &[Said]) -> Result<LineFaults, AllocError>
        ensures faults { IfOk result (λ f. (before : List Said) → IsRead self.old before → f ≡ faults_along before said.now) }
        ensures read { OnOk result ((before : List Said) → IsRead self.old before → IsRead self.new (before ++ said.now)) }
    {
        let mut faults = LineFaults::none();
        'names: for name in said {
            faults = faults.or(self.read_name(alloc, name)?);
        }
        Ok(faults)
    }

    /// Reads a line, and tells what is wrong in it.
    fn read_line(&mut self, alloc: Global, line: &Item) -> Result<LineFaults, AllocError>
        ensures faults { IfOk result (λ f. (before : List Said) → IsRead self.old before → f ≡ line_faults before line.now) }
        ensures read { OnOk result ((before : List Said) → IsRead self.old before → IsRead self.new (before ++ said_in line.now)) }
    {
        let said = said_in(alloc, line)?;
        let faults = self.read_names(alloc, said.as_slice())?;
        Ok(faults.or(LineFaults {
            limit: shape_limit(line),
            unknown: None,
            shape: None,
            taken: repeated_own(alloc, line)?,
        }))
    }
}

/// Reads all lines, and tells what is wrong in each.
pub(crate) fn read_lines(
    alloc: Global,
    entries: &[Entry],
) -> Result<(Reading, Listed<LineFaults>), AllocError>
    ensures reading { IfOk result (λ r. IsRead r.0 (said_by entries.now)) }
    ensures faults { IfOk result (λ r. r.1 ≡ faults_of entries.now) }
{
    let mut reading = Reading::new(alloc);
    let mut faults = Listed::new(alloc);
    'lines: for entry in entries {
        faults.push(reading.read_line(alloc, &entry.item)?)?;
    }
    Ok((reading, faults))
}
