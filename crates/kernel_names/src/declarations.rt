//! All names of a file, and what they stand for.
ghost use Rattle.std.specs.Prelude.{◌≡◌, [], ◌∷◌, ◌++◌, List, ℕ, flat_map, bytes_eq, IfOk, OnOk};
ghost use Rattle.quasi_forms.specs.Alike.{distinct};
ghost use Rattle.kernel_names.specs.Said.{own_in};
ghost use Rattle.kernel_names.specs.Roles.{declarations_of, kernel_roles, may_store, name_of, number_of, parameters_of, inames_of, parameter_in, iname_in};
ghost use Rattle.kernel_names.specs.Lines.{faults_of};

use crate::limit::LineFaults;
use crate::lines::read_lines;
use crate::numbering::Numbering;
use crate::table::{Table, found_role};
use affine_rows::{Listed, Name, Names};
use expr_tree::Cell;
use kernel_grammar::{Entry, Item};
use std::alloc::{AllocError, Global};
use untyped::Role;

/// All names of a kernel file, each once, and what those of the one name space, which come first, stand for. A variable's
/// number is its place among the names.
#[derive(Drop)]
pub struct Declarations {
    pub(crate) names: Numbering,
    pub(crate) roles: Listed<Role>,
    pub(crate) stored: Listed<bool>,
}

/// Adds names that are new.
pub(crate) fn add_names(
    alloc: Global,
    names: &mut Numbering,
    added: &[Name],
) -> Result<(), AllocError>
    ensures { OnOk result ((before : List (List ℕ)) → names.old ≡ distinct bytes_eq before → names.new ≡ distinct bytes_eq (before ++ added.now)) }
{
    'added: for name in added {
        names.insert(alloc, name)?;
    }
    Ok(())
}

/// Adds the parameters that are a rule's own, if a line has a rule.
fn add_own_in(alloc: Global, names: &mut Numbering, line: &Item) -> Result<(), AllocError>
    ensures { OnOk result ((before : List (List ℕ)) → names.old ≡ distinct bytes_eq before → names.new ≡ distinct bytes_eq (before ++ own_in line.now)) }
{
    match line {
        Item::Rule { params, .. } => add_names(alloc, names, params.as_slice()),
        _ => Ok(()),
    }
}

/// Adds the parameters that are rules' own.
fn add_own(alloc: Global, names: &mut Numbering, entries: &[Entry]) -> Result<(), AllocError>
    ensures { OnOk result ((before : List (List ℕ)) → names.old ≡ distinct bytes_eq before → names.new ≡ distinct bytes_eq (before ++ flat_map (λ e. own_in e.item) entries.now)) }
{
    'entries: for entry in entries {
        add_own_in(alloc, names, &entry.item)?;
    }
    Ok(())
}

impl Declarations {
    /// The names that the lines of a file declare, and what is wrong with them line by line. It takes time in proportion to
    /// the file. The only error is want of memory.
    pub fn of_entries(
        alloc: Global,
        entries: &[Entry],
    ) -> Result<(Declarations, Listed<LineFaults>), AllocError>
        ensures declarations { IfOk result (λ r. r.0 ≡ declarations_of entries.now) }
        ensures faults { IfOk result (λ r. r.1 ≡ faults_of entries.now) }
    {
        let (reading, faults) = read_lines(alloc, entries)?;
        let Table {
            mut names,
            roles,
            stored,
            ..
        } = reading.table;
        add_own(alloc, &mut names, entries)?;
        let declarations = Declarations {
            names,
            roles,
            stored,
        };
        Ok((declarations, faults))
    }

    /// What a name stands for in instructions and domains.
    pub fn role(&self, name: &Name) -> Role
        ensures { result ≡ kernel_roles self.now name.now }
    {
        found_role(self.roles.as_slice(), self.names.position(name))
    }

    /// Whether a cell may be stored to: a temporary, or an array that is no `input`.
    pub fn may_store(&self, cell: Cell) -> bool
        ensures { result ≡ may_store self.now cell }
    {
        match cell {
            Cell::Array(at) => match self.stored.get(at as usize) {
                Some(stored) => *stored,
                None => false,
            },
            Cell::Temp(_) => true,
        }
    }

    /// The number of a name that is a variable; 0 for one that is no name of the file.
    pub fn number(&self, name: &Name) -> u32
        ensures { result ≡ number_of self.now name.now }
    {
        match self.names.position(name) {
            Some(at) => at,
            None => 0,
        }
    }

    /// The name of a variable; empty where there is none. The only error is want of memory.
    pub fn name(&self, alloc: Global, var: u32) -> Result<Name, AllocError>
        ensures { IfOk result (λ n. n ≡ name_of self.now var) }
    {
        self.names.name(alloc, var)
    }

    /// The parameters of the kernel, in declared order.
    pub fn parameters(&self, alloc: Global) -> Result<Listed<u32>, AllocError>
        ensures { IfOk result (λ vars. vars ≡ parameters_of self.now) }
    {
        let mut vars = Listed::new(alloc);
        'roles: for role in self.roles.as_slice() {
            if let Role::Parameter(var) = role {
                vars.push(*var)?;
            }
        }
        Ok(vars)
    }

    /// The inames, in declared order.
    pub fn inames(&self, alloc: Global) -> Result<Listed<u32>, AllocError>
        ensures { IfOk result (λ vars. vars ≡ inames_of self.now) }
    {
        let mut vars = Listed::new(alloc);
        'roles: for role in self.roles.as_slice() {
            if let Role::Iname(var) = role {
                vars.push(*var)?;
            }
        }
        Ok(vars)
    }

    /// The names.
    pub fn into_names(self) -> Names
        ensures { result ≡ self.names }
    {
        self.names.into_names()
    }
}
