//! What names stand for, as far as lines are read.
ghost use Rattle.std.specs.Prelude.{◌≡◌, [], ◌∷◌, ◌++◌, ◌+◌, length, IfOk, OnOk, List, if◌then◌else◌, bytes_eq};
ghost use Rattle.std.specs.List.{list_any};
ghost use Rattle.kernel_names.specs.declared.said.Said.{Said};
ghost use Rattle.kernel_names.specs.Roles.{role_at, found_role, stored_as};
ghost use Rattle.kernel_names.specs.Tables.{IsTable, counts_with, role_with};

use crate::numbering::Numbering;
use crate::said::Sort;
use affine_rows::{Listed, Name};
use expr_tree::Cell;
use std::alloc::{AllocError, Global};
use untyped::Role;

/// How many declarations there are of a sort.
#[derive(Clone, Copy)]
pub(crate) struct Counts {
    pub(crate) parameters: u32,
    pub(crate) arrays: u32,
    pub(crate) temps: u32,
    pub(crate) rules: u32,
}

/// One more, in 32 bits; a greater count is answered as want of memory.
fn one_more(count: u32) -> Result<u32, AllocError>
    ensures { IfOk result (λ n. n ≡ count + 1) }
{
    count.checked_add(1).ok_or(AllocError)
}

impl Counts {
    /// What the next declaration stands for, where so many names are declared.
    fn role(self, names: u32, sort: Sort) -> Role
        ensures { result ≡ role_with names self sort }
    {
        match sort {
            Sort::Parameter => Role::Parameter(names),
            Sort::Iname => Role::Iname(names),
            Sort::Array(places, _) => Role::Cell {
                cell: Cell::Array(self.arrays),
                places,
            },
            Sort::Temp(places) => Role::Cell {
                cell: Cell::Temp(self.temps),
                places,
            },
            Sort::Rule => Role::Rule(self.rules),
            Sort::Own => Role::Unknown,
        }
    }

    /// The counts with one more of a sort.
    fn with(self, sort: Sort) -> Result<Counts, AllocError>
        ensures { IfOk result (λ c. c ≡ counts_with self sort) }
    {
        let mut counts = self;
        match sort {
            Sort::Parameter => counts.parameters = one_more(self.parameters)?,
            Sort::Array(_, _) => counts.arrays = one_more(self.arrays)?,
            Sort::Temp(_) => counts.temps = one_more(self.temps)?,
            Sort::Rule => counts.rules = one_more(self.rules)?,
            Sort::Iname | Sort::Own => {}
        }
        Ok(counts)
    }
}

/// The names that are declared so far, what each stands for, which arrays may be stored to, and counts.
#[derive(Drop)]
pub(crate) struct Table {
    pub(crate) names: Numbering,
    pub(crate) roles: Listed<Role>,
    pub(crate) stored: Listed<bool>,
    pub(crate) counts: Counts,
}

/// What stands at a place, if there is one.
pub(crate) fn found_role(roles: &[Role], at: Option<u32>) -> Role
    ensures { result ≡ found_role roles.now at }
{
    match at {
        Some(at) => match roles.get(at as usize) {
            Some(role) => *role,
            None => Role::Unknown,
        },
        None => Role::Unknown,
    }
}

fn push_stored(stored: &mut Listed<bool>, sort: Sort) -> Result<(), AllocError>
    ensures { OnOk result (stored.new ≡ stored.old ++ stored_as sort) }
{
    match sort {
        Sort::Array(_, may_store) => stored.push(may_store),
        _ => Ok(()),
    }
}

impl Table {
    /// No names.
    pub(crate) fn new(alloc: Global) -> Table
        ensures { IsTable result [] }
    {
        Table {
            names: Numbering::new(alloc),
            roles: Listed::new(alloc),
            stored: Listed::new(alloc),
            counts: Counts {
                parameters: 0,
                arrays: 0,
                temps: 0,
                rules: 0,
            },
        }
    }

    /// What a name stands for so far.
    pub(crate) fn role(&self, name: &Name) -> Role
        ensures { result ≡ role_at self.now.names self.now.roles name.now }
    {
        found_role(self.roles.as_slice(), self.names.position(name))
    }

    /// Adds a name at the end, unless it is there, and what it stands for.
    fn add(&mut self, alloc: Global, sort: Sort, name: &Name) -> Result<(), AllocError>
        ensures names { OnOk result (self.new.names ≡ (if list_any (bytes_eq name.now) self.old.names then self.old.names else (self.old.names ++ name.now ∷ []))) }
        ensures roles { OnOk result (self.new.roles ≡ self.old.roles ++ role_with (length self.old.names) self.old.counts sort ∷ []) }
        ensures stored { OnOk result (self.new.stored ≡ self.old.stored ++ stored_as sort) }
        ensures counts { OnOk result (self.new.counts ≡ counts_with self.old.counts sort) }
    {
        let role = self.counts.role(self.names.len(), sort);
        self.roles.push(role)?;
        push_stored(&mut self.stored, sort)?;
        self.counts = self.counts.with(sort)?;
        self.names.insert(alloc, name)
    }

    /// Adds a declaration, unless its name is declared already.
    pub(crate) fn declare(
        &mut self,
        alloc: Global,
        sort: Sort,
        name: &Name,
    ) -> Result<(), AllocError>
        ensures { OnOk result ((said : List Said) → IsTable self.old said → IsTable self.new (said ++ record { sort = sort; name = name.now } ∷ [])) }
    {
        if !sort.is_declaration() {
            return Ok(());
        }
        if self.names.has(name) {
            return Ok(());
        }
        self.add(alloc, sort, name)?;
        Ok(())
    }
}
