//! Temporaries whose first statement does not make them.
use affine_rows::{Name, Names};
use kernel_grammar::{Entry, InsnOption, Item, Step};
use kernel_ir::{Fault, Refusal, Site};
use std::alloc::{AllocError, Global};

/// An instruction: the cell to which it stores, the temporaries that it reads, its inames, and whether it has a condition.
#[derive(Drop)]
struct User {
    line: u32,
    stored: Name,
    reads: Names,
    inames: Names,
    has_condition: bool,
}

/// The temporaries in the order in which they are declared.
fn temps_of(alloc: Global, entries: &[Entry]) -> Result<Names, AllocError> {
    let mut temps = Names::new(alloc);
    for entry in entries {
        if let Item::Temp { name, .. } = &entry.item {
            temps.insert(name.copy(alloc)?)?;
        }
    }
    Ok(temps)
}

/// Adds the temporaries that the steps name.
fn add_reads(
    alloc: Global,
    temps: &Names,
    steps: &[Step],
    reads: &mut Names,
) -> Result<(), AllocError> {
    for step in steps {
        if let Step::Name(name) = step {
            if temps.position(name).is_some() {
                reads.insert(name.copy(alloc)?)?;
            }
        }
    }
    Ok(())
}

/// Adds names.
fn add_names(alloc: Global, names: &[Name], to: &mut Names) -> Result<(), AllocError> {
    for name in names {
        to.insert(name.copy(alloc)?)?;
    }
    Ok(())
}

impl User {
    /// Takes the options.
    fn take_options(
        &mut self,
        alloc: Global,
        temps: &Names,
        options: &[InsnOption],
    ) -> Result<(), AllocError> {
        for option in options {
            match option {
                InsnOption::If(steps) => {
                    self.has_condition = true;
                    add_reads(alloc, temps, steps.as_slice(), &mut self.reads)?;
                }
                InsnOption::Inames(names) => {
                    add_names(alloc, names.as_slice(), &mut self.inames)?;
                }
                InsnOption::Id(_) | InsnOption::Dep { .. } => {}
            }
        }
        Ok(())
    }

    fn stores_to(&self, temp: &Name) -> bool {
        self.stored.as_str() == temp.as_str()
    }

    fn reads(&self, temp: &Name) -> bool {
        self.reads.position(temp).is_some()
    }

    fn mentions(&self, temp: &Name) -> bool {
        self.stores_to(temp) || self.reads(temp)
    }

    /// Whether all loops round it are round the other one.
    fn is_round(&self, alloc: Global, other: &User) -> Result<bool, AllocError> {
        for at in 0..self.inames.len() {
            if let Some(iname) = self.inames.get(at) {
                let iname = Name::from_str(alloc, iname)?;
                if other.inames.position(&iname).is_none() {
                    return Ok(false);
                }
            }
        }
        Ok(true)
    }

    /// Whether all loops round it are round all that mention the temporary.
    fn is_round_all(&self, alloc: Global, temp: &Name, users: &[User]) -> Result<bool, AllocError> {
        for user in users {
            if user.mentions(temp) && !self.is_round(alloc, user)? {
                return Ok(false);
            }
        }
        Ok(true)
    }

    /// Whether the first statement that mentions the temporary makes it for all.
    fn makes(&self, alloc: Global, temp: &Name, users: &[User]) -> Result<bool, AllocError> {
        if !self.stores_to(temp) || self.reads(temp) || self.has_condition {
            return Ok(false);
        }
        self.is_round_all(alloc, temp, users)
    }
}

/// The instructions in order.
fn users_of(alloc: Global, temps: &Names, entries: &[Entry]) -> Result<Vec<User>, AllocError> {
    let mut users = Vec::new(alloc);
    for entry in entries {
        if let Item::Insn {
            name,
            value,
            options,
            ..
        } = &entry.item
        {
            let mut user = User {
                line: entry.line,
                stored: name.copy(alloc)?,
                reads: Names::new(alloc),
                inames: Names::new(alloc),
                has_condition: false,
            };
            add_reads(alloc, temps, value.as_slice(), &mut user.reads)?;
            user.take_options(alloc, temps, options.as_slice())?;
            users.push(user)?;
        }
    }
    Ok(users)
}

/// The line of the first statement that mentions a temporary, if this does not make it for all others.
fn line_at_fault(alloc: Global, temp: &Name, users: &[User]) -> Result<Option<u32>, AllocError> {
    for user in users {
        if user.mentions(temp) {
            let line = if user.makes(alloc, temp, users)? {
                None
            } else {
                Some(user.line)
            };
            return Ok(line);
        }
    }
    Ok(None)
}

/// Rule 13 at a line.
fn temp_cell(alloc: Global, line: u32, name: &Name) -> Result<Refusal, AllocError> {
    let refusal = Refusal::of_rule(alloc, Site::Kernel, 13).with_name(alloc, name)?;
    Ok(refusal.with_word(alloc, "-")?.at_line(line))
}

/// The refusal of the first temporary that its first statement does not make.
fn refusal_of(alloc: Global, entries: &[Entry]) -> Result<Option<Refusal>, AllocError> {
    let temps = temps_of(alloc, entries)?;
    let users = users_of(alloc, &temps, entries)?;
    for at in 0..temps.len() {
        if let Some(temp) = temps.get(at) {
            let temp = Name::from_str(alloc, temp)?;
            if let Some(line) = line_at_fault(alloc, &temp, &users)? {
                return Ok(Some(temp_cell(alloc, line, &temp)?));
            }
        }
    }
    Ok(None)
}

/// Refuses by rule 13 the first temporary whose first statement does not store to it, or reads it, or has a condition, or
/// stands in a loop that does not hold all statements that mention it. The lines are those of the entries.
pub(crate) fn check_temps(alloc: Global, entries: &[Entry]) -> Result<(), Fault> {
    match refusal_of(alloc, entries)? {
        Some(refusal) => Err(Fault::Rule(refusal)),
        None => Ok(()),
    }
}
