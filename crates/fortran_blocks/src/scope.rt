//! What the names of a block stand for.
use crate::spelling::{Operands, Spelled};
use affine_rows::{Listed, Name, Names};
use kernel_grammar::Step;
use std::alloc::{AllocError, Global};

/// A loop variable: the number behind the name of its last iname, and the inames of its open loops.
#[derive(Drop)]
struct Variable {
    last: u32,
    open: Vec<Name>,
}

/// The items that are declared, the inames with them, the loop variables, those of them that are declared, and the open loops,
/// each with its variable's place.
#[derive(Drop)]
pub(crate) struct Scope {
    declared: Names,
    taken: Names,
    names: Names,
    declared_variables: Names,
    variables: Vec<Variable>,
    open: Vec<(usize, Name)>,
}

impl Scope {
    pub(crate) fn new(alloc: Global) -> Scope {
        Scope {
            declared: Names::new(alloc),
            taken: Names::new(alloc),
            names: Names::new(alloc),
            declared_variables: Names::new(alloc),
            variables: Vec::new(alloc),
            open: Vec::new(alloc),
        }
    }

    /// Adds an item that is declared, and tells whether it is new.
    pub(crate) fn declare(&mut self, alloc: Global, name: &Name) -> Result<bool, AllocError> {
        self.taken.insert(name.copy(alloc)?)?;
        let is_new = self.declared_variables.position(name).is_none();
        Ok(self.declared.insert(name.copy(alloc)?)? && is_new)
    }

    /// Notes that a variable of a loop is declared, and tells whether it was not before.
    pub(crate) fn declare_variable(
        &mut self,
        alloc: Global,
        name: &Name,
    ) -> Result<bool, AllocError> {
        let is_new = self.declared.position(name).is_none();
        Ok(self.declared_variables.insert(name.copy(alloc)?)? && is_new)
    }

    /// Adds a variable of a loop, if it is new.
    pub(crate) fn add_variable(&mut self, alloc: Global, name: &Name) -> Result<(), AllocError> {
        if self.names.insert(name.copy(alloc)?)? {
            let open = Vec::new(alloc);
            self.variables.push(Variable { last: 0, open })?;
        }
        Ok(())
    }

    /// Whether some loop is over the variable.
    pub(crate) fn is_variable(&self, name: &Name) -> bool {
        self.names.position(name).is_some()
    }

    /// The number of the first of the names with a number from this one on that is not taken.
    fn free_number(&self, alloc: Global, name: &Name, from: u32) -> Result<u32, AllocError> {
        let mut number = from;
        for _taken in 0..self.taken.len() {
            if !self.is_taken(&numbered(alloc, name, number)?) {
                return Ok(number);
            }
            number = number.saturating_add(1);
        }
        Ok(number)
    }

    fn is_taken(&self, name: &Name) -> bool {
        self.taken.position(name).is_some()
    }

    /// The last number of a variable.
    fn last_number(&self, at: usize) -> u32 {
        match self.variables.get(at) {
            Some(variable) => variable.last,
            None => 0,
        }
    }

    /// The iname of a new loop over the variable at a place. It has the variable's name, also where an item has it, or a number
    /// behind it where an iname has it.
    fn iname_for(&mut self, alloc: Global, name: &Name, at: usize) -> Result<Name, AllocError> {
        if self.declared.position(name).is_some() || !self.is_taken(name) {
            return name.copy(alloc);
        }
        let number = self.free_number(alloc, name, self.last_number(at).saturating_add(1))?;
        if let Some(variable) = self.variables.get_mut(at) {
            variable.last = number;
        }
        numbered(alloc, name, number)
    }

    /// Opens a loop, and answers its iname.
    pub(crate) fn begin_loop(&mut self, alloc: Global, name: &Name) -> Result<Name, AllocError> {
        let at = self.names.position(name).unwrap_or(0);
        let iname = self.iname_for(alloc, name, at)?;
        self.taken.insert(iname.copy(alloc)?)?;
        if let Some(variable) = self.variables.get_mut(at) {
            variable.open.push(iname.copy(alloc)?)?;
        }
        self.open.push((at, iname.copy(alloc)?))?;
        Ok(iname)
    }

    /// Closes the loop that was opened last.
    pub(crate) fn end_loop(&mut self) {
        if let Some((at, _)) = self.open.pop() {
            if let Some(variable) = self.variables.get_mut(at) {
                let _iname = variable.open.pop();
            }
        }
    }

    /// The open loops, the outermost first, each with its iname.
    pub(crate) fn open_loops(&self) -> &[(usize, Name)] {
        &self.open
    }

    /// The iname of the innermost open loop over a variable.
    fn iname_of(&self, name: &Name) -> Option<&Name> {
        match self.names.position(name) {
            Some(at) => match self.variables.get(at) {
                Some(variable) => variable.open.last(),
                None => None,
            },
            None => None,
        }
    }

    /// What a name in an expression is written as. One that is neither declared nor the variable of an open loop stands for
    /// nothing here, and is written as what no block has: the use of a rule.
    fn resolved(&self, alloc: Global, name: Name) -> Result<Spelled, AllocError> {
        if self.declared.position(&name).is_some() {
            return Spelled::of_name(alloc, name);
        }
        match self.iname_of(&name) {
            Some(iname) => Spelled::of_name(alloc, iname.copy(alloc)?),
            None => Spelled::of_rule(alloc, name),
        }
    }

    /// The text of an expression, with inames for the variables of loops.
    pub(crate) fn spelled(
        &self,
        alloc: Global,
        steps: Listed<Step>,
    ) -> Result<Spelled, AllocError> {
        let mut operands = Operands::none(alloc);
        for step in steps.into_vec() {
            match step {
                Step::Name(name) => operands.push(self.resolved(alloc, name)?)?,
                other => operands.take(alloc, other)?,
            }
        }
        Ok(operands.pop(alloc))
    }
}

/// The name with a number behind it.
fn numbered(alloc: Global, name: &Name, number: u32) -> Result<Name, AllocError> {
    let text = name.as_str();
    Ok(Name::new(format!(in alloc; "{text}_{number}")?))
}
