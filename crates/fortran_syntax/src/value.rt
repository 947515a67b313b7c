//! Expressions as their steps, with subscripts turned round. Lists are joined at once, in no time in proportion to them.
use affine_rows::{Listed, Name};
use kernel_grammar::{Infix, Prefix, Step};
use std::alloc::{AllocError, Global};
use std::collections::LinkedList;

/// An expression, as its steps.
#[derive(Drop)]
pub(crate) struct Value {
    steps: LinkedList<Step>,
}

impl Value {
    /// A number or a name.
    pub(crate) fn of_step(alloc: Global, step: Step) -> Result<Value, AllocError> {
        let mut steps = LinkedList::new(alloc);
        steps.push_back(step)?;
        Ok(Value { steps })
    }

    /// The expression behind `-`.
    pub(crate) fn negated(self) -> Result<Value, AllocError> {
        let Value { mut steps } = self;
        steps.push_back(Step::Prefix(Prefix::Negate))?;
        Ok(Value { steps })
    }

    /// This, an operator and another.
    pub(crate) fn combined(self, infix: Infix, right: Value) -> Result<Value, AllocError> {
        let Value { mut steps } = self;
        let Value { steps: mut others } = right;
        steps.append(&mut others)?;
        steps.push_back(Step::Infix(infix))?;
        Ok(Value { steps })
    }

    /// One less than this.
    pub(crate) fn less_one(self, alloc: Global) -> Result<Value, AllocError> {
        let one = Value::of_step(alloc, Step::Number(Some(1)))?;
        self.combined(Infix::Subtract, one)
    }

    pub(crate) fn into_steps(self, alloc: Global) -> Result<Listed<Step>, AllocError> {
        let Value { steps } = self;
        let mut listed = Listed::new(alloc);
        for step in steps {
            listed.push(step)?;
        }
        Ok(listed)
    }
}

/// Subscripts of a cell, counted from 0, the last one first.
#[derive(Drop)]
pub(crate) struct Places {
    count: u32,
    steps: LinkedList<Step>,
}

impl Places {
    pub(crate) fn none(alloc: Global) -> Places {
        Places {
            count: 0,
            steps: LinkedList::new(alloc),
        }
    }

    /// These and a further one, which is counted from 1.
    pub(crate) fn with(self, alloc: Global, place: Value) -> Result<Places, AllocError> {
        let Places {
            count,
            steps: mut behind,
        } = self;
        let Value { mut steps } = place.less_one(alloc)?;
        steps.append(&mut behind)?;
        let count = count.saturating_add(1);
        Ok(Places { count, steps })
    }

    /// The cell at these.
    pub(crate) fn cell(self, name: Name) -> Result<Value, AllocError> {
        let Places {
            count: places,
            mut steps,
        } = self;
        steps.push_back(Step::Index { name, places })?;
        Ok(Value { steps })
    }
}
