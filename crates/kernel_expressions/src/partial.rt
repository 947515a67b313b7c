//! An expression that is not yet read to its end.
ghost use Rattle.std.specs.Prelude.{◌≡◌, ◌<◌, ◌-◌, length, take, ◌++◌, ◌∷◌, [], OnOk, IfOk};
ghost use Rattle.kernel_expressions.specs.Ended.{ended, EndsInnermost};

use crate::frame::Frame;
use crate::stack::Stack;
use kernel_grammar::Step;
use std::alloc::{AllocError, Global};

/// An expression that is not yet read to its end: its open parts, and its steps so far.
#[derive(Drop)]
pub struct Partial {
    pub frames: Stack,
    pub steps: Vec<Step>,
}

impl Partial {
    pub fn new(alloc: Global) -> Partial
        ensures frames { result.frames ≡ [] }
        ensures steps { result.steps.items ≡ [] }
    {
        Partial {
            frames: Stack::new(alloc),
            steps: Vec::new(alloc),
        }
    }

    /// Adds a step.
    pub fn step(&mut self, step: Step) -> Result<(), AllocError>
        ensures frames { OnOk result (self.new.frames ≡ self.old.frames) }
        ensures steps { OnOk result (self.new.steps.items ≡ self.old.steps.items ++ step ∷ []) }
    {
        self.steps.push(step)?;
        Ok(())
    }

    /// Forgets the last step.
    pub fn forget_last(&mut self)
        ensures frames { self.new.frames ≡ self.old.frames }
        ensures steps { self.new.steps.items ≡ take (length self.old.steps.items - 1) self.old.steps.items }
    {
        let kept = self.steps.len().saturating_sub(1);
        self.steps.truncate(kept);
    }

    /// Opens a part.
    pub fn begin(&mut self, frame: Frame) -> Result<(), AllocError>
        ensures frames { OnOk result (self.new.frames ≡ frame ∷ self.old.frames) }
        ensures steps { OnOk result (self.new.steps.items ≡ self.old.steps.items) }
    {
        self.frames.push(frame)
    }

    /// Ends the innermost operator.
    fn end_operator(&mut self) -> Result<(), AllocError>
        ensures { OnOk result (EndsInnermost self.old.frames self.old.steps.items self.new.frames self.new.steps.items) }
    {
        match self.frames.pop() {
            Some(Frame::Infix(operator)) => self.step(Step::Infix(operator)),
            Some(Frame::Prefix(prefix)) => self.step(Step::Prefix(prefix)),
            _ => Ok(()),
        }
    }

    /// Ends the operators of this level and tighter ones behind an operand of a level, and answers the level of what they make.
    pub fn end_operators(&mut self, from: u8, operand: u8) -> Result<u8, AllocError>
        requires { 0 < from }
        ensures { IfOk result (λ made. ended from self.old.frames self.old.steps.items operand ≡ record { frames = self.new.frames; done = self.new.steps.items; level = made }) }
    {
        let mut made = operand;
        'operators: while from <= self.frames.innermost_level() {
            made = self.frames.innermost_level();
            self.end_operator()?;
        }
        Ok(made)
    }
}

/// What comes next in an expression.
#[derive(Clone, Copy)]
pub enum Turn {
    Operand { at: usize },
    /// An operand of this level ends here.
    Operator { at: usize, level: u8 },
    End { at: usize },
}
