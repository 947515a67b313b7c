//! The open parts of an expression, and its steps so far.
ghost use Rattle.std.specs.Prelude.{◌≡◌, ◌++◌, ◌∷◌, [], MatchOption, OnOk, IfOk};
ghost use Rattle.kernel_expressions.specs.Frames.{innermost_level, wanted_level};

use crate::frame::Frame;
use crate::levels::{inner_level, own_level};
use std::alloc::{AllocError, Global};
use std::marker::Model;

/// What is open in an expression. Contracts see it as a list, the innermost part first.
#[derive(Drop)]
pub struct Stack {
    frames: Vec<Frame>,
}

impl Model for Stack {
    ghost use Rattle.std.specs.Prelude.{List, reverse};
    ghost use Rattle.kernel_expressions.specs.declared.frame.Frame.{Frame};

    ghost Value = { List Frame };

    ghost view = { λ s. reverse s.frames.items };
}

impl Stack {
    pub fn new(alloc: Global) -> Stack
        ensures { result ≡ [] }
    {
        Stack {
            frames: Vec::new(alloc),
        }
    }

    /// Opens a part.
    pub fn push(&mut self, frame: Frame) -> Result<(), AllocError>
        ensures { OnOk result (self.new ≡ frame ∷ self.old) }
    {
        self.frames.push(frame)?;
        Ok(())
    }

    /// Closes the innermost part.
    pub fn pop(&mut self) -> Option<Frame>
        ensures { MatchOption result ((self.old ≡ []) × (self.new ≡ [])) (λ frame. self.old ≡ frame ∷ self.new) }
    {
        self.frames.pop()
    }

    /// The level of what may follow, where an expression of this level is wanted.
    pub fn wanted_level(&self, least: u8) -> u8
        ensures { result ≡ wanted_level least self.now }
    {
        match self.frames.last() {
            Some(frame) => inner_level(frame),
            None => least,
        }
    }

    /// The level of the innermost part, if it is an operator, else 0.
    pub fn innermost_level(&self) -> u8
        ensures { result ≡ innermost_level self.now }
    {
        match self.frames.last() {
            Some(frame) => own_level(frame),
            None => 0,
        }
    }
}
