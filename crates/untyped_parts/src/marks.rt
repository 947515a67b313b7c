//! Variables that are marked by their numbers.
ghost use Rattle.std.specs.Prelude.{◌≡◌, [], ◌∷◌, ◌++◌, ◌<◌, ℕ, ◌||◌, ◌&&◌, not, nat_eq, length, OnOk};
ghost use Rattle.expr_tree.specs.Scenes.{is_among};
ghost use Rattle.untyped_parts.specs.Marked.{is_set};

use std::alloc::{AllocError, Global};
use std::marker::Model;

/// Variables that are marked, each found at once by its number. Contracts see the list of those that were marked.
#[derive(Drop)]
pub struct Marks {
    marks: Vec<bool>,
    vars: Vec<u32>,
}

impl Model for Marks {
    ghost use Rattle.std.specs.Prelude.{List, ℕ};
    ghost use Rattle.untyped_parts.specs.Marked.{AreMarks};

    ghost Value = { List ℕ };

    ghost view = { λ m. m.vars.items };

    ghost invariant = { λ m. AreMarks m.marks.items m.vars.items };
}

/// Whether the mark of this number is set.
fn is_set(marks: &[bool], var: u32) -> bool
    ensures { result ≡ is_set marks.now var }
{
    match marks.get(var as usize) {
        Some(mark) => *mark,
        None => false,
    }
}

/// Adds marks that are not set, so that there is one of this number.
fn make_room(marks: &mut Vec<bool>, var: u32) -> Result<(), AllocError>
    ensures same { (v : ℕ) → is_set marks.new.items v ≡ is_set marks.old.items v }
    ensures room { OnOk result (var < length marks.new.items) }
{
    'room: while marks.len() <= var as usize {
        marks.push(false)?;
    }
    Ok(())
}

/// Sets the mark of this number.
fn set(marks: &mut [bool], var: u32)
    requires { var < length marks.old }
    ensures { (v : ℕ) → is_set marks.new v ≡ (nat_eq var v || is_set marks.old v) }
{
    marks[var as usize] = true;
}

/// Takes the mark of this number away.
fn unset(marks: &mut [bool], var: u32)
    ensures { (v : ℕ) → is_set marks.new v ≡ (not (nat_eq var v) && is_set marks.old v) }
{
    if (var as usize) < marks.len() {
        marks[var as usize] = false;
    }
}

/// Takes the marks of these numbers away.
fn unset_all(marks: &mut [bool], vars: &[u32])
    ensures { (v : ℕ) → is_set marks.new v ≡ (not (is_among vars.now v) && is_set marks.old v) }
{
    'vars: for var in vars {
        unset(marks, *var);
    }
}

impl Marks {
    /// No marks, which take no memory.
    pub fn new(alloc: Global) -> Marks
        ensures { result ≡ [] }
    {
        Marks {
            marks: Vec::new(alloc),
            vars: Vec::new(alloc),
        }
    }

    /// Marks a variable. All marks together take time in proportion to their count and to the largest number. The only error
    /// is want of memory.
    pub fn mark(&mut self, var: u32) -> Result<(), AllocError>
        ensures { OnOk result (self.new ≡ self.old ++ var ∷ []) }
    {
        make_room(&mut self.marks, var)?;
        self.vars.push(var)?;
        set(self.marks.as_mut_slice(), var);
        Ok(())
    }

    /// Marks all of these. The only error is want of memory.
    pub fn mark_all(&mut self, vars: &[u32]) -> Result<(), AllocError>
        ensures { OnOk result (self.new ≡ self.old ++ vars.now) }
    {
        'vars: for var in vars {
            self.mark(*var)?;
        }
        Ok(())
    }

    /// Whether a variable is marked.
    pub fn has(&self, var: u32) -> bool
        ensures { result ≡ is_among self.now var }
    {
        is_set(self.marks.as_slice(), var)
    }

    /// Takes all marks away, in time in proportion to their count.
    pub fn clear(&mut self)
        ensures { self.new ≡ [] }
    {
        unset_all(self.marks.as_mut_slice(), self.vars.as_slice());
        self.vars.clear();
    }
}
