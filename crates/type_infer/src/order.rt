//! The order in which each rule stands behind those that it uses: a walk that goes into the rules that a rule uses
//! before it leaves the rule (R. Tarjan, Edge-disjoint spanning trees and depth-first search, 1976).
ghost use Rattle.std.specs.Prelude.{◌≡◌, ℕ, ◌<◌, [], ◌∷◌, ◌++◌, find, true, false, length, map, slice_get, IfOk, OnOk};
ghost use Rattle.type_infer.specs.Orders.{Visited, Goes, HasNoCycle, IsCallOrder, IsWalk, Reaches, UsesRules, is_new, used_by};
ghost use Rattle.type_infer.specs.declared.order.Mark.TheVariants.{New};
ghost use Rattle.expr_tree.specs.Scenes.{is_among};

use affine_rows::Listed;
use std::alloc::{AllocError, Global};

/// How far the walk has come with a rule.
#[derive(Clone, Copy)]
enum Mark {
    New,
    Open,
    Done,
}

/// A walk: the rules that are open, each of which uses the next one, and those that are done, in order.
#[derive(Drop)]
struct Walk {
    marks: Vec<Mark>,
    way: Vec<usize>,
    order: Vec<usize>,
}

/// The rules that a rule uses.
pub(crate) fn used_by(uses: &[Listed<u32>], rule: usize) -> &[u32]
    ensures { result.now ≡ used_by uses.now rule }
{
    match uses.get(rule) {
        Some(used) => used.as_slice(),
        None => &[],
    }
}

fn is_new(marks: &[Mark], rule: usize) -> bool
    ensures { result ≡ is_new (slice_get marks.now rule) }
{
    matches!(marks.get(rule), Some(Mark::New))
}

/// The first of the rules that is new.
fn first_new(rules: &[u32], marks: &[Mark]) -> Option<u32>
    ensures { result ≡ find (λ rule. is_new (slice_get marks.now rule)) rules.now }
{
    rules
        .iter()
        .copied()
        .find(|rule| is_new(marks, *rule as usize))
}

impl Walk {
    /// The first new rule that a rule uses.
    fn next_used(&self, uses: &[Listed<u32>], rule: usize) -> Option<u32>
        ensures { result ≡ find (λ used. is_new (slice_get self.now.marks.items used)) (used_by uses.now rule) }
    {
        first_new(used_by(uses, rule), self.marks.as_slice())
    }

    /// Goes into a new rule, which all on the way reach.
    fn enter(&mut self, uses: &[Listed<u32>], rule: usize) -> Result<(), AllocError>
        requires walk { IsWalk uses.now self.old.marks.items self.old.way.items self.old.order.items }
        requires new { is_new (slice_get self.old.marks.items rule) ≡ true }
        requires reached { (r : ℕ) → is_among self.old.way.items r ≡ true → Reaches uses.now r rule }
        ensures goes { OnOk result (Goes uses.now self.old.marks.items self.new.marks.items self.new.way.items self.new.order.items) }
        ensures entered { OnOk result (is_new (slice_get self.new.marks.items rule) ≡ false) }
    {
        self.marks[rule] = Mark::Open;
        self.way.push(rule)?;
        Ok(())
    }

    /// Leaves the last rule of the way, which is taken from the way and uses no new rule.
    fn leave(&mut self, uses: &[Listed<u32>], rule: usize) -> Result<(), AllocError>
        requires walk { IsWalk uses.now self.old.marks.items (self.old.way.items ++ rule ∷ []) self.old.order.items }
        requires rules { UsesRules uses.now }
        requires acyclic { HasNoCycle uses.now }
        requires through { (r : ℕ) → is_among (used_by uses.now rule) r ≡ true → is_new (slice_get self.old.marks.items r) ≡ false }
        ensures goes { OnOk result (Goes uses.now self.old.marks.items self.new.marks.items self.new.way.items self.new.order.items) }
    {
        self.marks[rule] = Mark::Done;
        self.order.push(rule)?;
        Ok(())
    }

    /// Goes on from the last rule of the way, which is taken from the way: into the first new rule that it uses, if there is one.
    fn advance(&mut self, uses: &[Listed<u32>], rule: usize) -> Result<(), AllocError>
        requires walk { IsWalk uses.now self.old.marks.items (self.old.way.items ++ rule ∷ []) self.old.order.items }
        requires rules { UsesRules uses.now }
        requires acyclic { HasNoCycle uses.now }
        ensures goes { OnOk result (Goes uses.now self.old.marks.items self.new.marks.items self.new.way.items self.new.order.items) }
    {
        match self.next_used(uses, rule) {
            Some(next) => {
                self.way.push(rule)?;
                self.enter(uses, next as usize)
            }
            None => self.leave(uses, rule),
        }
    }

    /// Goes into a new rule and on until it is left.
    fn visit(&mut self, uses: &[Listed<u32>], rule: usize) -> Result<(), AllocError>
        requires walk { IsWalk uses.now self.old.marks.items [] self.old.order.items }
        requires start { self.old.way.items ≡ [] }
        requires new { is_new (slice_get self.old.marks.items rule) ≡ true }
        requires rules { UsesRules uses.now }
        requires acyclic { HasNoCycle uses.now }
        ensures visited { OnOk result (Visited uses.now self.old.marks.items self.new.marks.items self.new.way.items self.new.order.items rule) }
    {
        self.enter(uses, rule)?;
        'walk: while let Some(last) = self.way.pop() {
            self.advance(uses, last)?;
        }
        Ok(())
    }
}

fn new_marks(alloc: Global, uses: &[Listed<u32>]) -> Result<Vec<Mark>, AllocError>
    ensures { IfOk result (λ marks. marks.items ≡ map (λ u. New) uses.now) }
{
    uses.iter().map(|_| Mark::New).collect(alloc)
}

/// All rules in order, each behind those that it uses, where no rule reaches itself. The only error is want of memory.
pub fn call_order(alloc: Global, uses: &[Listed<u32>]) -> Result<Vec<usize>, AllocError>
    requires rules { UsesRules uses.now }
    requires acyclic { HasNoCycle uses.now }
    ensures { IfOk result (λ order. IsCallOrder uses.now order.items) }
{
    let mut walk = Walk {
        marks: new_marks(alloc, uses)?,
        way: Vec::new(alloc),
        order: Vec::new(alloc),
    };
    for rule in 0..uses.len() {
        if is_new(walk.marks.as_slice(), rule) {
            walk.visit(uses, rule)?;
        }
    }
    Ok(walk.order)
}
