//! Rules that reach themselves.
ghost use Rattle.std.specs.Prelude.{◌≡◌, ◌<◌, ◌≤◌, [], length, IfOk, OnOk};
ghost use Rattle.kernel_ir.specs.Valid.{HasNoRuleCycle};
ghost use Rattle.subst_rules.specs.Uses.{calls_at, calls_of};
ghost use Rattle.subst_rules.specs.Walks.{IsWalk, IsWalked, ReachesItself, with_rule, with_uses};
ghost use Rattle.subst_rules.specs.Refused.{IsCycleRefusal, RefusesAs, rule_cycle};

use crate::arities::name_of;
use affine_rows::Listed;
use kernel_ir::{Fault, Kernel, Refusal, Site};
use std::alloc::{AllocError, Global};

/// Rule 7: the first rule in declared order that reaches itself.
pub(crate) fn check_cycles(
    alloc: Global,
    kernel: &Kernel,
    bodies: &[Listed<(u32, usize)>],
) -> Result<(), Fault>
    requires { bodies.now ≡ calls_of kernel.now.rules }
    ensures { RefusesAs (IsCycleRefusal kernel.now) result }
{
    for rule in 0..bodies.len() {
        let cyclic = reaches_itself(alloc, bodies, rule)?;
        if cyclic {
            return Err(Fault::Rule(rule_cycle(alloc, kernel, rule)?));
        }
    }
    Ok(())
}

/// Rule 7 keeps the rule.
fn rule_cycle(alloc: Global, kernel: &Kernel, rule: usize) -> Result<Refusal, AllocError>
    ensures { IfOk result (λ r. r ≡ rule_cycle kernel.now rule) }
{
    let name = name_of(alloc, kernel.rules.as_slice(), rule)?;
    Refusal::of_rule(alloc, Site::Kernel, 7).with_name(alloc, &name)
}

/// Whether a rule reaches itself, where these are the uses of rules in each rule's body, each with the count of its arguments.
/// The only error is want of memory.
pub fn reaches_itself(
    alloc: Global,
    bodies: &[Listed<(u32, usize)>],
    rule: usize,
) -> Result<bool, AllocError>
    requires { rule < length bodies.now }
    ensures { IfOk result (λ b. ReachesItself bodies.now rule b) }
{
    let walk = walked(alloc, bodies, rule)?;
    Ok(walk.marks[rule])
}

/// The rules that a walk has come to: a mark for each, and those that are marked, in the order in which they came.
#[derive(Drop)]
struct Walk {
    marks: Vec<bool>,
    work: Vec<usize>,
}

/// The rules that the rule reaches.
fn walked(alloc: Global, bodies: &[Listed<(u32, usize)>], from: usize) -> Result<Walk, AllocError>
    ensures walk { IfOk result (λ w. IsWalk w.marks.items w.work.items) }
    ensures count { IfOk result (λ w. length w.marks.items ≡ length bodies.now) }
    ensures walked { IfOk result (λ w. IsWalked bodies.now from w.work.items (length w.work.items)) }
{
    let mut walk = Walk::new(alloc, bodies.len())?;
    walk.add_uses(uses_at(bodies, from))?;
    let mut done = 0;
    'steps: while done < walk.work.len() {
        let rule = walk.work[done];
        walk.add_uses(uses_at(bodies, rule))?;
        done += 1;
    }
    Ok(walk)
}

/// What the rule uses.
fn uses_at(bodies: &[Listed<(u32, usize)>], rule: usize) -> &[(u32, usize)]
    ensures { result.now ≡ calls_at bodies.now rule }
{
    match bodies.get(rule) {
        None => &[],
        Some(uses) => uses.as_slice(),
    }
}

impl Walk {
    /// A walk among so many rules that has come to none.
    fn new(alloc: Global, count: usize) -> Result<Walk, AllocError>
        ensures walk { IfOk result (λ w. IsWalk w.marks.items w.work.items) }
        ensures count { IfOk result (λ w. length w.marks.items ≡ count) }
        ensures work { IfOk result (λ w. w.work.items ≡ []) }
    {
        let marks = vec![in alloc; false; count]?;
        Ok(Walk {
            marks,
            work: Vec::new(alloc),
        })
    }

    /// The walk comes to the rules that are used.
    fn add_uses(&mut self, uses: &[(u32, usize)]) -> Result<(), AllocError>
        requires { IsWalk self.old.marks.items self.old.work.items }
        ensures walk { OnOk result (IsWalk self.new.marks.items self.new.work.items) }
        ensures count { OnOk result (length self.new.marks.items ≡ length self.old.marks.items) }
        ensures work { OnOk result (self.new.work.items ≡ with_uses (length self.old.marks.items) self.old.work.items uses.now) }
    {
        for used in uses {
            self.add(used.0 as usize)?;
        }
        Ok(())
    }

    /// The walk comes to the rule.
    fn add(&mut self, rule: usize) -> Result<(), AllocError>
        requires { IsWalk self.old.marks.items self.old.work.items }
        ensures walk { OnOk result (IsWalk self.new.marks.items self.new.work.items) }
        ensures count { OnOk result (length self.new.marks.items ≡ length self.old.marks.items) }
        ensures work { OnOk result (self.new.work.items ≡ with_rule (length self.old.marks.items) self.old.work.items rule) }
    {
        if rule < self.marks.len() && !self.marks[rule] {
            self.marks[rule] = true;
            self.work.push(rule)?;
        }
        Ok(())
    }
}
