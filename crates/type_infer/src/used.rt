//! The rules that instructions use, also through other rules.
ghost use Rattle.std.specs.Prelude.{◌≡◌, ℕ, ◌+◌, ◌<◌, ◌++◌, ◌||◌, Bool, true, false, map, length, slice_get, IfOk, OnOk};
ghost use Rattle.expr_tree.specs.Scenes.{is_among};
ghost use Rattle.kernel_ir.specs.Mentions.{calls, listed, listed_in};
ghost use Rattle.type_infer.specs.Tables.{calls_in_insns};
ghost use Rattle.type_infer.specs.Orders.{MarksUsed, IsCallOrder, UsesRules, marked_at, reached, used_by};

use crate::calls::{add_calls, add_test_calls};
use crate::order::used_by;
use affine_rows::Listed;
use kernel_ir::Insn;
use std::alloc::{AllocError, Global};

/// Adds the rules that the instruction uses, in the order of the text.
fn add_insn_calls(insn: &Insn, rules: &mut Vec<u32>) -> Result<(), AllocError>
    ensures { OnOk result (rules.new.items ≡ rules.old.items ++ (map (λ c. c.0) (listed_in calls insn.now.test) ++ map (λ c. c.0) (listed calls insn.now.value))) }
{
    match &insn.test {
        Some(test) => {
            add_test_calls(test, rules)?;
            add_calls(&insn.value, rules)
        }
        None => add_calls(&insn.value, rules),
    }
}

/// The rules that instructions use themselves.
pub(crate) fn insn_rules(alloc: Global, insns: &[Insn]) -> Result<Vec<u32>, AllocError>
    ensures { IfOk result (λ rules. rules.items ≡ calls_in_insns insns.now) }
{
    let mut rules = Vec::new(alloc);
    for insn in insns {
        add_insn_calls(insn, &mut rules)?;
    }
    Ok(rules)
}

/// Marks these rules too.
fn mark(marks: &mut [bool], rules: &[u32])
    requires { (r : ℕ) → is_among rules.now r ≡ true → r < length marks.old }
    ensures { (r : ℕ) → marked_at marks.new r ≡ (marked_at marks.old r || is_among rules.now r) }
{
    for rule in rules {
        marks[*rule as usize] = true;
    }
}

/// Whether the rule is marked.
pub fn is_marked(marks: &[bool], rule: usize) -> bool
    ensures { result ≡ marked_at marks.now rule }
{
    match marks.get(rule) {
        Some(mark) => *mark,
        None => false,
    }
}

/// Marks what the rule uses, if it is marked.
fn mark_used(uses: &[Listed<u32>], marks: &mut [bool], rule: usize)
    requires each { length marks.old ≡ length uses.now }
    requires rules { UsesRules uses.now }
    ensures { MarksUsed uses.now marks.old marks.new rule }
{
    if is_marked(marks, rule) {
        mark(marks, used_by(uses, rule));
    }
}

fn no_marks(alloc: Global, uses: &[Listed<u32>]) -> Result<Vec<bool>, AllocError>
    ensures { IfOk result (λ marks. marks.items ≡ map (λ u. false) uses.now) }
{
    uses.iter().map(|_| false).collect(alloc)
}

/// Marks these rules and what they use, also through others.
fn mark_all(uses: &[Listed<u32>], order: &[usize], rules: &[u32], marks: &mut [bool])
    requires order { IsCallOrder uses.now order.now }
    requires uses { UsesRules uses.now }
    requires rules { (r : ℕ) → is_among rules.now r ≡ true → r < length uses.now }
    requires unmarked { marks.old ≡ map (λ u. false) uses.now }
    ensures { (r : ℕ) → marked_at marks.new r ≡ is_among (reached uses.now (length uses.now) rules.now) r }
{
    mark(marks, rules);
    let mut at = order.len();
    'back: while at > 0 {
        at -= 1;
        mark_used(uses, marks, order[at]);
    }
}

/// Whether each rule is one of these, or is used by them, also through others, by what each rule uses and an order in which
/// each stands behind those that it uses. The only error is want of memory.
pub fn used_rules(
    alloc: Global,
    uses: &[Listed<u32>],
    order: &[usize],
    rules: &[u32],
) -> Result<Vec<bool>, AllocError>
    requires order { IsCallOrder uses.now order.now }
    requires uses { UsesRules uses.now }
    requires rules { (r : ℕ) → is_among rules.now r ≡ true → r < length uses.now }
    ensures { IfOk result (λ marks. (r : ℕ) → marked_at marks.items r ≡ is_among (reached uses.now (length uses.now) rules.now) r) }
{
    let mut marks = no_marks(alloc, uses)?;
    mark_all(uses, order, rules, marks.as_mut_slice());
    Ok(marks)
}
