//! What the values lead with that are stored to temporaries.
ghost use Rattle.std.specs.Prelude.{◌≡◌, ℕ, ◌<◌, None, map, slice_get, find, IfOk};
ghost use Rattle.std.specs.Option.{option_copied};
ghost use Rattle.kind_faults.specs.Leads.{leading_at};
ghost use Rattle.type_infer.specs.Inferred.{is_temp};
ghost use Rattle.type_infer.specs.Orders.{IsCallOrder};
ghost use Rattle.kernel_kinds.specs.Leads.{body_leading, rule_leading, stored_leading};
ghost use Rattle.kernel_kinds.specs.Tables.{uses_among};

use kind_faults::Leading;
use std::alloc::{AllocError, Global};
use type_infer::is_temp;
use untyped_parts::{InsnTree, RuleTree, leading};

/// What the body of a rule leads with.
fn body_leading(rules: &[RuleTree], rule: usize, table: &[Option<Leading>]) -> Option<Leading>
    ensures { result ≡ body_leading (leading_at table.now) (slice_get rules.now rule) }
{
    match rules.get(rule) {
        Some(rule) => leading(&rule.body, table),
        None => None,
    }
}

fn no_leads(alloc: Global, rules: &[RuleTree]) -> Result<Vec<Option<Leading>>, AllocError>
    ensures { IfOk result (λ table. table.items ≡ map (λ r. None) rules.now) }
{
    rules.iter().map(|_| None).collect(alloc)
}

/// What the uses of each rule lead with.
pub(crate) fn rule_leads(
    alloc: Global,
    rules: &[RuleTree],
    order: &[usize],
) -> Result<Vec<Option<Leading>>, AllocError>
    requires { IsCallOrder (uses_among rules.now) order.now }
    ensures { IfOk result (λ table. leading_at table.items ≡ rule_leading rules.now) }
{
    let mut table = no_leads(alloc, rules)?;
    for rule in order {
        table[*rule] = body_leading(rules, *rule, table.as_slice());
    }
    Ok(table)
}

/// The first instruction that stores to the temporary.
fn first_store(insns: &[InsnTree], temp: usize) -> Option<&InsnTree>
    ensures { option_copied result ≡ find (λ A. is_temp temp A.cell) insns.now }
{
    insns.iter().find(|insn| is_temp(insn.cell, temp))
}

/// What the value leads with that is stored first to a temporary.
fn stored_leading(
    rules: &[RuleTree],
    insns: &[InsnTree],
    leads: &[Option<Leading>],
    temp: usize,
) -> Option<Leading>
    requires { leading_at leads.now ≡ rule_leading rules.now }
    ensures { result ≡ stored_leading rules.now insns.now temp }
{
    match first_store(insns, temp) {
        Some(insn) => leading(&insn.value, leads),
        None => None,
    }
}

/// The same for each of so many temporaries.
pub(crate) fn stored_leads(
    alloc: Global,
    rules: &[RuleTree],
    insns: &[InsnTree],
    leads: &[Option<Leading>],
    count: usize,
) -> Result<Vec<Option<Leading>>, AllocError>
    requires { leading_at leads.now ≡ rule_leading rules.now }
    ensures { IfOk result (λ stored. (t : ℕ) → t < count → leading_at stored.items t ≡ stored_leading rules.now insns.now t) }
{
    let mut stored = Vec::new(alloc);
    for temp in 0..count {
        stored.push(stored_leading(rules, insns, leads, temp))?;
    }
    Ok(stored)
}
