//! What is kept of rules, filled in an order in which each rule stands behind those that it uses.
ghost use Rattle.std.specs.Prelude.{◌≡◌, ℕ, map, length, slice_get, Some, IfOk};
ghost use Rattle.kind_faults.specs.Leads.{leading_at};
ghost use Rattle.type_infer.specs.Leads.{leading_to, rule_leading};
ghost use Rattle.type_infer.specs.Orders.{IsCallOrder};
ghost use Rattle.type_infer.specs.Tables.{kept_judgement, known_by, rules_in};
ghost use Rattle.type_infer.specs.Judged.{judged_of, known_in, no_judgement, rule_judged};

use crate::calls::add_calls;
use crate::faults::{first_kind, mismatch};
use crate::found::{KindFaults, RuleKinds};
use crate::leads::leading;
use affine_rows::Listed;
use expr_tree::Expr;
use kernel_ir::{Kernel, SubstRule};
use kind_faults::{Leading, unless};
use std::alloc::{AllocError, Global};
use wrap_words::Kind;

/// The rules that the body uses.
fn used_in(alloc: Global, rule: &SubstRule) -> Result<Listed<u32>, AllocError>
    ensures { IfOk result (λ used. used ≡ rules_in rule.now.body) }
{
    let mut used = Vec::new(alloc);
    add_calls(&rule.body, &mut used)?;
    Ok(Listed::from_vec(used))
}

/// The rules that each rule uses.
pub(crate) fn uses_of(alloc: Global, rules: &[SubstRule]) -> Result<Listed<Listed<u32>>, AllocError>
    ensures { IfOk result (λ uses. uses ≡ map (λ r. rules_in r.body) rules.now) }
{
    let mut uses = Listed::new(alloc);
    for rule in rules {
        uses.push(used_in(alloc, rule)?)?;
    }
    Ok(uses)
}

/// What the body of a rule leads with.
fn body_leading(rules: &[SubstRule], rule: usize, table: &[Option<Leading>]) -> Option<Leading>
    ensures { result ≡ rule_leading (leading_at table.now) (slice_get rules.now rule) }
{
    match rules.get(rule) {
        Some(rule) => leading(&rule.body, table),
        None => None,
    }
}

fn no_leads(alloc: Global, rules: &[SubstRule]) -> Result<Vec<Option<Leading>>, AllocError>
    ensures { IfOk result (λ table. table.items ≡ map (λ r. None) rules.now) }
{
    rules.iter().map(|_| None).collect(alloc)
}

/// What the uses of each rule lead with.
pub(crate) fn rule_leads(
    alloc: Global,
    rules: &[SubstRule],
    order: &[usize],
) -> Result<Vec<Option<Leading>>, AllocError>
    requires { IsCallOrder (map (λ r. rules_in r.body) rules.now) order.now }
    ensures { IfOk result (λ table. leading_at table.items ≡ leading_to rules.now (length rules.now)) }
{
    let mut table = no_leads(alloc, rules)?;
    for rule in order {
        table[*rule] = body_leading(rules, *rule, table.as_slice());
    }
    Ok(table)
}

impl RuleKinds {
    /// There is no such rule.
    fn none() -> RuleKinds
        ensures { kept_judgement (Some result) ≡ no_judgement }
    {
        RuleKinds {
            first: None,
            faults: KindFaults {
                i32: unless(false, Kind::I32),
                i64: unless(false, Kind::I64),
                u32: unless(false, Kind::U32),
                u64: unless(false, Kind::U64),
            },
        }
    }

    /// What a body is, in a kernel of which earlier rules are kept.
    fn of_body(body: &Expr, kernel: &Kernel, table: &[RuleKinds]) -> RuleKinds
        ensures { kept_judgement (Some result) ≡ judged_of (known_by kernel.now table.now) body.now }
    {
        RuleKinds {
            first: first_kind(body, kernel, table),
            faults: KindFaults {
                i32: mismatch(body, Kind::I32, kernel, table),
                i64: mismatch(body, Kind::I64, kernel, table),
                u32: mismatch(body, Kind::U32, kernel, table),
                u64: mismatch(body, Kind::U64, kernel, table),
            },
        }
    }
}

/// What the uses of a rule are, by what is kept of earlier rules.
fn rule_kinds(kernel: &Kernel, rule: usize, table: &[RuleKinds]) -> RuleKinds
    ensures { kept_judgement (Some result) ≡ rule_judged (known_by kernel.now table.now) (slice_get kernel.now.rules rule) }
{
    match kernel.rules.get(rule) {
        Some(rule) => RuleKinds::of_body(&rule.body, kernel, table),
        None => RuleKinds::none(),
    }
}

fn no_kinds(alloc: Global, rules: &[SubstRule]) -> Result<Vec<RuleKinds>, AllocError>
    ensures { IfOk result (λ table. length table.items ≡ length rules.now) }
{
    let none = RuleKinds::none();
    rules.iter().map(|_| none).collect(alloc)
}

/// What the uses of each rule are, in a kernel with the kinds of its temporaries.
pub(crate) fn kinds_of_rules(
    alloc: Global,
    kernel: &Kernel,
    order: &[usize],
) -> Result<Vec<RuleKinds>, AllocError>
    requires { IsCallOrder (map (λ r. rules_in r.body) kernel.now.rules) order.now }
    ensures { IfOk result (λ table. known_by kernel.now table.items ≡ known_in kernel.now) }
{
    let mut table = no_kinds(alloc, kernel.rules.as_slice())?;
    for rule in order {
        table[*rule] = rule_kinds(kernel, *rule, table.as_slice());
    }
    Ok(table)
}
