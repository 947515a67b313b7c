//! What gets too large when uses of rules are replaced.
ghost use Rattle.std.specs.Prelude.{◌≡◌, IfOk, codes, pos};
ghost use Rattle.kernel_ir.specs.Limits.{value_depth};
ghost use Rattle.kernel_ir.specs.Refusals.{Refuses};
ghost use Rattle.kernel_limits.specs.Asked.{first_in};
ghost use Rattle.subst_rules.specs.Refused.{body_refusal_by, limit_at, option_size, size_refusal_by, sizes_refusal, too_deep};

use crate::sizes::{Size, size_of, test_size};
use expr_tree::Test;
use kernel_ir::{Fault, Insn, Refusal, Site, Storing, SubstRule};
use std::alloc::{AllocError, Global};

/// Rule 3 at a line, which is 0 for what stands in a rule's body.
pub(crate) fn limit_at(
    alloc: Global,
    line: u32,
    what: &str,
    limit: i128,
) -> Result<Refusal, AllocError>
    ensures { IfOk result (λ r. r ≡ limit_at line what.now limit) }
{
    Ok(Refusal::limit(alloc, Site::Kernel, what, limit)?.at_line(line))
}

fn too_deep(alloc: Global, line: u32) -> Result<Refusal, AllocError>
    ensures { IfOk result (λ r. r ≡ too_deep line) }
{
    limit_at(alloc, line, "depth", 64)
}

/// Whether no expanded body is too deep, in order.
pub(crate) fn check_bodies(alloc: Global, rules: &[SubstRule], table: &[Size]) -> Result<(), Fault>
    ensures { Refuses (first_in (body_refusal_by table.now) rules.now) result }
{
    for rule in rules {
        check_body(alloc, rule, table)?;
    }
    Ok(())
}

fn check_body(alloc: Global, rule: &SubstRule, table: &[Size]) -> Result<(), Fault>
    ensures { Refuses (body_refusal_by table.now rule.now) result }
{
    if 64 < size_of(&rule.body, table).depth {
        return Err(Fault::Rule(too_deep(alloc, 0)?));
    }
    Ok(())
}

/// Whether the expanded value and predicate of an instruction are within the limits of depth and nodes.
pub(crate) fn check_insn(alloc: Global, insn: &Insn, table: &[Size]) -> Result<(), Fault>
    ensures { Refuses (size_refusal_by table.now insn.now) result }
{
    check_sizes(
        alloc,
        insn,
        size_of(&insn.value, table),
        option_size(&insn.test, table),
    )
}

fn check_sizes(alloc: Global, insn: &Insn, value: Size, test: Size) -> Result<(), Fault>
    ensures { Refuses (sizes_refusal insn.now value test) result }
{
    if 64 < value_depth(insn.storing, value.depth) || 64 < test.depth {
        return Err(Fault::Rule(too_deep(alloc, insn.line)?));
    }
    if 4096 < test.nodes as u64 + value.nodes as u64 {
        return Err(Fault::Rule(limit_at(alloc, insn.line, "nodes", 4096)?));
    }
    Ok(())
}

/// The value of an update counts one deeper.
fn value_depth(storing: Storing, depth: u32) -> u64
    ensures { result ≡ value_depth storing depth }
{
    match storing {
        Storing::Plain => depth as u64,
        Storing::Update(_) => depth as u64 + 1,
    }
}

fn option_size(test: &Option<Test>, table: &[Size]) -> Size
    ensures { result ≡ option_size table.now test.now }
{
    match test {
        None => Size { depth: 0, nodes: 0 },
        Some(test) => test_size(test, table),
    }
}
