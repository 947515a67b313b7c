//! The inference of kinds.
ghost use Rattle.std.specs.Prelude.{◌≡◌, ℕ, IfOk};
ghost use Rattle.expr_tree.specs.Scenes.{is_among};
ghost use Rattle.kernel_ir.specs.Refusals.{Refuses};
ghost use Rattle.kernel_ir.specs.Valid.{IsFormed, IsValid, used_rules};
ghost use Rattle.type_infer.specs.Inferred.{inferred};
ghost use Rattle.type_infer.specs.Judged.{known_in};
ghost use Rattle.type_infer.specs.Orders.{marked_at};
ghost use Rattle.type_infer.specs.Graphs.{IsGraphOf};
ghost use Rattle.type_infer.specs.Typing.{IsTypable, kinds_refusal, typing_refusal};

use crate::order::call_order;
use crate::refuse::check_kinds;
use crate::tables::{kinds_of_rules, rule_leads, uses_of};
use crate::temps::inferred_temps;
use crate::used::{insn_rules, used_rules};
use affine_rows::Listed;
use kernel_ir::{Fault, Kernel};
use std::alloc::{AllocError, Global};

/// The rules that each rule uses, and all rules in an order in which each stands behind those that it uses.
#[derive(Drop)]
struct CallGraph {
    uses: Listed<Listed<u32>>,
    order: Listed<usize>,
}

fn call_graph(alloc: Global, kernel: &Kernel) -> Result<CallGraph, AllocError>
    requires { IsTypable kernel.now }
    ensures { IfOk result (λ graph. IsGraphOf kernel.now.rules graph) }
{
    let uses = uses_of(alloc, kernel.rules.as_slice())?;
    let order = call_order(alloc, uses.as_slice())?;
    Ok(CallGraph {
        uses,
        order: Listed::from_vec(order),
    })
}

/// The kernel with the kinds of its temporaries, as far as they have one.
fn with_kinds(alloc: Global, kernel: Kernel, graph: &CallGraph) -> Result<Kernel, AllocError>
    requires { IsGraphOf kernel.rules graph.now }
    ensures { IfOk result (λ k. k ≡ inferred kernel) }
{
    let leads = rule_leads(alloc, kernel.rules.as_slice(), graph.order.as_slice())?;
    let temps = inferred_temps(alloc, &kernel, leads.as_slice())?;
    Ok(Kernel { temps, ..kernel })
}

/// Whether instructions use each rule, also through others.
fn used_by_insns(alloc: Global, kernel: &Kernel, graph: &CallGraph) -> Result<Vec<bool>, AllocError>
    requires formed { IsFormed kernel.now }
    requires graph { IsGraphOf kernel.now.rules graph.now }
    ensures { IfOk result (λ used. (r : ℕ) → marked_at used.items r ≡ is_among (used_rules kernel.now) r) }
{
    let called = insn_rules(alloc, kernel.insns.as_slice())?;
    let used = used_rules(
        alloc,
        graph.uses.as_slice(),
        graph.order.as_slice(),
        called.as_slice(),
    )?;
    Ok(used)
}

/// Refuses a kernel of which the kinds of all temporaries are inferred.
fn check(alloc: Global, kernel: &Kernel, graph: &CallGraph) -> Result<(), Fault>
    requires formed { IsFormed kernel.now }
    requires graph { IsGraphOf kernel.now.rules graph.now }
    ensures { Refuses (kinds_refusal kernel.now (known_in kernel.now)) result }
{
    let rules = kinds_of_rules(alloc, kernel, graph.order.as_slice())?;
    let used = used_by_insns(alloc, kernel, graph)?;
    check_kinds(alloc, kernel, rules.as_slice(), used.as_slice())
}

/// The kernel with kinds for the temporaries that have none: each takes the kind of the first read or cast, outside inner
/// tests and with rules replaced, of the value that the first instruction stores to it. Of an array that is the array's
/// kind, of a temporary that temporary's, of a cast the cast's.
///
/// Refused is, instruction by instruction, a store to a temporary that gets no kind (rule 10), and else the first place in
/// value and then predicate where another kind stands than is asked (rule 9), both with the instruction's line; then,
/// without a line, the first temporary that gets no kind (rule 10) and the first rule that no instruction uses and that
/// has a fault at the kind of its first read or cast, or else at int32 (rule 9). `OutOfMemory` may come in place of any answer.
pub fn infer(alloc: Global, kernel: Kernel) -> Result<Kernel, Fault>
    requires { IsTypable kernel }
    ensures valid { IfOk result IsValid }
    ensures kinds { IfOk result (λ k. k ≡ inferred kernel) }
    ensures refused { Refuses (typing_refusal kernel) result }
{
    let graph = call_graph(alloc, &kernel)?;
    let kernel = with_kinds(alloc, kernel, &graph)?;
    check(alloc, &kernel, &graph)?;
    Ok(kernel)
}
