//! The nest of a kernel's loops.
ghost use Rattle.std.specs.Prelude.{◌≡◌, ◌<◌, ◌^◌, None, IfOk, fold, length};
ghost use Rattle.kernel_ir.specs.Refusals.{Refuses};
ghost use Rattle.nest_tree.specs.Nests.{nest_of, nest_refusal, nested, top_block};

use crate::blocks::{Block, block_of};
use crate::child::{Child, leaves, nests_of};
use crate::gathering::gathered;
use crate::order::{crossing, inside_out};
use crate::plan::{Plan, plan_of};
use crate::refused::{nest_cycle, not_nested};
use affine_rows::Listed;
use code_tree::Nest;
use kernel_ir::{Fault, Kernel, Refusal, Site};
use std::alloc::{AllocError, Global};

/// The outermost children, loops made from the inside.
fn nested(alloc: Global, plan: &Plan, count: u32) -> Result<Listed<Child>, AllocError>
    requires { count ≡ length plan.now.parts }
    ensures { IfOk result (λ made. made ≡ nested plan.now) }
{
    let order = inside_out(alloc, plan)?;
    let mut children = leaves(alloc, count)?;
    let vars = order.as_slice();
    for var in vars {
        children = gathered(alloc, plan, *var, children)?;
    }
    Ok(children)
}

/// The outermost block.
fn top_block(alloc: Global, plan: &Plan, count: u32) -> Result<Block, AllocError>
    requires { count ≡ length plan.now.parts }
    ensures { IfOk result (λ made. made ≡ top_block plan.now) }
{
    let children = nested(alloc, plan, count)?;
    block_of(alloc, plan, children)
}

/// How many instructions there are. Rule 3 where that is no number of 32 bits, which is far past their limit.
fn insn_count(alloc: Global, kernel: &Kernel) -> Result<u32, Fault>
    ensures count { IfOk result (λ count. count ≡ length kernel.now.insns) }
    ensures refused { length kernel.now.insns < 2 ^ 32 → Refuses None result }
{
    match u32::try_from(kernel.insns.len()) {
        Ok(count) => Ok(count),
        Err(_) => Err(Fault::Rule(Refusal::limit(alloc, Site::Kernel, "instructions", 64)?)),
    }
}

/// The nest of a kernel: one loop for each sequential iname round the instructions that have it, the iname of more
/// instructions outside, and of as many the earlier one in priority. In a block the child that is ready and has the
/// earliest instruction comes next. Two inames that both some instructions have, and others one alone, are refused by rule
/// 32, of which the first pair in declared order is kept; children of a block that depend on each other in a cycle by rule 33, those
/// of a block before those of the blocks in it. The site is the kernel, without a line.
pub fn nest(alloc: Global, kernel: &Kernel) -> Result<Listed<Nest>, Fault>
    ensures nest { IfOk result (λ made. made ≡ nest_of kernel.now) }
    ensures refused { length kernel.now.insns < 2 ^ 32 → Refuses (nest_refusal kernel.now) result }
{
    let count = insn_count(alloc, kernel)?;
    let plan = plan_of(alloc, kernel)?;
    if let Some((first, second)) = crossing(plan.parts.as_slice(), plan.inames.as_slice()) {
        return Err(Fault::Rule(not_nested(alloc, kernel, first, second)?));
    }
    let block = top_block(alloc, &plan, count)?;
    if !block.cycle.is_empty() {
        return Err(Fault::Rule(nest_cycle(alloc, kernel, block.cycle.as_slice())?));
    }
    Ok(nests_of(alloc, block.children)?)
}
