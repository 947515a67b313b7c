//! Ids of instructions.
ghost use Rattle.std.specs.Prelude.{◌≡◌, ◌<◌, map, length, IfOk, IfSome};

use affine_rows::{Listed, Name};
use kernel_ir::Insn;
use std::alloc::{AllocError, Global};

/// The ids of instructions, in their order.
pub fn ids_of(alloc: Global, insns: &[Insn]) -> Result<Listed<Name>, AllocError>
    ensures { IfOk result (λ ids. ids ≡ map (λ i. i.id) insns.now) }
{
    let mut ids = Listed::new(alloc);
    for insn in insns {
        ids.push(insn.id.copy(alloc)?)?;
    }
    Ok(ids)
}

/// The place of the first instruction with this id, counted from 0.
pub fn place_of_insn(insns: &[Insn], id: &Name) -> Option<usize>
    ensures { IfSome result (λ at. at < length insns.now) }
{
    insns
        .iter()
        .position(|insn| id.as_bytes() == insn.id.as_bytes())
}
