//! The inames that reductions bind.
ghost use Rattle.std.specs.Prelude.{◌≡◌, ◌++◌, OnOk};
ghost use Rattle.untyped_parts.specs.Mentions.{bound};

use std::alloc::AllocError;
use untyped::{Term, Untyped};

fn add_inames(inames: &[u32], bound: &mut Vec<u32>) -> Result<(), AllocError>
    ensures { OnOk result (bound.new.items ≡ bound.old.items ++ inames.now) }
{
    for iname in inames {
        bound.push(*iname)?;
    }
    Ok(())
}

/// Adds the inames that the reductions of the expression bind, in the order of the text and as often as they stand there,
/// an outer reduction before those in it. The only error is want of memory.
#[cycle(bound)]
pub fn add_bound(tree: &Untyped, inames: &mut Vec<u32>) -> Result<(), AllocError>
    ensures { OnOk result (inames.new.items ≡ inames.old.items ++ bound tree.now) }
{
    match tree.term() {
        Term::Index(_, _) | Term::Literal(_) | Term::Read(_, _) | Term::Use(_, _) => Ok(()),
        Term::Prefix(_, a) | Term::ShiftLeft(a, _) | Term::ShiftRight(a, _) | Term::Cast(_, a) => {
            add_bound(a, inames)
        }
        Term::Infix(_, a, b) => {
            add_bound(a, inames)?;
            add_bound(b, inames)
        }
        Term::Choose(test, a, b) => {
            add_bound(test, inames)?;
            add_bound(a, inames)?;
            add_bound(b, inames)
        }
        Term::Fold(_, names, a) => {
            add_inames(names.as_slice(), inames)?;
            add_bound(a, inames)
        }
    }
}
