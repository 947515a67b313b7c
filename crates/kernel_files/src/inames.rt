//! The inames of an instruction.
ghost use Rattle.std.specs.Prelude.{◌≡◌, [], ◌∷◌, ◌++◌, filter, flat_map, length, IfOk, OnOk};
ghost use Rattle.expr_tree.specs.Scenes.{is_among};
ghost use Rattle.kernel_names.specs.Roles.{inames_of};
ghost use Rattle.untyped_parts.specs.Mentions.{mentions, bound};
ghost use Rattle.kernel_files.specs.Insns.{widths, inames_among, first_taken};

use affine_rows::Listed;
use kernel_names::Declarations;
use std::alloc::{AllocError, Global};
use untyped::{Term, Untyped};
use untyped_parts::{Marks, add_bound, add_mentions};

/// The variables that expressions mention.
pub(crate) fn mentions_in(alloc: Global, trees: &[Untyped]) -> Result<Vec<u32>, AllocError>
    ensures { IfOk result (λ vars. vars.items ≡ flat_map mentions trees.now) }
{
    let mut vars = Vec::new(alloc);
    'trees: for tree in trees {
        add_mentions(alloc, tree, &mut vars)?;
    }
    Ok(vars)
}

/// The inames that their reductions bind.
pub(crate) fn bound_in(alloc: Global, trees: &[Untyped]) -> Result<Vec<u32>, AllocError>
    ensures { IfOk result (λ vars. vars.items ≡ flat_map bound trees.now) }
{
    let mut inames = Vec::new(alloc);
    'trees: for tree in trees {
        add_bound(tree, &mut inames)?;
    }
    Ok(inames)
}

/// Adds over how many inames each reduction of the expression is.
#[cycle(widths)]
fn add_widths(tree: &Untyped, found: &mut Vec<usize>) -> Result<(), AllocError>
    ensures { OnOk result (found.new.items ≡ found.old.items ++ widths tree.now) }
{
    match tree.term() {
        Term::Index(_, _) | Term::Literal(_) | Term::Read(_, _) | Term::Use(_, _) => Ok(()),
        Term::Prefix(_, a) | Term::ShiftLeft(a, _) | Term::ShiftRight(a, _) | Term::Cast(_, a) => {
            add_widths(a, found)
        }
        Term::Infix(_, a, b) => {
            add_widths(a, found)?;
            add_widths(b, found)
        }
        Term::Choose(test, a, b) => {
            add_widths(test, found)?;
            add_widths(a, found)?;
            add_widths(b, found)
        }
        Term::Fold(_, inames, a) => {
            found.push(inames.len())?;
            add_widths(a, found)
        }
    }
}

/// Over how many inames each reduction of the expressions is.
fn widths_in(alloc: Global, trees: &[Untyped]) -> Result<Vec<usize>, AllocError>
    ensures { IfOk result (λ found. found.items ≡ flat_map widths trees.now) }
{
    let mut found = Vec::new(alloc);
    'trees: for tree in trees {
        add_widths(tree, &mut found)?;
    }
    Ok(found)
}

/// How many reductions there are in expressions.
pub(crate) fn count_reductions(alloc: Global, trees: &[Untyped]) -> Result<usize, AllocError>
    ensures { IfOk result (λ n. n ≡ length (flat_map widths trees.now)) }
{
    Ok(widths_in(alloc, trees)?.len())
}

/// Those of the inames that are marked.
fn marked_among(alloc: Global, marks: &Marks, inames: &[u32]) -> Result<Listed<u32>, AllocError>
    ensures { IfOk result (λ kept. kept ≡ filter (is_among marks.now) inames.now) }
{
    let mut kept = Listed::new(alloc);
    'inames: for iname in inames {
        if marks.has(*iname) {
            kept.push(*iname)?;
        }
    }
    Ok(kept)
}

/// The inames of the kernel that are among variables, in declared order.
pub(crate) fn inames_among(
    alloc: Global,
    declarations: &Declarations,
    vars: &[u32],
) -> Result<Listed<u32>, AllocError>
    ensures { IfOk result (λ inames. inames ≡ inames_among declarations.now vars.now) }
{
    let mut marks = Marks::new(alloc);
    marks.mark_all(vars)?;
    let inames = declarations.inames(alloc)?;
    marked_among(alloc, &marks, inames.as_slice())
}

/// The first iname that is among an instruction's own or among those before, or that stands there a second time.
fn first_marked(own: &Marks, before: &mut Marks, bound: &[u32]) -> Result<Option<u32>, AllocError>
    ensures { IfOk result (λ taken. taken ≡ first_taken own.now before.old bound.now) }
{
    'bound: for iname in bound {
        if own.has(*iname) || before.has(*iname) {
            return Ok(Some(*iname));
        }
        before.mark(*iname)?;
    }
    Ok(None)
}

/// The first iname that is among an instruction's own, or that stands there a second time.
pub(crate) fn first_taken(
    alloc: Global,
    own: &[u32],
    bound: &[u32],
) -> Result<Option<u32>, AllocError>
    ensures { IfOk result (λ taken. taken ≡ first_taken own.now [] bound.now) }
{
    let mut marks = Marks::new(alloc);
    marks.mark_all(own)?;
    first_marked(&marks, &mut Marks::new(alloc), bound)
}
