//! The different accesses of an instruction.
ghost use Rattle.std.specs.Prelude.{◌≡◌, ◌≤◌, ◌++◌, ◌∷◌, [], nat_le, length, IfOk, OnOk};
ghost use Rattle.std.specs.Cmp.Lexicographic.{pointwise};
ghost use Rattle.std.specs.List.{list_any};
ghost use Rattle.quasi_forms.specs.Alike.{distinct, same_form, with_new};
ghost use Rattle.kernel_ir.specs.Limits.{same_access};

use affine_rows::{Form, Listed, copy_forms};
use expr_tree::Cell;
use quasi_forms::same_form;
use std::alloc::{AllocError, Global};

/// An instruction has at most so many different accesses.
pub(crate) const MAX_ACCESSES: usize = 64;

fn same_place(left: &[Form], right: &[Form]) -> bool
    ensures { result ≡ pointwise same_form left.now right.now }
{
    if left.len() != right.len() {
        return false;
    }
    for i in 0..left.len() {
        if !same_form(left[i].quasi(), right[i].quasi()) {
            return false;
        }
    }
    true
}

/// Whether two accesses are of one cell at the same subscripts.
fn same_access(left: &(Cell, Listed<Form>), right: &(Cell, Listed<Form>)) -> bool
    ensures { result ≡ same_access left.now right.now }
{
    match (left.0, right.0) {
        (Cell::Array(n), Cell::Array(m)) | (Cell::Temp(n), Cell::Temp(m)) => n == m
            && same_place(left.1.as_slice(), right.1.as_slice()),
        _ => false,
    }
}

fn is_known(accesses: &[(Cell, Listed<Form>)], access: &(Cell, Listed<Form>)) -> bool
    ensures { result ≡ list_any (λ x. same_access x access.now) accesses.now }
{
    for other in accesses {
        if same_access(other, access) {
            return true;
        }
    }
    false
}

/// One access more, unless it is known.
fn add_new(
    alloc: Global,
    access: &(Cell, Listed<Form>),
    known: &mut Vec<(Cell, Listed<Form>)>,
) -> Result<(), AllocError>
    ensures { OnOk result (known.new.items ≡ with_new same_access known.old.items access.now) }
{
    if is_known(known.as_slice(), access) {
        return Ok(());
    }
    known.push((access.0, copy_forms(alloc, access.1.as_slice())?))?;
    Ok(())
}

/// Whether there are at most 64 different ones. It stops at the first one more.
pub(crate) fn few_accesses(
    alloc: Global,
    accesses: &[(Cell, Listed<Form>)],
) -> Result<bool, AllocError>
    ensures { IfOk result (λ few. few ≡ nat_le (length (distinct same_access accesses.now)) 64) }
{
    let mut known = Vec::new(alloc);
    for access in accesses {
        add_new(alloc, access, &mut known)?;
        if known.len() > MAX_ACCESSES {
            return Ok(false);
        }
    }
    Ok(true)
}
