//! The base and the swept part of a place.
ghost use Rattle.std.specs.Prelude.{◌≡◌, filter, not};
ghost use Rattle.affine_rows.specs.declared.quasi.Floor.{out-Floor};
ghost use Rattle.expr_tree.specs.Scenes.{is_among, mentions_one};

use affine_rows::{Floor, Form, Listed, Quasi};
use quasi_forms::{FormFault, is_among, is_constant, mentions_one, number_of, small_sum_of};
use std::alloc::{AllocError, Global};

/// Takes out the terms of swept inames.
fn keep_terms(terms: &mut Vec<(u32, i64)>, swept: &[u32])
    ensures { terms.new.items ≡ filter (λ t. not (is_among swept.now t.0)) terms.old.items }
{
    terms.retain(|term| !is_among(swept, term.0));
}

/// Takes out the floors over swept inames.
fn keep_floors(floors: &mut Vec<Floor>, swept: &[u32])
    ensures { floors.new.items ≡ filter (λ f. not (mentions_one swept.now (out-Floor f).inner)) floors.old.items }
{
    floors.retain(|floor| !mentions_one(swept, &floor.inner));
}

/// The part of a place over parameters and inames that are not swept, without the constant. A floor over a swept iname is none of it.
pub(crate) fn base_of(alloc: Global, place: &Form, swept: &[u32]) -> Result<Form, AllocError> {
    let copied = place.quasi().copy(alloc)?;
    let mut terms = copied.terms.into_vec();
    let mut floors = copied.floors.into_vec();
    keep_terms(&mut terms, swept);
    keep_floors(&mut floors, swept);
    Ok(Form::new(Quasi {
        constant: 0,
        terms: Listed::from_vec(terms),
        floors: Listed::from_vec(floors),
    }))
}

/// The rest of a place, with the constant. It is no larger than the place, so that it passes no limit.
pub(crate) fn swept_of(alloc: Global, place: &Form, swept: &[u32]) -> Result<Form, FormFault> {
    small_sum_of(alloc, place, -1, &base_of(alloc, place, swept)?)
}

/// Whether two forms are equal at all numbers, so that nothing is left of their difference. One past the limits is not 0.
fn are_equal(alloc: Global, left: &Form, right: &Form) -> Result<bool, AllocError> {
    match small_sum_of(alloc, left, -1, right) {
        Ok(difference) => Ok(is_constant(difference.quasi()) && number_of(&difference) == 0),
        Err(FormFault::Limit) | Err(FormFault::NotAffine) => Ok(false),
        Err(FormFault::OutOfMemory) => Err(AllocError),
    }
}

fn same_base(alloc: Global, left: &Form, right: &Form, swept: &[u32]) -> Result<bool, AllocError> {
    let base = base_of(alloc, left, swept)?;
    are_equal(alloc, &base, &base_of(alloc, right, swept)?)
}

/// Whether two uses have the same bases in all places.
pub(crate) fn same_bases(
    alloc: Global,
    left: &[Form],
    right: &[Form],
    swept: &[u32],
) -> Result<bool, AllocError> {
    for at in 0..left.len().min(right.len()) {
        if !same_base(alloc, &left[at], &right[at], swept)? {
            return Ok(false);
        }
    }
    Ok(true)
}

/// Whether a place of a use has floors.
pub(crate) fn has_floors(place: &[Form]) -> bool {
    place.iter().any(|form| !form.quasi().floors.is_empty())
}
