//! Floors that cancel in the difference of two forms.
ghost use Rattle.std.specs.Prelude.{◌≡◌, ◌&&◌, not, filter, IfOk};
ghost use Rattle.std.specs.List.{list_any};
ghost use Rattle.kernel_rules.specs.Pairs.{cancels, has_floor, without_floors};

use affine_rows::{Floor, Form, Listed, Quasi};
use quasi_forms::same_form;
use std::alloc::{AllocError, Global};

/// Whether the two floors are of the same form by the same divisor, and have the same factor.
fn cancels(floor: &Floor, other: &Floor) -> bool
    ensures { result ≡ cancels floor.now other.now }
{
    floor.times == other.times && floor.by == other.by && same_form(&floor.inner, &other.inner)
}

/// Whether the floor stands among these with the same factor.
fn has_floor(floors: &[Floor], floor: &Floor) -> bool
    ensures { result ≡ has_floor floors.now floor.now }
{
    floors.iter().any(|other| cancels(floor, other))
}

/// Takes out the floors that stand among the others with the same factor.
fn keep_others(floors: &mut Vec<Floor>, others: &[Floor])
    ensures { floors.new.items ≡ filter (λ f. not (has_floor others.now f)) floors.old.items }
{
    floors.retain(|floor| !has_floor(others, floor));
}

/// The form without those of its floors that stand among these with the same factor.
pub(crate) fn without_floors(
    alloc: Global,
    form: &Form,
    floors: &[Floor],
) -> Result<Form, AllocError>
    ensures { IfOk result (λ made. made ≡ without_floors floors.now form.now) }
{
    let copied = form.quasi().copy(alloc)?;
    let mut kept = copied.floors.into_vec();
    keep_others(&mut kept, floors);
    Ok(Form::new(Quasi {
        constant: copied.constant,
        terms: copied.terms,
        floors: Listed::from_vec(kept),
    }))
}
