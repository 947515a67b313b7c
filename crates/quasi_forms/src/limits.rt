//! The limits of a form.
ghost use Rattle.std.specs.Prelude.{◌≡◌, ◌≢◌, ◌<◌, ◌↔◌, ◌+◌, ◌-◌, ◌*◌, ◌^◌, ◌++◌, min, map, flat_map, sum, sum_by, length, nat_le, All, IsTrue, IfOk, OnOk, Err, unsigned_abs};
ghost use Rattle.affine_rows.specs.declared.quasi.Quasi.{out-Quasi};
ghost use Rattle.affine_rows.specs.declared.quasi.Floor.{out-Floor};
ghost use Rattle.affine_rows.specs.Forms.{ceil_div, sum_count, constant_count, IsSmall, IsForm, IsFloor};
ghost use Rattle.affine_rows.specs.Reach.{floor_sum, floor_constant};
ghost use Rattle.quasi_forms.specs.Alike.{same_floor, distinct, with_new};
ghost use Rattle.quasi_forms.specs.Limits.{floors_in, floors_within, floors_of, IsWithin};

use crate::fault::FormFault;
use crate::floors::{WideFloor, different, is_among};
use affine_rows::{Floor, Form, Quasi};
use std::alloc::{AllocError, Global};
use std::slice;

/// The most that a sum and a constant may be.
const LARGEST: u64 = 1 << 62;

/// The most that the factors of a form's floors may be together.
const MOST_TIMES: u64 = 1 << 63;

/// The most different floors that forms may have together.
const MOST_FLOORS: usize = 32;

/// The most floors that a form gets room for, each counted as often as it occurs. A form is a tree, and in a chain of
/// remainders, `i % 3 % 3 ..`, each of them holds all before it twice.
const ROOM: usize = 65_536;

/// The sum and the constant of a form or a floor, 2^64 - 1 standing for all that is more.
#[derive(Clone, Copy)]
struct Counts {
    sum: u64,
    constant: u64,
}

impl Counts {
    fn plus(self, other: Counts) -> Counts
        ensures sum { result.sum ≡ min (self.sum + other.sum) (2 ^ 64 - 1) }
        ensures constant { result.constant ≡ min (self.constant + other.constant) (2 ^ 64 - 1) }
    {
        Counts {
            sum: self.sum.saturating_add(other.sum),
            constant: self.constant.saturating_add(other.constant),
        }
    }
}

/// The sum of the absolute factors of the terms.
fn terms_sum(terms: &[(u32, i64)]) -> u64
    ensures { result ≡ min (sum_by (λ t. unsigned_abs t.1) terms.now) (2 ^ 64 - 1) }
{
    let mut sum = 0u64;
    for term in terms {
        sum = sum.saturating_add(term.1.unsigned_abs());
    }
    sum
}

/// The sum of the absolute factors of the floors.
fn times_sum(floors: &[Floor]) -> u64
    ensures { result ≡ min (sum_by (λ f. unsigned_abs (out-Floor f).times) floors.now) (2 ^ 64 - 1) }
{
    let mut sum = 0u64;
    for floor in floors {
        sum = sum.saturating_add(floor.times.unsigned_abs());
    }
    sum
}

/// The factor times the quotient, rounded up.
fn weighed(times: u64, part: u64, by: u64) -> u64
    requires positive { 0 < by }
    ensures { result ≡ min (times * ceil_div part by) (2 ^ 64 - 1) }
{
    times.saturating_mul(part.div_ceil(by))
}

/// What a form counts.
#[cycle(counts)]
fn form_counts(form: &Quasi) -> Counts
    requires { All IsFloor (out-Quasi form.now).floors }
    ensures sum { result.sum ≡ min (sum_count form.now) (2 ^ 64 - 1) }
    ensures constant { result.constant ≡ min (constant_count form.now) (2 ^ 64 - 1) }
{
    let own = Counts {
        sum: terms_sum(form.terms.as_slice()),
        constant: form.constant.unsigned_abs(),
    };
    own.plus(floors_counts(form.floors.as_slice()))
}

#[cycle(counts)]
fn floors_counts(floors: &[Floor]) -> Counts
    requires { All IsFloor floors.now }
    ensures sum { result.sum ≡ min (sum (map floor_sum floors.now)) (2 ^ 64 - 1) }
    ensures constant { result.constant ≡ min (sum (map floor_constant floors.now)) (2 ^ 64 - 1) }
{
    let mut counts = Counts {
        sum: 0,
        constant: 0,
    };
    for floor in floors {
        counts = counts.plus(floor_counts(floor));
    }
    counts
}

/// What a floor counts: its absolute factor times what the form under it counts, divided and rounded up.
#[cycle(counts)]
fn floor_counts(floor: &Floor) -> Counts
    requires { IsFloor floor.now }
    ensures sum { result.sum ≡ min (floor_sum floor.now) (2 ^ 64 - 1) }
    ensures constant { result.constant ≡ min (floor_constant floor.now) (2 ^ 64 - 1) }
{
    let inner = form_counts(&floor.inner);
    let times = floor.times.unsigned_abs();
    let by = floor.by.unsigned_abs();
    Counts {
        sum: weighed(times, inner.sum, by),
        constant: weighed(times, inner.constant, by),
    }
}

/// Whether the sum, the constant and the factors of the floors are within their limits.
fn is_small(form: &Quasi) -> bool
    requires { All IsFloor (out-Quasi form.now).floors }
    ensures { IsTrue result ↔ IsSmall form.now }
{
    let counts = form_counts(form);
    counts.sum <= LARGEST
        && counts.constant <= LARGEST
        && times_sum(form.floors.as_slice()) <= MOST_TIMES
}

/// Adds the floors of a form at the end of others, an inner floor before the floor round it.
#[cycle(floors)]
pub(crate) fn add_floors(
    alloc: Global,
    floors: &[Floor],
    made: &mut Vec<WideFloor>,
) -> Result<(), AllocError>
    ensures { OnOk result (made.new.items ≡ made.old.items ++ flat_map floors_within floors.now) }
{
    for floor in floors {
        add_floor(alloc, floor, made)?;
    }
    Ok(())
}

#[cycle(floors)]
fn add_floor(alloc: Global, floor: &Floor, made: &mut Vec<WideFloor>) -> Result<(), AllocError>
    ensures { OnOk result (made.new.items ≡ made.old.items ++ floors_within floor.now) }
{
    add_floors(alloc, floor.inner.floors.as_slice(), made)?;
    made.push(WideFloor::multiple(alloc, 1, floor)?)?;
    Ok(())
}

/// One floor more, unless one that is known is like it.
fn add_new(alloc: Global, floor: &WideFloor, known: &mut Vec<WideFloor>) -> Result<(), AllocError>
    ensures { OnOk result (known.new.items ≡ with_new same_floor known.old.items floor.now) }
{
    if is_among(known.as_slice(), floor) {
        return Ok(());
    }
    known.push(floor.copy(alloc)?)?;
    Ok(())
}

/// Whether there are at most 32 different floors. It stops at the first one more.
fn few_different(alloc: Global, floors: &[WideFloor]) -> Result<bool, AllocError>
    ensures { IfOk result (λ few. few ≡ nat_le (length (distinct same_floor floors.now)) 32) }
{
    let mut known = Vec::new(alloc);
    for floor in floors {
        add_new(alloc, floor, &mut known)?;
        if known.len() > MOST_FLOORS {
            return Ok(false);
        }
    }
    Ok(true)
}

/// Adds the floors of a form.
fn add_form(alloc: Global, form: &Form, made: &mut Vec<WideFloor>) -> Result<(), AllocError>
    ensures floors { OnOk result (made.new.items ≡ made.old.items ++ floors_in form.now) }
    ensures form { IsForm form.now }
{
    add_floors(alloc, form.quasi().floors.as_slice(), made)
}

/// Adds the floors of forms.
fn add_forms(alloc: Global, forms: &[Form], made: &mut Vec<WideFloor>) -> Result<(), AllocError>
    ensures floors { OnOk result (made.new.items ≡ made.old.items ++ flat_map floors_in forms.now) }
    ensures forms { OnOk result (All IsForm forms.now) }
{
    for form in forms {
        add_form(alloc, form, made)?;
    }
    Ok(())
}

/// Whether forms have at most 32 different floors together, those under floors among them. Each form is small.
pub fn few_floors(alloc: Global, forms: &[Form]) -> Result<bool, AllocError>
    ensures few { IfOk result (λ few. few ≡ nat_le (length (distinct same_floor (flat_map floors_in forms.now))) 32) }
    ensures forms { OnOk result (All IsForm forms.now) }
{
    let mut floors = Vec::new(alloc);
    add_forms(alloc, forms, &mut floors)?;
    few_different(alloc, &floors)
}

/// The different floors of a form, in the order in which they first occur.
pub(crate) fn floors_of(alloc: Global, form: &Quasi) -> Result<Vec<WideFloor>, AllocError>
    ensures { IfOk result (λ made. made.items ≡ floors_of form.now) }
{
    let mut floors = Vec::new(alloc);
    add_floors(alloc, form.floors.as_slice(), &mut floors)?;
    different(alloc, &floors)
}

/// The form over floors within the limits, where it is small, however many floors it has.
pub(crate) fn small(quasi: Quasi) -> Result<Form, FormFault>
    requires { All IsFloor (out-Quasi quasi).floors }
    ensures form { IfOk result (λ f. f ≡ quasi) }
    ensures small { OnOk result (IsForm quasi) }
    ensures limit { result ≡ Err FormFault.Limit → IsForm quasi → ⊥ }
    ensures affine { result ≢ Err FormFault.NotAffine }
{
    if !is_small(&quasi) {
        return Err(FormFault::Limit);
    }
    Ok(Form::new(quasi))
}

/// The room that is left behind the floors of a form, 0 where it does not last.
#[cycle(room)]
fn room_behind(form: &Quasi, room: usize) -> usize {
    room_behind_floors(form.floors.as_slice(), room)
}

#[cycle(room)]
fn room_behind_floors(floors: &[Floor], room: usize) -> usize {
    let mut left = room;
    for floor in floors {
        if left == 0 {
            return 0;
        }
        left = room_behind(&floor.inner, left - 1);
    }
    left
}

/// The form, where it has at most 32 different floors. There is want of memory too where it has 65,536 floors or more, each
/// counted as often as it occurs.
pub(crate) fn limited(alloc: Global, form: Form) -> Result<Form, FormFault>
    ensures form { IfOk result (λ f. f ≡ form) }
    ensures within { OnOk result (IsWithin form) }
    ensures limit { result ≡ Err FormFault.Limit → IsWithin form → ⊥ }
    ensures affine { result ≢ Err FormFault.NotAffine }
{
    if room_behind(form.quasi(), ROOM) == 0 {
        return Err(FormFault::OutOfMemory);
    }
    let few = few_floors(alloc, slice::from_ref(&form))?;
    if !few {
        return Err(FormFault::Limit);
    }
    Ok(form)
}
