//! Floors in which those that are alike are collected.
ghost use Rattle.std.specs.Prelude.{◌≡◌, ◌≢◌, ◌&&◌, ◌≤◌, ◌<◌, ◌^◌, ◌+◌, ◌-◌, ◌++◌, ◌*ℤ◌, pos, length, take, true, false, IfOk, IfSome, OnOk, Err, sum_by, unsigned_abs};
ghost use Rattle.std.specs.List.{list_all, list_any, position_or_len};
ghost use Rattle.std.specs.Ordering.{int_eq};
ghost use Rattle.std.specs.Option.{is_some};
ghost use Rattle.affine_rows.specs.declared.quasi.Floor.{Floor, out-Floor};
ghost use Rattle.affine_rows.specs.Reduced.{fits_entry};
ghost use Rattle.quasi_forms.specs.Alike.{same_form, same_floor, distinct};
ghost use Rattle.quasi_forms.specs.Collected.{with_times, times_of, multiple_floors, scaled_floors, kept_floors, collected_floors};

use crate::alike::same_form;
use crate::fault::FormFault;
use crate::terms::{plus, product};
use affine_rows::{Floor, Listed, Quasi};
use std::alloc::{AllocError, Global};
use std::marker::Model;

/// The most that an entry of a form may be, without its sign.
const WIDEST: u128 = 1 << 62;

/// A floor whose factor may be wider than that of a form. Contracts see the floor.
#[derive(Drop)]
pub(crate) struct WideFloor {
    times: i128,
    inner: Quasi,
    by: i64,
}

impl Model for WideFloor {
    ghost use Rattle.affine_rows.specs.declared.quasi.Floor.{Floor, roll-Floor};

    ghost Value = { Floor };

    ghost use Rattle.affine_rows.specs.contracts.quasi.Floor as f;
    ghost use Rattle.std.specs.Coded.{codes};

    ghost coded = { Prim.hlevel (codes, f.the_row.coded) };

    ghost view = { λ w. roll-Floor (record { times = w.times; inner = w.inner; by = w.by }) };
}

impl WideFloor {
    /// The multiple of a floor.
    pub(crate) fn multiple(alloc: Global, by: i64, floor: &Floor) -> Result<WideFloor, AllocError>
        ensures { IfOk result (λ w. w ≡ with_times (by *ℤ (out-Floor floor.now).times) floor.now) }
    {
        Ok(WideFloor {
            times: product(by, floor.times),
            inner: floor.inner.copy(alloc)?,
            by: floor.by,
        })
    }

    /// An equal floor.
    pub(crate) fn copy(&self, alloc: Global) -> Result<WideFloor, AllocError>
        ensures { IfOk result (λ w. w ≡ self.now) }
    {
        Ok(WideFloor {
            times: self.times,
            inner: self.inner.copy(alloc)?,
            by: self.by,
        })
    }

    /// The form under the floor.
    pub(crate) fn inner(&self) -> &Quasi
        ensures { result.now ≡ (out-Floor self.now).inner }
    {
        &self.inner
    }

    /// The divisor.
    pub(crate) fn by(&self) -> i64
        ensures { result ≡ (out-Floor self.now).by }
    {
        self.by
    }

    /// Whether it is of the form by the divisor.
    fn is_of(&self, inner: &Quasi, by: i64) -> bool
        ensures { result ≡ (int_eq by (out-Floor self.now).by && same_form inner.now (out-Floor self.now).inner) }
    {
        by == self.by && same_form(inner, &self.inner)
    }

    /// Whether the other one is of the same form by the same divisor.
    #[tactic(auto, unfolding(crate::specs::Alike::same_floor))]
    fn is_like(&self, other: &WideFloor) -> bool
        ensures { result ≡ same_floor self.now other.now }
    {
        self.by == other.by && same_form(&self.inner, &other.inner)
    }
}

/// Adds each floor with a multiple of its factor at the end of others.
fn push_multiples(
    alloc: Global,
    by: i64,
    floors: &[Floor],
    made: &mut Vec<WideFloor>,
) -> Result<(), AllocError>
    ensures { OnOk result (made.new.items ≡ made.old.items ++ multiple_floors by floors.now) }
{
    for floor in floors {
        made.push(WideFloor::multiple(alloc, by, floor)?)?;
    }
    Ok(())
}

/// Adds the multiples of floors at the end of others. By 0 there are none.
pub(crate) fn add_multiples(
    alloc: Global,
    by: i64,
    floors: &[Floor],
    made: &mut Vec<WideFloor>,
) -> Result<(), AllocError>
    ensures { OnOk result (made.new.items ≡ made.old.items ++ scaled_floors by floors.now) }
{
    if by == 0 {
        return Ok(());
    }
    push_multiples(alloc, by, floors, made)
}

/// Whether one of the floors is like this one.
pub(crate) fn is_among(floors: &[WideFloor], floor: &WideFloor) -> bool
    ensures { result ≡ list_any (λ x. same_floor x floor.now) floors.now }
{
    for other in floors {
        if other.is_like(floor) {
            return true;
        }
    }
    false
}

/// The place of the first of the floors of the form by the divisor, or how many floors there are.
pub(crate) fn place_of(floors: &[WideFloor], inner: &Quasi, by: i64) -> usize
    ensures { result ≡ position_or_len (λ g. int_eq by (out-Floor g).by && same_form inner.now (out-Floor g).inner) floors.now }
{
    for at in 0..floors.len() {
        if floors[at].is_of(inner, by) {
            return at;
        }
    }
    floors.len()
}

/// Adds a copy of the floor at a place, if it is the first of those that are alike.
fn add_first(
    alloc: Global,
    floors: &[WideFloor],
    at: usize,
    made: &mut Vec<WideFloor>,
) -> Result<(), AllocError>
    requires within { at < length floors.now }
    requires made { made.old.items ≡ distinct same_floor (take at floors.now) }
    ensures { OnOk result (made.new.items ≡ distinct same_floor (take (at + 1) floors.now)) }
{
    let floor = &floors[at];
    if !is_among(&floors[..at], floor) {
        made.push(floor.copy(alloc)?)?;
    }
    Ok(())
}

/// The first of those that are alike.
pub(crate) fn different(alloc: Global, floors: &[WideFloor]) -> Result<Vec<WideFloor>, AllocError>
    ensures { IfOk result (λ made. made.items ≡ distinct same_floor floors.now) }
{
    let mut made = Vec::new(alloc);
    for at in 0..floors.len() {
        add_first(alloc, floors, at, &mut made)?;
    }
    Ok(made)
}

/// The factor of the other floor, where it is like this one.
fn times_if_like(floor: &WideFloor, other: &WideFloor) -> i128
    ensures like { same_floor floor.now other.now ≡ true → result ≡ (out-Floor other.now).times }
    ensures unlike { same_floor floor.now other.now ≡ false → result ≡ pos 0 }
{
    if floor.is_like(other) { other.times } else { 0 }
}

/// The sum of the factors of the floors that are like this one.
fn times_of(floors: &[WideFloor], floor: &WideFloor) -> i128
    requires { sum_by (λ f. unsigned_abs (out-Floor f).times) floors.now ≤ 2 ^ 127 - 1 }
    ensures { result ≡ times_of floors.now floor.now }
{
    let mut sum = 0i128;
    for other in floors {
        sum = plus(sum, times_if_like(floor, other));
    }
    sum
}

/// The same number, where it does not pass 2^62 in absolute value.
pub(crate) fn narrow(wide: i128) -> Option<i64>
    ensures same { IfSome result (λ narrow. narrow ≡ wide) }
    ensures fits { is_some result ≡ fits_entry wide }
{
    if wide.unsigned_abs() > WIDEST {
        return None;
    }
    Some(wide as i64)
}

/// The floor with the factors of all that are like it.
fn gathered(alloc: Global, floors: &[WideFloor], floor: &WideFloor) -> Result<Floor, FormFault>
    requires { sum_by (λ f. unsigned_abs (out-Floor f).times) floors.now ≤ 2 ^ 127 - 1 }
    ensures made { IfOk result (λ f. f ≡ with_times (times_of floors.now floor.now) floor.now) }
    ensures fits { OnOk result (fits_entry (times_of floors.now floor.now) ≡ true) }
    ensures limit { result ≡ Err FormFault.Limit → fits_entry (times_of floors.now floor.now) ≡ false }
    ensures affine { result ≢ Err FormFault.NotAffine }
{
    let times = narrow(times_of(floors, floor)).ok_or(FormFault::Limit)?;
    Ok(Floor {
        times,
        inner: floor.inner.copy(alloc)?,
        by: floor.by,
    })
}

/// Adds the floor at a place with the factors of all that are like it, if it is the first of those and their sum is not 0.
fn add_gathered(
    alloc: Global,
    floors: &[WideFloor],
    at: usize,
    made: &mut Listed<Floor>,
) -> Result<(), FormFault>
    requires small { sum_by (λ f. unsigned_abs (out-Floor f).times) floors.now ≤ 2 ^ 127 - 1 }
    requires within { at < length floors.now }
    requires made { made.old ≡ kept_floors floors.now (take at floors.now) }
    ensures made { OnOk result (made.new ≡ kept_floors floors.now (take (at + 1) floors.now)) }
    ensures fits { OnOk result (list_all (λ f. fits_entry (out-Floor f).times) made.old ≡ true → list_all (λ f. fits_entry (out-Floor f).times) made.new ≡ true) }
    ensures limit { result ≡ Err FormFault.Limit → list_all (λ f. fits_entry (out-Floor f).times) (kept_floors floors.now (take (at + 1) floors.now)) ≡ false }
    ensures affine { result ≢ Err FormFault.NotAffine }
{
    let first = &floors[at];
    if is_among(&floors[..at], first) {
        return Ok(());
    }
    let floor = gathered(alloc, floors, first)?;
    if floor.times != 0 {
        made.push(floor)?;
    }
    Ok(())
}

/// The floors in the order of first occurrence, each with the factors of all that are alike and none with factor 0.
/// `Limit` comes exactly where a factor passes 2^62 in absolute value.
pub(crate) fn collected_floors(
    alloc: Global,
    floors: &[WideFloor],
) -> Result<Listed<Floor>, FormFault>
    requires { sum_by (λ f. unsigned_abs (out-Floor f).times) floors.now ≤ 2 ^ 127 - 1 }
    ensures made { IfOk result (λ made. made ≡ collected_floors floors.now) }
    ensures fits { OnOk result (list_all (λ f. fits_entry (out-Floor f).times) (collected_floors floors.now) ≡ true) }
    ensures limit { result ≡ Err FormFault.Limit → list_all (λ f. fits_entry (out-Floor f).times) (collected_floors floors.now) ≡ false }
    ensures affine { result ≢ Err FormFault.NotAffine }
{
    let mut made = Listed::new(alloc);
    for at in 0..floors.len() {
        add_gathered(alloc, floors, at, &mut made)?;
    }
    Ok(made)
}
