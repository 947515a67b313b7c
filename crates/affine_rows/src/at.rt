//! The value of an index form.
ghost use Rattle.std.specs.Prelude.{◌≡◌, ◌≤◌, ◌^◌, ℕ, ℤ, ◌*◌, sum, sum_by, map, All, unsigned_abs};
ghost use Rattle.affine_rows.specs.Rows.{terms_at};
ghost use Rattle.affine_rows.specs.Forms.{IsForm, IsFloor, form_at, floor_at, total};
ghost use Rattle.affine_rows.specs.Reach.{reach, reach_of_floor};

use crate::form::Form;
use crate::quasi::{Floor, Quasi};
use crate::wide::{plus, product, quotient, times};

/// What tells the number of each variable.
pub trait Vars {
    ghost number: { Self → ℕ → ℤ };

    /// The number of a variable.
    fn var(&self, var: u32) -> i64
        ensures { result ≡ number self.now var };
}

impl Form {
    /// The form's value at the numbers of its variables. Takes no memory.
    pub fn value<V: Vars>(&self, vars: &V) -> i128
        ensures value { result ≡ form_at (V.number vars.now) self.now }
        ensures small { unsigned_abs result ≤ 2 ^ 126 }
    {
        form_value(self.quasi(), vars)
    }
}

fn terms_value<V: Vars>(terms: &[(u32, i64)], vars: &V) -> i128
    requires { sum_by (λ t. unsigned_abs t.1) terms.now ≤ 2 ^ 62 }
    ensures value { result ≡ terms_at (V.number vars.now) terms.now }
    ensures small { unsigned_abs result ≤ 2 ^ 63 * sum_by (λ t. unsigned_abs t.1) terms.now }
{
    let mut sum = 0i128;
    for (var, factor) in terms {
        sum = plus(sum, product(*factor, vars.var(*var)));
    }
    sum
}

#[cycle(value)]
#[tactic(auto, using(crate::proofs::FormRules::form_rules))]
fn form_value<V: Vars>(form: &Quasi, vars: &V) -> i128
    requires { IsForm form.now }
    ensures value { result ≡ form_at (V.number vars.now) form.now }
    ensures small { unsigned_abs result ≤ reach form.now }
{
    let plain = plus(
        i128::from(form.constant),
        terms_value(form.terms.as_slice(), vars),
    );
    plus(plain, floors_value(form.floors.as_slice(), vars))
}

#[cycle(value)]
#[tactic(auto, using(crate::proofs::FormRules::form_rules))]
fn floors_value<V: Vars>(floors: &[Floor], vars: &V) -> i128
    requires each { All IsFloor floors.now }
    requires small { sum (map reach_of_floor floors.now) ≤ 2 ^ 126 }
    ensures value { result ≡ total (map (floor_at (V.number vars.now)) floors.now) }
    ensures small { unsigned_abs result ≤ sum (map reach_of_floor floors.now) }
{
    let mut sum = 0i128;
    for floor in floors {
        sum = plus(sum, floor_value(floor, vars));
    }
    sum
}

#[cycle(value)]
#[tactic(auto, using(crate::proofs::FormRules::form_rules))]
fn floor_value<V: Vars>(floor: &Floor, vars: &V) -> i128
    requires floor { IsFloor floor.now }
    requires small { reach_of_floor floor.now ≤ 2 ^ 126 }
    ensures value { result ≡ floor_at (V.number vars.now) floor.now }
    ensures small { unsigned_abs result ≤ reach_of_floor floor.now }
{
    let inner = form_value(&floor.inner, vars);
    times(floor.times, quotient(inner, floor.by))
}
