//! Index forms that grow part by part within their limits.
ghost use Rattle.std.specs.Prelude.{◌≡◌, ◌≤◌, ◌<◌, ◌-◌, ◌*◌, ◌^◌, ◌≤ℤ◌, min, pos, unsigned_abs};
ghost use Rattle.affine_rows.specs.Forms.{ceil_div, sum_count, constant_count, IsForm, IsFloor};
ghost use Rattle.affine_rows.specs.Reach.{floor_sum, floor_constant};

use crate::reader::Limit;
use affine_rows::{Floor, Form, Listed, Quasi};
use std::alloc::{AllocError, Global};
use std::marker::Model;

/// The greatest sum and constant of a form.
const MOST: u64 = 1 << 62;

/// The greatest sum of the factors of a form's floors.
const MOST_TIMES: u64 = 1 << 63;

/// The deepest floors.
const MAX_DEPTH: u32 = 64;

/// A form within its limits: its parts, its sum, what its floors count in its constant, the sum of their factors, and how
/// deep they are. Contracts see the form.
#[derive(Drop)]
pub struct Growing {
    constant: i64,
    terms: Listed<(u32, i64)>,
    floors: Listed<Floor>,
    sum: u64,
    floors_constant: u64,
    times: u64,
    depth: u32,
}

impl Model for Growing {
    ghost use Rattle.affine_rows.specs.declared.quasi.Quasi.{Quasi, roll-Quasi};

    ghost Value = { Quasi };

    ghost use Rattle.affine_rows.specs.contracts.quasi.Quasi as q;
    ghost use Rattle.std.specs.Coded.{codes};

    ghost coded = { Prim.hlevel (codes, q.the_row.coded) };

    ghost use Rattle.code_grammar.specs.Growing.{IsCounted};

    ghost view = { λ g. roll-Quasi (record { constant = g.constant; terms = g.terms; floors = g.floors }) };

    ghost invariant = { λ g. IsCounted g.constant g.terms g.floors g.sum g.floors_constant g.times };
}

/// A floor within its limits, what it counts in a sum and in a constant, 2^64 - 1 standing for all that is more, and how deep
/// it is.
#[derive(Drop)]
struct Weighed {
    floor: Floor,
    sum: u64,
    constant: u64,
    depth: u32,
}

/// The factor times the quotient, rounded up.
fn scaled(times: u64, part: u64, by: u64) -> u64
    requires positive { 0 < by }
    ensures { result ≡ min (times * ceil_div part by) (2 ^ 64 - 1) }
{
    times.saturating_mul(part.div_ceil(by))
}

/// The floor of a form by a divisor, with a factor.
fn floor_of(times: i64, inner: Growing, by: i64) -> Weighed
    requires positive { pos 1 ≤ℤ by }
    requires entry { unsigned_abs times ≤ 2 ^ 62 }
    ensures within { IsFloor result.floor }
    ensures sum { result.sum ≡ min (floor_sum result.floor) (2 ^ 64 - 1) }
    ensures constant { result.constant ≡ min (floor_constant result.floor) (2 ^ 64 - 1) }
{
    let depth = inner.depth().saturating_add(1);
    let factor = times.unsigned_abs();
    let divisor = by.unsigned_abs();
    let sum = scaled(factor, inner.whole_sum(), divisor);
    let constant = scaled(factor, inner.whole_constant(), divisor);
    Weighed {
        floor: Floor {
            times,
            inner: inner.into_quasi(),
            by,
        },
        sum,
        constant,
        depth,
    }
}

impl Growing {
    /// The form 0.
    pub fn new(alloc: Global) -> Growing {
        Growing {
            constant: 0,
            terms: Listed::new(alloc),
            floors: Listed::new(alloc),
            sum: 0,
            floors_constant: 0,
            times: 0,
            depth: 0,
        }
    }

    /// Adds a term, unless the form would pass a limit.
    pub fn add_term(&mut self, var: u32, factor: i64) -> Result<Option<Limit>, AllocError> {
        let sum = self.sum.saturating_add(factor.unsigned_abs());
        if sum > MOST {
            return Ok(Some(Limit::Form));
        }
        self.terms.push((var, factor))?;
        self.sum = sum;
        Ok(None)
    }

    /// Adds the floor of a form by a divisor, with a factor, unless the form would pass a limit.
    pub fn add_floor(
        &mut self,
        times: i64,
        inner: Growing,
        by: i64,
    ) -> Result<Option<Limit>, AllocError>
        requires { pos 1 ≤ℤ by }
    {
        if times.unsigned_abs() > MOST {
            return Ok(Some(Limit::Form));
        }
        self.add_weighed(floor_of(times, inner, by))
    }

    fn add_weighed(&mut self, part: Weighed) -> Result<Option<Limit>, AllocError>
        requires within { IsFloor part.floor }
        requires sum { part.sum ≡ min (floor_sum part.floor) (2 ^ 64 - 1) }
        requires constant { part.constant ≡ min (floor_constant part.floor) (2 ^ 64 - 1) }
    {
        let sum = self.sum.saturating_add(part.sum);
        let floors_constant = self.floors_constant.saturating_add(part.constant);
        let constant = self.constant.unsigned_abs().saturating_add(floors_constant);
        let times = self.times.saturating_add(part.floor.times.unsigned_abs());
        if part.depth > MAX_DEPTH {
            return Ok(Some(Limit::Depth));
        }
        if sum > MOST || constant > MOST || times > MOST_TIMES {
            return Ok(Some(Limit::Form));
        }
        self.floors.push(part.floor)?;
        self.sum = sum;
        self.floors_constant = floors_constant;
        self.times = times;
        self.depth = self.depth.max(part.depth);
        Ok(None)
    }

    /// How deep the floors are.
    fn depth(&self) -> u32 {
        self.depth
    }

    /// What the form counts in its sum.
    fn whole_sum(&self) -> u64
        ensures { result ≡ sum_count self.now }
    {
        self.sum
    }

    /// What the form counts in its constant.
    fn whole_constant(&self) -> u64
        ensures { result ≡ constant_count self.now }
    {
        self.constant.unsigned_abs() + self.floors_constant
    }

    /// Gives the form a constant, unless it would pass a limit.
    pub fn set_constant(&mut self, constant: i64) -> Option<Limit> {
        if constant.unsigned_abs().saturating_add(self.floors_constant) > MOST {
            return Some(Limit::Form);
        }
        self.constant = constant;
        None
    }

    fn into_quasi(self) -> Quasi
        ensures same { result ≡ self }
        ensures form { IsForm result }
    {
        let Growing {
            constant,
            terms,
            floors,
            ..
        } = self;
        Quasi {
            constant,
            terms,
            floors,
        }
    }

    /// The form.
    pub fn into_form(self) -> Form
        ensures { result ≡ self }
    {
        Form::new(self.into_quasi())
    }
}
