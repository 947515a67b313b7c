//! Index forms within the limits.
ghost use Rattle.std.specs.Prelude.{◌≡◌, ◌≤◌, ◌^◌, [], sum_by, unsigned_abs};
ghost use Rattle.affine_rows.specs.Forms.{IsForm, affine};

use crate::listed::Listed;
use crate::quasi::Quasi;
use std::alloc::Global;
use std::marker::Model;

/// A quasi-affine form whose divisors are at least 1, and of which each form under its floors, and the whole, has a
/// sum and a constant of at most 2^62. Contracts see the form.
#[derive(Drop)]
pub struct Form {
    quasi: Quasi,
}

impl Model for Form {
    ghost use Rattle.affine_rows.specs.declared.quasi.Quasi.{Quasi};

    ghost Value = { Quasi };

    ghost use Rattle.affine_rows.specs.contracts.quasi.Quasi as q;
    ghost use Rattle.std.specs.Coded.{codes};

    ghost coded = { Prim.hlevel (codes, q.the_row.coded) };

    ghost use Rattle.affine_rows.specs.Forms.{IsForm};

    ghost view = { λ f. f.quasi };

    ghost invariant = { λ f. IsForm f.quasi };
}

impl Form {
    /// The form.
    pub fn new(quasi: Quasi) -> Form
        requires { IsForm quasi }
        ensures { result ≡ quasi }
    {
        Form { quasi }
    }

    /// A form without floors.
    pub fn affine(alloc: Global, constant: i64, terms: Listed<(u32, i64)>) -> Form
        requires constant { unsigned_abs constant ≤ 2 ^ 62 }
        requires sum { sum_by (λ t. unsigned_abs t.1) terms ≤ 2 ^ 62 }
        ensures { result ≡ affine constant terms }
    {
        Form {
            quasi: Quasi {
                constant,
                terms,
                floors: Listed::new(alloc),
            },
        }
    }

    /// The constant, the terms and the floors.
    pub fn quasi(&self) -> &Quasi
        ensures same { result.now ≡ self.now }
        ensures form { IsForm self.now }
    {
        &self.quasi
    }
}
