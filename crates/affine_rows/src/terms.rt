//! The terms of a row.
ghost use Rattle.std.specs.Prelude.{◌≡◌, [], ◌∷◌, ◌++◌, ◌<◌, ◌≤◌, ◌^◌, map, IfOk, OnOk, OnErr};
ghost use Rattle.affine_rows.specs.Reduced.{divided_term};

use crate::divide::divided_term;
use smallvec::SmallVec;
use std::alloc::{AllocError, Global};
use std::marker::Model;

/// The terms of a row, each a variable with its factor. Up to six take no memory. Contracts see the list.
#[derive(Drop)]
pub struct Terms {
    terms: SmallVec<(u32, i64), 6>,
}

impl Model for Terms {
    ghost use Rattle.std.specs.Prelude.{List, ℕ, ℤ};

    ghost Value = { List (ℕ × ℤ) };

    ghost view = { λ t. t.terms.items };
}

impl Terms {
    /// No terms.
    pub fn new(alloc: Global) -> Terms
        ensures { result ≡ [] }
    {
        Terms {
            terms: SmallVec::new(alloc),
        }
    }

    /// No terms, with memory for so many.
    pub fn with_capacity(alloc: Global, count: usize) -> Result<Terms, AllocError>
        ensures { IfOk result (λ it. it ≡ []) }
    {
        let terms = SmallVec::with_capacity(alloc, count)?;
        Ok(Terms { terms })
    }

    /// A copy of the terms.
    pub fn from_slice(alloc: Global, terms: &[(u32, i64)]) -> Result<Terms, AllocError>
        ensures { IfOk result (λ it. it ≡ terms.now) }
    {
        let terms = SmallVec::from_slice(alloc, terms)?;
        Ok(Terms { terms })
    }

    /// The terms in order.
    pub fn as_slice(&self) -> &[(u32, i64)]
        ensures { result.now ≡ self.now }
    {
        self.terms.as_slice()
    }

    /// Adds a term at the end. Without memory the terms stay as they were.
    pub fn push(&mut self, term: (u32, i64)) -> Result<(), AllocError>
        ensures ok { OnOk result (self.new ≡ self.old ++ term ∷ []) }
        ensures err { OnErr result (self.new ≡ self.old) }
    {
        self.terms.push(term)?;
        Ok(())
    }

    /// Divides each factor, rounding down.
    #[tactic(auto, using(std::proofs::lemmas::List::Edits::map_over_more))]
    pub(crate) fn divide(&mut self, by: u128)
        requires positive { 0 < by }
        requires small { by ≤ 2 ^ 126 }
        ensures { self.new ≡ map (divided_term by) self.old }
    {
        let terms = self.terms.as_mut_slice();
        for i in 0..terms.len() {
            terms[i] = divided_term(terms[i], by);
        }
    }
}
