//! Copies, which share nodes.
ghost use Rattle.std.specs.Prelude.{◌≡◌, IfOk};

use crate::tree::{Expr, Test};
use std::alloc::{AllocError, Global};

impl Test {
    /// An equal test, which shares its parts with this one.
    pub fn copy(&self, alloc: Global) -> Result<Test, AllocError>
        ensures { IfOk result (λ t. t ≡ self.now) }
    {
        match self {
            Test::Words(rel, a, b) => Ok(Test::Words(*rel, a.copy()?, b.copy()?)),
            Test::Index(rel, a, b) => Ok(Test::Index(*rel, a.copy(alloc)?, b.copy(alloc)?)),
            Test::All(p, q) => Ok(Test::All(p.share()?, q.share()?)),
            Test::Any(p, q) => Ok(Test::Any(p.share()?, q.share()?)),
            Test::Not(p) => Ok(Test::Not(p.share()?)),
        }
    }
}
