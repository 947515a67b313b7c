//! Expressions whose kinds are not asked yet.
use affine_rows::{Form, Listed};
use expr_tree::{Cell, Shared};
use kernel_grammar::{Folding, Infix, Prefix};
use std::alloc::{AllocError, Global};
use wrap_words::Kind;

/// An expression or a test: the owner of its term.
#[cycle(untyped)]
#[derive(Drop)]
pub struct Untyped {
    term: Shared<Term>,
}

/// One term. Index expressions that stand in it are collected as far as they go; whether it is a value or a test, and
/// whether its parts are what they should be, is not said.
#[cycle(untyped)]
#[derive(Drop)]
pub enum Term {
    /// An index expression, and whether no variable is written in it.
    Index(Form, bool),
    /// A number that is too large for an index expression.
    Literal(u64),
    /// A read of a cell at subscripts.
    Read(Cell, Listed<Form>),
    /// A use of a rule at arguments.
    Use(u32, Listed<Form>),
    Prefix(Prefix, Untyped),
    Infix(Infix, Untyped, Untyped),
    ShiftLeft(Untyped, u64),
    ShiftRight(Untyped, u64),
    Cast(Kind, Untyped),
    /// The choice of the second or third part by the first.
    Choose(Untyped, Untyped, Untyped),
    /// A reduction over inames.
    Fold(Folding, Listed<u32>, Untyped),
}

impl Untyped {
    ghost use Rattle.std.specs.Prelude.{◌≡◌, IfOk};
    ghost use Rattle.untyped.specs.Trees.{term_of};

    /// The term at the root.
    pub fn term(&self) -> &Term
        ensures { result.now ≡ term_of self.now }
    {
        self.term.get()
    }

    /// An equal expression, which shares the term. The only error is want of memory.
    pub fn copy(&self) -> Result<Untyped, AllocError>
        ensures { IfOk result (λ e. e ≡ self.now) }
    {
        Ok(Untyped {
            term: self.term.share()?,
        })
    }

    /// The expression with this term at its root. The only error is want of memory.
    pub fn of_term(alloc: Global, term: Term) -> Result<Untyped, AllocError>
        ensures { IfOk result (λ e. e ≡ record { term = term }) }
    {
        Ok(Untyped {
            term: Shared::new(alloc, term)?,
        })
    }
}
