//! The outermost, leftmost reduction of an instruction, and what is left with another tree in its place.
use affine_rows::Listed;
use expr_tree::{Expr, ExprFault, Node, Op, Shared, Test};
use kernel_edits::{Kinds, cell_kind, leading_kind, leading_of_test, tree_of};
use kernel_ir::Insn;
use std::alloc::{AllocError, Global};
use wrap_words::Kind;

/// A reduction: its operator, its inames, its expression, and the kind at which it stands.
#[derive(Drop)]
pub(crate) struct Reduction {
    pub(crate) op: Op,
    pub(crate) inames: Listed<u32>,
    pub(crate) value: Expr,
    pub(crate) kind: Kind,
}

/// The value and the data test that are left of an instruction, and the reduction that was taken, if there is one.
#[derive(Drop)]
pub(crate) struct Rest {
    pub(crate) value: Expr,
    pub(crate) test: Option<Test>,
    pub(crate) taken: Option<Reduction>,
}

/// Takes the first reduction that it comes to, and puts a tree in its place.
#[derive(Drop)]
struct Taker<'a> {
    kinds: Kinds<'a>,
    put: &'a Expr,
    taken: Option<Reduction>,
}

impl Taker<'_> {
    /// The kind at which the operand of a cast stands.
    fn operand_kind(&self, operand: &Expr, to: Kind) -> Kind {
        leading_kind(self.kinds.kernel, self.kinds.leads, operand).unwrap_or(to)
    }

    /// The kind at which the sides of a comparison stand, in a node that stands at a kind.
    fn side_kind(&self, first: &Expr, second: &Expr, kind: Kind) -> Kind {
        leading_of_test(self.kinds.kernel, self.kinds.leads, first, second, kind)
    }

    fn take(&mut self, reduction: Reduction) -> Result<Expr, AllocError> {
        self.taken = Some(reduction);
        self.put.copy()
    }

    /// What is left of a value that stands at a kind.
    #[cycle(take)]
    fn value_left(&mut self, alloc: Global, value: &Expr, kind: Kind) -> Result<Expr, ExprFault> {
        if self.taken.is_some() {
            return Ok(value.copy()?);
        }
        match value.node() {
            Node::Literal(_) | Node::Leaf(_) | Node::Read(_, _) | Node::Call(_, _) => {
                Ok(value.copy()?)
            }
            Node::Neg(a) => {
                let a = self.value_left(alloc, a, kind)?;
                tree_of(alloc, Node::Neg(a))
            }
            Node::Inv(a) => {
                let a = self.value_left(alloc, a, kind)?;
                tree_of(alloc, Node::Inv(a))
            }
            Node::Shl(a, by) => {
                let a = self.value_left(alloc, a, kind)?;
                tree_of(alloc, Node::Shl(a, *by))
            }
            Node::Shr(a, by) => {
                let a = self.value_left(alloc, a, kind)?;
                tree_of(alloc, Node::Shr(a, *by))
            }
            Node::Cast(to, a) => {
                let inner = self.operand_kind(a, *to);
                let a = self.value_left(alloc, a, inner)?;
                tree_of(alloc, Node::Cast(*to, a))
            }
            Node::Bin(op, a, b) => {
                let a = self.value_left(alloc, a, kind)?;
                let b = self.value_left(alloc, b, kind)?;
                tree_of(alloc, Node::Bin(*op, a, b))
            }
            Node::Pick(test, a, b) => {
                let test = self.test_left(alloc, test, kind)?;
                let a = self.value_left(alloc, a, kind)?;
                let b = self.value_left(alloc, b, kind)?;
                tree_of(alloc, Node::Pick(test, a, b))
            }
            Node::Fold(op, inames, a) => {
                let reduction = Reduction {
                    op: *op,
                    inames: Listed::from_slice(alloc, inames.as_slice())?,
                    value: a.copy()?,
                    kind,
                };
                Ok(self.take(reduction)?)
            }
        }
    }

    /// What is left of a test in a node that stands at a kind.
    #[cycle(take)]
    fn test_left(&mut self, alloc: Global, test: &Test, kind: Kind) -> Result<Test, ExprFault> {
        match test {
            Test::Words(rel, a, b) => {
                let sides = self.side_kind(a, b, kind);
                let a = self.value_left(alloc, a, sides)?;
                let b = self.value_left(alloc, b, sides)?;
                Ok(Test::Words(*rel, a, b))
            }
            Test::Index(_, _, _) => Ok(test.copy(alloc)?),
            Test::All(p, q) => {
                let p = self.test_left(alloc, p.get(), kind)?;
                let q = self.test_left(alloc, q.get(), kind)?;
                Ok(Test::All(Shared::new(alloc, p)?, Shared::new(alloc, q)?))
            }
            Test::Any(p, q) => {
                let p = self.test_left(alloc, p.get(), kind)?;
                let q = self.test_left(alloc, q.get(), kind)?;
                Ok(Test::Any(Shared::new(alloc, p)?, Shared::new(alloc, q)?))
            }
            Test::Not(p) => {
                let p = self.test_left(alloc, p.get(), kind)?;
                Ok(Test::Not(Shared::new(alloc, p)?))
            }
        }
    }

    /// What is left of a value and a data test that stand at a kind, the value before the test.
    fn left(
        mut self,
        alloc: Global,
        value: &Expr,
        test: &Option<Test>,
        kind: Kind,
    ) -> Result<Rest, ExprFault> {
        let value = self.value_left(alloc, value, kind)?;
        let test = match test {
            None => None,
            Some(test) => Some(self.test_left(alloc, test, kind)?),
        };
        Ok(Rest {
            value,
            test,
            taken: self.taken,
        })
    }
}

/// What is left of an instruction with a tree in the place of its first reduction, value before data test. A cell has a kind.
pub(crate) fn rest_of(
    alloc: Global,
    kinds: Kinds<'_>,
    insn: &Insn,
    put: &Expr,
) -> Result<Rest, ExprFault> {
    let kind = cell_kind(kinds.kernel, insn.cell).unwrap_or(Kind::I32);
    let taker = Taker {
        kinds,
        put,
        taken: None,
    };
    taker.left(alloc, &insn.value, &insn.test, kind)
}
