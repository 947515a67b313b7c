//! Expressions, tests and cells.
use crate::shared::Shared;
use affine_rows::{Form, Listed};
use std::alloc::{AllocError, Global};
use wrap_words::Kind;

/// An operator on two words of one kind. The first four also combine the points of a reduction.
#[derive(Clone, Copy, Debug, PartialEq, Eq)]
pub enum Op {
    Add,
    Mul,
    Min,
    Max,
    Sub,
    And,
    Or,
    Xor,
}

/// A comparison.
#[derive(Clone, Copy, Debug, PartialEq, Eq)]
pub enum Rel {
    Less,
    LessEqual,
    Equal,
    NotEqual,
}

/// An argument array or a temporary, by its place in the list of those.
#[derive(Clone, Copy, Debug, PartialEq, Eq)]
pub enum Cell {
    Array(u32),
    Temp(u32),
}

/// An expression: the owner of its node.
#[cycle(expr)]
#[derive(Drop)]
pub struct Expr {
    node: Shared<Node>,
}

/// One node: a number, an index form, a read at subscripts, the use of a rule at arguments, an operation, a choice,
/// a conversion, or a reduction over inames.
#[cycle(expr)]
#[derive(Drop)]
pub enum Node {
    Literal(u64),
    Leaf(Form),
    Read(Cell, Listed<Form>),
    Call(u32, Listed<Form>),
    Neg(Expr),
    Inv(Expr),
    Shl(Expr, u32),
    Shr(Expr, u32),
    Bin(Op, Expr, Expr),
    Pick(Test, Expr, Expr),
    Cast(Kind, Expr),
    Fold(Op, Listed<u32>, Expr),
}

/// A test: a comparison of words or of index forms, or tests joined.
#[cycle(expr)]
#[derive(Drop)]
pub enum Test {
    Words(Rel, Expr, Expr),
    Index(Rel, Form, Form),
    All(Shared<Test>, Shared<Test>),
    Any(Shared<Test>, Shared<Test>),
    Not(Shared<Test>),
}

impl Expr {
    ghost use Rattle.std.specs.Prelude.{◌≡◌, IfOk};
    ghost use Rattle.expr_tree.specs.Trees.{node_of};

    /// The node at the root.
    pub fn node(&self) -> &Node
        ensures { result.now ≡ node_of self.now }
    {
        self.node.get()
    }

    /// An equal tree, which shares the node with this one.
    pub fn copy(&self) -> Result<Expr, AllocError>
        ensures { IfOk result (λ e. e ≡ self.now) }
    {
        Ok(Expr {
            node: self.node.share()?,
        })
    }

    pub(crate) fn of_node(alloc: Global, node: Node) -> Result<Expr, AllocError>
        ensures { IfOk result (λ e. node_of e ≡ node) }
    {
        Ok(Expr {
            node: Shared::new(alloc, node)?,
        })
    }
}
