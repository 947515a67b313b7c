//! Trees of values and tests within the limit of their depth.
ghost use Rattle.std.specs.Prelude.{◌≡◌, ◌<◌};

use crate::growing::Growing;
use crate::kinds::Kinds;
use crate::reader::{Limit, Reader, Stop};
use affine_rows::{Form, Listed};
use expr_tree::{Expr, ExprFault, MAX_DEPTH, Node, Rel, Shared, Steps, Test, make};
use std::alloc::{AllocError, Global};
use std::marker::Brand;
use std::sync::ledger::{Blank, Ledger};

/// A value, and how deep its tree is.
#[derive(Drop)]
pub struct Value {
    pub tree: Expr,
    pub depth: u32,
}

/// A test, how deep its tree is, and the kinds that may be asked of it.
#[derive(Drop)]
pub struct Asked {
    pub test: Test,
    pub depth: u32,
    pub asks: Kinds,
}

fn made<L: Ledger>(alloc: Global, node: Node, blank: Blank) -> Result<Expr, ExprFault>
    requires name { blank.name ≡ L.name }
    requires parts { blank.parts ≡ L.parts }
    requires some { 0 < blank.parts }
{
    let mut steps = Steps::<L>::open(blank);
    make(alloc, node, &mut steps)
}

/// The tree of a node.
fn tree_of(alloc: Global, node: Node) -> Result<Expr, ExprFault> {
    made::<Brand>(alloc, node, Blank::new(1))
}

/// The tree of a node over parts that are so deep. One that is too deep passes a limit, and 0 stands for it.
pub fn value_over(reader: &mut Reader, node: Node, below: u32) -> Result<Value, Stop> {
    match tree_of(reader.alloc, node) {
        Ok(tree) => Ok(Value {
            tree,
            depth: below.saturating_add(1),
        }),
        Err(ExprFault::OutOfMemory) => Err(Stop::OutOfMemory),
        Err(_) => {
            reader.pass(Limit::Depth);
            leaf(reader.alloc, Node::Literal(0))
        }
    }
}

/// A tree of one node.
pub fn leaf(alloc: Global, node: Node) -> Result<Value, Stop> {
    match tree_of(alloc, node) {
        Ok(tree) => Ok(Value { tree, depth: 1 }),
        Err(_) => Err(Stop::OutOfMemory),
    }
}

/// A test over parts that are so deep, of which these kinds may be asked. One that is too deep passes a limit, and `0 == 0`
/// stands for it.
pub fn test_over(reader: &mut Reader, test: Test, below: u32, asks: Kinds) -> Asked {
    if below < MAX_DEPTH {
        let depth = below + 1;
        return Asked { test, depth, asks };
    }
    reader.pass(Limit::Depth);
    let first = Growing::new(reader.alloc).into_form();
    let second = Growing::new(reader.alloc).into_form();
    Asked {
        test: Test::Index(Rel::Equal, first, second),
        depth: 1,
        asks,
    }
}

/// Two tests, both of which or one of which has to hold. The second tells the kinds that may be asked of both.
pub fn joined(
    reader: &mut Reader,
    all: bool,
    first: Asked,
    second: Asked,
) -> Result<Asked, AllocError> {
    let below = first.depth.max(second.depth);
    let p = Shared::new(reader.alloc, first.test)?;
    let q = Shared::new(reader.alloc, second.test)?;
    let test = if all {
        Test::All(p, q)
    } else {
        Test::Any(p, q)
    };
    Ok(test_over(reader, test, below, second.asks))
}

/// A test that is turned.
pub fn turned(reader: &mut Reader, asked: Asked) -> Result<Asked, AllocError> {
    let test = Test::Not(Shared::new(reader.alloc, asked.test)?);
    Ok(test_over(reader, test, asked.depth, asked.asks))
}

/// The subscript of a read: the constant that counts an entry of the code.
pub fn entry_place(alloc: Global, entry: u32) -> Result<Listed<Form>, AllocError> {
    Listed::of_one(
        alloc,
        Form::affine(alloc, i64::from(entry), Listed::new(alloc)),
    )
}
