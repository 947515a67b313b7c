//! A code with its barriers.
ghost use Rattle.std.specs.Prelude.{◌≡◌, IfOk};

use crate::marks::marks_of;
use affine_rows::Listed;
use code_systems::{Frame, refused};
use code_tree::{Block, Code, Facts, Stmt, Target};
use kernel_ir::Fault;
use std::alloc::{AllocError, Global};
use std::mem;

/// Marks of which some are used.
#[derive(Drop)]
struct Marks {
    marks: Listed<bool>,
    used: usize,
}

impl Marks {
    /// Uses the next mark. There is one for each place where a barrier could stand.
    fn next(&mut self) -> bool {
        let used = self.used;
        self.used = used.saturating_add(1);
        match self.marks.get(used) {
            Some(mark) => *mark,
            None => false,
        }
    }
}

/// Adds a barrier where the next mark says that one stands here.
fn add_barrier(marks: &mut Marks, made: &mut Listed<Stmt>) -> Result<(), AllocError> {
    if marks.next() {
        made.push(Stmt::Barrier)?;
    }
    Ok(())
}

/// The block with the marked barriers.
#[cycle(built)]
fn built_block(alloc: Global, block: Block, marks: &mut Marks) -> Result<Block, AllocError> {
    let Block { cells, children } = block;
    let mut made = Listed::new(alloc);
    for child in children.into_vec() {
        let child = built_stmt(alloc, child, marks)?;
        add_barrier(marks, &mut made)?;
        made.push(child)?;
    }
    Ok(Block {
        cells,
        children: made,
    })
}

/// The statement with the marked barriers.
#[cycle(built)]
fn built_stmt(alloc: Global, stmt: Stmt, marks: &mut Marks) -> Result<Stmt, AllocError> {
    match stmt {
        Stmt::Loop {
            var,
            lower,
            upper,
            body,
        } => {
            let mut body = built_block(alloc, body, marks)?;
            add_barrier(marks, &mut body.children)?;
            Ok(Stmt::Loop {
                var,
                lower,
                upper,
                body,
            })
        }
        Stmt::When { rows, body } => {
            let body = built_block(alloc, body, marks)?;
            Ok(Stmt::When { rows, body })
        }
        Stmt::Check { test, body } => {
            let body = built_block(alloc, body, marks)?;
            Ok(Stmt::Check { test, body })
        }
        Stmt::Set {
            target,
            flat,
            value,
        } => Ok(Stmt::Set {
            target,
            flat,
            value,
        }),
        Stmt::Barrier => Ok(Stmt::Barrier),
    }
}

/// The body with the marked barriers.
fn built_body(alloc: Global, body: Block, marks: Listed<bool>) -> Result<Block, AllocError> {
    let mut marks = Marks { marks, used: 0 };
    built_block(alloc, body, &mut marks)
}

/// The marks of the body of a code.
fn code_marks(alloc: Global, code: &Code, facts: &Facts) -> Result<Listed<bool>, Fault> {
    match marks_of(alloc, &Frame::of(code, facts), &code.body) {
        Ok(marks) => Ok(marks),
        Err(fault) => Err(refused(alloc, fault)),
    }
}

/// The code with a barrier wherever accesses of two items of a group may cross: in a block before each child that has an
/// access which crosses one of a child since the block's last barrier, and at the end of the body of a loop in which an
/// access crosses one at a later turn. Two accesses cross where they are of one argument or local array, one of them is a
/// store, and the system of the rows that hold round each, the rows of the facts, equal subscripts, equal group axes and
/// equal turns of the loops round both has a rational point in a case in which a local axis differs. A C code stays as it
/// is. Rules 18 and 19 come at the first question whose system passes a limit.
///
/// The code has no barrier yet.
pub fn place_with(alloc: Global, code: Code, facts: &Facts) -> Result<Code, Fault>
    ensures target { IfOk result (λ placed. placed.target ≡ code.target) }
{
    if code.target == Target::C {
        return Ok(code);
    }
    let marks = code_marks(alloc, &code, facts)?;
    let mut code = code;
    let empty = Block {
        cells: Listed::new(alloc),
        children: Listed::new(alloc),
    };
    let body = mem::replace(&mut code.body, empty);
    code.body = built_body(alloc, body, marks)?;
    Ok(code)
}

/// The same without rows that are known of the arguments.
pub fn place(alloc: Global, code: Code) -> Result<Code, Fault>
    ensures target { IfOk result (λ placed. placed.target ≡ code.target) }
{
    let facts = Facts {
        rows: Listed::new(alloc),
        ids: Listed::new(alloc),
        axes: Listed::new(alloc),
    };
    place_with(alloc, code, &facts)
}
