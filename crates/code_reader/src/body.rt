//! Blocks that are not yet read to their ends.
use affine_rows::Listed;
use code_grammar::{Kinds, Reader, Stop, push};
use code_tree::{Block, Bound, CodeCell, QuasiRow, Stmt};
use expr_tree::Test;
use std::alloc::{AllocError, Global};
use std::mem;
use wrap_words::Kind;

/// What stands before a block. Of a data test `asks` tells the kinds that may be asked.
#[derive(Drop)]
pub enum Head {
    Loop {
        var: u32,
        lower: Bound,
        upper: Bound,
    },
    When {
        rows: Listed<QuasiRow>,
    },
    Check {
        test: Test,
        asks: Kinds,
    },
}

/// A statement whose block is open: what stands before it, how many names were declared there, the kinds that may be asked of
/// its data test while no assignment is read in the block, and the block round it.
#[derive(Drop)]
struct OpenStmt {
    head: Head,
    names: usize,
    waits: Option<Kinds>,
    outer: Block,
}

/// A body: the statements that are open, the innermost last, and the innermost block.
#[derive(Drop)]
pub struct Body {
    outside: Vec<OpenStmt>,
    block: Block,
}

fn empty(alloc: Global) -> Block {
    Block {
        cells: Listed::new(alloc),
        children: Listed::new(alloc),
    }
}

impl Head {
    fn asks(&self) -> Option<Kinds> {
        match self {
            Head::Check { asks, .. } => Some(*asks),
            Head::Loop { .. } | Head::When { .. } => None,
        }
    }

    fn with_body(self, body: Block) -> Stmt {
        match self {
            Head::Loop { var, lower, upper } => Stmt::Loop {
                var,
                lower,
                upper,
                body,
            },
            Head::When { rows } => Stmt::When { rows, body },
            Head::Check { test, .. } => Stmt::Check { test, body },
        }
    }
}

impl Body {
    /// Nothing is read.
    pub fn new(alloc: Global) -> Body {
        Body {
            outside: Vec::new(alloc),
            block: empty(alloc),
        }
    }

    /// How many statements are open.
    pub fn depth(&self) -> usize {
        self.outside.len()
    }

    /// Adds a statement.
    pub fn add(&mut self, stmt: Stmt) -> Result<(), AllocError> {
        self.block.children.push(stmt)
    }

    /// Adds an assignment. No data test waits for one any more.
    pub fn assign(&mut self, set: Stmt) -> Result<(), AllocError> {
        for open in self.outside.as_mut_slice() {
            open.waits = None;
        }
        self.add(set)
    }

    /// Whether a cell may be declared here: before the first statement of the block.
    pub fn takes_cells(&self) -> bool {
        self.block.children.is_empty()
    }

    /// Adds a cell.
    pub fn declare(&mut self, cell: CodeCell) -> Result<(), AllocError> {
        self.block.cells.push(cell)
    }

    /// The kinds that the target of an assignment may have here, by the data tests that wait for one.
    pub fn targets(&self) -> Kinds {
        let mut kinds = Kinds::all();
        for open in self.outside.as_slice() {
            if let Some(asks) = open.waits {
                kinds = kinds.and(asks);
            }
        }
        kinds
    }

    /// The kinds that may be asked of a data test here: those of an assignment in its block, and int32 where there is none.
    pub fn asks(&self) -> Kinds {
        self.targets().or(Kinds::only(Kind::I32))
    }

    /// Whether the block may end here: where its data test waits for no assignment, or int32 may be asked of it.
    pub fn may_end(&self) -> bool {
        match self.outside.last() {
            Some(open) => open.waits.unwrap_or(Kinds::all()).has(Kind::I32),
            None => true,
        }
    }

    /// Opens the block of a statement, before which so many names were declared.
    pub fn begin(&mut self, alloc: Global, head: Head, names: usize) -> Result<(), AllocError> {
        let waits = head.asks();
        let outer = mem::replace(&mut self.block, empty(alloc));
        push(
            &mut self.outside,
            OpenStmt {
                head,
                names,
                waits,
                outer,
            },
        )
    }

    /// The innermost block ends. It is the whole body where no statement is open.
    pub fn end(&mut self, reader: &mut Reader) -> Result<Option<Block>, Stop> {
        let Some(open) = self.outside.pop() else {
            return Ok(Some(mem::replace(&mut self.block, empty(reader.alloc))));
        };
        reader.take("\n")?;
        reader.end_names(open.names);
        let body = mem::replace(&mut self.block, open.outer);
        self.add(open.head.with_body(body))?;
        Ok(None)
    }
}
