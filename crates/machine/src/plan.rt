//! The statements of a code, numbered in text order, with the cells that each block declares, and what an item does
//! after each of them.
use code_tree::{Block, Code, CodeCell, Stmt};
use expr_tree::Cell;
use run_words::length_of;
use std::alloc::{AllocError, Global};
use wrap_words::Kind;

/// What an item does in one step: it begins a statement, or tests a loop again. The tasks of a code stand in text order,
/// the test of a loop behind its body, so that the task after the last one of a body is the one that follows it.
#[derive(Clone, Copy)]
pub struct Task {
    /// The statement's number in text order, from 0.
    pub number: u32,
    /// Whether a loop is tested again.
    pub is_again: bool,
    /// The task that begins the statement in whose body this one stands, and the place there.
    pub parent: Option<usize>,
    pub place: usize,
    /// The first task of the statement's body, and the task after the whole statement.
    pub inside: usize,
    pub after: usize,
    /// The place of a loop's variable among an item's own numbers.
    pub turn: Option<u32>,
    /// The cells that the body declares: how many stand before them, and how many they are.
    pub first_cell: usize,
    pub cells: usize,
    /// The target of the first assignment in the body.
    pub asked: Option<Cell>,
}

/// The tasks of a code, and the kinds and lengths of its cells in text order, the local ones first. A cell without a
/// length has one place.
#[derive(Drop)]
pub struct Plan {
    pub tasks: Vec<Task>,
    pub cells: Vec<(Kind, u32)>,
    params: u32,
    statements: u32,
}

impl Plan {
    fn push_cells(&mut self, cells: &[CodeCell]) -> Result<(), AllocError> {
        for cell in cells {
            self.cells.push((cell.kind, cell.length.unwrap_or(1)))?;
        }
        Ok(())
    }

    /// The task that begins the next statement of the text. It gives its place among the tasks.
    fn open(
        &mut self,
        parent: Option<usize>,
        place: usize,
        turn: Option<u32>,
        cells: usize,
    ) -> Result<usize, AllocError> {
        let begin = self.tasks.len();
        let next = begin.saturating_add(1);
        self.tasks.push(Task {
            number: self.statements,
            is_again: false,
            parent,
            place,
            inside: next,
            after: next,
            turn,
            first_cell: self.cells.len(),
            cells,
            asked: None,
        })?;
        self.statements = self.statements.saturating_add(1);
        Ok(begin)
    }

    /// Ends a statement with a body. A loop is tested again there.
    fn close(&mut self, begin: usize, asked: Option<Cell>) -> Result<(), AllocError> {
        if begin < self.tasks.len() {
            let open = self.tasks[begin];
            let tests = if open.turn.is_some() { 1 } else { 0 };
            let closed = Task {
                after: self.tasks.len().saturating_add(tests),
                asked,
                ..open
            };
            self.tasks[begin] = closed;
            if tests > 0 {
                self.tasks.push(Task {
                    is_again: true,
                    ..closed
                })?;
            }
        }
        Ok(())
    }
}

/// The statements of a block. It gives the target of the first assignment.
#[cycle(plan)]
fn plan_block(
    plan: &mut Plan,
    parent: Option<usize>,
    block: &Block,
) -> Result<Option<Cell>, AllocError> {
    plan.push_cells(block.cells.as_slice())?;
    let mut first = None;
    let children = block.children.as_slice();
    for place in 0..children.len() {
        let target = plan_stmt(plan, parent, place, &children[place])?;
        if first.is_none() {
            first = target;
        }
    }
    Ok(first)
}

/// A statement with a body, and with a variable if it is a loop.
#[cycle(plan)]
fn plan_round(
    plan: &mut Plan,
    parent: Option<usize>,
    place: usize,
    turn: Option<u32>,
    body: &Block,
) -> Result<Option<Cell>, AllocError> {
    let begin = plan.open(parent, place, turn, body.cells.len())?;
    let first = plan_block(plan, Some(begin), body)?;
    plan.close(begin, first)?;
    Ok(first)
}

#[cycle(plan)]
fn plan_stmt(
    plan: &mut Plan,
    parent: Option<usize>,
    place: usize,
    stmt: &Stmt,
) -> Result<Option<Cell>, AllocError> {
    match stmt {
        Stmt::Loop { var, body, .. } => {
            let turn = var.saturating_sub(plan.params);
            plan_round(plan, parent, place, Some(turn), body)
        }
        Stmt::When { body, .. } | Stmt::Check { body, .. } => plan_round(
            plan, parent, place, None, body,
        ),
        Stmt::Set { target, .. } => {
            plan.open(parent, place, None, 0)?;
            Ok(Some(*target))
        }
        Stmt::Barrier => {
            plan.open(parent, place, None, 0)?;
            Ok(None)
        }
    }
}

/// The tasks and cells of a code.
pub fn plan_of(alloc: Global, code: &Code) -> Result<Plan, AllocError> {
    let mut plan = Plan {
        tasks: Vec::new(alloc),
        cells: Vec::new(alloc),
        params: length_of(code.params.len()),
        statements: 0,
    };
    plan.push_cells(code.locals.as_slice())?;
    plan_block(&mut plan, None, &code.body)?;
    Ok(plan)
}

fn body_of(stmt: &Stmt) -> Option<&Block> {
    match stmt {
        Stmt::Loop { body, .. } | Stmt::When { body, .. } | Stmt::Check { body, .. } => Some(body),
        Stmt::Set { .. } | Stmt::Barrier => None,
    }
}

/// The statement of a task.
pub fn stmt_at<'a>(code: &'a Code, tasks: &[Task], at: usize) -> Option<&'a Stmt> {
    let task = tasks.get(at)?;
    let block = match task.parent {
        None => &code.body,
        Some(parent) => {
            if parent >= at {
                return None;
            }
            body_of(stmt_at(code, tasks, parent)?)?
        }
    };
    block.children.get(task.place)
}
