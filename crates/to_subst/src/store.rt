//! Rule 25: the one store.
use affine_rows::Name;
use command_parts::{Cells, cells_of_value};
use expr_tree::Cell;
use kernel_edits::{fold_count, refused};
use kernel_ir::{Fault, Insn, Kernel, Refusal, Site, Storing};
use kernel_rules::same_cell;
use std::alloc::{AllocError, Global};

/// The one instruction that stores to a temporary of a kernel, with its place in it, and what its value reads with uses of rules
/// replaced.
#[derive(Drop)]
pub(crate) struct Store<'a> {
    pub(crate) kernel: &'a Kernel,
    pub(crate) temp: u32,
    pub(crate) at: usize,
    pub(crate) insn: &'a Insn,
    pub(crate) reads: Cells,
}

impl Store<'_> {
    pub(crate) fn cell(&self) -> Cell {
        Cell::Temp(self.temp)
    }
}

/// How many instructions store to the cell.
fn store_count(insns: &[Insn], cell: Cell) -> usize {
    let mut count = 0usize;
    for insn in insns {
        if same_cell(insn.cell, cell) {
            count = count.saturating_add(1);
        }
    }
    count
}

fn is_read_by_rule(alloc: Global, kernel: &Kernel, cell: Cell) -> Result<bool, AllocError> {
    for rule in kernel.rules.as_slice() {
        if cells_of_value(alloc, kernel, &rule.body)?.has(cell) {
            return Ok(true);
        }
    }
    Ok(false)
}

/// Whether a store is plain and has neither data test nor reduction.
fn is_simple(insn: &Insn) -> bool {
    insn.storing == Storing::Plain && insn.test.is_none() && fold_count(insn) == 0
}

/// The first instruction that stores to the temporary, if it is simple, and neither it nor a rule reads the temporary.
fn simple_store<'a>(
    alloc: Global,
    kernel: &'a Kernel,
    temp: u32,
) -> Result<Option<Store<'a>>, AllocError> {
    let cell = Cell::Temp(temp);
    let insns = kernel.insns.as_slice();
    let Some(at) = insns.iter().position(|insn| same_cell(insn.cell, cell)) else {
        return Ok(None);
    };
    let insn = &insns[at];
    let reads = cells_of_value(alloc, kernel, &insn.value)?;
    if !is_simple(insn) || reads.has(cell) || is_read_by_rule(alloc, kernel, cell)? {
        return Ok(None);
    }
    Ok(Some(Store {
        kernel,
        temp,
        at,
        insn,
        reads,
    }))
}

fn not_one_writer(alloc: Global, name: &Name, count: usize) -> Result<Refusal, AllocError> {
    Refusal::of_rule(alloc, Site::Script, 25)
        .with_name(alloc, name)?
        .with_number(count as i128)
}

/// The one store to a temporary. Rule 25 refuses a temporary that does not have exactly one, or one that is not plain, has a data test
/// or a reduction, or reads the temporary, and a temporary that the body of a rule reads.
pub(crate) fn store_of<'a>(
    alloc: Global,
    kernel: &'a Kernel,
    temp: u32,
    name: &Name,
) -> Result<Store<'a>, Fault> {
    let count = store_count(kernel.insns.as_slice(), Cell::Temp(temp));
    if count == 1 {
        if let Some(store) = simple_store(alloc, kernel, temp)? {
            return Ok(store);
        }
    }
    Err(refused(not_one_writer(alloc, name, count)))
}
