//! Rule 27: what is to be directly before what.
use crate::missing::check_there;
use crate::scatter::Scatter;
use crate::store::Store;
use affine_rows::Listed;
use kernel_ir::{Fault, Kernel};
use kernel_rules::{Access, Use, all_accesses, check_order, home_inames, same_cell};
use std::alloc::Global;
use subst_rules::expand;

/// A kernel of which the rules are replaced, with the accesses of its instructions.
#[derive(Drop)]
struct Plain {
    kernel: Kernel,
    accesses: Vec<Listed<Access>>,
}

impl Plain {
    /// The access at a place of an instruction.
    fn access(&self, insn: usize, access: usize) -> Option<Use<'_>> {
        let own = self.kernel.insns.get(insn)?;
        let access = self.accesses.get(insn)?.get(access)?;
        Some(Use {
            insn: own,
            access,
            at: insn,
        })
    }

    fn access_count(&self, insn: usize) -> usize {
        match self.accesses.get(insn) {
            None => 0,
            Some(own) => own.len(),
        }
    }
}

fn plain_of(alloc: Global, kernel: &Kernel) -> Result<Plain, Fault> {
    let kernel = expand(alloc, kernel)?;
    let accesses = all_accesses(alloc, &kernel)?;
    Ok(Plain { kernel, accesses })
}

/// Whether an access reads what another one stores to.
fn reads_of(store: Use<'_>, read: Use<'_>) -> bool {
    !read.access.store && same_cell(read.access.cell, store.access.cell)
}

/// Case missing of all reads of a reader.
fn check_reader(
    alloc: Global,
    plain: &Plain,
    store: &Store<'_>,
    written: Use<'_>,
    scatter: &Scatter,
    homes: &[u32],
    reader: usize,
) -> Result<(), Fault> {
    for at in 0..plain.access_count(reader) {
        if let Some(read) = plain.access(reader, at) {
            if reads_of(written, read) {
                check_there(alloc, store, scatter, homes, read)?;
            }
        }
    }
    Ok(())
}

/// A store is directly before a read, if it is of the same cell.
fn check_pair(alloc: Global, plain: &Plain, written: Use<'_>, read: Use<'_>) -> Result<(), Fault> {
    if !reads_of(written, read) {
        return Ok(());
    }
    let accesses = plain.accesses.as_slice();
    check_order(alloc, 27, &plain.kernel, accesses, written, read, true)
}

/// A store is directly before each read of its cell in an instruction.
fn check_before(
    alloc: Global,
    plain: &Plain,
    written: Use<'_>,
    reader: usize,
) -> Result<(), Fault> {
    for at in 0..plain.access_count(reader) {
        if let Some(read) = plain.access(reader, at) {
            check_pair(alloc, plain, written, read)?;
        }
    }
    Ok(())
}

/// Case missing of all readers.
fn check_missing(
    alloc: Global,
    plain: &Plain,
    store: &Store<'_>,
    written: Use<'_>,
    scatter: &Scatter,
) -> Result<(), Fault> {
    let homes = home_inames(alloc, &plain.kernel, &plain.accesses, store.cell())?;
    for reader in &scatter.readers {
        check_reader(alloc, plain, store, written, scatter, &homes, *reader)?;
    }
    Ok(())
}

/// The writer's instance is directly before those of all readers.
fn check_readers(
    alloc: Global,
    plain: &Plain,
    written: Use<'_>,
    readers: &[usize],
) -> Result<(), Fault> {
    for reader in readers {
        check_before(alloc, plain, written, *reader)?;
    }
    Ok(())
}

/// All stores of what the value reads are directly before the writer's instance.
fn check_stores(alloc: Global, plain: &Plain, writer: usize) -> Result<(), Fault> {
    for other in 0..plain.kernel.insns.len() {
        if let Some(stored) = plain.access(other, 0) {
            check_before(alloc, plain, stored, writer)?;
        }
    }
    Ok(())
}

/// Rule 27 refuses, in this order, case missing; the writer's instance not directly before a reader's; a store of what the value
/// reads not directly before the writer's instance.
pub(crate) fn check_orders(
    alloc: Global,
    store: &Store<'_>,
    scatter: &Scatter,
) -> Result<(), Fault> {
    let plain = plain_of(alloc, store.kernel)?;
    match plain.access(store.at, 0) {
        None => Ok(()),
        Some(written) => {
            check_missing(alloc, &plain, store, written, scatter)?;
            check_readers(alloc, &plain, written, &scatter.readers)?;
            check_stores(alloc, &plain, store.at)
        }
    }
}
