//! What the steps of a run leave behind beside the store: what is kept of their accesses, and the fault of the step that
//! is being made.
use crate::clashes::{Marks, Visit, first_clash, noted};
use crate::states::{Setup, Store, Touch};
use run_words::{Shelf, length_of};
use std::alloc::{AllocError, Global};

/// What a step may lack: a place, a number, or a word.
#[derive(Clone, Copy, Debug, PartialEq, Eq)]
pub enum Missing {
    Outside,
    Overflow,
    Unset,
}

/// What comes of a step: some item has not ended, or all have, or a fault. A fault's cell counts the arrays and then the
/// cells in text order. A race is that of the first item with the second one, who makes the step.
#[derive(Clone, Copy, Debug, PartialEq, Eq)]
pub enum Stepped {
    Went,
    Done,
    Race {
        cell: u32,
        index: i64,
        first: u32,
        second: u32,
    },
    Divergent {
        group: u32,
    },
    Outside {
        cell: Option<u32>,
        index: i64,
        what: Missing,
    },
}

/// The place of what a step finds in the order of faults.
fn rank(found: Stepped) -> u8 {
    match found {
        Stepped::Outside { what, .. } => match what {
            Missing::Overflow => 0,
            Missing::Outside => 1,
            Missing::Unset => 2,
        },
        Stepped::Race { .. } => 3,
        Stepped::Divergent { .. } => 4,
        Stepped::Went | Stepped::Done => 5,
    }
}

/// What is kept of the accesses of the places that are common to items, and what the step that is being made has found.
/// After a step with a fault no other comes.
#[derive(Drop)]
pub struct History {
    marks: Shelf<Option<Marks>>,
    pub found: Stepped,
}

impl History {
    /// Nothing was accessed. Of the places of a run of one item nothing is kept.
    pub fn new(alloc: Global, setup: &Setup) -> Result<History, AllocError> {
        let rows = if setup.launch.items() > 1 {
            setup.common.min(setup.rows.len())
        } else {
            0
        };
        Ok(History {
            marks: Shelf::new(alloc, &setup.rows[..rows], None)?,
            found: Stepped::Went,
        })
    }

    /// The step meets a fault. The first one of its sort counts, and an earlier sort before a later one.
    fn find(&mut self, fault: Stepped) {
        if rank(fault) < rank(self.found) {
            self.found = fault;
        }
    }

    /// A number that was worked out, or overflow.
    pub fn known<T: Copy>(&mut self, number: Option<T>) -> Option<T> {
        if number.is_none() {
            self.find(Stepped::Outside {
                cell: None,
                index: 0,
                what: Missing::Overflow,
            });
        }
        number
    }

    /// A place outside its array or cell, or an unset one.
    pub fn misses(&mut self, store: &Store, touch: Touch) {
        let what = if store.is_outside(touch) {
            Missing::Outside
        } else {
            Missing::Unset
        };
        self.find(Stepped::Outside {
            cell: Some(length_of(store.setup.row_of(touch.cell))),
            index: touch.index,
            what,
        });
    }

    /// Notes an access, private cells and places outside their array or cell aside.
    pub fn access(&mut self, store: &Store, visit: Visit, touch: Touch, write: bool) {
        let row = store.setup.row_of(touch.cell);
        let copy = store.setup.copy_of(visit, row);
        let Some(marks) = self.marks.get(copy, row, touch.index) else {
            return;
        };
        if let Some(first) = first_clash(marks, visit, write) {
            self.find(Stepped::Race {
                cell: length_of(row),
                index: touch.index,
                first,
                second: visit.item,
            });
        }
        let marks = noted(marks, visit, write);
        self.marks.put(copy, row, touch.index, Some(marks));
    }
}
