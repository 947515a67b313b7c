//! The accesses of the statements of a code.
use crate::frame::{AXES, Frame};
use crate::reads::add_reads;
use crate::there::There;
use affine_rows::{Form, Listed, Name, copy_forms};
use code_tree::Flat;
use expr_tree::{Cell, Expr};
use quasi_forms::same_form;
use std::alloc::{AllocError, Global};

/// An access: its array or cell, its subscripts and the shape entries after the first, whether it is a store, and what
/// stands round it.
#[derive(Drop)]
pub struct Access {
    pub cell: Cell,
    pub place: Listed<Form>,
    pub shape: Listed<Form>,
    pub store: bool,
    pub there: There,
}

/// An assignment with the data tests of which it is the first assignment: the id of its instruction, its inames by axis,
/// and its different accesses, the store, and then the reads of tests and value in text order. Data tests without an
/// assignment are a statement by themselves.
#[derive(Drop)]
pub struct Statement {
    pub id: Name,
    pub inames: Listed<(u8, Name)>,
    pub accesses: Listed<Access>,
}

/// An access of a statement.
#[derive(Clone, Copy)]
pub struct Use<'a> {
    pub statement: &'a Statement,
    pub access: &'a Access,
}

/// The places of a subscript, and none without one.
fn place_of(alloc: Global, flat: Option<&Flat>) -> Result<Listed<Form>, AllocError> {
    match flat {
        None => Ok(Listed::new(alloc)),
        Some(Flat::Form(form)) => Listed::of_one(alloc, form.copy(alloc)?),
        Some(Flat::Horner(place, _)) => copy_forms(alloc, place.as_slice()),
    }
}

/// The shape entries of a subscript.
fn shape_of(alloc: Global, flat: Option<&Flat>) -> Result<Listed<Form>, AllocError> {
    match flat {
        None | Some(Flat::Form(_)) => Ok(Listed::new(alloc)),
        Some(Flat::Horner(_, shape)) => copy_forms(alloc, shape.as_slice()),
    }
}

impl Access {
    /// The access of a cell, at a subscript where the cell has a length.
    pub(crate) fn new(
        alloc: Global,
        cell: Cell,
        flat: Option<&Flat>,
        store: bool,
        there: &There,
    ) -> Result<Access, AllocError> {
        Ok(Access {
            cell,
            place: place_of(alloc, flat)?,
            shape: shape_of(alloc, flat)?,
            store,
            there: there.copy(alloc)?,
        })
    }

    fn copy(&self, alloc: Global) -> Result<Access, AllocError> {
        Ok(Access {
            cell: self.cell,
            place: copy_forms(alloc, self.place.as_slice())?,
            shape: copy_forms(alloc, self.shape.as_slice())?,
            store: self.store,
            there: self.there.copy(alloc)?,
        })
    }

    /// Whether the other access of the same statement is equal. What stands round the one stands round the other or is
    /// inside it, so that it is the same where it has as many loops and rows.
    fn is_like(&self, other: &Access) -> bool {
        self.cell == other.cell
            && self.store == other.store
            && same_forms(self.place.as_slice(), other.place.as_slice())
            && same_forms(self.shape.as_slice(), other.shape.as_slice())
            && self.there.loops.len() == other.there.loops.len()
            && self.there.rows.len() == other.there.rows.len()
    }
}

/// Whether the forms are the same.
pub(crate) fn same_forms(left: &[Form], right: &[Form]) -> bool {
    if left.len() != right.len() {
        return false;
    }
    for at in 0..left.len() {
        if !same_form(left[at].quasi(), right[at].quasi()) {
            return false;
        }
    }
    true
}

/// Adds the access where no equal one is there.
pub(crate) fn add_new(made: &mut Listed<Access>, access: Access) -> Result<(), AllocError> {
    if made.as_slice().iter().any(|other| other.is_like(&access)) {
        return Ok(());
    }
    made.push(access)
}

/// Adds copies of those of the accesses that are not there.
pub(crate) fn add_all_new(
    alloc: Global,
    made: &mut Listed<Access>,
    more: &[Access],
) -> Result<(), AllocError> {
    for access in more {
        add_new(made, access.copy(alloc)?)?;
    }
    Ok(())
}

/// The id of the assignment of a number, `#` and the number where none is known.
fn id_of(alloc: Global, frame: &Frame<'_>, number: usize) -> Result<Name, AllocError> {
    match frame.facts.ids.get(number) {
        Some(id) => id.copy(alloc),
        None => Ok(Name::new(format!(in alloc; "#{number}")?)),
    }
}

/// The inames by axis of the assignment of a number.
fn inames_of(
    alloc: Global,
    frame: &Frame<'_>,
    number: usize,
) -> Result<Listed<(u8, Name)>, AllocError> {
    let mut made = Listed::new(alloc);
    if let Some(inames) = frame.facts.axes.get(number) {
        for iname in inames.as_slice() {
            made.push((iname.0, iname.1.copy(alloc)?))?;
        }
    }
    Ok(made)
}

/// What an assignment says: its array or cell, its subscript and its value.
#[derive(Clone, Copy)]
pub struct Assigned<'a> {
    pub target: Cell,
    pub flat: &'a Option<Flat>,
    pub value: &'a Expr,
}

/// The assignment of a number in text order, with the reads of the tests of which it is the first assignment.
pub fn assignment(
    alloc: Global,
    frame: &Frame<'_>,
    there: &There,
    number: usize,
    tests: &[Access],
    set: Assigned<'_>,
) -> Result<Statement, AllocError> {
    let mut accesses = Listed::new(alloc);
    accesses.push(Access::new(alloc, set.target, set.flat.as_ref(), true, there)?)?;
    add_all_new(alloc, &mut accesses, tests)?;
    add_reads(alloc, frame, there, set.value, &mut accesses)?;
    Ok(Statement {
        id: id_of(alloc, frame, number)?,
        inames: inames_of(alloc, frame, number)?,
        accesses,
    })
}

/// The reads of data tests without an assignment, as a statement by itself.
pub fn lone_tests(alloc: Global, tests: &[Access]) -> Result<Statement, AllocError> {
    let mut accesses = Listed::new(alloc);
    add_all_new(alloc, &mut accesses, tests)?;
    Ok(Statement {
        id: Name::from_str(alloc, "-")?,
        inames: Listed::new(alloc),
        accesses,
    })
}

/// How many of the statements are assignments.
pub fn assignment_count(statements: &[Statement]) -> usize {
    statements
        .iter()
        .filter(|statement| statement.is_assignment())
        .count()
}

impl Statement {
    /// Whether it is an assignment, which is to say that it stores.
    fn is_assignment(&self) -> bool {
        self.accesses.as_slice().iter().any(|access| access.store)
    }

    /// The iname on the axis.
    pub fn iname_on(&self, axis: u32) -> Option<&Name> {
        for iname in self.inames.as_slice() {
            if u32::from(iname.0) == axis {
                return Some(&iname.1);
            }
        }
        None
    }

    /// The axes on which it has an iname, or those on which it has none.
    pub(crate) fn axes(&self, alloc: Global, tagged: bool) -> Result<Vec<u32>, AllocError> {
        let mut made = Vec::new(alloc);
        for axis in 0..AXES {
            if self.iname_on(axis).is_some() == tagged {
                made.push(axis)?;
            }
        }
        Ok(made)
    }
}
