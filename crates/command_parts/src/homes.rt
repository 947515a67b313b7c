//! Home inames of temporaries before and after a command.
use crate::cells::{Cells, cells_of_insn};
use affine_rows::Listed;
use expr_tree::Cell;
use kernel_edits::{name_of, refused, temp_cell};
use kernel_ir::{Fault, Iname, Kernel, Temp};
use quasi_forms::is_among;
use std::alloc::{AllocError, Global};

/// An instruction by its inames, and what it uses with uses of rules replaced.
#[derive(Drop)]
struct User<'a> {
    inames: &'a [u32],
    cells: Cells,
}

/// The home inames of the temporaries of a kernel, in their order.
#[derive(Drop)]
pub struct Homes {
    lists: Vec<Listed<u32>>,
}

impl Homes {
    /// The home inames of the temporary at a place, none where there is no such temporary.
    pub fn of(&self, temp: usize) -> &[u32] {
        match self.lists.get(temp) {
            None => &[],
            Some(inames) => inames.as_slice(),
        }
    }
}

fn users_of<'a>(alloc: Global, kernel: &'a Kernel) -> Result<Vec<User<'a>>, AllocError> {
    let mut users = Vec::new(alloc);
    for insn in kernel.insns.as_slice() {
        users.push(User {
            inames: insn.inames.as_slice(),
            cells: cells_of_insn(alloc, kernel, insn)?,
        })?;
    }
    Ok(users)
}

/// Those of the inames that are among others too.
fn common(alloc: Global, inames: &[u32], others: &[u32]) -> Result<Listed<u32>, AllocError> {
    let mut made = Listed::new(alloc);
    for &iname in inames {
        if is_among(others, iname) {
            made.push(iname)?;
        }
    }
    Ok(made)
}

/// The inames of all users of a cell, in declared order, if it has a user.
fn home_of(
    alloc: Global,
    users: &[User<'_>],
    cell: Cell,
) -> Result<Option<Listed<u32>>, AllocError> {
    let mut home: Option<Listed<u32>> = None;
    for user in users {
        if user.cells.has(cell) {
            home = match home {
                None => Some(Listed::from_slice(alloc, user.inames)?),
                Some(inames) => Some(common(alloc, inames.as_slice(), user.inames)?),
            };
        }
    }
    Ok(home)
}

/// The home inames of the temporaries of a kernel: those that all its users have, with uses of rules replaced, and none where it
/// has no user.
pub fn homes_of(alloc: Global, kernel: &Kernel) -> Result<Homes, AllocError> {
    let users = users_of(alloc, kernel)?;
    let mut lists = Vec::new(alloc);
    for at in 0..kernel.temps.len() {
        let home = match u32::try_from(at) {
            Ok(temp) => home_of(alloc, &users, Cell::Temp(temp))?,
            Err(_) => None,
        };
        lists.push(home.unwrap_or(Listed::new(alloc)))?;
    }
    Ok(Homes { lists })
}

/// The first of the inames that is in one of two lists alone.
pub fn changed_home(inames: &[Iname], before: &[u32], after: &[u32]) -> Option<u32> {
    let changed = |iname: &&Iname| is_among(before, iname.var) != is_among(after, iname.var);
    Some(inames.iter().find(changed)?.var)
}

/// Rule 13 of one temporary.
fn check_home(
    alloc: Global,
    after: &Kernel,
    temp: &Temp,
    old: &[u32],
    new: &[u32],
) -> Result<(), Fault> {
    match changed_home(after.inames.as_slice(), old, new) {
        None => Ok(()),
        Some(var) => Err(refused(temp_cell(alloc, &temp.name, name_of(after, var)))),
    }
}

/// Rule 13: of the temporaries of the old kernel for which it is asked, which the new kernel has at the same places, the first has
/// other home inames. The first such iname in declared order is kept.
pub fn check_homes(
    alloc: Global,
    before: &Kernel,
    after: &Kernel,
    asked: &[bool],
) -> Result<(), Fault> {
    let old = homes_of(alloc, before)?;
    let new = homes_of(alloc, after)?;
    let temps = before.temps.as_slice();
    for at in 0..temps.len().min(asked.len()) {
        if asked[at] {
            check_home(alloc, after, &temps[at], old.of(at), new.of(at))?;
        }
    }
    Ok(())
}
