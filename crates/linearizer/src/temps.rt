//! Rule 35: temporaries whose words would cross items.
use code_parts::Homes;
use expr_tree::Cell;
use kernel_ir::{Fault, Insn, Kernel, Refusal, Site, Tag, Temp};
use kernel_rules::{plain_accesses, same_cell};
use loop_bounds::{number_to, tag_of};
use std::alloc::{AllocError, Global};

/// The instructions that use a temporary, by their places, and those of them that store it.
#[derive(Drop)]
struct Users {
    all: Vec<usize>,
    stores: Vec<usize>,
}

fn is_user(alloc: Global, insn: &Insn, cell: Cell) -> Result<bool, AllocError> {
    let accesses = plain_accesses(alloc, insn)?;
    Ok(
        accesses
            .as_slice()
            .iter()
            .any(|access| same_cell(access.cell, cell)),
    )
}

fn add_user(
    alloc: Global,
    insn: &Insn,
    at: usize,
    cell: Cell,
    made: &mut Users,
) -> Result<(), AllocError> {
    if is_user(alloc, insn, cell)? {
        made.all.push(at)?;
    }
    if same_cell(insn.cell, cell) {
        made.stores.push(at)?;
    }
    Ok(())
}

/// The users of a temporary in order.
fn users_of(alloc: Global, kernel: &Kernel, cell: Cell) -> Result<Users, AllocError> {
    let mut made = Users {
        all: Vec::new(alloc),
        stores: Vec::new(alloc),
    };
    let insns = kernel.insns.as_slice();
    for at in 0..insns.len() {
        add_user(alloc, &insns[at], at, cell, &mut made)?;
    }
    Ok(made)
}

/// Whether the items along the axis of an iname have words of their own of the temporary.
fn is_apart(kernel: &Kernel, temp: &Temp, var: u32) -> bool {
    match tag_of(kernel, var) {
        Tag::Plain => false,
        Tag::Group(_) => true,
        Tag::Local(_) => !temp.local,
    }
}

/// Whether an instruction lacks an iname of the storing one along whose axis words are apart.
fn crosses(kernel: &Kernel, temp: &Temp, store: &Insn, user: &Insn) -> bool {
    store.inames.as_slice().iter().any(|var| is_apart(kernel, temp, *var)
        && !user.inames.as_slice().contains(var))
}

/// The storing instruction and the user that lacks an iname of it, the first of both.
fn crossing(kernel: &Kernel, temp: &Temp, users: &Users) -> Option<(usize, usize)> {
    let insns = kernel.insns.as_slice();
    for store in &users.stores {
        for user in &users.all {
            if let (Some(first), Some(second)) = (insns.get(*store), insns.get(*user)) {
                if crosses(kernel, temp, first, second) {
                    return Some((*store, *user));
                }
            }
        }
    }
    None
}

/// The first of the users that is another one, or the same one.
fn other_user(users: &[usize], own: usize) -> usize {
    for user in users {
        if *user != own {
            return *user;
        }
    }
    own
}

/// The first storing instruction and another user of it.
fn first_users(users: &Users) -> Option<(usize, usize)> {
    let own = match users.stores.first() {
        Some(store) => *store,
        None => *users.all.first()?,
    };
    Some((own, other_user(&users.all, own)))
}

/// Rule 35.
fn crossing_fault(
    alloc: Global,
    kernel: &Kernel,
    temp: &Temp,
    first: usize,
    second: usize,
) -> Result<Fault, AllocError> {
    let mut refusal = Refusal::of_rule(alloc, Site::Kernel, 35).with_name(alloc, &temp.name)?;
    if let Some(insn) = kernel.insns.get(first) {
        refusal = refusal.at_line(insn.line).with_name(alloc, &insn.id)?;
    }
    if let Some(insn) = kernel.insns.get(second) {
        refusal = refusal.with_name(alloc, &insn.id)?;
    }
    Ok(Fault::Rule(refusal))
}

fn has_local_home(kernel: &Kernel, homes: &[u32]) -> bool {
    homes
        .iter()
        .any(|var| matches!(tag_of(kernel, *var), Tag::Local(_)))
}

/// The first two causes: an instruction that stores the temporary has an iname on an axis that another user lacks, for a
/// local one on a group axis.
fn check_users(alloc: Global, kernel: &Kernel, temp: &Temp, users: &Users) -> Result<(), Fault> {
    match crossing(kernel, temp, users) {
        None => Ok(()),
        Some((first, second)) => Err(crossing_fault(alloc, kernel, temp, first, second)?),
    }
}

/// The third cause: a home iname of a local temporary is on a local axis.
fn check_homes(
    alloc: Global,
    kernel: &Kernel,
    temp: &Temp,
    users: &Users,
    homes: &[u32],
) -> Result<(), Fault> {
    if !temp.local || !has_local_home(kernel, homes) {
        return Ok(());
    }
    match first_users(users) {
        None => Ok(()),
        Some((first, second)) => Err(crossing_fault(alloc, kernel, temp, first, second)?),
    }
}

/// Rule 35 of all temporaries: the first two causes temporary by temporary, then the third one.
pub(crate) fn check_temps(alloc: Global, kernel: &Kernel, homes: &Homes) -> Result<(), Fault> {
    let temps = kernel.temps.as_slice();
    for at in 0..temps.len() {
        let users = users_of(alloc, kernel, Cell::Temp(number_to(at)))?;
        check_users(alloc, kernel, &temps[at], &users)?;
    }
    let all = homes.temps.as_slice();
    for at in 0..temps.len().min(all.len()) {
        let users = users_of(alloc, kernel, Cell::Temp(number_to(at)))?;
        check_homes(alloc, kernel, &temps[at], &users, all[at].as_slice())?;
    }
    Ok(())
}
