//! Rule 27: what is stored before a use.
use crate::reads::add_reads;
use crate::request::Request;
use affine_rows::Listed;
use kernel_ir::{Fault, Kernel};
use kernel_rules::{Access, Use, all_accesses, check_order, same_access, same_cell};
use std::alloc::Global;
use subst_rules::expand;

/// The access at a place of an instruction, of a kernel that uses no rules, whose instructions have these accesses.
fn access_at<'a>(
    plain: &'a Kernel,
    accesses: &'a [Listed<Access>],
    at: usize,
    access: usize,
) -> Option<Use<'a>> {
    let insn = plain.insns.get(at)?;
    let access = accesses.get(at)?.get(access)?;
    Some(Use { insn, access, at })
}

/// An instruction that has uses, by its place, and what these read.
#[derive(Drop)]
struct User {
    at: usize,
    reads: Listed<Access>,
}

/// What the uses in an instruction read.
fn reads_of(alloc: Global, request: Request<'_>, at: usize) -> Result<Listed<Access>, Fault> {
    let mut reads = Listed::new(alloc);
    let Some(insn) = request.kernel.insns.get(at) else {
        return Ok(reads);
    };
    for used in request.uses {
        if used.at == at {
            add_reads(
                alloc,
                request.kernel,
                insn,
                request.source,
                used,
                &mut reads,
            )?;
        }
    }
    Ok(reads)
}

fn users_of(alloc: Global, request: Request<'_>, users: &[usize]) -> Result<Listed<User>, Fault> {
    let mut made = Listed::new(alloc);
    for at in users {
        let reads = reads_of(alloc, request, *at)?;
        made.push(User { at: *at, reads })?;
    }
    Ok(made)
}

/// Whether an access is a read of a use, from what is stored.
fn is_asked(reads: &[Access], store: &Access, read: &Access) -> bool {
    same_cell(store.cell, read.cell) && reads.iter().any(|known| same_access(known, read))
}

/// Rule 27 of a store and the reads of the uses in an instruction.
fn check_user(
    alloc: Global,
    plain: &Kernel,
    accesses: &[Listed<Access>],
    store: Use<'_>,
    user: &User,
) -> Result<(), Fault> {
    let count = match accesses.get(user.at) {
        None => 0,
        Some(own) => own.len(),
    };
    for at in 0..count {
        if let Some(read) = access_at(plain, accesses, user.at, at) {
            if is_asked(user.reads.as_slice(), store.access, read.access) {
                check_order(alloc, 27, plain, accesses, store, read, true)?;
            }
        }
    }
    Ok(())
}

fn check_users(
    alloc: Global,
    plain: &Kernel,
    accesses: &[Listed<Access>],
    store: Use<'_>,
    users: &[User],
) -> Result<(), Fault> {
    for user in users {
        check_user(alloc, plain, accesses, store, user)?;
    }
    Ok(())
}

/// Rule 27 refuses the first store of what a use reads that is not directly before it. The uses stand in the instructions at these
/// places.
pub(crate) fn check_writers(
    alloc: Global,
    request: Request<'_>,
    users: &[usize],
) -> Result<(), Fault> {
    let plain = expand(alloc, request.kernel)?;
    let accesses = all_accesses(alloc, &plain)?;
    let users = users_of(alloc, request, users)?;
    for at in 0..plain.insns.len() {
        if let Some(store) = access_at(&plain, &accesses, at, 0) {
            check_users(alloc, &plain, &accesses, store, users.as_slice())?;
        }
    }
    Ok(())
}
