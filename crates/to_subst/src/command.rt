//! The command.
use crate::homes::check_homes;
use crate::order::check_orders;
use crate::rules::{Body, with_rule};
use crate::scatter::scatter_of;
use crate::store::store_of;
use affine_rows::Name;
use command_parts::check_new;
use dependences::first_circle;
use kernel_edits::{is_taken, number_at, refused, with_suffix};
use kernel_ir::{Fault, Insn, Kernel, Refusal, Site, Temp};
use script_reader::Command;
use std::alloc::Global;

/// The name of the rule of a temporary. Rule 2 refuses one that is taken.
fn rule_name(alloc: Global, kernel: &Kernel, temp: &Name) -> Result<Name, Fault> {
    let name = with_suffix(alloc, temp, "_subst")?;
    if is_taken(kernel, &name) {
        return Err(refused(Refusal::taken(alloc, Site::Script, &name)));
    }
    Ok(name)
}

/// Rule 12: an instruction reaches itself.
fn check_circle(alloc: Global, insns: &[Insn]) -> Result<(), Fault> {
    match first_circle(alloc, insns)? {
        None => Ok(()),
        Some(refusal) => Err(Fault::Rule(refusal)),
    }
}

/// The kernel in which the temporary of this number is a rule: rules 25, 26, 2, 27, 13, 12, in this order, and then 3. The rules before
/// 3 are asked of the kernel with the bare value, of which nothing is deeper than before.
fn substituted(alloc: Global, kernel: &Kernel, temp: u32, name: &Name) -> Result<Kernel, Fault> {
    let store = store_of(alloc, kernel, temp, name)?;
    let scatter = scatter_of(alloc, &store)?;
    let rule = rule_name(alloc, kernel, name)?;
    check_orders(alloc, &store, &scatter)?;
    let bare = with_rule(alloc, &store, &scatter, &rule, Body::Bare)?;
    check_homes(alloc, &store, &scatter, &bare)?;
    check_circle(alloc, bare.insns.as_slice())?;
    let made = with_rule(alloc, &store, &scatter, &rule, Body::Typed)?;
    check_new(alloc, &made)?;
    Ok(made)
}

/// The name that a command gives first, empty where it gives none.
fn name_of(alloc: Global, command: &Command) -> Result<Name, Fault> {
    match command.names.get(0) {
        Some(name) => Ok(name.copy(alloc)?),
        None => Ok(Name::from_str(alloc, "")?),
    }
}

/// The kernel in which each read of the temporary that the command names is the use of a rule, whose body is the value of the one
/// instruction that stores to the temporary; that instruction and the temporary are gone.
///
/// It is refused by rule 1 for a name of no temporary; 25 where this does not have exactly one store, or that is not plain, has a data
/// test or a reduction or reads the temporary, or a rule reads it; 26 where the subscripts of the store are not distinct inames, or a
/// reader lacks another iname of the writer; 2 where the rule's name is taken; 27 where a reader asks for an instance that the writer
/// does not have or that is not directly before it, or a store of what the value reads is not directly before the writer's instance; 13
/// where a temporary that the value reads has a subscript as home iname or has other ones afterwards; 12 where an instruction then
/// reaches itself; and then by rule 3 where the new kernel passes a limit. Rules 18 and 19 come where a query passes a limit.
pub fn assignment_to_subst(
    alloc: Global,
    kernel: &Kernel,
    command: &Command,
) -> Result<Kernel, Fault> {
    let name = name_of(alloc, command)?;
    let named = |temp: &Temp| temp.name.as_bytes() == name.as_bytes();
    match kernel.temps.as_slice().iter().position(named) {
        None => Err(refused(Refusal::unknown(alloc, Site::Script, &name))),
        Some(at) => substituted(alloc, kernel, number_at(alloc, at)?, &name),
    }
}
