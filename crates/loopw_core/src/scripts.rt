//! Kernels after scripts.
ghost use Rattle.std.specs.Prelude.{◌≡◌, OnErr};

use crate::fault::{JobFault, placed, plain};
use crate::kernels::kernel_of;
use affine_rows::Listed;
use kernel_checks::{Sound, check};
use kernel_ir::{Fault, Kernel, Name, Site};
use precompute::{add_prefetch, precompute};
use reductions::realize_reduction;
use script_reader::{Command, Verb, read_script};
use split_join::{join_inames, prioritize_loops, split_iname, tag_inames};
use std::alloc::{AllocError, Global};
use to_subst::assignment_to_subst;
use version_store::Versions;

/// The word of a command.
fn word_of(verb: Verb) -> &'static str {
    match verb {
        Verb::SplitIname => "split_iname",
        Verb::JoinInames => "join_inames",
        Verb::TagInames => "tag_inames",
        Verb::PrioritizeLoops => "prioritize_loops",
        Verb::RealizeReduction => "realize_reduction",
        Verb::AssignmentToSubst => "assignment_to_subst",
        Verb::Precompute => "precompute",
        Verb::AddPrefetch => "add_prefetch",
        Verb::Keep => "keep",
        Verb::Back => "back",
    }
}

/// The first name of a command.
fn first_name(alloc: Global, command: &Command) -> Result<Name, AllocError> {
    match command.names.as_slice().first() {
        Some(name) => name.copy(alloc),
        None => Name::from_str(alloc, ""),
    }
}

/// The kernel that a command makes.
fn changed(alloc: Global, kernel: &Kernel, command: &Command) -> Result<Kernel, Fault> {
    match command.verb {
        Verb::SplitIname => split_iname(alloc, kernel, command),
        Verb::JoinInames => join_inames(alloc, kernel, command),
        Verb::TagInames => tag_inames(alloc, kernel, command),
        Verb::PrioritizeLoops => prioritize_loops(alloc, kernel, command),
        Verb::RealizeReduction => {
            let id = first_name(alloc, command)?;
            realize_reduction(alloc, kernel, &id)
        }
        Verb::AssignmentToSubst => assignment_to_subst(alloc, kernel, command),
        Verb::Precompute => precompute(alloc, kernel, command),
        Verb::AddPrefetch => add_prefetch(alloc, kernel, command),
        Verb::Keep | Verb::Back => Ok(kernel.copy(alloc)?),
    }
}

/// Does one command. A refusal leaves all as it was.
fn perform(alloc: Global, versions: &mut Versions, command: &Command) -> Result<(), Fault>
    ensures unchanged { OnErr result (versions.new ≡ versions.old) }
{
    match command.verb {
        Verb::Keep => {
            let name = first_name(alloc, command)?;
            versions.keep(alloc, &name)
        }
        Verb::Back => {
            let name = first_name(alloc, command)?;
            versions.back(alloc, &name)
        }
        _ => {
            let next = changed(alloc, versions.current().kernel(), command)?;
            versions.replace(check(alloc, next)?);
            Ok(())
        }
    }
}

/// Does one command. A refusal stands at its line, with its word.
fn perform_placed(
    alloc: Global,
    versions: &mut Versions,
    command: &Command,
) -> Result<(), JobFault> {
    match perform(alloc, versions, command) {
        Ok(()) => Ok(()),
        Err(fault) => Err(placed(
            alloc,
            fault,
            Site::Script,
            command.line,
            word_of(command.verb),
        )),
    }
}

/// Does the commands one after the other, until one is refused.
fn perform_all(
    alloc: Global,
    versions: &mut Versions,
    commands: &[Command],
) -> Result<(), JobFault> {
    for command in commands {
        perform_placed(alloc, versions, command)?;
    }
    Ok(())
}

fn commands_of(alloc: Global, script: &[u8]) -> Result<Listed<Command>, JobFault> {
    match read_script(alloc, script) {
        Ok(commands) => Ok(commands),
        Err(fault) => Err(plain(alloc, fault)),
    }
}

/// The kernel after commands, each of which gives a kernel that is checked.
fn after_commands(alloc: Global, first: Sound, commands: &[Command]) -> Result<Sound, JobFault> {
    let mut versions = Versions::new(alloc, first);
    perform_all(alloc, &mut versions, commands)?;
    match versions.current().copy(alloc) {
        Ok(last) => Ok(last),
        Err(fault) => Err(plain(alloc, fault)),
    }
}

/// The kernel of a file after the commands of a script.
pub(crate) fn kernel_after(alloc: Global, kernel: &[u8], script: &[u8]) -> Result<Sound, JobFault> {
    let first = kernel_of(alloc, kernel)?;
    let commands = commands_of(alloc, script)?;
    after_commands(alloc, first, commands.as_slice())
}
