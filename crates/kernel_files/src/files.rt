//! Whole files.
ghost use Rattle.std.specs.Prelude.{◌≡◌, [], ◌∷◌, ◌++◌, ◌<◌, false, map, slice_get, unwrap_or, IfOk, OnOk};
ghost use Rattle.std.specs.Option.{option_or};
ghost use Rattle.kernel_ir.specs.Refusals.{Refuses};
ghost use Rattle.kernel_names.specs.Lines.{first_faults};
ghost use Rattle.kernel_names.specs.Roles.{inames_of};
ghost use Rattle.kernel_files.specs.Files.{no_lines, names_before, with_insn, with_entry, entry_faults, insn_faults, entries_behind, refusal_from, lines_refusal, plain, kernel_with, read_of};

use crate::insns::read_insn;
use affine_rows::{Listed, Name};
use expr_tree::Steps;
use kernel_grammar::{Entry, InsnOption, Item, KernelFile, Step, Stored};
use kernel_ir::{Fault, Iname, Insn, Kernel, Tag};
use kernel_lines::{KernelParts, check_line};
use kernel_names::{Declarations, Ids, LineFaults};
use std::alloc::{AllocError, Global};
use std::marker::Brand;
use std::sync::ledger::{Blank, Ledger};
use untyped_parts::{InsnTree, RuleTree};

/// What lines say, with the count of instructions, each reduction counting two more; 65 stands for all that is more.
#[derive(Drop)]
pub struct ReadLines {
    pub parts: KernelParts,
    pub insns: Listed<Insn>,
    /// Each instruction before its kinds are asked.
    pub trees: Listed<InsnTree>,
    pub size: u32,
}

/// The kernel that a file says, and its rules and instructions before their kinds are asked.
#[derive(Drop)]
pub struct ReadKernel {
    pub kernel: Kernel,
    pub rules: Listed<RuleTree>,
    pub insns: Listed<InsnTree>,
}

/// A copy of a name, or else another.
fn name_or(
    alloc: Global,
    name: &Option<Name>,
    other: Option<Name>,
) -> Result<Option<Name>, AllocError>
    ensures { IfOk result (λ n. n ≡ option_or name.now other) }
{
    match name {
        Some(name) => Ok(Some(name.copy(alloc)?)),
        None => Ok(other),
    }
}

/// The first of each.
fn behind(alloc: Global, first: &LineFaults, next: LineFaults) -> Result<LineFaults, AllocError>
    ensures { IfOk result (λ f. f ≡ first_faults first.now next) }
{
    Ok(LineFaults {
        limit: first.limit.or(next.limit),
        unknown: name_or(alloc, &first.unknown, next.unknown)?,
        taken: name_or(alloc, &first.taken, next.taken)?,
        shape: name_or(alloc, &first.shape, next.shape)?,
    })
}

/// The id of the instruction at a place among the instructions.
fn id_at(alloc: Global, ids: &Ids, at: usize) -> Result<Name, AllocError>
    ensures { IfOk result (λ id. id ≡ unwrap_or (slice_get ids.now.ids at) []) }
{
    match ids.ids.get(at) {
        Some(id) => id.copy(alloc),
        None => Name::from_str(alloc, ""),
    }
}

/// Whether an instruction before has that id.
fn is_taken(ids: &Ids, at: usize) -> bool
    ensures { result ≡ unwrap_or (slice_get ids.now.taken at) false }
{
    match ids.taken.get(at) {
        Some(taken) => *taken,
        None => false,
    }
}

impl ReadLines {
    fn new(alloc: Global) -> ReadLines
        ensures { result ≡ no_lines }
    {
        ReadLines {
            parts: KernelParts::new(alloc),
            insns: Listed::new(alloc),
            trees: Listed::new(alloc),
            size: 0,
        }
    }

    /// Adds an instruction, and tells what is wrong with it.
    fn add_insn<L: Ledger>(
        &mut self,
        alloc: Global,
        declarations: &Declarations,
        ids: &Ids,
        line: u32,
        name: &Name,
        place: &[Listed<Step>],
        stored: Stored,
        value: &[Step],
        options: &[InsnOption],
        steps: &mut Steps<L>,
    ) -> Result<LineFaults, AllocError>
        ensures lines { OnOk result (self.new ≡ with_insn declarations.now ids.now.ids self.old line name.now place.now stored value.now options.now) }
        ensures faults { IfOk result (λ f. f ≡ insn_faults declarations.now ids.now.ids ids.now.taken self.old name.now place.now stored value.now options.now) }
    {
        let read = read_insn(
            alloc,
            declarations,
            ids,
            name,
            place,
            stored,
            value,
            options,
        )?;
        let at = self.insns.len();
        let id = id_at(alloc, ids, at)?;
        let size = read.size_behind(alloc, self.size)?;
        let whole = read.whole_faults(alloc, declarations, &id, is_taken(ids, at), size)?;
        let (insn, tree) = read.to_insn(alloc, declarations, &id, line, stored, options, steps)?;
        self.insns.push(insn)?;
        self.trees.push(tree)?;
        self.size = size;
        Ok(read.faults.or(whole))
    }

    /// Adds a line, and tells what is wrong in its expressions first, and then with it as a whole.
    fn add<L: Ledger>(
        &mut self,
        alloc: Global,
        declarations: &Declarations,
        ids: &Ids,
        entry: &Entry,
        steps: &mut Steps<L>,
    ) -> Result<LineFaults, AllocError>
        ensures lines { OnOk result (self.new ≡ with_entry declarations.now ids.now.ids self.old entry.now) }
        ensures faults { IfOk result (λ f. f ≡ entry_faults declarations.now ids.now.ids ids.now.taken self.old entry.now.item) }
    {
        let faults = self
            .parts
            .read(alloc, declarations, entry.line, &entry.item, steps)?;
        match &entry.item {
            Item::Insn {
                name,
                place,
                stored,
                value,
                options,
                ..
            } => {
                let wrong = self.add_insn(
                    alloc,
                    declarations,
                    ids,
                    entry.line,
                    name,
                    place.as_slice(),
                    *stored,
                    value.as_slice(),
                    options.as_slice(),
                    steps,
                )?;
                Ok(faults.or(wrong))
            }
            _ => Ok(faults),
        }
    }
}

/// What is wrong with the names of a line.
fn faults_at(
    alloc: Global,
    names: &[LineFaults],
    at: usize,
    next: LineFaults,
) -> Result<LineFaults, AllocError>
    ensures { IfOk result (λ f. f ≡ names_before names.now at next) }
{
    match names.get(at) {
        Some(first) => behind(alloc, first, next),
        None => Ok(next),
    }
}

/// What lines say, unless one is refused: what is wrong with the names of each line is known.
fn read_lines<L: Ledger>(
    alloc: Global,
    declarations: &Declarations,
    ids: &Ids,
    names: &[LineFaults],
    entries: &[Entry],
    steps: &mut Steps<L>,
) -> Result<ReadLines, Fault>
    ensures lines { IfOk result (λ k. k ≡ entries_behind declarations.now ids.now.ids no_lines entries.now) }
    ensures refused { Refuses (refusal_from declarations.now ids.now.ids ids.now.taken names.now no_lines 0 entries.now) result }
{
    let mut lines = ReadLines::new(alloc);
    'entries: for at in 0..entries.len() {
        let entry = &entries[at];
        let wrong = lines.add(alloc, declarations, ids, entry, steps)?;
        let faults = faults_at(alloc, names, at, wrong)?;
        match check_line(alloc, entry.line, &faults) {
            Ok(()) => {}
            Err(fault) => return Err(fault),
        }
    }
    Ok(lines)
}

/// The same with a counter of its own.
fn counted_lines<L: Ledger>(
    alloc: Global,
    declarations: &Declarations,
    ids: &Ids,
    names: &[LineFaults],
    entries: &[Entry],
    blank: Blank,
) -> Result<ReadLines, Fault>
    requires name { blank.name ≡ L.name }
    requires parts { blank.parts ≡ L.parts }
    requires some { 0 < blank.parts }
    ensures lines { IfOk result (λ k. k ≡ entries_behind declarations.now ids.now.ids no_lines entries.now) }
    ensures refused { Refuses (refusal_from declarations.now ids.now.ids ids.now.taken names.now no_lines 0 entries.now) result }
{
    let mut steps = Steps::<L>::open(blank);
    read_lines(alloc, declarations, ids, names, entries, &mut steps)
}

/// The inames, on no axis.
fn plain_inames(alloc: Global, declarations: &Declarations) -> Result<Listed<Iname>, AllocError>
    ensures { IfOk result (λ is. is ≡ map plain (inames_of declarations.now)) }
{
    let vars = declarations.inames(alloc)?;
    let mut inames = Listed::new(alloc);
    'vars: for var in vars.as_slice() {
        inames.push(Iname {
            var: *var,
            tag: Tag::Plain,
        })?;
    }
    Ok(inames)
}

fn kernel_with(
    alloc: Global,
    declarations: Declarations,
    lines: ReadLines,
) -> Result<ReadKernel, AllocError>
    ensures { IfOk result (λ r. r ≡ record { kernel = kernel_with declarations lines; rules = lines.parts.bodies; insns = lines.trees }) }
{
    let params = declarations.parameters(alloc)?;
    let inames = plain_inames(alloc, &declarations)?;
    let priority = declarations.inames(alloc)?;
    let ReadLines {
        parts,
        insns,
        trees,
        ..
    } = lines;
    let kernel = Kernel {
        names: declarations.into_names(),
        params,
        inames,
        priority,
        rows: parts.rows,
        assumptions: parts.assumptions,
        arrays: parts.arrays,
        temps: parts.temps,
        rules: parts.rules,
        insns,
    };
    Ok(ReadKernel {
        kernel,
        rules: parts.bodies,
        insns: trees,
    })
}

/// The kernel that the lines of a file say, before rules are replaced and kinds are asked, with the trees of its rules and
/// instructions. It is refused at the first line
/// in which something is wrong by rule 3, 1, 2 or 6, of one line in this order. The only other error is want of memory.
pub fn read_entries(alloc: Global, file: &KernelFile) -> Result<ReadKernel, Fault>
    ensures kernel { IfOk result (λ r. r ≡ read_of file.now) }
    ensures refused { Refuses (lines_refusal file.now) result }
{
    let entries = file.entries.as_slice();
    let (declarations, names) = Declarations::of_entries(alloc, entries)?;
    let ids = Ids::of_entries(alloc, entries)?;
    match counted_lines::<Brand>(
        alloc,
        &declarations,
        &ids,
        names.as_slice(),
        entries,
        Blank::new(1),
    ) {
        Ok(lines) => Ok(kernel_with(alloc, declarations, lines)?),
        Err(fault) => Err(fault),
    }
}
