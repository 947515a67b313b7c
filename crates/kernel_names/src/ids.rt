//! The ids of instructions.
ghost use Rattle.std.specs.Prelude.{◌≡◌, [], ◌∷◌, ◌++◌, flat_map, bytes_eq, IfOk, OnOk};
ghost use Rattle.std.specs.List.{list_any};
ghost use Rattle.std.specs.Option.{option_copied};
ghost use Rattle.quasi_forms.specs.Alike.{distinct};
ghost use Rattle.kernel_names.specs.Ids.{written_id, id_at, ids_of, taken_behind};

use crate::numbering::Numbering;
use affine_rows::{Listed, Name};
use kernel_grammar::{Entry, InsnOption, Item};
use std::alloc::{AllocError, Global};

/// The ids of a file's instructions, in order, and for each whether an instruction before has it.
#[derive(Drop)]
pub struct Ids {
    pub ids: Listed<Name>,
    pub taken: Listed<bool>,
    known: Numbering,
    ghost known_are: { known ≡ distinct bytes_eq ids },
}

/// The last id that is written.
fn written_id(options: &[InsnOption]) -> Option<&Name>
    ensures { option_copied result ≡ written_id options.now }
{
    let mut id = None;
    'options: for option in options {
        if let InsnOption::Id(name) = option {
            id = Some(name);
        }
    }
    id
}

/// The id of the instruction at a place among the instructions.
fn id_at(alloc: Global, place: usize, options: &[InsnOption]) -> Result<Name, AllocError>
    ensures { IfOk result (λ id. id ≡ id_at place options.now) }
{
    match written_id(options) {
        Some(id) => id.copy(alloc),
        None => Ok(Name::new(format!(in alloc; "insn_{place}")?)),
    }
}

/// The ids of all instructions.
fn ids_in(alloc: Global, entries: &[Entry]) -> Result<Listed<Name>, AllocError>
    ensures { IfOk result (λ ids. ids ≡ ids_of entries.now) }
{
    let mut ids = Listed::new(alloc);
    'entries: for entry in entries {
        if let Item::Insn { options, .. } = &entry.item {
            let place = ids.len();
            ids.push(id_at(alloc, place, options.as_slice())?)?;
        }
    }
    Ok(ids)
}

/// Which ids are taken by those before, and the ids, each once.
fn taken_in(alloc: Global, ids: &[Name]) -> Result<(Listed<bool>, Numbering), AllocError>
    ensures taken { IfOk result (λ r. r.0 ≡ taken_behind [] ids.now) }
    ensures known { IfOk result (λ r. r.1 ≡ distinct bytes_eq ids.now) }
{
    let mut taken = Listed::new(alloc);
    let mut known = Numbering::new(alloc);
    'ids: for id in ids {
        taken.push(known.has(id))?;
        known.insert(alloc, id)?;
    }
    Ok((taken, known))
}

impl Ids {
    /// The ids of a file: that of an instruction is the last one that is written in it, and else `insn_` and its place among
    /// the instructions, from 0. It takes time in proportion to the file. The only error is want of memory.
    pub fn of_entries(alloc: Global, entries: &[Entry]) -> Result<Ids, AllocError>
        ensures ids { IfOk result (λ i. i.ids ≡ ids_of entries.now) }
        ensures taken { IfOk result (λ i. i.taken ≡ taken_behind [] (ids_of entries.now)) }
    {
        let ids = ids_in(alloc, entries)?;
        let (taken, known) = taken_in(alloc, ids.as_slice())?;
        Ok(Ids { ids, taken, known })
    }

    /// Whether an instruction has the id.
    pub fn has(&self, id: &Name) -> bool
        ensures { result ≡ list_any (bytes_eq id.now) self.now.ids }
    {
        self.known.has(id)
    }
}
