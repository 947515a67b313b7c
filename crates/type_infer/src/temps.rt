//! The kinds of temporaries.
ghost use Rattle.std.specs.Prelude.{◌≡◌, ℕ, suc, ◌<◌, length, slice_get, find, Option, IfOk};
ghost use Rattle.std.specs.Option.{option_copied};
ghost use Rattle.wrap_words.specs.declared.kind.Kind.{Kind};
ghost use Rattle.kernel_ir.specs.Kinds.{array_kind};
ghost use Rattle.kind_faults.specs.Leads.{leading_at};
ghost use Rattle.type_infer.specs.Leads.{leading_to};
ghost use Rattle.type_infer.specs.Inferred.{inferred_kind, is_temp, kind_by, kind_to, leading_kind, stored_leading, with_kinds};
ghost use Rattle.type_infer.specs.Tables.{kind_after};

use crate::leads::leading;
use affine_rows::Listed;
use expr_tree::Cell;
use kernel_ir::{Insn, Kernel, Temp};
use kind_faults::{Leading, kept_leading};
use std::alloc::{AllocError, Global};
use wrap_words::Kind;

/// A step on the way to the kind of a temporary: it ends, with a kind or without, or leads to another temporary.
enum Turn {
    Ends(Option<Kind>),
    Leads(usize),
}

/// The first instruction that stores to the temporary.
fn first_store(insns: &[Insn], temp: usize) -> Option<&Insn>
    ensures { option_copied result ≡ find (λ A. is_temp temp A.cell) insns.now }
{
    insns.iter().find(|insn| is_temp(insn.cell, temp))
}

/// What the value leads with that it stores.
fn stored_leading(kernel: &Kernel, leads: &[Option<Leading>], temp: usize) -> Option<Leading>
    requires { leading_at leads.now ≡ leading_to kernel.now.rules (length kernel.now.rules) }
    ensures { result ≡ stored_leading kernel.now temp }
{
    match first_store(kernel.insns.as_slice(), temp) {
        Some(insn) => leading(&insn.value, leads),
        None => None,
    }
}

/// Whether the cell is the temporary.
pub fn is_temp(cell: Cell, temp: usize) -> bool
    ensures { result ≡ is_temp temp cell }
{
    match cell {
        Cell::Array(_) => false,
        Cell::Temp(at) => at as usize == temp,
    }
}

/// The same for each temporary.
fn stored_leads(
    alloc: Global,
    kernel: &Kernel,
    leads: &[Option<Leading>],
) -> Result<Vec<Option<Leading>>, AllocError>
    requires { leading_at leads.now ≡ leading_to kernel.now.rules (length kernel.now.rules) }
    ensures { IfOk result (λ stored. (t : ℕ) → t < length kernel.now.temps → leading_at stored.items t ≡ stored_leading kernel.now t) }
{
    let mut stored = Vec::new(alloc);
    for temp in 0..kernel.temps.len() {
        stored.push(stored_leading(kernel, leads, temp))?;
    }
    Ok(stored)
}

fn array_kind(kernel: &Kernel, array: u32) -> Option<Kind>
    ensures { result ≡ array_kind (slice_get kernel.now.arrays array) }
{
    match kernel.arrays.get(array as usize) {
        Some(array) => Some(array.kind),
        None => None,
    }
}

/// The step from what a value leads with.
fn turn_from(kernel: &Kernel, lead: Option<Leading>) -> Turn
    ensures { (kind : ℕ → Option Kind) → leading_kind kernel.now kind lead ≡ kind_after kind result }
{
    match lead {
        None => Turn::Ends(None),
        Some(Leading::Cast(kind)) => Turn::Ends(Some(kind)),
        Some(Leading::Read(Cell::Array(array))) => Turn::Ends(array_kind(kernel, array)),
        Some(Leading::Read(Cell::Temp(temp))) => Turn::Leads(temp as usize),
    }
}

/// The step from a temporary, by what leads the values stored first.
fn turn_at(kernel: &Kernel, stored: &[Option<Leading>], temp: usize) -> Turn
    ensures { (n : ℕ) → kind_to kernel.now (leading_at stored.now) (suc n) temp ≡ kind_after (kind_to kernel.now (leading_at stored.now) n) result }
{
    match kernel.temps.get(temp) {
        None => Turn::Ends(None),
        Some(known) => match known.kind {
            Some(kind) => Turn::Ends(Some(kind)),
            None => turn_from(kernel, kept_leading(stored, temp)),
        },
    }
}

/// The kind of a temporary, if it has one, by what the values lead with that are stored first to each temporary.
pub fn temp_kind(kernel: &Kernel, stored: &[Option<Leading>], temp: usize) -> Option<Kind>
    ensures { result ≡ kind_by kernel.now (leading_at stored.now) temp }
{
    let mut at = temp;
    for _turn in 0..kernel.temps.len() {
        match turn_at(kernel, stored, at) {
            Turn::Ends(kind) => return kind,
            Turn::Leads(next) => at = next,
        }
    }
    None
}

/// The kind that is inferred, by the table of what the stored values lead with.
fn inferred_kind(kernel: &Kernel, stored: &[Option<Leading>], temp: usize) -> Option<Kind>
    requires { (t : ℕ) → t < length kernel.now.temps → leading_at stored.now t ≡ stored_leading kernel.now t }
    ensures { result ≡ inferred_kind kernel.now temp }
{
    temp_kind(kernel, stored, temp)
}

/// The temporaries with their kinds.
pub(crate) fn inferred_temps(
    alloc: Global,
    kernel: &Kernel,
    leads: &[Option<Leading>],
) -> Result<Listed<Temp>, AllocError>
    requires { leading_at leads.now ≡ leading_to kernel.now.rules (length kernel.now.rules) }
    ensures { IfOk result (λ temps. temps ≡ with_kinds (inferred_kind kernel.now) 0 kernel.now.temps) }
{
    let stored = stored_leads(alloc, kernel, leads)?;
    let mut temps = Listed::new(alloc);
    for (at, temp) in kernel.temps.as_slice().iter().enumerate() {
        let kind = inferred_kind(kernel, stored.as_slice(), at);
        temps.push(with_kind(temp.copy(alloc)?, kind))?;
    }
    Ok(temps)
}

fn with_kind(temp: Temp, kind: Option<Kind>) -> Temp
    ensures { result ≡ record temp { kind = kind } }
{
    Temp { kind, ..temp }
}
