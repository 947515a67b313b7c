//! The names that a realized reduction takes.
use affine_rows::Name;
use kernel_edits::{declared_names, first_free, ids_of, with_suffix};
use kernel_ir::Kernel;
use std::alloc::{AllocError, Global};

/// The name of the accumulator, and the ids of the initial store and of the update.
#[derive(Drop)]
pub(crate) struct Chosen {
    pub(crate) temp: Name,
    pub(crate) init: Name,
    pub(crate) update: Name,
}

fn temp_name(alloc: Global, kernel: &Kernel, id: &Name) -> Result<Name, AllocError> {
    let text = id.as_str();
    let base = Name::new(format!(in alloc; "acc_{text}")?);
    let names = declared_names(alloc, kernel)?;
    first_free(alloc, &base, names.as_slice())
}

/// `acc_ID`, `ID_init` and `ID_update`, each with a number behind it where it is taken.
pub(crate) fn chosen_for(alloc: Global, kernel: &Kernel, id: &Name) -> Result<Chosen, AllocError> {
    let temp = temp_name(alloc, kernel, id)?;
    let mut ids = ids_of(alloc, kernel.insns.as_slice())?;
    let init = first_free(alloc, &with_suffix(alloc, id, "_init")?, ids.as_slice())?;
    ids.push(init.copy(alloc)?)?;
    let update = first_free(alloc, &with_suffix(alloc, id, "_update")?, ids.as_slice())?;
    Ok(Chosen { temp, init, update })
}
