//! The names of a fill, and rules 1 and 2 of the command.
use affine_rows::{Listed, Name};
use kernel_edits::{iname_named, is_taken, place_of_insn, refused, with_number, with_suffix};
use kernel_ir::{Fault, Kernel, Refusal, Site};
use std::alloc::{AllocError, Global};

/// The names that a command makes: of the temporary and of the new inames, and the id of the fill.
#[derive(Drop)]
pub(crate) struct Made {
    pub(crate) temp: Name,
    pub(crate) inames: Listed<Name>,
    pub(crate) fill: Name,
}

fn names_of(alloc: Global, name: &Name, suffix: &str, places: usize) -> Result<Made, AllocError> {
    let temp = with_suffix(alloc, name, suffix)?;
    let mut inames = Listed::new(alloc);
    for at in 0..places {
        inames.push(with_number(alloc, &temp, at)?)?;
    }
    let fill = with_suffix(alloc, &temp, "_fill")?;
    Ok(Made { temp, inames, fill })
}

fn ask(alloc: Global, is_taken: bool, name: &Name) -> Result<(), Fault> {
    if is_taken {
        return Err(refused(Refusal::taken(alloc, Site::Script, name)));
    }
    Ok(())
}

/// The names of a fill with so many places. Rule 2 refuses the first that is taken: that of the temporary, of a new iname, or the
/// id of the fill.
pub(crate) fn made_names(
    alloc: Global,
    kernel: &Kernel,
    name: &Name,
    suffix: &str,
    places: usize,
) -> Result<Made, Fault> {
    let made = names_of(alloc, name, suffix, places)?;
    ask(alloc, is_taken(kernel, &made.temp), &made.temp)?;
    for iname in made.inames.as_slice() {
        ask(alloc, is_taken(kernel, iname), iname)?;
    }
    let place = place_of_insn(kernel.insns.as_slice(), &made.fill);
    ask(alloc, place.is_some(), &made.fill)?;
    Ok(made)
}

/// Rule 1.
pub(crate) fn unknown(alloc: Global, name: &Name) -> Fault {
    refused(Refusal::unknown(alloc, Site::Script, name))
}

/// The swept inames, which a command names behind what is stored. Rule 1 refuses the first name of none.
pub(crate) fn swept_inames(
    alloc: Global,
    kernel: &Kernel,
    names: &[Name],
) -> Result<Listed<u32>, Fault> {
    let mut swept = Listed::new(alloc);
    for name in names.iter().skip(1) {
        match iname_named(kernel, name) {
            None => return Err(unknown(alloc, name)),
            Some(var) => swept.push(var)?,
        }
    }
    Ok(swept)
}
