//! Names of a kernel's one name space, and their numbers.
ghost use Rattle.std.specs.Prelude.{◌≡◌, slice_get, Some, IfOk};
ghost use Rattle.kernel_ir.specs.NameSpace.{name_of};

use crate::faults::refused;
use affine_rows::{Listed, Name, Names};
use kernel_ir::{Array, Fault, Iname, Kernel, MAX_NAMES, Refusal, Site, SubstRule, Temp};
use std::alloc::{AllocError, Global};

/// The name of a variable, empty where the kernel has no such variable.
pub fn name_of(kernel: &Kernel, var: u32) -> &str
    ensures { result.now ≡ name_of kernel.now var }
{
    kernel.names.get(var as usize).unwrap_or("")
}

fn names_var(kernel: &Kernel, name: &Name, var: u32) -> bool {
    name.as_bytes() == name_of(kernel, var).as_bytes()
}

/// The variable of the first iname of the kernel that has the name.
pub fn iname_named(kernel: &Kernel, name: &Name) -> Option<u32> {
    let named = |iname: &&Iname| names_var(kernel, name, iname.var);
    Some(kernel.inames.as_slice().iter().find(named)?.var)
}

fn is_param(kernel: &Kernel, name: &Name) -> bool {
    let named = |var: &u32| names_var(kernel, name, *var);
    kernel.params.as_slice().iter().any(named)
}

fn is_array(arrays: &[Array], name: &Name) -> bool {
    arrays
        .iter()
        .any(|array| name.as_bytes() == array.name.as_bytes())
}

fn is_temp(temps: &[Temp], name: &Name) -> bool {
    temps
        .iter()
        .any(|temp| name.as_bytes() == temp.name.as_bytes())
}

fn is_rule(rules: &[SubstRule], name: &Name) -> bool {
    rules
        .iter()
        .any(|rule| name.as_bytes() == rule.name.as_bytes())
}

/// Whether a parameter, iname, array, temporary or rule of the kernel has the name. A name whose bearer went keeps its number,
/// and is free.
pub fn is_taken(kernel: &Kernel, name: &Name) -> bool {
    is_param(kernel, name)
        || iname_named(kernel, name).is_some()
        || is_array(kernel.arrays.as_slice(), name)
        || is_temp(kernel.temps.as_slice(), name)
        || is_rule(kernel.rules.as_slice(), name)
}

/// Adds the names of variables.
fn add_vars(
    alloc: Global,
    kernel: &Kernel,
    vars: &[u32],
    made: &mut Listed<Name>,
) -> Result<(), AllocError> {
    for var in vars {
        made.push(Name::from_str(alloc, name_of(kernel, *var))?)?;
    }
    Ok(())
}

/// Adds the names of inames.
fn add_inames(
    alloc: Global,
    kernel: &Kernel,
    inames: &[Iname],
    made: &mut Listed<Name>,
) -> Result<(), AllocError> {
    for iname in inames {
        made.push(Name::from_str(alloc, name_of(kernel, iname.var))?)?;
    }
    Ok(())
}

fn add_arrays(alloc: Global, arrays: &[Array], made: &mut Listed<Name>) -> Result<(), AllocError> {
    for array in arrays {
        made.push(array.name.copy(alloc)?)?;
    }
    Ok(())
}

fn add_temps(alloc: Global, temps: &[Temp], made: &mut Listed<Name>) -> Result<(), AllocError> {
    for temp in temps {
        made.push(temp.name.copy(alloc)?)?;
    }
    Ok(())
}

fn add_rules(
    alloc: Global,
    rules: &[SubstRule],
    made: &mut Listed<Name>,
) -> Result<(), AllocError> {
    for rule in rules {
        made.push(rule.name.copy(alloc)?)?;
    }
    Ok(())
}

/// The names of parameters, inames, arrays, temporaries and rules, which are all that are taken.
pub fn declared_names(alloc: Global, kernel: &Kernel) -> Result<Listed<Name>, AllocError> {
    let mut made = Listed::new(alloc);
    add_vars(alloc, kernel, kernel.params.as_slice(), &mut made)?;
    add_inames(alloc, kernel, kernel.inames.as_slice(), &mut made)?;
    add_arrays(alloc, kernel.arrays.as_slice(), &mut made)?;
    add_temps(alloc, kernel.temps.as_slice(), &mut made)?;
    add_rules(alloc, kernel.rules.as_slice(), &mut made)?;
    Ok(made)
}

/// The number of what stands at a place of a kernel's lists. It is refused by rule 3 where no number of 32 bits is left: each
/// thing has a name, and so many names are far past the limit.
pub fn number_at(alloc: Global, at: usize) -> Result<u32, Fault>
    ensures { IfOk result (λ number. number ≡ at) }
{
    match u32::try_from(at) {
        Ok(number) => Ok(number),
        Err(_) => {
            let limit = MAX_NAMES as i128;
            Err(refused(Refusal::limit(alloc, Site::Script, "names", limit)))
        }
    }
}

/// The place of a name, which is added at the end of the names if it is not among them.
fn placed(alloc: Global, names: &mut Names, name: &Name) -> Result<usize, AllocError>
    ensures { IfOk result (λ at. slice_get names.new at ≡ Some name.now) }
{
    match names.position(name) {
        Some(at) => Ok(at),
        None => {
            let at = names.len();
            names.insert(name.copy(alloc)?)?;
            Ok(at)
        }
    }
}

/// The number of a name, which is added at the end of the names if it is not among them. It is refused as by `number_at`.
pub fn numbered(alloc: Global, names: &mut Names, name: &Name) -> Result<u32, Fault>
    ensures { IfOk result (λ var. slice_get names.new var ≡ Some name.now) }
{
    number_at(alloc, placed(alloc, names, name)?)
}
