//! The cell of an instruction, its dependences, and the names in its options.
ghost use Rattle.std.specs.Prelude.{◌≡◌, ◌++◌, bytes_eq, IfOk, OnOk};
ghost use Rattle.std.specs.List.{list_any};
ghost use Rattle.kernel_names.specs.Roles.{kernel_roles};
ghost use Rattle.kernel_lines.specs.Stores.{cell_as, stored_cell, ids_in, deps_of, without_star, is_automatic, is_iname, first_unknown, unknown_in};

use affine_rows::{Listed, Name};
use expr_tree::Cell;
use kernel_grammar::InsnOption;
use kernel_names::{Declarations, Ids};
use std::alloc::{AllocError, Global};
use untyped::Role;

fn cell_as(declarations: &Declarations, count: usize, role: Role) -> Option<Cell>
    ensures { result ≡ cell_as declarations.now count role }
{
    match role {
        Role::Cell { cell, places } => {
            if places as usize == count && declarations.may_store(cell) {
                Some(cell)
            } else {
                None
            }
        }
        _ => None,
    }
}

/// The cell that an instruction stores to at so many subscripts: a temporary, or an array that is no `input`, of as many
/// places. Where there is none the name is unknown there.
pub fn stored_cell(declarations: &Declarations, name: &Name, places: usize) -> Option<Cell>
    ensures { result ≡ stored_cell declarations.now name.now places }
{
    cell_as(declarations, places, declarations.role(name))
}

fn add_ids(alloc: Global, option: &InsnOption, ids: &mut Listed<Name>) -> Result<(), AllocError>
    ensures { OnOk result (ids.new ≡ ids.old ++ ids_in option.now) }
{
    if let InsnOption::Dep { ids: names, .. } = option {
        'names: for name in names.as_slice() {
            ids.push(name.copy(alloc)?)?;
        }
    }
    Ok(())
}

/// The ids on which an instruction depends, as they are written.
pub fn deps_of(alloc: Global, options: &[InsnOption]) -> Result<Listed<Name>, AllocError>
    ensures { IfOk result (λ ids. ids ≡ deps_of options.now) }
{
    let mut ids = Listed::new(alloc);
    'options: for option in options {
        add_ids(alloc, option, &mut ids)?;
    }
    Ok(ids)
}

fn without_star(option: &InsnOption) -> bool
    ensures { result ≡ without_star option.now }
{
    match option {
        InsnOption::Dep { automatic, .. } => *automatic,
        _ => true,
    }
}

/// Whether an instruction takes automatic dependences: no option has a star.
pub fn is_automatic(options: &[InsnOption]) -> bool
    ensures { result ≡ is_automatic options.now }
{
    options.iter().all(without_star)
}

fn is_iname(role: Role) -> bool
    ensures { result ≡ is_iname role }
{
    matches!(role, Role::Iname(_))
}

fn unknown_id(alloc: Global, ids: &Ids, names: &[Name]) -> Result<Option<Name>, AllocError>
    ensures { IfOk result (λ n. n ≡ first_unknown (λ n. list_any (bytes_eq n) ids.now.ids) names.now) }
{
    'names: for name in names {
        if !ids.has(name) {
            return Ok(Some(name.copy(alloc)?));
        }
    }
    Ok(None)
}

fn no_iname(
    alloc: Global,
    declarations: &Declarations,
    names: &[Name],
) -> Result<Option<Name>, AllocError>
    ensures { IfOk result (λ n. n ≡ first_unknown (λ n. is_iname (kernel_roles declarations.now n)) names.now) }
{
    'names: for name in names {
        if !is_iname(declarations.role(name)) {
            return Ok(Some(name.copy(alloc)?));
        }
    }
    Ok(None)
}

/// The first id in an option that no instruction has, or the first name in it that is no iname.
pub fn unknown_in(
    alloc: Global,
    declarations: &Declarations,
    ids: &Ids,
    option: &InsnOption,
) -> Result<Option<Name>, AllocError>
    ensures { IfOk result (λ n. n ≡ unknown_in declarations.now ids.now.ids option.now) }
{
    match option {
        InsnOption::Dep { ids: names, .. } => unknown_id(alloc, ids, names.as_slice()),
        InsnOption::Inames(names) => no_iname(alloc, declarations, names.as_slice()),
        _ => Ok(None),
    }
}
