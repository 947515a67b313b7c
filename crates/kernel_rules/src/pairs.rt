//! Two accesses whose instances may meet unordered.
ghost use Rattle.std.specs.Prelude.{◌≡◌, ◌≤◌, ◌++◌, bytes_eq, map, length, IfOk, OnOk};
ghost use Rattle.std.specs.List.{list_any};
ghost use Rattle.inst_model.specs.Instances.{depends_on};
ghost use Rattle.set_query.specs.Cases.{IsPair};
ghost use Rattle.kernel_rules.specs.Pairs.{are_ordered, equal_home, equal_place, equal_places, first_vars, gaps, partner, rows_of_both, second_vars, variable};

use crate::access::Access;
use crate::cancelling::without_floors;
use crate::context::add_context;
use crate::differing::shared_inames;
use crate::faults::form_fault;
use crate::homes::home_inames;
use crate::kept::pair_over;
use crate::one::{Asked, MOST_VARIABLES, built};
use crate::rows::{add_fold_rows, add_insn_rows, both, insn_inames};
use affine_rows::{Form, Listed, Name};
use kernel_ir::{Fault, Insn, Kernel};
use quasi_forms::{Difference, FormFault, place_in, renumber};
use set_query::Pair;
use std::alloc::{AllocError, Global};

/// A number that is no variable's.
const NO_VARIABLE: u32 = u32::MAX;

/// An access with its instruction, of a kernel that uses no rules.
#[derive(Clone, Copy)]
pub struct Use<'a> {
    pub insn: &'a Insn,
    pub access: &'a Access,
    /// The place of the instruction in the kernel.
    pub at: usize,
}

/// The variables of both instances: in the second list those of the second instance stand behind places for the first.
#[derive(Drop)]
pub(crate) struct Both {
    pub(crate) first: Vec<u32>,
    pub(crate) second: Vec<u32>,
}

/// A number that is no variable's for each of these.
fn gaps(alloc: Global, vars: &[u32]) -> Result<Vec<u32>, AllocError>
    ensures { IfOk result (λ made. made.items ≡ gaps vars.now) }
{
    Ok(vec![in alloc; NO_VARIABLE; vars.len()]?)
}

/// The variables of two instances.
pub(crate) fn vars_of_both(
    alloc: Global,
    kernel: &Kernel,
    first: &Insn,
    first_folds: &[u32],
    second: &Insn,
    second_folds: &[u32],
) -> Result<Both, AllocError>
    ensures first { IfOk result (λ made. made.first.items ≡ first_vars kernel.now first.now first_folds.now) }
    ensures second { IfOk result (λ made. made.second.items ≡ second_vars kernel.now first.now first_folds.now second.now second_folds.now) }
{
    let own = insn_inames(alloc, kernel, first, first_folds)?;
    let other = insn_inames(alloc, kernel, second, second_folds)?;
    let gaps = gaps(alloc, &own)?;
    let before = both(alloc, kernel.params.as_slice(), &gaps)?;
    Ok(Both {
        first: both(alloc, kernel.params.as_slice(), &own)?,
        second: both(alloc, &before, &other)?,
    })
}

/// The subscripts are equal. A floor that cancels gives no variable to the system.
#[tactic(auto, unfolding(crate::specs::Pairs::equal_place))]
fn equal_place(
    alloc: Global,
    first: &Form,
    second: &Form,
    vars: &Both,
) -> Result<Difference, AllocError>
    requires first { length vars.now.first.items ≤ 128 }
    requires second { length vars.now.second.items ≤ 128 }
    ensures { IfOk result (λ row. row ≡ equal_place vars.now.first.items vars.now.second.items first.now second.now) }
{
    let form = renumber(alloc, first, &vars.first)?;
    let less = renumber(alloc, second, &vars.second)?;
    Ok(Difference {
        form: without_floors(alloc, &form, less.quasi().floors.as_slice())?,
        less: without_floors(alloc, &less, form.quasi().floors.as_slice())?,
        equal: true,
    })
}

/// Adds the rows that say that the subscripts are equal, place by place.
fn add_equal_places(
    alloc: Global,
    first: &[Form],
    second: &[Form],
    vars: &Both,
    made: &mut Vec<Difference>,
) -> Result<(), AllocError>
    requires first { length vars.now.first.items ≤ 128 }
    requires second { length vars.now.second.items ≤ 128 }
    ensures { OnOk result (made.new.items ≡ made.old.items ++ equal_places vars.now.first.items vars.now.second.items first.now second.now) }
{
    for at in 0..first.len().min(second.len()) {
        made.push(equal_place(alloc, &first[at], &second[at], vars)?)?;
    }
    Ok(())
}

/// The variable as a form, over the places of variables.
pub fn variable(alloc: Global, vars: &[u32], var: u32) -> Result<Form, AllocError>
    requires { length vars.now ≤ 128 }
    ensures { IfOk result (λ form. form ≡ variable vars.now var) }
{
    Ok(Form::affine(alloc, 0, Listed::of_one(alloc, (place_in(vars, var), 1))?))
}

/// The home iname of the first instance equals that of the second.
#[tactic(auto, unfolding(crate::specs::Pairs::equal_home))]
fn equal_home(alloc: Global, vars: &Both, home: u32) -> Result<Difference, AllocError>
    requires first { length vars.now.first.items ≤ 128 }
    requires second { length vars.now.second.items ≤ 128 }
    ensures { IfOk result (λ row. row ≡ equal_home vars.now.first.items vars.now.second.items home) }
{
    Ok(Difference {
        form: variable(alloc, &vars.first, home)?,
        less: variable(alloc, &vars.second, home)?,
        equal: true,
    })
}

/// The places of the iname in the two instances.
#[tactic(auto, unfolding(crate::specs::Pairs::partner))]
fn partner(vars: &Both, iname: u32) -> (u32, u32)
    requires first { length vars.now.first.items ≤ 128 }
    requires second { length vars.now.second.items ≤ 128 }
    ensures { result ≡ partner vars.now.first.items vars.now.second.items iname }
{
    (place_in(&vars.first, iname), place_in(&vars.second, iname))
}

/// Adds the rows that say that the home inames are equal.
fn add_equal_homes(
    alloc: Global,
    homes: &[u32],
    vars: &Both,
    made: &mut Vec<Difference>,
) -> Result<(), AllocError>
    requires first { length vars.now.first.items ≤ 128 }
    requires second { length vars.now.second.items ≤ 128 }
    ensures { OnOk result (made.new.items ≡ made.old.items ++ map (equal_home vars.now.first.items vars.now.second.items) homes.now) }
{
    for home in homes {
        made.push(equal_home(alloc, vars, *home)?)?;
    }
    Ok(())
}

/// The rows of two instances that touch one cell.
fn rows_of_both(
    alloc: Global,
    kernel: &Kernel,
    first: &Insn,
    first_access: &Access,
    second: &Insn,
    second_access: &Access,
    homes: &[u32],
    vars: &Both,
) -> Result<Vec<Difference>, AllocError>
    requires first { length vars.now.first.items ≤ 128 }
    requires second { length vars.now.second.items ≤ 128 }
    ensures { IfOk result (λ rows. rows.items ≡ rows_of_both kernel.now first.now first_access.now second.now second_access.now homes.now vars.now.first.items vars.now.second.items) }
{
    let mut rows = Vec::new(alloc);
    add_insn_rows(alloc, kernel, first, &vars.first, &mut rows)?;
    add_insn_rows(alloc, kernel, second, &vars.second, &mut rows)?;
    let folds = first_access.folds.as_slice();
    add_fold_rows(alloc, kernel, first, folds, &vars.first, &mut rows)?;
    let folds = second_access.folds.as_slice();
    add_fold_rows(alloc, kernel, second, folds, &vars.second, &mut rows)?;
    add_context(alloc, kernel, &vars.first, &mut rows)?;
    let place = first_access.place.as_slice();
    add_equal_places(
        alloc,
        place,
        second_access.place.as_slice(),
        vars,
        &mut rows,
    )?;
    add_equal_homes(alloc, homes, vars, &mut rows)?;
    Ok(rows)
}

/// Whether one of the names is this one.
fn has_name(names: &[Name], name: &Name) -> bool
    ensures { result ≡ list_any (bytes_eq name.now) names.now }
{
    names
        .iter()
        .any(|other| name.as_bytes() == other.as_bytes())
}

/// Whether the second instruction depends on the first.
fn depends_on(second: &Insn, first: &Insn) -> bool
    ensures { result ≡ depends_on second.now first.now }
{
    has_name(second.deps.as_slice(), &first.id)
}

/// Whether instances that agree on the shared inames are ordered, so that only those that differ are asked.
fn are_ordered(one_way: bool, first: &Insn, second: &Insn, same: bool) -> bool
    ensures { result ≡ are_ordered one_way first.now second.now same }
{
    if one_way {
        depends_on(second, first)
    } else {
        same || depends_on(second, first) || depends_on(first, second)
    }
}

/// The inames that are to differ, as variables of the system.
fn partners(alloc: Global, inames: &[u32], vars: &Both) -> Result<Listed<(u32, u32)>, AllocError>
    requires first { length vars.now.first.items ≤ 128 }
    requires second { length vars.now.second.items ≤ 128 }
    ensures { IfOk result (λ pairs. pairs ≡ map (partner vars.now.first.items vars.now.second.items) inames.now) }
{
    let mut pairs = Listed::new(alloc);
    for iname in inames {
        pairs.push(partner(vars, *iname))?;
    }
    Ok(pairs)
}

/// The pair of two accesses of one array or temporary, of a kernel that uses no rules, whose instructions have these
/// accesses: how their instances touch one cell, and which of their inames are to differ. Where instances that agree on the
/// shared inames are not ordered, none is.
#[tactic(auto, using(crate::proofs::KeptRows::pair_is))]
pub(crate) fn pair_of(
    alloc: Global,
    plain: &Kernel,
    accesses: &[Listed<Access>],
    first: Use<'_>,
    second: Use<'_>,
    one_way: bool,
) -> Result<Pair, Fault>
    ensures { IfOk result IsPair }
{
    let vars = vars_of_both(
        alloc,
        plain,
        first.insn,
        first.access.folds.as_slice(),
        second.insn,
        second.access.folds.as_slice(),
    )?;
    if vars.second.len() > MOST_VARIABLES || vars.first.len() > MOST_VARIABLES {
        return Err(form_fault(alloc, FormFault::Limit));
    }
    let inames = shared_inames(alloc, plain, first, second.insn)?;
    let pairs = partners(alloc, &inames, &vars)?;
    let homes = home_inames(alloc, plain, accesses, first.access.cell)?;
    let rows = rows_of_both(
        alloc,
        plain,
        first.insn,
        first.access,
        second.insn,
        second.access,
        &homes,
        &vars,
    )?;
    let asked = Asked {
        vars: vars.second,
        rows,
    };
    let system = built(alloc, &asked)?;
    let ordered = are_ordered(one_way, first.insn, second.insn, first.at == second.at);
    Ok(pair_over(system, pairs, ordered))
}
