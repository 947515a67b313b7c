//! The spelling of what a kernel declares, and the order of its variables.
ghost use Rattle.std.specs.Prelude.{◌≡◌, ◌++◌, not, nat_eq, map, flat_map, filter, slice_get, IfOk, OnOk, ◌∷◌, []};
ghost use Rattle.expr_tree.specs.Scenes.{is_among};
ghost use Rattle.text_writer.specs.Bytes.{separated};
ghost use Rattle.kernel_ir.specs.NameSpace.{iname_vars, name_of};
ghost use Rattle.kernel_printer.specs.Spelling.{cell_name, kernel_order, ordered, rule_name, rule_order, vars_text};

use expr_tree::Cell;
use kernel_ir::{Iname, Kernel, SubstRule};
use std::alloc::{AllocError, Global};
use text_writer::{put, put_gap};

/// A kernel, and the order in which variables stand in a form.
#[derive(Clone, Copy)]
pub struct Spelling<'a> {
    pub kernel: &'a Kernel,
    pub order: &'a [u32],
}

/// Adds the name of a variable.
pub fn write_name(out: &mut Vec<u8>, kernel: &Kernel, var: u32) -> Result<(), AllocError>
    ensures { OnOk result (out.new.items ≡ out.old.items ++ name_of kernel.now var) }
{
    match kernel.names.get(var as usize) {
        Some(name) => put(out, name),
        None => Ok(()),
    }
}

/// Adds the name of an array or temporary.
pub fn write_cell(out: &mut Vec<u8>, kernel: &Kernel, cell: &Cell) -> Result<(), AllocError>
    ensures { OnOk result (out.new.items ≡ out.old.items ++ cell_name kernel.now cell.now) }
{
    match cell {
        Cell::Array(at) => match kernel.arrays.get(*at as usize) {
            Some(array) => put(out, array.name.as_str()),
            None => Ok(()),
        },
        Cell::Temp(at) => match kernel.temps.get(*at as usize) {
            Some(temp) => put(out, temp.name.as_str()),
            None => Ok(()),
        },
    }
}

/// Adds the name of a rule.
pub fn write_rule_name(out: &mut Vec<u8>, kernel: &Kernel, rule: u32) -> Result<(), AllocError>
    ensures { OnOk result (out.new.items ≡ out.old.items ++ rule_name (slice_get kernel.now.rules rule)) }
{
    match kernel.rules.get(rule as usize) {
        Some(rule) => put(out, rule.name.as_str()),
        None => Ok(()),
    }
}

/// Adds the names of variables with a gap between them.
pub fn write_vars(
    out: &mut Vec<u8>,
    kernel: &Kernel,
    gap: &str,
    vars: &[u32],
) -> Result<(), AllocError>
    ensures { OnOk result (out.new.items ≡ out.old.items ++ vars_text kernel.now gap.now vars.now) }
{
    let mut first = true;
    for var in vars {
        put_gap(out, first, gap)?;
        write_name(out, kernel, *var)?;
        first = false;
    }
    Ok(())
}

/// The variables of inames.
pub fn vars_of(alloc: Global, inames: &[Iname]) -> Result<Vec<u32>, AllocError>
    ensures { IfOk result (λ vars. vars.items ≡ map (λ i. i.var) inames.now) }
{
    inames.iter().map(|iname| iname.var).collect(alloc)
}

/// The variables of a kernel in the order of its texts.
pub fn kernel_order(alloc: Global, kernel: &Kernel) -> Result<Vec<u32>, AllocError>
    ensures { IfOk result (λ order. order.items ≡ kernel_order kernel.now) }
{
    let mut order = kernel.params.as_slice().to_vec(alloc)?;
    let inames = vars_of(alloc, kernel.inames.as_slice())?;
    order.extend_from_slice(&inames)?;
    Ok(order)
}

/// The variables of a rule's body in the order of its text.
pub fn rule_order(alloc: Global, kernel: &Kernel, rule: &SubstRule) -> Result<Vec<u32>, AllocError>
    ensures { IfOk result (λ order. order.items ≡ rule_order kernel.now rule.now) }
{
    let own = rule.params.as_slice();
    let mut order = Vec::new(alloc);
    for var in kernel.params.as_slice() {
        push_other(&mut order, *var, own)?;
    }
    order.extend_from_slice(own)?;
    Ok(order)
}

/// Adds a variable, unless it is one of these.
fn push_other(order: &mut Vec<u32>, var: u32, own: &[u32]) -> Result<(), AllocError>
    ensures { OnOk result (order.new.items ≡ order.old.items ++ filter (λ v. not (is_among own.now v)) (var ∷ [])) }
{
    if !own.contains(&var) {
        order.push(var)?;
    }
    Ok(())
}

/// Adds a term, if it is of the variable.
fn push_term(to: &mut Vec<(u32, i64)>, term: (u32, i64), var: u32) -> Result<(), AllocError>
    ensures { OnOk result (to.new.items ≡ to.old.items ++ filter (λ t. nat_eq t.0 var) (term ∷ [])) }
{
    if term.0 == var {
        to.push(term)?;
    }
    Ok(())
}

/// Adds the terms of a variable.
fn push_terms(to: &mut Vec<(u32, i64)>, terms: &[(u32, i64)], var: u32) -> Result<(), AllocError>
    ensures { OnOk result (to.new.items ≡ to.old.items ++ filter (λ t. nat_eq t.0 var) terms.now) }
{
    for term in terms {
        push_term(to, *term, var)?;
    }
    Ok(())
}

/// Adds a term, unless it is of one of these variables.
fn push_other_term(
    to: &mut Vec<(u32, i64)>,
    term: (u32, i64),
    order: &[u32],
) -> Result<(), AllocError>
    ensures { OnOk result (to.new.items ≡ to.old.items ++ filter (λ t. not (is_among order.now t.0)) (term ∷ [])) }
{
    if !order.contains(&term.0) {
        to.push(term)?;
    }
    Ok(())
}

/// Adds the terms of other variables.
fn push_other_terms(
    to: &mut Vec<(u32, i64)>,
    terms: &[(u32, i64)],
    order: &[u32],
) -> Result<(), AllocError>
    ensures { OnOk result (to.new.items ≡ to.old.items ++ filter (λ t. not (is_among order.now t.0)) terms.now) }
{
    for term in terms {
        push_other_term(to, *term, order)?;
    }
    Ok(())
}

/// The terms in the order of the variables.
pub fn ordered(
    alloc: Global,
    order: &[u32],
    terms: &[(u32, i64)],
) -> Result<Vec<(u32, i64)>, AllocError>
    ensures { IfOk result (λ ts. ts.items ≡ ordered order.now terms.now) }
{
    let mut to = Vec::new(alloc);
    for var in order {
        push_terms(&mut to, terms, *var)?;
    }
    push_other_terms(&mut to, terms, order)?;
    Ok(to)
}
