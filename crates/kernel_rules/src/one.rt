//! The system of one instruction.
ghost use Rattle.std.specs.Prelude.{◌≡◌, ◌≤◌, ◌++◌, length, IfOk, OnOk};
ghost use Rattle.quasi_forms.specs.Systems.{system_over};
ghost use Rattle.elimination.specs.Stages.{IsSystem};
ghost use Rattle.kernel_rules.specs.Kept.{kept_system};
ghost use Rattle.kernel_rules.specs.Rows.{context_if, insn_vars, rows_in};

use crate::context::add_context;
use crate::faults::form_fault;
use crate::kept::kept_system;
use crate::rows::{add_fold_rows, add_insn_rows, insn_vars};
use affine_rows::System;
use kernel_ir::{Fault, Insn, Kernel};
use quasi_forms::{Difference, FormFault, system_over};
use std::alloc::{AllocError, Global};

/// A system has at most so many variables.
pub const MOST_VARIABLES: usize = 128;

/// Rows over the places of variables, at most 128.
#[derive(Drop)]
pub struct Asked {
    pub vars: Vec<u32>,
    pub rows: Vec<Difference>,
}

/// The variables of the system, if there are at most 128.
fn few_vars(alloc: Global, kernel: &Kernel, insn: &Insn, folds: &[u32]) -> Result<Vec<u32>, Fault>
    ensures vars { IfOk result (λ vars. vars.items ≡ insn_vars kernel.now insn.now folds.now) }
    ensures few { IfOk result (λ vars. length vars.items ≤ 128) }
{
    let vars = insn_vars(alloc, kernel, insn, folds)?;
    if vars.len() > MOST_VARIABLES {
        return Err(form_fault(alloc, FormFault::Limit));
    }
    Ok(vars)
}

/// Adds the context, where it is asked for.
fn add_context_if(
    alloc: Global,
    context: bool,
    kernel: &Kernel,
    vars: &[u32],
    made: &mut Vec<Difference>,
) -> Result<(), AllocError>
    requires { length vars.now ≤ 128 }
    ensures { OnOk result (made.new.items ≡ made.old.items ++ context_if context kernel.now vars.now) }
{
    if context {
        add_context(alloc, kernel, vars, made)
    } else {
        Ok(())
    }
}

/// The rows over the variables.
fn rows_over(
    alloc: Global,
    kernel: &Kernel,
    insn: &Insn,
    folds: &[u32],
    context: bool,
    vars: &[u32],
) -> Result<Vec<Difference>, AllocError>
    requires { length vars.now ≤ 128 }
    ensures { IfOk result (λ rows. rows.items ≡ rows_in kernel.now insn.now folds.now context vars.now) }
{
    let mut rows = Vec::new(alloc);
    add_insn_rows(alloc, kernel, insn, vars, &mut rows)?;
    add_fold_rows(alloc, kernel, insn, folds, vars, &mut rows)?;
    add_context_if(alloc, context, kernel, vars, &mut rows)?;
    Ok(rows)
}

/// The rows of an instruction, of its reductions over these inames, and where it is asked for the context, over the
/// parameters and the inames of both in declared order. Rule 18 refuses where these are more than 128.
pub fn rows_of_insn(
    alloc: Global,
    kernel: &Kernel,
    insn: &Insn,
    folds: &[u32],
    context: bool,
) -> Result<Asked, Fault>
    ensures vars { IfOk result (λ made. made.vars.items ≡ insn_vars kernel.now insn.now folds.now) }
    ensures few { IfOk result (λ made. length made.vars.items ≤ 128) }
    ensures rows { IfOk result (λ made. made.rows.items ≡ rows_in kernel.now insn.now folds.now context (insn_vars kernel.now insn.now folds.now)) }
{
    let vars = few_vars(alloc, kernel, insn, folds)?;
    let rows = rows_over(alloc, kernel, insn, folds, context, &vars)?;
    Ok(Asked { vars, rows })
}

/// The system of rows over variables, with one more for each floor. Rule 18 refuses, with stage 0 and row 0, where these
/// are more than 128 or an entry of a row passes 2^62.
#[tactic(auto, using(crate::proofs::KeptRows::few_of))]
pub fn built(alloc: Global, asked: &Asked) -> Result<System, Fault>
    ensures system { IfOk result (λ made. made ≡ kept_system (system_over (length asked.now.vars.items) asked.now.rows.items)) }
    ensures queried { IfOk result IsSystem }
{
    if asked.vars.len() > MOST_VARIABLES {
        return Err(form_fault(alloc, FormFault::Limit));
    }
    match system_over(alloc, &asked.rows, asked.vars.len() as u32) {
        Ok(system) => Ok(kept_system(system)),
        Err(fault) => Err(form_fault(alloc, fault)),
    }
}
