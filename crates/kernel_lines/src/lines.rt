//! Lines, instructions aside but for the temporaries that they declare.
ghost use Rattle.std.specs.Prelude.{◌≡◌, [], ◌∷◌, ◌++◌, codes, IfOk, OnOk};
ghost use Rattle.kernel_names.specs.Roles.{kernel_roles, parameter_roles};
ghost use Rattle.kernel_lines.specs.Conditions.{chains_of};
ghost use Rattle.kernel_lines.specs.Lines.{no_parts, stored_temp, with_line, part_faults};

use crate::conditions::read_conditions;
use crate::parts::{read_array, read_rule, read_temp};
use affine_rows::{Listed, Name};
use expr_tree::{QuasiRow, Steps};
use kernel_grammar::{Chain, Declared, Item};
use kernel_ir::{Array, SubstRule, Temp};
use kernel_names::{Declarations, LineFaults, ParameterScope};
use std::alloc::{AllocError, Global};
use std::sync::ledger::Ledger;
use untyped::Scope;
use untyped_parts::RuleTree;

/// What lines say, instructions aside but for the temporaries that they declare.
#[derive(Drop)]
pub struct KernelParts {
    pub rows: Listed<QuasiRow>,
    pub assumptions: Listed<QuasiRow>,
    pub arrays: Listed<Array>,
    pub temps: Listed<Temp>,
    pub rules: Listed<SubstRule>,
    /// The body of each rule, before its kinds are asked.
    pub bodies: Listed<RuleTree>,
}

/// Adds the rows of conditions, and tells what is wrong in these first.
fn add_conditions<S: Scope>(
    alloc: Global,
    scope: &S,
    word: &str,
    chains: &[Chain],
    rows: &mut Listed<QuasiRow>,
) -> Result<LineFaults, AllocError>
    ensures rows { OnOk result (rows.new ≡ rows.old ++ (chains_of (S.roles scope.now) word.now chains.now).rows) }
    ensures faults { IfOk result (λ f. f ≡ (chains_of (S.roles scope.now) word.now chains.now).faults) }
{
    let word = Name::from_str(alloc, word)?;
    let conditions = read_conditions(alloc, scope, &word, chains)?;
    'rows: for row in conditions.rows.into_vec() {
        rows.push(row)?;
    }
    Ok(conditions.faults)
}

/// Adds the scalar temporary that an instruction declares, if it declares one.
fn add_stored(
    alloc: Global,
    declared: Declared,
    name: &Name,
    temps: &mut Listed<Temp>,
) -> Result<(), AllocError>
    ensures { OnOk result (temps.new ≡ temps.old ++ stored_temp declared name.now) }
{
    match declared {
        Declared::Not => Ok(()),
        Declared::Inferred => temps.push(read_temp(alloc, name, None, &[])?),
        Declared::Of(kind) => temps.push(read_temp(alloc, name, Some(kind), &[])?),
    }
}

impl KernelParts {
    /// Nothing.
    pub fn new(alloc: Global) -> KernelParts
        ensures { result ≡ no_parts }
    {
        KernelParts {
            rows: Listed::new(alloc),
            assumptions: Listed::new(alloc),
            arrays: Listed::new(alloc),
            temps: Listed::new(alloc),
            rules: Listed::new(alloc),
            bodies: Listed::new(alloc),
        }
    }

    /// Adds what a line, of this number, says, and tells what is wrong in its expressions first; of an instruction only the temporary that it
    /// declares. The only error is want of memory.
    pub fn read<L: Ledger>(
        &mut self,
        alloc: Global,
        declarations: &Declarations,
        line: u32,
        item: &Item,
        steps: &mut Steps<L>,
    ) -> Result<LineFaults, AllocError>
        ensures parts { OnOk result (self.new ≡ with_line declarations.now self.old line item.now) }
        ensures faults { IfOk result (λ f. f ≡ part_faults declarations.now item.now) }
    {
        match item {
            Item::Domain { conditions, .. } => {
                add_conditions(
                    alloc,
                    declarations,
                    "domain",
                    conditions.as_slice(),
                    &mut self.rows,
                )
            }
            Item::Assume { conditions } => {
                let scope = ParameterScope { declarations };
                add_conditions(
                    alloc,
                    &scope,
                    "assume",
                    conditions.as_slice(),
                    &mut self.assumptions,
                )
            }
            Item::Array {
                name,
                kind,
                shape,
                stored,
            } => {
                let (array, faults) = read_array(
                    alloc,
                    declarations,
                    name,
                    *kind,
                    shape.as_slice(),
                    *stored,
                )?;
                self.arrays.push(array)?;
                Ok(faults)
            }
            Item::Temp { name, kind, shape } => {
                let temp = read_temp(alloc, name, Some(*kind), shape.as_slice())?;
                self.temps.push(temp)?;
                Ok(LineFaults::none())
            }
            Item::Rule { name, params, body } => {
                let (rule, tree, faults) = read_rule(
                    alloc,
                    declarations,
                    line,
                    name,
                    params.as_slice(),
                    body.as_slice(),
                    steps,
                )?;
                self.rules.push(rule)?;
                self.bodies.push(tree)?;
                Ok(faults)
            }
            Item::Insn { declared, name, .. } => {
                add_stored(alloc, *declared, name, &mut self.temps)?;
                Ok(LineFaults::none())
            }
        }
    }
}
