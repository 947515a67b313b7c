//! Arrays, temporaries and rules of a kernel.
ghost use Rattle.std.specs.Prelude.{◌≡◌, [], ◌∷◌, ◌++◌, ◌^◌, ◌-◌, min, map, unwrap_or, codes, IfOk, OnOk, Option, Some, None};
ghost use Rattle.kernel_names.specs.Roles.{number_of, parameter_roles};
ghost use Rattle.kernel_lines.specs.Parts.{array_of, size_faults, array_faults, temp_of, rule_of, rule_tree, rule_faults};

use crate::conditions::form_faults;
use crate::places::{read_forms, value_faults};
use crate::values::value_of;
use affine_rows::{Form, Listed, Name};
use expr_tree::Steps;
use kernel_grammar::Step;
use kernel_ir::{Array, SubstRule, Temp};
use kernel_limits::fits_size;
use kernel_names::{BodyScope, Declarations, LineFaults, ParameterScope};
use std::alloc::{AllocError, Global};
use std::sync::ledger::Ledger;
use untyped::{Reading, read_untyped};
use untyped_parts::RuleTree;
use wrap_words::Kind;

/// An array has at most so many places.
const MAX_PLACES: usize = 8;

/// Whether the row that says that an array has at most 2^31-1 cells passes a limit; a shape of more than 8 places is
/// refused for that.
fn size_faults(alloc: Global, shape: &[Form]) -> Result<LineFaults, AllocError>
    ensures { IfOk result (λ f. f ≡ size_faults shape.now) }
{
    if shape.len() > MAX_PLACES {
        return Ok(form_faults(false));
    }
    let fits = fits_size(alloc, shape)?;
    Ok(form_faults(!fits))
}

/// An array, and what is wrong with its shape.
pub fn read_array(
    alloc: Global,
    declarations: &Declarations,
    name: &Name,
    kind: Kind,
    shape: &[Listed<Step>],
    stored: bool,
) -> Result<(Array, LineFaults), AllocError>
    ensures array { IfOk result (λ r. r.0 ≡ array_of declarations.now name.now kind shape.now stored) }
    ensures faults { IfOk result (λ r. r.1 ≡ array_faults declarations.now shape.now) }
{
    let scope = ParameterScope { declarations };
    let word = Name::from_str(alloc, "shape")?;
    let (shape, faults) = read_forms(alloc, &scope, &word, shape)?;
    let of_size = size_faults(alloc, shape.as_slice())?;
    let array = Array {
        name: name.copy(alloc)?,
        kind,
        shape,
        stored,
    };
    Ok((array, faults.or(of_size)))
}

/// A number of a shape in 32 bits.
fn entry_of(entry: Option<u64>) -> u32
    ensures { result ≡ min (unwrap_or entry 0) (2 ^ 32 - 1) }
{
    entry.unwrap_or(0).min(u32::MAX as u64) as u32
}

/// A temporary, with its kind if it has one already. A number of its shape past 2^32 - 1 stays so; such a line is refused.
pub fn read_temp(
    alloc: Global,
    name: &Name,
    kind: Option<Kind>,
    shape: &[Option<u64>],
) -> Result<Temp, AllocError>
    ensures { IfOk result (λ t. t ≡ temp_of name.now kind shape.now) }
{
    let mut entries = Listed::new(alloc);
    'entries: for entry in shape {
        entries.push(entry_of(*entry))?;
    }
    Ok(Temp {
        name: name.copy(alloc)?,
        kind,
        shape: entries,
        local: false,
    })
}

/// The numbers of names.
fn numbers(
    alloc: Global,
    declarations: &Declarations,
    names: &[Name],
) -> Result<Listed<u32>, AllocError>
    ensures { IfOk result (λ ns. ns ≡ map (number_of declarations.now) names.now) }
{
    let mut made = Listed::new(alloc);
    'names: for name in names {
        made.push(declarations.number(name))?;
    }
    Ok(made)
}

/// A rule, its body before its kinds are asked, and what is wrong in it.
#[tactic(auto, using(crate::proofs::Shallow::shallow))]
pub fn read_rule<L: Ledger>(
    alloc: Global,
    declarations: &Declarations,
    line: u32,
    name: &Name,
    params: &[Name],
    body: &[Step],
    steps: &mut Steps<L>,
) -> Result<(SubstRule, RuleTree, LineFaults), AllocError>
    ensures rule { IfOk result (λ r. r.0 ≡ rule_of declarations.now name.now params.now body.now) }
    ensures tree { IfOk result (λ r. r.1 ≡ rule_tree declarations.now line params.now body.now) }
    ensures faults { IfOk result (λ r. r.2 ≡ rule_faults declarations.now params.now body.now) }
{
    let scope = BodyScope::new(alloc, declarations, params)?;
    let Reading { part, faults, .. } = read_untyped(alloc, &scope, body)?;
    let body = part.into_tree(alloc)?;
    let rule = SubstRule {
        name: name.copy(alloc)?,
        params: numbers(alloc, declarations, params)?,
        body: value_of(alloc, &body, steps)?,
    };
    Ok((rule, RuleTree { line, body }, value_faults(faults)))
}
