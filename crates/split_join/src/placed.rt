//! Forms for inames in declared order.
ghost use Rattle.std.specs.Prelude.{◌≡◌, true, length};
ghost use Rattle.quasi_forms.specs.Placed.{vars_differ};

use crate::digits::Digits;
use affine_rows::Form;
use kernel_ir::Iname;
use quasi_forms::is_among;
use std::alloc::{AllocError, Global};

/// Different inames with a form for each.
#[derive(Drop)]
pub(crate) struct Placed {
    pub(crate) vars: Vec<u32>,
    pub(crate) forms: Vec<Form>,
    ghost differ: { vars_differ vars.items ≡ true },
    ghost count: { length vars.items ≡ length forms.items },
}

fn none(alloc: Global) -> Placed {
    Placed {
        vars: Vec::new(alloc),
        forms: Vec::new(alloc),
    }
}

/// The form that is put for an iname, if one is.
fn form_for<'a>(digits: &'a Digits, iname: u32) -> Option<&'a Form> {
    for at in 0..digits.inames.len().min(digits.forms.len()) {
        if digits.inames[at] == iname {
            return Some(&digits.forms[at]);
        }
    }
    None
}

/// The same with a form for a further iname.
#[tactic(auto, using(crate::proofs::VarsDiffer::differ_more))]
fn with(placed: Placed, var: u32, form: Form) -> Result<Placed, AllocError> {
    if is_among(&placed.vars, var) {
        return Ok(placed);
    }
    let Placed {
        mut vars,
        mut forms,
    } = placed;
    vars.push(var)?;
    forms.push(form)?;
    Ok(Placed { vars, forms })
}

/// The inames that have a form in declared order, with their forms.
pub(crate) fn in_declared_order(
    alloc: Global,
    inames: &[Iname],
    digits: &Digits,
) -> Result<Placed, AllocError> {
    let mut placed = none(alloc);
    for iname in inames {
        if let Some(form) = form_for(digits, iname.var) {
            placed = with(placed, iname.var, form.copy(alloc)?)?;
        }
    }
    Ok(placed)
}
