//! The variables that expressions mention.
ghost use Rattle.std.specs.Prelude.{◌≡◌, [], ◌∷◌, ◌++◌, flat_map, map, OnOk};
ghost use Rattle.affine_rows.specs.declared.quasi.Floor.{out-Floor};
ghost use Rattle.untyped_parts.specs.Mentions.{mentions, vars_in, vars_in_all, without};

use crate::marks::Marks;
use affine_rows::{Floor, Form, Quasi};
use std::alloc::{AllocError, Global};
use untyped::{Term, Untyped};

/// Adds the variables of terms.
fn add_term_vars(terms: &[(u32, i64)], vars: &mut Vec<u32>) -> Result<(), AllocError>
    ensures { OnOk result (vars.new.items ≡ vars.old.items ++ map (λ t. t.0) terms.now) }
{
    for term in terms {
        vars.push(term.0)?;
    }
    Ok(())
}

/// Adds the variables of a form.
#[cycle(vars)]
fn add_vars(form: &Quasi, vars: &mut Vec<u32>) -> Result<(), AllocError>
    ensures { OnOk result (vars.new.items ≡ vars.old.items ++ vars_in form.now) }
{
    add_term_vars(form.terms.as_slice(), vars)?;
    add_floor_vars(form.floors.as_slice(), vars)?;
    Ok(())
}

#[cycle(vars)]
fn add_floor_vars(floors: &[Floor], vars: &mut Vec<u32>) -> Result<(), AllocError>
    ensures { OnOk result (vars.new.items ≡ vars.old.items ++ flat_map (λ f. vars_in (out-Floor f).inner) floors.now) }
{
    for floor in floors {
        add_vars(&floor.inner, vars)?;
    }
    Ok(())
}

/// Adds the variables of subscripts or arguments.
fn add_vars_in_all(forms: &[Form], vars: &mut Vec<u32>) -> Result<(), AllocError>
    ensures { OnOk result (vars.new.items ≡ vars.old.items ++ vars_in_all forms.now) }
{
    for form in forms {
        add_vars(form.quasi(), vars)?;
    }
    Ok(())
}

/// Adds the variables that are not marked.
fn add_unmarked(marks: &Marks, found: &[u32], vars: &mut Vec<u32>) -> Result<(), AllocError>
    ensures { OnOk result (vars.new.items ≡ vars.old.items ++ without marks.now found.now) }
{
    for var in found {
        if !marks.has(*var) {
            vars.push(*var)?;
        }
    }
    Ok(())
}

/// Adds the variables that are not among the inames; no marks are set, before and behind.
fn add_without(
    inames: &[u32],
    found: &[u32],
    marks: &mut Marks,
    vars: &mut Vec<u32>,
) -> Result<(), AllocError>
    requires { marks.old ≡ [] }
    ensures vars { OnOk result (vars.new.items ≡ vars.old.items ++ without inames.now found.now) }
    ensures none { OnOk result (marks.new ≡ []) }
{
    marks.mark_all(inames)?;
    add_unmarked(marks, found, vars)?;
    marks.clear();
    Ok(())
}

/// Adds the variables that the expression mentions; no marks are set, before and behind.
#[cycle(mentions)]
fn add_marked(
    alloc: Global,
    tree: &Untyped,
    marks: &mut Marks,
    vars: &mut Vec<u32>,
) -> Result<(), AllocError>
    requires { marks.old ≡ [] }
    ensures vars { OnOk result (vars.new.items ≡ vars.old.items ++ mentions tree.now) }
    ensures none { OnOk result (marks.new ≡ []) }
{
    match tree.term() {
        Term::Index(form, _) => add_vars(form.quasi(), vars),
        Term::Literal(_) => Ok(()),
        Term::Read(_, forms) | Term::Use(_, forms) => add_vars_in_all(forms.as_slice(), vars),
        Term::Prefix(_, a) | Term::ShiftLeft(a, _) | Term::ShiftRight(a, _) | Term::Cast(_, a) => {
            add_marked(alloc, a, marks, vars)
        }
        Term::Infix(_, a, b) => {
            add_marked(alloc, a, marks, vars)?;
            add_marked(alloc, b, marks, vars)
        }
        Term::Choose(test, a, b) => {
            add_marked(alloc, test, marks, vars)?;
            add_marked(alloc, a, marks, vars)?;
            add_marked(alloc, b, marks, vars)
        }
        Term::Fold(_, inames, a) => {
            let mut found = Vec::new(alloc);
            add_marked(alloc, a, marks, &mut found)?;
            add_without(inames.as_slice(), found.as_slice(), marks, vars)
        }
    }
}

/// Adds the variables that the expression mentions, in the order of the text and as often as they stand there; within a
/// reduction those aside that it binds. It takes time in proportion to the expression, times its depth in reductions, and to
/// the largest number of an iname that a reduction binds. The only error is want of memory.
pub fn add_mentions(alloc: Global, tree: &Untyped, vars: &mut Vec<u32>) -> Result<(), AllocError>
    ensures { OnOk result (vars.new.items ≡ vars.old.items ++ mentions tree.now) }
{
    add_marked(alloc, tree, &mut Marks::new(alloc), vars)
}
