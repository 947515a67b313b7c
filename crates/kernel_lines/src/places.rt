//! Expressions in their places.
ghost use Rattle.std.specs.Prelude.{◌≡◌, ◌∷◌, [], ◌++◌, IfOk, OnOk};
ghost use Rattle.untyped.specs.Indexes.{one};
ghost use Rattle.untyped.specs.Readings.{untyped_of};
ghost use Rattle.kernel_names.specs.Lines.{first_faults};
ghost use Rattle.kernel_lines.specs.Places.{limit_in, value_faults, index_faults, reading_faults, index_of, forms_of, forms_faults};

use affine_rows::{Form, Listed, Name};
use kernel_grammar::Step;
use kernel_names::{Limit, LineFaults};
use std::alloc::{AllocError, Global};
use untyped::{Faults, Part, Reading, Scope, read_untyped};

/// The limit that an expression passes; `number` says whether a number past 1,048,576 stands in an index position.
fn limit_in(number: bool, faults: &Faults) -> Option<Limit>
    ensures { result ≡ limit_in number faults.now }
{
    if faults.wide {
        Some(Limit::Wide)
    } else if number {
        Some(Limit::Number)
    } else if faults.depth {
        Some(Limit::Depth)
    } else if faults.form {
        Some(Limit::Form)
    } else {
        None
    }
}

/// What is wrong with an expression that is a value or a test.
pub fn value_faults(faults: Faults) -> LineFaults
    ensures { result ≡ value_faults faults }
{
    LineFaults {
        limit: limit_in(faults.number, &faults),
        unknown: faults.unknown,
        taken: None,
        shape: faults.shape,
    }
}

/// What is wrong with an expression that has to be an index expression; a word says what is refused where it is none.
pub fn index_faults(
    alloc: Global,
    word: &Name,
    is_index: bool,
    faults: Faults,
) -> Result<LineFaults, AllocError>
    ensures { IfOk result (λ f. f ≡ index_faults word.now is_index faults) }
{
    let limit = limit_in(faults.number || faults.large, &faults);
    let Faults { unknown, shape, .. } = faults;
    Ok(LineFaults {
        limit,
        unknown,
        taken: None,
        shape: if is_index {
            shape
        } else {
            Some(word.copy(alloc)?)
        },
    })
}

/// What stands for an index expression that is refused.
pub(crate) fn one(alloc: Global) -> Form
    ensures { result ≡ one }
{
    Form::affine(alloc, 1, Listed::new(alloc))
}

/// The form of an index expression; 1 stands for one that is none.
fn into_index(alloc: Global, part: Part) -> Form
    ensures { result ≡ index_of part }
{
    match part {
        Part::Index(form, _) => form,
        Part::Tree(_) => one(alloc),
    }
}

/// What is wrong in what stands before, and then with an expression that has to be an index expression. A word is copied
/// only where it is the first to say what is refused.
#[tactic(auto, using(crate::proofs::KnownShapes::shape_known))]
fn wrong_behind(
    alloc: Global,
    before: LineFaults,
    word: &Name,
    is_index: bool,
    faults: Faults,
) -> Result<LineFaults, AllocError>
    ensures { IfOk result (λ f. f ≡ first_faults before (index_faults word.now is_index faults)) }
{
    if before.shape.is_none() {
        return Ok(before.or(index_faults(alloc, word, is_index, faults)?));
    }
    let limit = limit_in(faults.number || faults.large, &faults);
    Ok(before.or(LineFaults {
        limit,
        unknown: faults.unknown,
        taken: None,
        shape: None,
    }))
}

/// An index expression, and what is wrong before it and then with it.
fn read_form<S: Scope>(
    alloc: Global,
    scope: &S,
    before: LineFaults,
    word: &Name,
    steps: &[Step],
) -> Result<(Form, LineFaults), AllocError>
    ensures form { IfOk result (λ r. r.0 ≡ index_of (untyped_of (S.roles scope.now) steps.now).part) }
    ensures faults { IfOk result (λ r. r.1 ≡ first_faults before (reading_faults word.now (untyped_of (S.roles scope.now) steps.now))) }
{
    let Reading { part, faults, .. } = read_untyped(alloc, scope, steps)?;
    let faults = wrong_behind(alloc, before, word, part.is_index(), faults)?;
    Ok((into_index(alloc, part), faults))
}

/// Index expressions, one after the other, and what is wrong with them first.
pub fn read_forms<S: Scope>(
    alloc: Global,
    scope: &S,
    word: &Name,
    items: &[Listed<Step>],
) -> Result<(Listed<Form>, LineFaults), AllocError>
    ensures forms { IfOk result (λ r. r.0 ≡ forms_of (S.roles scope.now) items.now) }
    ensures faults { IfOk result (λ r. r.1 ≡ forms_faults (S.roles scope.now) word.now items.now) }
{
    let mut forms = Listed::new(alloc);
    let mut faults = LineFaults::none();
    'items: for steps in items {
        let (form, wrong) = read_form(alloc, scope, faults, word, steps.as_slice())?;
        forms.push(form)?;
        faults = wrong;
    }
    Ok((forms, faults))
}
