//! The reader of files of the form.
ghost use Rattle.std.specs.Prelude.{◌≡◌, true, [], ◌∷◌, IfOk};
ghost use Rattle.std.specs.Result.{IfErr};
ghost use Rattle.first_form.specs.Form.{are_names, IsFile};
ghost use Rattle.first_form.specs.Refusals.{IsRefusal};

use crate::fault::FormFault;
use crate::form::FirstForm;
use crate::read::{Lines, read_lines};
use crate::refused::{name_of, shown_word};
use std::alloc::{AllocError, Global};

/// What the lines say, with names of its own.
fn form_of(alloc: Global, lines: Lines) -> Result<FirstForm, AllocError>
    requires { are_names (lines.param.now ∷ lines.iname.now ∷ lines.input.now ∷ lines.output.now ∷ []) ≡ true }
    ensures { IfOk result (λ form. form ≡ record { param = lines.entry.param.now; iname = lines.entry.iname.now; input = lines.entry.input.now; output = lines.entry.output.now; factor = lines.entry.factor }) }
{
    Ok(FirstForm {
        param: name_of(alloc, lines.param)?,
        iname: name_of(alloc, lines.iname)?,
        input: name_of(alloc, lines.input)?,
        output: name_of(alloc, lines.output)?,
        factor: lines.factor,
    })
}

/// What a file of the form says. The bytes are read once, and only the names are copied.
pub fn read_form(alloc: Global, bytes: &[u8]) -> Result<FirstForm, FormFault>
    ensures file { IfOk result (λ form. IsFile bytes.now form) }
    ensures refused { IfErr result (λ fault. IsRefusal bytes.now fault) }
{
    match read_lines(bytes) {
        Ok(lines) => Ok(form_of(alloc, lines)?),
        Err(stop) => {
            let word = shown_word(alloc, stop.rest)?;
            Err(FormFault::NotBuilt {
                line: stop.line,
                word,
            })
        }
    }
}
