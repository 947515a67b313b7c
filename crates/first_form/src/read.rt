//! The lines of a file, one after the other.
ghost use Rattle.std.specs.Prelude.{MatchResult};
ghost use Rattle.first_form.specs.Form.{IsFile};
ghost use Rattle.first_form.specs.Refused.{IsRefusedAt};

use crate::lines::{Domain, array_line, domain_line, store_line};
use crate::scan::after;

/// What the lines of a file of the form say.
#[derive(Clone, Copy)]
pub struct Lines<'a> {
    pub param: &'a [u8],
    pub iname: &'a [u8],
    pub input: &'a [u8],
    pub output: &'a [u8],
    pub factor: u32,
}

/// The first line that is not of the form, counted from 1, and the bytes from there on.
#[derive(Clone, Copy)]
pub struct Stop<'a> {
    pub line: u32,
    pub rest: &'a [u8],
}

/// What the file says, or where it stops being of the form.
pub fn read_lines(bytes: &[u8]) -> Result<Lines<'_>, Stop<'_>>
    ensures { MatchResult result (λ lines. IsFile bytes.now (record { param = lines.param.now; iname = lines.iname.now; input = lines.input.now; output = lines.output.now; factor = lines.factor })) (λ stop. IsRefusedAt bytes.now stop.line stop.rest.now) }
{
    let Some(rest) = after(bytes, &[b"kernel 1\n"]) else {
        return Err(Stop {
            line: 1,
            rest: bytes,
        });
    };
    let Some(
        Domain {
            param,
            iname,
            rest: inputs,
        },
    ) = domain_line(rest)
    else {
        return Err(Stop { line: 2, rest });
    };
    let Some((input, outputs)) = array_line(inputs, b"input", param, &[param, iname]) else {
        return Err(Stop {
            line: 3,
            rest: inputs,
        });
    };
    let Some((output, stores)) = array_line(outputs, b"output", param, &[param, iname, input])
    else {
        return Err(Stop {
            line: 4,
            rest: outputs,
        });
    };
    let Some((factor, end)) = store_line(stores, output, input, iname) else {
        return Err(Stop {
            line: 5,
            rest: stores,
        });
    };
    if !end.is_empty() {
        return Err(Stop { line: 6, rest: end });
    }
    Ok(Lines {
        param,
        iname,
        input,
        output,
        factor,
    })
}
