//! The text that is written for the files of the words.
ghost use Rattle.std.specs.Prelude.{◌≡◌, IfOk, IfErr};
ghost use Rattle.loopw_core.specs.Written.{IsRefusalOf, IsText, MayRefuse, first_of, second_of};

use crate::evals::{eval_job, run_job};
use crate::fault::JobFault;
use crate::gens::gen_text;
use crate::shows::show_job;
use crate::targets::write_text;
use crate::words::Form;
use affine_rows::Listed;
use std::alloc::Global;

/// The bytes of the first file; one that is not read is empty.
fn first_of(files: &[Listed<u8>]) -> &[u8]
    ensures { result.now ≡ first_of files.now }
{
    match files {
        [] => &[],
        [file, ..] => file.as_slice(),
    }
}

fn second_of(files: &[Listed<u8>]) -> &[u8]
    ensures { result.now ≡ second_of files.now }
{
    match files {
        [] => &[],
        [_, rest @ ..] => first_of(rest),
    }
}

fn third_of(files: &[Listed<u8>]) -> &[u8] {
    match files {
        [] => &[],
        [_, rest @ ..] => second_of(rest),
    }
}

/// What is written for these files.
pub(crate) fn text_for(alloc: Global, form: Form, files: &[Listed<u8>]) -> Result<Vec<u8>, JobFault>
    ensures text { IfOk result (λ text. IsText form files.now text.items) }
    ensures refused { IfErr result (IsRefusalOf (MayRefuse form files.now)) }
{
    let first = first_of(files);
    let second = second_of(files);
    match form {
        Form::Write(target) => write_text(alloc, target, first, second),
        Form::Show => show_job(alloc, first, second),
        Form::Eval => eval_job(alloc, first, second),
        Form::Run => run_job(alloc, first, second, third_of(files)),
        Form::Gen(number) => gen_text(alloc, number),
    }
}
