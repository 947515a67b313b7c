//! The signature of a code.
ghost use Rattle.std.specs.Prelude.{◌≡◌, ◌++◌, ◌+◌, ◌↔◌, OnOk, IsTrue, length, true, codes};
ghost use Rattle.text_writer.specs.Bytes.{separated};
ghost use Rattle.code_text.specs.SignatureText.{param_text, qualifiers_text, array_text, entries_of, arguments_text, kernel_text, signature_text};

use crate::kinds::{index_name, type_name};
use crate::names::write_name;
use code_tree::{Code, CodeArray, Target};
use std::alloc::AllocError;
use text_writer::{put, put_gap};

/// Adds a parameter.
fn write_param(out: &mut Vec<u8>, code: &Code, var: u32) -> Result<(), AllocError>
    ensures { OnOk result (out.new.items ≡ out.old.items ++ param_text code.now var) }
{
    put(out, index_name(code.target))?;
    put(out, " ")?;
    write_name(out, code, var)
}

/// The words before the type of an argument array.
fn qualifiers(target: Target, stored: bool) -> &'static str
    ensures { result.now ≡ qualifiers_text target stored }
{
    match (target, stored) {
        (Target::C, true) => "",
        (Target::C, false) => "const ",
        (Target::OpenCl, true) => "__global ",
        (Target::OpenCl, false) => "__global const ",
    }
}

/// Adds an argument array.
fn write_array(out: &mut Vec<u8>, target: Target, array: &CodeArray) -> Result<(), AllocError>
    ensures { OnOk result (out.new.items ≡ out.old.items ++ array_text target array.now) }
{
    put(out, qualifiers(target, array.stored))?;
    put(out, type_name(target, array.kind))?;
    put(out, " *v_")?;
    put(out, array.name.as_str())
}

/// Adds the parameters and then the arrays.
fn write_entries(out: &mut Vec<u8>, code: &Code) -> Result<(), AllocError>
    ensures { OnOk result (out.new.items ≡ out.old.items ++ separated true (codes ", ") (entries_of code.now)) }
{
    let mut first = true;
    for param in code.params.as_slice() {
        put_gap(out, first, ", ")?;
        write_param(out, code, *param)?;
        first = false;
    }
    for array in code.arrays.as_slice() {
        put_gap(out, first, ", ")?;
        write_array(out, code.target, array)?;
        first = false;
    }
    Ok(())
}

/// Whether there is neither a parameter nor an array.
fn is_void(code: &Code) -> bool
    ensures { IsTrue result ↔ (length code.now.params + length code.now.arrays ≡ 0) }
{
    code.params.is_empty() && code.arrays.is_empty()
}

/// Adds the parameters and the arrays, or `void`.
#[tactic(auto, using(crate::proofs::Entries::void_entries, crate::proofs::Entries::some_entries))]
fn write_arguments(out: &mut Vec<u8>, code: &Code) -> Result<(), AllocError>
    ensures { OnOk result (out.new.items ≡ out.old.items ++ arguments_text code.now) }
{
    if is_void(code) {
        put(out, "void")
    } else {
        write_entries(out, code)
    }
}

/// The beginning of the signature.
fn kernel_words(target: Target) -> &'static str
    ensures { result.now ≡ kernel_text target }
{
    match target {
        Target::C => "void loopw_kernel(",
        Target::OpenCl => "__kernel void loopw_kernel(",
    }
}

/// Adds the signature, and the brace behind it.
pub fn write_signature(out: &mut Vec<u8>, code: &Code) -> Result<(), AllocError>
    ensures { OnOk result (out.new.items ≡ out.old.items ++ signature_text code.now) }
{
    put(out, kernel_words(code.target))?;
    write_arguments(out, code)?;
    put(out, ")\n{\n")
}
