//! Forms and rows of a kernel as texts by themselves.
use crate::forms::write_quasi;
use crate::spelling::{Spelling, kernel_order};
use affine_rows::{Name, Quasi};
use kernel_ir::Kernel;
use std::alloc::{AllocError, Global};
use text_writer::put;

/// The bytes as a text. Names of a kernel are texts, and so is what is written with them.
fn text_of(alloc: Global, bytes: Vec<u8>) -> Name {
    match String::from_utf8(bytes) {
        Ok(text) => Name::new(text),
        Err(_) => Name::new(String::new(alloc)),
    }
}

/// The bytes of a form over the variables of a kernel.
fn form_bytes(alloc: Global, kernel: &Kernel, form: &Quasi) -> Result<Vec<u8>, AllocError> {
    let order = kernel_order(alloc, kernel)?;
    let spelling = Spelling {
        kernel,
        order: &order,
    };
    let mut out = Vec::new(alloc);
    write_quasi(alloc, &mut out, &spelling, form)?;
    Ok(out)
}

/// The text of a form over the variables of a kernel, as it stands in the kernel's text.
pub fn form_text(alloc: Global, kernel: &Kernel, form: &Quasi) -> Result<Name, AllocError> {
    let out = form_bytes(alloc, kernel, form)?;
    Ok(text_of(alloc, out))
}

/// The text of the row that the form is at least 0, or equals 0 where `equal` holds.
pub fn row_text(
    alloc: Global,
    kernel: &Kernel,
    form: &Quasi,
    equal: bool,
) -> Result<Name, AllocError> {
    let mut out = form_bytes(alloc, kernel, form)?;
    put(&mut out, if equal { " = 0" } else { " >= 0" })?;
    Ok(text_of(alloc, out))
}
