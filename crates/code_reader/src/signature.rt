//! Parameters and arrays.
use affine_rows::Listed;
use code_grammar::{Reader, Stop, take_type};
use code_text::index_name;
use code_tree::{CodeArray, Target};
use wrap_words::Kind;

/// An array behind the sign before its name.
fn read_array(reader: &mut Reader, kind: Kind, stored: bool) -> Result<(), Stop> {
    let name = reader.take_new()?;
    Ok(reader.declare_array(CodeArray { name, kind, stored })?)
}

/// An array from its type on.
fn read_pointer(reader: &mut Reader, stored: bool) -> Result<(), Stop> {
    let kind = take_type(reader)?;
    reader.take(" *")?;
    read_array(reader, kind, stored)
}

/// A parameter behind its type.
fn read_param(reader: &mut Reader, params: &mut Listed<u32>) -> Result<(), Stop> {
    let name = reader.take_new()?;
    Ok(params.push(reader.declare_var(name)?)?)
}

/// A parameter or an array of a C code. Behind an array no parameter stands.
fn read_c_entry(reader: &mut Reader, params: &mut Listed<u32>) -> Result<(), Stop> {
    if reader.takes("const ") {
        return read_pointer(reader, false);
    }
    let kind = take_type(reader)?;
    reader.take(" ")?;
    if reader.takes("*") {
        return read_array(reader, kind, true);
    }
    if kind == Kind::I64 && reader.arrays.is_empty() {
        return read_param(reader, params);
    }
    Err(Stop::Refused)
}

/// A parameter or an array of an OpenCL code. An array stands where all names of the launch line are declared.
fn read_opencl_entry(reader: &mut Reader, params: &mut Listed<u32>) -> Result<(), Stop> {
    if reader.has_launch() && reader.takes("__global ") {
        let stored = !reader.takes("const ");
        return read_pointer(reader, stored);
    }
    if !reader.arrays.is_empty() {
        return Err(Stop::Refused);
    }
    reader.take(index_name(reader.target))?;
    reader.take(" ")?;
    read_param(reader, params)
}

/// A parameter or an array.
fn read_entry(reader: &mut Reader, params: &mut Listed<u32>) -> Result<(), Stop> {
    match reader.target {
        Target::C => read_c_entry(reader, params),
        Target::OpenCl => read_opencl_entry(reader, params),
    }
}

/// The signature up to the end of its line: the parameters and then the arrays, or `void` for none. The list is not at its end
/// while a name of the launch line is not declared. The variables of the parameters are those of their order. Each turn takes a
/// byte.
pub fn read_signature(reader: &mut Reader) -> Result<Listed<u32>, Stop> {
    let head = match reader.target {
        Target::C => "void loopw_kernel(",
        Target::OpenCl => "__kernel void loopw_kernel(",
    };
    reader.take(head)?;
    let mut params = Listed::new(reader.alloc);
    if reader.has_launch() && reader.takes("void)\n") {
        return Ok(params);
    }
    for _ in 0..reader.rest.len() {
        read_entry(reader, &mut params)?;
        if reader.has_launch() && reader.takes(")\n") {
            return Ok(params);
        }
        reader.take(", ")?;
    }
    Err(Stop::Refused)
}
