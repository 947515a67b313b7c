//! The spelling of variables.
ghost use Rattle.std.specs.Prelude.{◌≡◌, ◌++◌, OnOk, length};
ghost use Rattle.code_text.specs.Names.{axis_text, is_axis, name_text};

use code_tree::{Code, Target};
use std::alloc::AllocError;
use text_writer::put;

/// The spelling of an axis: groups 0 to 2, then items 0 to 2.
pub fn axis(number: usize) -> &'static str
    ensures { result.now ≡ axis_text number }
{
    match number {
        0 => "lp_g0",
        1 => "lp_g1",
        2 => "lp_g2",
        3 => "lp_l0",
        4 => "lp_l1",
        5 => "lp_l2",
        _ => "",
    }
}

/// Whether the variable is one of the six axes that follow the parameters.
fn is_axis(code: &Code, var: usize) -> bool
    ensures { result ≡ is_axis code.now.target (length code.now.params) var }
{
    let params = code.params.len();
    match code.target {
        Target::C => false,
        Target::OpenCl => params <= var && var - params < 6,
    }
}

/// Adds the spelling of a variable.
pub fn write_name(out: &mut Vec<u8>, code: &Code, var: u32) -> Result<(), AllocError>
    ensures { OnOk result (out.new.items ≡ out.old.items ++ name_text code.now var) }
{
    let var = var as usize;
    if is_axis(code, var) {
        return put(out, axis(var.saturating_sub(code.params.len())));
    }
    put(out, "v_")?;
    match code.names.get(var) {
        Some(name) => put(out, name.as_str()),
        None => Ok(()),
    }
}
