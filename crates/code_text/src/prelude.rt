//! The functions that a text may call.
ghost use Rattle.std.specs.Prelude.{◌≡◌, ◌++◌, OnOk};
ghost use Rattle.code_text.specs.PreludeText.{static_text, head_text, floor_line, pair_lines, kind_pair, prelude_text};

use crate::kinds::{index_name, type_name};
use code_tree::Target;
use std::alloc::AllocError;
use text_writer::put;
use wrap_words::Kind;

/// Adds the head of a function of two numbers.
fn write_head(
    out: &mut Vec<u8>,
    target: Target,
    kind: Kind,
    name: &str,
    suffix: &str,
) -> Result<(), AllocError>
    ensures { OnOk result (out.new.items ≡ out.old.items ++ head_text target kind name.now suffix.now) }
{
    put(out, static_word(target))?;
    put(out, type_name(target, kind))?;
    put(out, " ")?;
    put(out, name)?;
    put(out, suffix)?;
    put(out, "(")?;
    put(out, type_name(target, kind))?;
    put(out, " a, ")?;
    put(out, type_name(target, kind))?;
    put(out, " b) { ")
}

/// The word before a function's type.
fn static_word(target: Target) -> &'static str
    ensures { result.now ≡ static_text target }
{
    match target {
        Target::C => "static ",
        Target::OpenCl => "",
    }
}

/// Adds the division that rounds down.
fn write_floor_line(out: &mut Vec<u8>, target: Target) -> Result<(), AllocError>
    ensures { OnOk result (out.new.items ≡ out.old.items ++ floor_line target) }
{
    write_head(out, target, Kind::I64, "lp_fd", "")?;
    put(out, index_name(target))?;
    put(out, " q = a / b; return a % b < 0 ? q - 1 : q; }\n")
}

/// Adds the least and the greatest of two numbers of a kind.
fn write_pair(out: &mut Vec<u8>, target: Target, kind: Kind, suffix: &str) -> Result<(), AllocError>
    ensures { OnOk result (out.new.items ≡ out.old.items ++ pair_lines target kind suffix.now) }
{
    write_head(out, target, kind, "lp_min", suffix)?;
    put(out, "return a < b ? a : b; }\n")?;
    write_head(out, target, kind, "lp_max", suffix)?;
    put(out, "return a < b ? b : a; }\n")
}

/// Adds the least and the greatest of two words of a kind.
fn write_kind_pair(out: &mut Vec<u8>, target: Target, kind: Kind) -> Result<(), AllocError>
    ensures { OnOk result (out.new.items ≡ out.old.items ++ kind_pair target kind) }
{
    match kind {
        Kind::I32 => write_pair(out, target, kind, "_i32"),
        Kind::I64 => write_pair(out, target, kind, "_i64"),
        Kind::U32 => write_pair(out, target, kind, "_u32"),
        Kind::U64 => write_pair(out, target, kind, "_u64"),
    }
}

/// Adds the functions that a text may call.
pub fn write_prelude(out: &mut Vec<u8>, target: Target) -> Result<(), AllocError>
    ensures { OnOk result (out.new.items ≡ out.old.items ++ prelude_text target) }
{
    write_floor_line(out, target)?;
    write_pair(out, target, Kind::I64, "")?;
    write_kind_pair(out, target, Kind::I32)?;
    write_kind_pair(out, target, Kind::I64)?;
    write_kind_pair(out, target, Kind::U32)?;
    write_kind_pair(out, target, Kind::U64)
}
