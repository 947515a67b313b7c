//! The names of types.
ghost use Rattle.std.specs.Prelude.{◌≡◌, ◌++◌, OnOk};
ghost use Rattle.code_text.specs.KindText.{type_text, unsigned_kind, suffix_text, index_text, cast_text};

use code_tree::Target;
use std::alloc::AllocError;
use text_writer::put;
use wrap_words::Kind;

/// The name of a type.
pub fn type_name(target: Target, kind: Kind) -> &'static str
    ensures { result.now ≡ type_text target kind }
{
    match (target, kind) {
        (Target::C, Kind::I32) => "int32_t",
        (Target::C, Kind::I64) => "int64_t",
        (Target::C, Kind::U32) => "uint32_t",
        (Target::C, Kind::U64) => "uint64_t",
        (Target::OpenCl, Kind::I32) => "int",
        (Target::OpenCl, Kind::I64) => "long",
        (Target::OpenCl, Kind::U32) => "uint",
        (Target::OpenCl, Kind::U64) => "ulong",
    }
}

/// The unsigned kind of the same width.
pub fn unsigned(kind: Kind) -> Kind
    ensures { result ≡ unsigned_kind kind }
{
    match kind {
        Kind::I32 | Kind::U32 => Kind::U32,
        Kind::I64 | Kind::U64 => Kind::U64,
    }
}

/// A kind at the end of a function's name.
pub fn suffix(kind: Kind) -> &'static str
    ensures { result.now ≡ suffix_text kind }
{
    match kind {
        Kind::I32 => "i32",
        Kind::I64 => "i64",
        Kind::U32 => "u32",
        Kind::U64 => "u64",
    }
}

/// The type of a loop variable, a parameter or an axis.
pub fn index_name(target: Target) -> &'static str
    ensures { result.now ≡ index_text target }
{
    type_name(target, Kind::I64)
}

/// Adds the conversion of what follows.
pub fn put_cast(out: &mut Vec<u8>, target: Target, kind: Kind) -> Result<(), AllocError>
    ensures { OnOk result (out.new.items ≡ out.old.items ++ cast_text target kind) }
{
    put(out, "(")?;
    put(out, type_name(target, kind))?;
    put(out, ")")
}
