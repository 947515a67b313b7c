//! The words of kinds.
ghost use Rattle.std.specs.Prelude.{◌≡◌};
ghost use Rattle.kind_faults.specs.Words.{kind_word};

use wrap_words::Kind;

/// The word of a kind in kernel files.
pub fn kind_word(kind: Kind) -> &'static str
    ensures { result.now ≡ kind_word kind }
{
    match kind {
        Kind::I32 => "int32",
        Kind::I64 => "int64",
        Kind::U32 => "uint32",
        Kind::U64 => "uint64",
    }
}
