//! Why a text is not read.
use std::alloc::AllocError;
use thiserror::Error;

/// Why a text is not read.
#[derive(Debug, Drop, PartialEq, Eq, Error)]
pub enum TextFault {
    /// There is no memory.
    #[error("out of memory")]
    OutOfMemory,
    /// The bytes are no text of tokens. Some text of tokens begins with the lines before this one, counted from 1, and so
    /// many bytes of it, and none with a byte more.
    #[error("line {line} is no text after {bytes} bytes")]
    Syntax { line: u32, bytes: u32 },
    /// The first number past 18446744073709551615 stands in this line.
    #[error("a number in line {line} is too large")]
    Limit { line: u32 },
}

impl From<AllocError> for TextFault {
    ghost use Rattle.std.specs.Prelude.{◌≡◌};
    ghost use Rattle.text_reader.specs.declared.fault.TextFault.TheVariants.{OutOfMemory};

    ghost from_gives = { λ _ fault. fault ≡ OutOfMemory };

    fn from(_: AllocError) -> TextFault {
        TextFault::OutOfMemory
    }
}
