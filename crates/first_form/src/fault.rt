//! Why a file is not read.
use affine_rows::Name;
use std::alloc::AllocError;

/// Why a file is not read.
#[derive(Debug, Drop)]
pub enum FormFault {
    /// There is no memory.
    OutOfMemory,
    /// The file is not of the form: the first line, counted from 1, that differs from the form with the names that the
    /// lines before it fixed, and the first name or reserved word in that line, or `-`. A line that is missing differs,
    /// as does one without its line feed, and a sixth line.
    NotBuilt { line: u32, word: Name },
}

impl From<AllocError> for FormFault {
    ghost use Rattle.std.specs.Prelude.{◌≡◌};
    ghost use Rattle.first_form.specs.declared.fault.FormFault.TheVariants.{OutOfMemory};

    ghost from_gives = { λ _ fault. fault ≡ OutOfMemory };

    fn from(_: AllocError) -> FormFault {
        FormFault::OutOfMemory
    }
}
