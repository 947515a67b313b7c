//! The forms of files.

/// Which signs, comments and words a file has.
#[derive(Clone, Copy, Debug, PartialEq, Eq)]
pub enum Form {
    /// Kernel files, argument files and schedule files.
    Kernel,
    /// Marked Fortran blocks.
    Fortran,
    /// Scripts: each longest run of bytes without a blank, a comment or a line end is a word.
    Words,
}
