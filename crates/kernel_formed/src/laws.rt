//! Laws.
ghost use Rattle.kernel_formed.specs.Laws.{FileIsFormed, FileIsMade};

/// The kernel of a file in which no line is refused is formed.
pub fn file_is_formed()
    ensures { FileIsFormed }
{}

/// The kernel of a file in which no line is refused is made of the trees of its rules and instructions, and each of its
/// temporaries has a kind or is stored to.
pub fn file_is_made()
    ensures { FileIsMade }
{}
