//! The law of the code of the one form. Its function does nothing, and its contract is the law.
ghost use Rattle.first_right.specs.Laws.{CodeIsRight};

/// The code of a kernel of the one form is right for it under all arguments that meet the kernel: it stores each word of the
/// input times the factor, as every respecting order of the kernel does.
pub fn code_is_right()
    ensures { CodeIsRight }
{}
