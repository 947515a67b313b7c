//! Laws about limits.
ghost use Rattle.kernel_limits.specs.Laws.{LimitsTogether};

/// The limits that are asked here, and those of expressions, are all limits of a kernel.
pub fn limits_together()
    ensures { LimitsTogether }
{}
