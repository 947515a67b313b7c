//! Laws about kinds.
ghost use Rattle.type_infer.specs.Laws.{KindsAreWithoutFault, TestKindsAreWithoutFault};
ghost use Rattle.type_infer.specs.Rows.{CastIsNoInt32, FiveHasNoKind, LiteralIsTooLarge, RuleAtTwoKinds};

/// In a kernel of which all temporaries have kinds, an expression or a test has a kind exactly where it has no fault at it.
pub fn kinds_are_without_fault()
    ensures expressions { KindsAreWithoutFault }
    ensures tests { TestKindsAreWithoutFault }
{}

/// How four small expressions and kernels are refused, and one that is not.
pub fn small_rows()
    ensures cast { CastIsNoInt32 }
    ensures literal { LiteralIsTooLarge }
    ensures rule { RuleAtTwoKinds }
    ensures temporary { FiveHasNoKind }
{}
