//! Kernels and what they store, worked by hand. Each function does nothing, and its contract is the law.
ghost use Rattle.worked_rows.specs.EmptySum.{FirstSumIsEmpty};
ghost use Rattle.worked_rows.specs.RuleUses.{UsesAreBodies};
ghost use Rattle.worked_rows.specs.Temporary.{ReadsAreOfStores};
ghost use Rattle.worked_rows.specs.TwoWriters.{SecondWriterIsLast};
ghost use Rattle.worked_rows.specs.Update.{UpdatesAddUp};

/// Of two writers of one cell, the second of which depends on the first, the second leaves its word.
pub fn two_writers()
    ensures { SecondWriterIsLast }
{}

/// Two updates of one cell without an order between them add up.
pub fn update()
    ensures { UpdatesAddUp }
{}

/// A read of a temporary is of the word that the instance with the same iname stored, on which it depends.
pub fn temporary()
    ensures { ReadsAreOfStores }
{}

/// A sum over the numbers below each number is 0 at the first, where it has no point.
pub fn empty_sum()
    ensures { FirstSumIsEmpty }
{}

/// A use of a rule stands for the rule's body at its argument.
pub fn rule_uses()
    ensures { UsesAreBodies }
{}
