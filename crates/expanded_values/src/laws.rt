//! Laws of expanded kernels. Each function does nothing, and its contract is the law.
ghost use Rattle.expanded_values.specs.Laws.{ExpansionIsFormed, ExpansionIsValid, ExpansionKeepsValues, InstancesHaveParams};

/// In a formed kernel whose uses of rules have as many arguments as the rules have parameters each value and each
/// predicate of an instruction means, expanded, in the expanded kernel what it means in the kernel, in each scene with the
/// arguments' parameters; the scenes of instances are such.
pub fn expansion_keeps_values()
    ensures values { ExpansionKeepsValues }
    ensures instances { InstancesHaveParams }
{}

/// Where nothing refuses the expansion of a formed kernel, the expanded kernel is formed, uses no rules and is within the
/// limits; and that of a valid kernel is valid.
pub fn expansion_is_valid()
    ensures formed { ExpansionIsFormed }
    ensures valid { ExpansionIsValid }
{}
