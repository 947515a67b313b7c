//! Laws about the trees of a file.
ghost use Rattle.kernel_kinds.specs.Laws.{TypedByTrees};

/// Where the trees of a file are not refused for kinds, the kernel that is made of them is not refused either.
pub fn typed_by_trees()
    ensures { TypedByTrees }
{}
