//! Laws about valid kernels.
ghost use Rattle.kernel_ir.specs.Laws.{DoublingIsValid, DoublingNeedsItsIname};

/// A kernel of one instruction, `out[i] = 2*a[i]`, is valid, and is not without its iname.
pub fn a_small_kernel_is_valid()
    ensures valid { DoublingIsValid }
    ensures iname { DoublingNeedsItsIname }
{}
