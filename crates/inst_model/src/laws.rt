//! Laws about kernels.
ghost use Rattle.inst_model.specs.Sound.{RespectingOrdersStoreAlike};

/// All respecting orders of a kernel without unordered conflicts store the same.
pub fn orders_store_alike()
    ensures { RespectingOrdersStoreAlike }
{}
