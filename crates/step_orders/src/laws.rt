ghost use Rattle.step_orders.specs.Orders.{LikeOrdersAgree, RespectingOrdersAgree};

/// The law of like orders, for steps `X` on cells `C` that hold words `W`.
///
/// Two lists of the same steps, each once, leave the same store, where any two steps that they
/// order otherwise are free of conflict. So do two lists that respect a direct order, where any
/// two steps that this order leaves open are free of conflict.
pub fn like_orders<X, C, W>()
    ensures lists { LikeOrdersAgree X C W }
    ensures orders { RespectingOrdersAgree X C W }
{}
