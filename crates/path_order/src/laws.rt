//! A law of orders: a call of it does nothing, and tells the caller's proof what it ensures.

ghost use Rattle.path_order.specs.Marked.{OrdersAreWhole};

/// An order along the marks of a path has each net once, behind those that it depends on.
pub fn orders_are_whole()
    ensures { OrdersAreWhole }
{}
