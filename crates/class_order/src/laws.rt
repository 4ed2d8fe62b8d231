ghost use Rattle.class_order.specs.Orders.{ClassOrderIsRight};

/// In a closed set each class of a file has one number, behind those of the files' classes that stand directly above it.
pub fn class_order_is_right()
    ensures { ClassOrderIsRight }
{}
