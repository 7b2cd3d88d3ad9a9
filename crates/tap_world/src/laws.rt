//! What the definitions mean.

ghost use Rattle.tap_world.specs.Examples.{NoClaimWhenFull, RunHasTrace};
ghost use Rattle.tap_world.specs.Laws.{FramesAgree, LeaveInOrder, NameStandsOnce, OneOrder, UpgradeHasSameOrders};

/// A scenario has at most one order for each seed: its events, and the world that it ends in.
pub fn one_order()
    ensures { OneOrder }
{}

/// A scenario and its upgrade to version 2 have the same orders.
pub fn upgrade_has_same_orders()
    ensures { UpgradeHasSameOrders }
{}

/// In a sound world a name stands once.
pub fn name_stands_once()
    ensures { NameStandsOnce }
{}

/// Frames leave a line in the order placed.
pub fn leave_in_order()
    ensures { LeaveInOrder }
{}

/// What is told of frames by the parts of a shape is what is told by the shape.
pub fn frames_agree()
    ensures { FramesAgree }
{}

/// A worked run: its trace, and a claim that isn't allowed in its full ring, and is with one place more.
pub fn worked_run()
    ensures trace { RunHasTrace }
    ensures full { NoClaimWhenFull }
{}
