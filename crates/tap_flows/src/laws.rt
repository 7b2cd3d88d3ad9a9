//! What ties the list of the flows to the finite map that it is, as contracts of functions that do nothing.

ghost use Rattle.tap_flows.specs.Laws.{ListsAreMaps, StepsAreOne};

/// Each list of flows in the order of their hashes is that of one finite map.
pub fn lists_are_maps()
    ensures { ListsAreMaps }
{}

/// Each step on the list is the step on the map.
pub fn steps_are_one()
    ensures { StepsAreOne }
{}
