//! What a trace tells of, and which worlds can be told, as contracts of functions that do nothing.

ghost use Rattle.tap_told.specs.Laws.{OnlyPartsAreTold, SteadyCanBeTold};

/// The trace of a world is that of its operations, answers, files, guests and vhosts, whatever its other parts are.
pub fn only_parts_are_told()
    ensures { OnlyPartsAreTold }
{}

/// Each steady world of a laid scenario can be told.
pub fn steady_can_be_told()
    ensures { SteadyCanBeTold }
{}
