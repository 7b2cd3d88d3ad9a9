//! What holds of a bridge, and worked examples, as contracts of functions that do nothing.
ghost use Rattle.tap_bridge.specs.Laws.{TablesAreSound, AnswersAreSound};
ghost use Rattle.tap_bridge.specs.Examples.{Frames, Ages, Full};

/// After any frames no address stands twice in the table, and there are at most 4,096. No port stands
/// twice in an answer, each is one of the ports that are there, and none is that at which the frame
/// came in.
pub fn bridges_are_sound()
    ensures tables { TablesAreSound }
    ensures answers { AnswersAreSound }
{}

/// What is learnt, where frames go, what goes away, and what a full table does.
pub fn bridge_examples()
    ensures frames { Frames }
    ensures ages { Ages }
    ensures full { Full }
{}
