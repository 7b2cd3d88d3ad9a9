//! What ties spelling, cases and text together, as contracts of functions that do nothing.

ghost use Rattle.tap_frame.specs.Laws.{FaultlessIsSpelled, SpelledIsFaultless, SpelledOnce, TextSpellsFrame, StretchedAfterCut};

/// No case holds of bytes exactly where they spell some frame, and then they spell one alone.
pub fn spelling_laws()
    ensures faultless_is_spelled { FaultlessIsSpelled }
    ensures spelled_is_faultless { SpelledIsFaultless }
    ensures spelled_once { SpelledOnce }
{}

/// A whole text of which no case holds spells the frame again, and its header where the shape has
/// one.
pub fn text_laws()
    ensures { TextSpellsFrame }
{}

/// A frame that was cut and then stretched has as many of its first bytes as the stretch says, and
/// no more than it was made with.
pub fn frame_laws()
    ensures { StretchedAfterCut }
{}
