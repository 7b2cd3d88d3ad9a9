//! A law on steps, as the contract of a function that does nothing.

ghost use Rattle.vhost_step.specs.Transmit.{GivesAlone};

/// A step that gives a frame to the host changes the turn and the host alone, and the turn goes on, where something is
/// done and not published: the chain of that frame is.
pub fn gives_alone()
    ensures { GivesAlone }
{}
