//! How what stands of a turn is what a worker needs, as the contract of a function that does nothing.
ghost use Rattle.vhost_rx.specs.Worker.{ReadyTurnsHaveChains};

/// Where a turn and its ring stand rightly between two steps, and the turn is ready for its next one, its frame and its
/// chains are as a worker's stage says.
pub fn ready_turns_have_chains()
    ensures { ReadyTurnsHaveChains }
{}
