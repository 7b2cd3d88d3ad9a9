//! What a queue's calls leave of its line, as the contract of a function that does nothing.

ghost use Rattle.tap_ledger.specs.Laws.{HandExtendsLine, PutBackKeepsLine, FinishKeepsLine};

/// No call on a queue loses a frame or changes the order of its line.
pub fn queue_laws()
    ensures hand { HandExtendsLine }
    ensures put_back { PutBackKeepsLine }
    ensures finish { FinishKeepsLine }
{}
