//! What the definition of a legal trace means.

ghost use Rattle.tap_legal.specs.Laws.{LegalWhereNoneFails, OtherNameIsIllegal, UpgradeHasSameTraces, WorkedIsLegal};

/// A scenario and its upgrade to version 2 have the same legal traces.
pub fn upgrade_has_same_traces()
    ensures { UpgradeHasSameTraces }
{}

/// A trace is legal where no sentence of any clause fails.
pub fn legal_where_none_fails()
    ensures { LegalWhereNoneFails }
{}

/// Worked verdicts: on the trace of a run, and on the same with one name changed.
pub fn worked_verdicts()
    ensures legal { WorkedIsLegal }
    ensures illegal { OtherNameIsIllegal }
{}
