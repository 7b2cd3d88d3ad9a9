//! Worked runs and verdicts: scenarios played from text to text, and traces with one thing changed.
//!
//! `specs/Texts.antt` has the scenarios and their traces, `specs/Runs.antt` says that the runs give these, and
//! `specs/Verdicts.antt` what is legal and which clause fails after each change. `specs/Small.antt` has short scenarios, by
//! whose traces a sentence each fails. Definitions alone.
#![tactic(auto)]

ghost use Rattle.example_runs.specs.Runs.{RunsAreAsWritten};
ghost use Rattle.example_runs.specs.Small.{SmallChangesAreIllegal, SmallRunsAreLegal};
ghost use Rattle.example_runs.specs.Verdicts.{ChangesAreIllegal, RunsAreLegal};

/// The runs of these scenarios give these traces, byte for byte.
pub fn runs_are_as_written()
    ensures { RunsAreAsWritten }
{}

/// Each run's trace is legal; with one thing changed it fails at the clause and the line that the rules say.
pub fn verdicts_are_as_said()
    ensures legal { RunsAreLegal }
    ensures illegal { ChangesAreIllegal }
{}

/// The traces of short runs are legal; with one thing changed a sentence fails, at the line that it names first.
pub fn small_verdicts_are_as_said()
    ensures legal { SmallRunsAreLegal }
    ensures illegal { SmallChangesAreIllegal }
{}
