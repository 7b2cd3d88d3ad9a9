//! What a run leaves behind by which its trace is legal: laws, each a function that does nothing.
//!
//! `specs/Sights.antt` has the one record, `Sighted`: of each command the sights that its actor had before it and after
//! it, as numbers of the trace (`specs/Sight.antt`); what each answer tells between them (`specs/Tells.antt`); what
//! operations, files and entries tell (`specs/LineFacts.antt`); and what is done on each guest, as a list of acts with
//! what each was handed (`specs/Acts.antt`, `specs/GuestFacts.antt`). Nothing in it speaks of worlds, events or
//! threads: whoever makes runs delivers it. `specs/Laws.antt` says which clauses of a legal trace follow; two of them
//! read the replays of the guests, too, of which `specs/Replayed.antt` says what they need. `specs/Serves.antt` has the
//! file that a turn serves, by the acts.
#![tactic(auto)]

ghost use Rattle.tap_sights.specs.Example.{WorkedIsSighted};
ghost use Rattle.tap_sights.specs.Laws.{AnswersAreLegal, CutsAreAllTold, DropsAreLegal, FatesAreLegal, GoneAreLegal, LinesAreLegal, TableIsLegal, TurnsServe, WaitsAreLegal};

/// What is sighted, with the replays of its guests, has a legal table: clause a doesn't fail.
pub fn table_is_legal()
    ensures { TableIsLegal }
{}

/// What is sighted has legal answers: clause b doesn't fail.
pub fn answers_are_legal()
    ensures { AnswersAreLegal }
{}

/// What is sighted has legal lines of its files: clause c doesn't fail.
pub fn lines_are_legal()
    ensures { LinesAreLegal }
{}

/// Of what is sighted the places that resizes cut, as clause c reckons them, are those of the entries that they cut.
pub fn cuts_are_told()
    ensures { CutsAreAllTold }
{}

/// What is sighted has legal drops of frames that found their ring full or its places spent: clause d doesn't fail.
pub fn drops_are_legal()
    ensures { DropsAreLegal }
{}

/// What is sighted has legal drops of frames that found their attachment gone: clause e doesn't fail.
pub fn gone_are_legal()
    ensures { GoneAreLegal }
{}

/// What is sighted has legal reads and turns that found no frame ready: clause f doesn't fail.
pub fn waits_are_legal()
    ensures { WaitsAreLegal }
{}

/// What is sighted, with the replays of its guests, has one fate for each frame: clause h doesn't fail.
pub fn fates_are_legal()
    ensures { FatesAreLegal }
{}

/// The file that a turn serves by the printed steps is the one that its ring has as its first step is printed.
pub fn turns_serve()
    ensures { TurnsServe }
{}

/// The worked run's trace is sighted.
pub fn worked_is_sighted()
    ensures { WorkedIsSighted }
{}
