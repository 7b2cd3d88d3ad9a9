//! What is steady in every run of a laid scenario: laws, each a function that does nothing. The statements stand in
//! `specs/`.
//!
//! `tap_world/specs/Steady.antt` says in eleven parts what holds beside what is sound. Each world that a run reaches is
//! steady (`specs/Runs.antt`), since each part is kept (`specs/Part.antt`): it holds at the opening, as a phase begins,
//! and after every event of a sound and steady world. `specs/Tables.antt` says what holds of the table alone.
#![tactic(auto)]

ghost use Rattle.std.specs.List.{AllByRecursion};
ghost use Rattle.std.specs.Prelude.{◌≡◌, None};
ghost use Rattle.tap_steady.specs.Part.{IsPart};
ghost use Rattle.tap_steady.specs.Runs.{ReachedIsSteady, RunIsSteady};
ghost use Rattle.tap_steady.specs.Tables.{TablesAreSound};
ghost use Rattle.tap_world.specs.Each.{EachActor, EachFile};
ghost use Rattle.tap_world.specs.Effect.{ending};
ghost use Rattle.tap_world.specs.Steady.{AreOperations, HasFound, HasItsCuts, HasItsPlace, HasItsTurn, IsStillLawful, IsThere, IsTold, NamesWhatIsThere, WasSent};

// ---- what is promised

/// Each world that a run of a laid scenario reaches is steady, between phases and in them, and the one that it ends in.
pub fn runs_are_steady()
    ensures reached { ReachedIsSteady }
    ensures ended { RunIsSteady }
{
    tap_sound::worlds_go_on();
    scen_laid::laid_runs_are_sound();
    what_is_there_stays();
    what_is_named_is_there();
    places_are_kept();
    what_is_to_be_published_stays_lawful();
    turns_are_kept();
    entries_were_sent();
    what_commands_found_stays();
    told_is_kept();
    operations_are_of_commands();
    cuts_are_kept();
    ending_is_kept();
}

/// The queue table is sound that lawful operations of a laid scenario's commands make.
pub fn tables_are_sound()
    ensures { TablesAreSound }
{
    tap_steer::names_stay();
    tap_steer::reached_is_sound();
}

// ---- the eleven parts

/// Part 1: files, guests and vhosts stay the declared ones.
pub fn what_is_there_stays()
    ensures { IsPart (λ s w. IsThere s w) }
{}

/// Part 2: what commands name, what the table has attached and backed, and what commands under way are about is
/// declared.
pub fn what_is_named_is_there()
    ensures { IsPart (λ s w. NamesWhatIsThere s w) }
{
    tap_steer::rows_are_enabled();
    tables_are_sound();
}

/// Part 3: an actor that has a place has the entry there, which it claimed.
pub fn places_are_kept()
    ensures { IsPart (λ s w. EachActor w (HasItsPlace w)) }
{}

/// Part 4: what the command that holds the writer is to publish stays lawful.
pub fn what_is_to_be_published_stays_lawful()
    ensures { IsPart (λ s w. IsStillLawful s w) }
{}

/// Part 5: each turn under way has its ring, its file and its frame, and is ready for its next step.
pub fn turns_are_kept()
    ensures { IsPart (λ s w. EachActor w (HasItsTurn s w)) }
{
    vring_turns::receive_standing();
    vring_turns::receive_ready();
    vring_turns::transmit_ready();
}

/// Part 6: each entry is the frame of a send, under its name, and keeps no more bytes than that has.
pub fn entries_were_sent()
    ensures { IsPart (λ s w. EachFile w (λ file f. AllByRecursion (WasSent s) f.line)) }
{}

/// Part 7: what a command found stays so at the version that its actor has seen, and it has published no more than it
/// says and what it learnt.
pub fn what_commands_found_stays()
    ensures { IsPart (λ s w. EachActor w (λ actor a. HasFound s w a)) }
{}

/// Part 8: an actor's commands are answered one after another, each once, and those of earlier phases all.
pub fn told_is_kept()
    ensures { IsPart (λ s w. IsTold s w) }
{}

/// Part 9: each operation is that of a command of its phase, which has ended or is the present one, and was lawful.
pub fn operations_are_of_commands()
    ensures { IsPart (λ s w. AreOperations s w) }
{}

/// Part 10: a resize under way has the capacity that it asks for, and cuts entries from its claim count down.
pub fn cuts_are_kept()
    ensures { IsPart (λ s w. EachActor w (HasItsCuts s w)) }
{}

/// Part 11: a detach whose gate is shut and whose file is empty has ended.
pub fn ending_is_kept()
    ensures { IsPart (λ s w. ending w ≡ None) }
{}
