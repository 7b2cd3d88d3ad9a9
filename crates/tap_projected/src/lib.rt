//! What the trace of a finished run has of the world that it ended in: laws, each a function that does nothing. The
//! statements stand in `specs/`.
//!
//! `specs/Projected.antt` says what the trace tells of a world, line by line: its operations, answers, files, guests
//! and rings, how the world's part behind a line is found, and the line of a part. `specs/Laws.antt` says that it is so
//! at the end of each run of a laid scenario, and what of the form that `tap_sights` asks for follows from it: that the
//! trace is shaped, and what its files and entries tell.
#![tactic(auto)]

ghost use Rattle.tap_projected.specs.Laws.{AnswersAreProjected, EntriesAreBehind, FilesAreProjected, FilesTell, GuestsAreProjected, OpsAreProjected, RingsAreDeclared, RingsAreProjected, RunsAreProjected, RunsAreShaped, VersionsAreNumbered};

// ---- line by line

/// The operations of a run's trace are those of its last world, by version, each with its words and its command; and
/// the tables of the trace are the world's.
pub fn operations_are_projected()
    ensures { OpsAreProjected }
{
    tap_steady::runs_are_steady();
}

/// The answers of a run's trace are those that were given, and no command is answered twice.
pub fn answers_are_projected()
    ensures { AnswersAreProjected }
{
    tap_sound::all_is_done();
    tap_steady::runs_are_steady();
}

/// The parts of files are those of the world's files, and the entries of each are its line.
pub fn files_are_projected()
    ensures { FilesAreProjected }
{}

/// The guests are the world's, each with its steps.
pub fn guests_are_projected()
    ensures { GuestsAreProjected }
{}

/// The rings are both of each vhost of the world, each with its lists of positions.
pub fn rings_are_projected()
    ensures { RingsAreProjected }
{}

/// So the trace of a run is its last world, line by line.
pub fn runs_are_projected()
    ensures { RunsAreProjected }
{
    operations_are_projected();
    answers_are_projected();
    files_are_projected();
    guests_are_projected();
    rings_are_projected();
}

// ---- what sights ask of a trace's form

/// The trace of a run is shaped: commands are numbered, the parts are the scenario's, and each command has one answer,
/// in order.
pub fn runs_are_shaped()
    ensures { RunsAreShaped }
{
    tap_sound::all_is_done();
    tap_steady::runs_are_steady();
}

/// Its operations are numbered by their versions.
pub fn versions_are_numbered()
    ensures { VersionsAreNumbered }
{
    operations_are_projected();
}

/// Each of its files has its places, CLAIMED, FREED and room.
pub fn files_tell()
    ensures { FilesTell }
{
    tap_sound::all_is_done();
    tap_steady::runs_are_steady();
    scen_laid::laid_runs_are_sound();
    operations_are_projected();
    files_are_projected();
}

/// Along each of its files epochs don't fall, and behind an entry that waits all wait that aren't cut.
pub fn entries_are_behind()
    ensures { EntriesAreBehind }
{
    scen_laid::laid_runs_are_sound();
}

/// Its rings are both of each declared vhost.
pub fn rings_are_declared()
    ensures { RingsAreDeclared }
{
    tap_steady::runs_are_steady();
}
