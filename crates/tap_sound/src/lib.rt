//! What is true of every run of a scenario: laws, each a function that does nothing. The statements stand in `specs/`.
//!
//! The first eight carry what is promised. A run's events are the scripts of its commands, the run of a seed is a run,
//! and nothing is left undone (`specs/Laws.antt`); each world that a run reaches is sound, in ten parts
//! (`specs/SoundRuns.antt`), since every event keeps a sound world sound (`specs/Soundness.antt`); worlds lead from one
//! to the next (`specs/Worlds.antt`, which says which a run reaches); events have new names (`specs/Fresh.antt`); and
//! what a trace tells of published chains is counted (`specs/Used.antt`). `specs/Keeps.antt` says what it is that every
//! event keeps a fact.
//!
//! The others are steps on the way: one or a few of the ten parts each, with the parts of the world before that they
//! rest on (`specs/Kept.antt`, `specs/Names.antt`, `specs/Room.antt`, `specs/Hand.antt`, `specs/Held.antt`,
//! `specs/Tabled.antt`, `specs/Served.antt`, `specs/Reached.antt`). The proofs begin with `proofs/Kit.antt` and
//! `proofs/Taken.antt`, which take a step apart.
#![tactic(auto)]

ghost use Rattle.tap_sound.specs.Fresh.{NamesAreNew};
ghost use Rattle.tap_sound.specs.Hand.{HandIsKept, HandIsOwnersInRuns};
ghost use Rattle.tap_sound.specs.Held.{HoldersAreKept};
ghost use Rattle.tap_sound.specs.Kept.{ClaimsAreKept, EpochsAreKept, LinesAreKept, RoomIsKept, ShutIsKept, StandsAreKept, VersionsAreKept};
ghost use Rattle.tap_sound.specs.Laws.{AllIsDone, EventsAreScripts, EventsBeginScripts, OrderIsRun};
ghost use Rattle.tap_sound.specs.Names.{NamesAreKept, NamesStandAfterRuns, NamesStandInRuns};
ghost use Rattle.tap_sound.specs.Reached.{PhaseIsKept, ReachedIsKept, RunIsKept};
ghost use Rattle.tap_sound.specs.Room.{RoomIsAlwaysKept};
ghost use Rattle.tap_sound.specs.Served.{RingsAreKept};
ghost use Rattle.tap_sound.specs.SoundRuns.{ReachedIsSound, RunIsSound};
ghost use Rattle.tap_sound.specs.Soundness.{SoundnessIsKept};
ghost use Rattle.tap_sound.specs.Tabled.{TableIsKept};
ghost use Rattle.tap_sound.specs.Used.{UsedIsCounted};
ghost use Rattle.tap_sound.specs.Worlds.{EventsGoOn, LastIsRun, OpeningIsFirst, PhasesBegin, PhasesEnd, WorldsGoOn};

// ---- what is promised

/// In a run the events of each actor are the scripts of its commands, one after another; on the way to its end the last
/// of them may be the beginning of one.
pub fn events_are_scripts()
    ensures whole { EventsAreScripts }
    ensures so_far { EventsBeginScripts }
{}

/// The run that a seed picks is a run.
pub fn order_is_run()
    ensures { OrderIsRun }
{}

/// After a run no actor has a command left, and none is under way.
pub fn all_is_done()
    ensures { AllIsDone }
{}

/// Each world that a run reaches is sound, between phases and in them, and the one that it ends in, where declared
/// first places are at most 2^40 - 1 and each vhost's guest has a region.
pub fn runs_are_sound()
    ensures reached { ReachedIsSound }
    ensures ended { RunIsSound }
{
    vring_turns::receive_standing();
    vring_turns::transmit_standing();
    vhost_dev::rings_stay_good();
    vhost_dev::lists_stay_in_order();
}

/// For every event keeps a sound world sound, in all ten parts.
pub fn soundness_is_kept()
    ensures { SoundnessIsKept }
{
    vring_turns::receive_standing();
    vring_turns::transmit_standing();
    vhost_dev::rings_stay_good();
    vhost_dev::lists_stay_in_order();
}

/// The worlds that a run reaches lead from one to the next: from the first on phases begin, events go on and phases
/// end, and after the last phase it is a run. Each event of a world of a scenario leads to one.
pub fn worlds_go_on()
    ensures first { OpeningIsFirst }
    ensures begin { PhasesBegin }
    ensures event { EventsGoOn }
    ensures end { PhasesEnd }
    ensures last { LastIsRun }
    ensures reached { WorldsGoOn }
{}

/// No event of a world that a run reaches is refused for its names, where commands are numbered from 0 on.
pub fn names_are_new()
    ensures { NamesAreNew }
{}

/// In a sound world the k-th entry of a list of positions has the k-th position from the list's base on.
pub fn used_is_counted()
    ensures { UsedIsCounted }
{}

// ---- steps on the way

/// Every event keeps each line in order: epochs never fall along it, and its parts stand one behind the other.
pub fn lines_are_kept()
    ensures epochs { EpochsAreKept }
    ensures parts { LinesAreKept }
{}

/// Every event but the two that change a capacity keeps room in each line, where no actor has seen more versions than
/// there are.
pub fn room_is_kept()
    ensures { RoomIsKept }
{}

/// Every event keeps that no actor has seen more versions than there are.
pub fn versions_are_kept()
    ensures { VersionsAreKept }
{}

/// Every event keeps that each command has come no further than it can, and that an actor without one has begun none.
pub fn stands_are_kept()
    ensures { StandsAreKept }
{}

/// Every event keeps that a place which is claimed and not put belongs to an actor that is about to put it.
pub fn claims_are_kept()
    ensures { ClaimsAreKept }
{}

/// Every event keeps that nothing waits behind a shut gate, but where a detach is emptying the file.
pub fn shut_is_kept()
    ensures { ShutIsKept }
{}

/// Every event keeps that each command has come no further than it can, and that the writer and the rings' turns are
/// held exactly by the commands that hold them.
pub fn holders_are_kept()
    ensures { HoldersAreKept }
{}

/// Every event keeps what files and rings have of the queue table, but for the command that holds the writer, where
/// each command has come no further than it can and the writer is held by the command that holds it.
pub fn table_is_kept()
    ensures { TableIsKept }
{}

/// Every event keeps that the rings of vhosts are in order, and stand with the turns that serve them, where each
/// command has come no further than it can and turns are held by the commands that hold them.
pub fn rings_are_kept()
    ensures { RingsAreKept }
{
    vring_turns::receive_standing();
    vring_turns::transmit_standing();
    vhost_dev::rings_stay_good();
    vhost_dev::lists_stay_in_order();
}

/// Epochs, the order of lines, claims, shut gates, versions seen and how far commands have come hold in each world that
/// a run ends in or reaches, where declared first places are at most 2^40 - 1.
pub fn run_is_kept()
    ensures whole { RunIsKept }
    ensures phase { PhaseIsKept }
    ensures reached { ReachedIsKept }
{}

/// Every event keeps that each name stands at most once, and that each accepted name stands but between the event that
/// accepts it and the one that drops, places or hosts it. So it is in each world that a run reaches.
pub fn names_stand_once()
    ensures kept { NamesAreKept }
    ensures reached { NamesStandInRuns }
    ensures ended { NamesStandAfterRuns }
{}

/// Every event keeps room in each line, also the two that change a capacity, where files have what the table says, no
/// actor has seen more versions than there are and each command has come no further than it can.
pub fn room_is_always_kept()
    ensures { RoomIsAlwaysKept }
{}

/// Every event keeps that a frame in hand is the batch's front and its owner's, whose receive turn is under way with
/// this very frame, where each command has come no further than it can and lines are in their three parts. So it is in
/// each world that a run reaches.
pub fn hand_is_owners()
    ensures kept { HandIsKept }
    ensures reached { HandIsOwnersInRuns }
{}
