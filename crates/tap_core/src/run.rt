//! A scenario that is being run.

ghost use Rattle.std.specs.Prelude.{◌≡◌, IfOk, is_none, length, slice_get};
ghost use Rattle.std.specs.List.{list_all};
ghost use Rattle.std.specs.Option.{option_copied};
ghost use Rattle.scen_laid.specs.Laid.{IsLaid};
ghost use Rattle.tap_sound.specs.Worlds.{IsWorldOf};
ghost use Rattle.tap_core.specs.Carried.{IsPendingAt, held_in, pending_in};
ghost use Rattle.tap_core.specs.Running.{current_line};
ghost use Rattle.tap_core.specs.Telling.{next_told};
ghost use Rattle.tap_world.specs.Runs.{has_ended, next, opening};
ghost use Rattle.tap_world.specs.Setup.{setup_of};
ghost use Rattle.tap_world.specs.World.{table};

use crate::next::Next;
use core_actors::{Actor, Actors};
use core_next::{may_go, next_kind};
use core_open::open;
use core_shared::{Doing, Shared};
use scen_text::{Line, Scenario};
use std::alloc::{AllocError, Global};
use std::marker::Model;
use tap_frame::Frame;
use tap_steer::Steer;
use tap_world::{Event, Said};

/// A scenario that is being run.
///
/// To a contract it is the scenario, how many of its phases have begun, and the world that its run has come to. It has
/// frames, so it can't be dropped: [`Core::abandon`] ends them.
pub struct Core<'s> {
    pub(crate) scenario: &'s Scenario,
    pub(crate) shared: Shared,
    pub(crate) actors: Actors,
    pub(crate) said: Vec<Said>,
    pub(crate) begun: u32,
}

impl<'s> Model for Core<'s> {
    ghost use Rattle.tap_core.specs.Kept.{KeepsRunning, running_of};
    ghost use Rattle.tap_core.specs.Running.{Running};

    ghost Value = { Running };

    ghost view = { running_of };

    ghost invariant = { KeepsRunning };
}

impl<'s> Core<'s> {
    /// A scenario before its first phase: what it declares is there, and nothing has happened.
    pub fn new(alloc: Global, scenario: &'s Scenario) -> Result<Core<'s>, AllocError>
        requires { IsLaid scenario.now }
        ensures { IfOk result (λ core. core
            ≡ record { scenario = scenario.now; begun = 0; world = opening (setup_of scenario.now) }) }
    {
        Ok(Core {
            scenario,
            shared: open(alloc, scenario)?,
            actors: Actors::new(alloc),
            said: Vec::new(alloc),
            begun: 0,
        })
    }

    /// The scenario is laid, and a run of it reaches the world.
    pub fn is_running(&self)
        ensures laid { IsLaid self.now.scenario }
        ensures reached { IsWorldOf self.now.scenario self.now.world }
    {
        tap_sound::worlds_go_on();
        let _ = &self.scenario;
    }

    /// How many phases have begun.
    pub fn begun(&self) -> u32
        ensures { result ≡ self.now.begun }
    {
        self.begun
    }

    /// Whether every command of the phase has ended.
    pub fn has_ended(&self) -> bool
        ensures { result ≡ has_ended self.now.world }
    {
        have_ended(self.actors.items())
    }

    /// How many actors the phase has.
    pub fn actors(&self) -> u16
        ensures { result ≡ length self.now.world.actors }
    {
        self.actors.len() as u16
    }

    /// The newest queue table.
    pub fn table(&self) -> &Steer
        ensures { result.now ≡ table (setup_of self.now.scenario) self.now.world }
    {
        self.shared.ops.table()
    }

    /// The answers given so far, the first one first.
    pub fn said(&self) -> &[Said]
        ensures { result.now ≡ self.now.world.said }
    {
        self.said.as_slice()
    }

    /// What an actor does next.
    pub fn next(&self, actor: u16) -> Next
        ensures { next_told result ≡ next (setup_of self.now.scenario) self.now.world actor }
    {
        tap_sound::worlds_go_on();
        tap_waits::runs_go_on();
        let Some(state) = self.actors.get(actor) else {
            return Next::Ended;
        };
        let Some(line) = current(self.scenario, self.shared.phase, &self.actors, actor) else {
            return Next::Ended;
        };
        let Some(kind) = next_kind(&self.shared, state.doing(), &line.command) else {
            return Next::Waits;
        };
        if may_go(&self.shared, actor, state.doing(), &line.command) {
            Next::Does(Event {
                actor,
                command: line.number,
                kind,
            })
        } else {
            Next::Waits
        }
    }

    /// The frame that an actor's command under way has accepted, and that stands nowhere yet: that of a send which has a
    /// row, of a write that is to be given to the host, or of a transmit turn that is to give it.
    pub fn pending(&self, actor: u16) -> Option<&Frame>
        ensures { IsPendingAt (setup_of self.now.scenario) actor (slice_get self.now.world.actors actor)
            (option_copied result) }
    {
        tap_sound::worlds_go_on();
        scen_laid::laid_runs_are_sound();
        pending_in(&self.shared, self.actors.get(actor)?.doing())
    }

    /// Ends each frame that the run has.
    pub fn abandon(self) {
        let Core {
            scenario: _,
            shared,
            actors,
            said: _,
            begun: _,
        } = self;
        shared.abandon();
        actors.abandon();
    }
}

// Whether no actor has a command left.
fn have_ended(actors: &[Actor]) -> bool
    ensures { result ≡ list_all (λ a. is_none (slice_get a.script 0)) actors.now }
{
    actors.iter().all(|actor| actor.current().is_none())
}

// The frame that a transmit turn is to give.
fn held_in(shared: &Shared, vhost: u16) -> Option<&Frame>
    ensures { option_copied result ≡ held_in shared.now.vhosts vhost }
{
    shared.vhosts.get(vhost)?.tx_worker()?.held()
}

// The frame that a command has accepted and that isn't placed, given to the host or dropped yet.
fn pending_in<'a>(shared: &'a Shared, doing: &'a Doing) -> Option<&'a Frame>
    ensures { option_copied result ≡ pending_in shared.now.vhosts doing.now }
{
    match doing {
        Doing::Routed { frame, .. } | Doing::Hosts { frame, .. } => Some(frame),
        Doing::Transmits { vhost, .. } => held_in(shared, *vhost),
        Doing::Begun
        | Doing::Placed { .. }
        | Doing::Changes { .. }
        | Doing::Opens { .. }
        | Doing::Opened { .. }
        | Doing::Withdraws { .. }
        | Doing::Withdrawn { .. }
        | Doing::Purges { .. }
        | Doing::Resizes { .. }
        | Doing::Shrinks { .. }
        | Doing::Reads { .. }
        | Doing::Learns { .. }
        | Doing::Backs { .. }
        | Doing::Backed { .. }
        | Doing::Owns { .. }
        | Doing::Unbacked { .. }
        | Doing::Disowned { .. }
        | Doing::Released { .. }
        | Doing::Receives { .. }
        | Doing::Given { .. }
        | Doing::Teaches { .. } => None,
    }
}

// The line of an actor's first command.
pub(crate) fn current<'s>(
    scenario: &'s Scenario,
    phase: u32,
    actors: &Actors,
    actor: u16,
) -> Option<&'s Line>
    ensures { option_copied result ≡ current_line scenario.now phase actors.now actor }
{
    let place = actors.get(actor)?.current()?;
    let phase = scenario.phases.get(phase as usize)?;
    phase.lines.get(place as usize)
}
