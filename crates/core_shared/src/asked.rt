//! A command of an actor.

ghost use Rattle.std.specs.Prelude.{◌≡◌};
ghost use Rattle.tap_world.specs.World.{name_of};

use scen_text::Scenario;
use scen_words::Command;
use std::marker::Model;
use tap_frame::Name;

/// A command of an actor of a scenario, with its number, and the newest version that the actor has seen.
#[derive(Drop)]
pub struct Asked<'s> {
    scenario: &'s Scenario,
    actor: u16,
    number: u32,
    command: &'s Command,
    seen: u64,
}

impl<'s> Model for Asked<'s> {
    ghost use Rattle.core_shared.specs.Asking.{Asking};
    ghost use Rattle.core_shared.specs.Kept.{asking_of};

    ghost Value = { Asking };

    ghost view = { asking_of };
}

impl<'s> Asked<'s> {
    /// The command of this number of an actor, who has seen this version.
    pub fn new(
        scenario: &'s Scenario,
        actor: u16,
        number: u32,
        command: &'s Command,
        seen: u64,
    ) -> Asked<'s>
        ensures { result ≡ record {
          scenario = scenario.now;
          actor = actor;
          number = number;
          command = command.now;
          seen = seen;
        } }
    {
        Asked {
            scenario,
            actor,
            number,
            command,
            seen,
        }
    }

    /// The scenario.
    pub fn scenario(&self) -> &'s Scenario
        ensures { result.now ≡ self.now.scenario }
    {
        self.scenario
    }

    /// The number of the actor in its phase, from 0.
    pub fn actor(&self) -> u16
        ensures { result ≡ self.now.actor }
    {
        self.actor
    }

    /// The number of the command, from 0 over the whole scenario.
    pub fn number(&self) -> u32
        ensures { result ≡ self.now.number }
    {
        self.number
    }

    /// The command.
    pub fn command(&self) -> &'s Command
        ensures { result.now ≡ self.now.command }
    {
        self.command
    }

    /// The newest version that the actor has seen.
    pub fn seen(&self) -> u64
        ensures { result ≡ self.now.seen }
    {
        self.seen
    }

    /// The name of the only frame of the command.
    pub fn name(&self) -> Name
        ensures { result ≡ name_of self.now.actor self.now.number }
    {
        Name {
            actor: self.actor,
            turn: self.number,
            part: 0,
        }
    }
}
