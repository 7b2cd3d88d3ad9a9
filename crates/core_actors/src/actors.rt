//! The actors of a phase.

ghost use Rattle.std.specs.Prelude.{◌≡◌, ◌<◌, ◌≤◌, [], replicate, IfOk, IfSome, IsSome, OnOk, Some, length, slice_get};
ghost use Rattle.std.specs.Borrow.{sem};
ghost use Rattle.std.specs.List.{AllByRecursion};
ghost use Rattle.std.specs.Option.{option_copied};
ghost use Rattle.tap_world.specs.ByNumber.{with_nth};
ghost use Rattle.core_actors.specs.Acting.{AreBeginning, idle, with_place};

use crate::actor::Actor;
use scen_text::Phase;
use scen_words::MAX_COMMANDS;
use std::alloc::{AllocError, Global};
use std::marker::Model;

/// The actors of a phase, by number.
///
/// To a contract it is the list of them. Their commands carry frames, so it can't be dropped: [`Actors::abandon`] ends
/// them.
pub struct Actors {
    items: Vec<Actor>,
}

impl Model for Actors {
    ghost use Rattle.std.specs.Prelude.{List};
    ghost use Rattle.tap_world.specs.ByNumber.{with_nth};
    ghost use Rattle.core_actors.specs.Acting.{Acting};

    ghost Value = { List Acting };

    ghost view = { λ a. a.items.items };
}

impl Actors {
    ghost use Rattle.core_actors.specs.Lending.{LendsActor};

    /// No actors.
    pub fn new(alloc: Global) -> Actors
        ensures { result ≡ [] }
    {
        Actors {
            items: Vec::new(alloc),
        }
    }

    /// The actors of a phase as it begins, each of which has seen this version. In one pass over its lines.
    pub fn of_phase(alloc: Global, phase: &Phase, seen: u64) -> Result<Actors, AllocError>
        requires actors { AllByRecursion (λ l. l.actor < phase.now.actors) phase.now.lines }
        requires few { length phase.now.lines ≤ MAX_COMMANDS }
        ensures { IfOk result (λ actors. AreBeginning phase.now seen actors) }
    {
        let mut actors = Actors::of(alloc, phase.actors, seen)?;
        for (place, line) in phase.lines.as_slice().iter().enumerate() {
            if let Err(error) = actors.add(line.actor, place as u32) {
                actors.abandon();
                return Err(error);
            }
        }
        Ok(actors)
    }

    // An actor has one command more, behind its others.
    fn add(&mut self, actor: u16, place: u32) -> Result<(), AllocError>
        requires { IsSome (slice_get self.old actor) }
        ensures { OnOk result (IfSome (slice_get self.old actor) (λ a. self.new
            ≡ with_nth actor (with_place place a) self.old)) }
    {
        self.actor_mut(actor).push(place)
    }

    // So many actors without commands.
    fn of(alloc: Global, count: u16, seen: u64) -> Result<Actors, AllocError>
        ensures { IfOk result (λ actors. actors ≡ replicate count (idle seen)) }
    {
        let mut actors = Actors::new(alloc);
        for _ in 0..count {
            if let Err(error) = actors.items.reserve(1) {
                actors.abandon();
                return Err(error);
            }
            actors.items.push_reserved(Actor::new(alloc, seen));
        }
        Ok(actors)
    }

    /// How many there are.
    pub fn len(&self) -> usize
        ensures { result ≡ length self.now }
    {
        self.items.len()
    }

    /// The actors, the first one first.
    pub fn items(&self) -> &[Actor]
        ensures { result.now ≡ self.now }
    {
        self.items.as_slice()
    }

    /// The actor of a number, if there is one.
    pub fn get(&self, actor: u16) -> Option<&Actor>
        ensures { option_copied result ≡ slice_get self.now actor }
    {
        self.items.get(usize::from(actor))
    }

    /// The actor of a number, to be changed.
    pub fn actor_mut(&mut self, actor: u16) -> &mut Actor
        requires { IsSome (slice_get self.old actor) }
        ensures* lends { sem 𝓛 (LendsActor self.entry actor result) }
        ensures value { slice_get self.old actor ≡ Some result.now }
    {
        &mut self.items[usize::from(actor)]
    }

    /// Ends the frames that their commands carry.
    pub fn abandon(self) {
        let Actors { mut items } = self;
        while let Some(actor) = items.pop() {
            actor.abandon();
        }
        items.destroy_empty();
    }
}
