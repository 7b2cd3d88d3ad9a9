//! One event of a run.

ghost use Rattle.std.specs.Prelude.{◌≡◌, ◌++◌, true, IfOk, IfSome, IsSome, slice_get};
ghost use Rattle.tap_core.specs.Applying.{HavePlaces, IsReady, WasDone, WasMade, acting_after, found_by, found_on, said_on};
ghost use Rattle.tap_core.specs.Telling.{IsApplied};
ghost use Rattle.tap_world.specs.ByNumber.{with_nth};
ghost use Rattle.tap_world.specs.Setup.{setup_of};
ghost use Rattle.tap_world.specs.Step.{is_allowed};

use crate::laws::events_are_applied;
use crate::run::{Core, current};
use crate::settle::settle;
use core_actors::Actors;
use core_events::make_next;
use core_shared::{Asked, Onward, Shared};
use scen_text::Scenario;
use std::alloc::{AllocError, Global};
use tap_trace::AnswerLine;
use tap_world::{Event, Found, Said};

impl<'s> Core<'s> {
    /// Makes an event, with the end of the detach that ends by it. It tells what the event found, or nothing where the
    /// event is the last of its command, whose answer then stands among those given.
    ///
    /// Where memory runs out the run is given up.
    pub fn apply(
        self,
        alloc: Global,
        event: &Event,
    ) -> Result<(Core<'s>, Option<Found>), AllocError>
        requires { is_allowed (setup_of self.scenario) self.world event.now ≡ true }
        ensures { IfOk result (λ made. IsApplied event.now self.entry made.0 made.1) }
    {
        events_are_applied();
        let Core {
            scenario,
            mut shared,
            mut actors,
            mut said,
            begun,
        } = self;
        match make_event(alloc, scenario, &mut shared, &mut actors, &mut said, event) {
            Ok(found) => {
                let core = Core {
                    scenario,
                    shared,
                    actors,
                    said,
                    begun,
                };
                Ok((core, found))
            }
            Err(error) => {
                shared.abandon();
                actors.abandon();
                Err(error)
            }
        }
    }
}

// Makes the event, and the end of the detach that ends by it.
fn make_event(
    alloc: Global,
    scenario: &Scenario,
    shared: &mut Shared,
    actors: &mut Actors,
    said: &mut Vec<Said>,
    event: &Event,
) -> Result<Option<Found>, AllocError>
    requires ready { IsReady scenario.now shared.old actors.old event.now }
    requires places { HavePlaces scenario.now shared.old actors.old }
    ensures { IfOk result (λ found. WasDone scenario.now event.now shared.old shared.new actors.old actors.new
        said.old.items said.new.items found) }
{
    let onward = step(alloc, scenario, shared, actors, event)?;
    let found = go_on(actors, said, shared.phase, event, onward)?;
    let ended = settle(scenario, shared, actors, said)?;
    Ok(found_where(ended, event.actor, found))
}

// What an event found, where its command doesn't end by the end of this actor's detach.
fn found_where(ended: Option<u16>, actor: u16, found: Option<Found>) -> Option<Found>
    ensures { result ≡ found_by ended actor found }
{
    match ended {
        Some(other) if other == actor => None,
        Some(_) | None => found,
    }
}

// Makes the next event of an actor's command, which is taken out of the actor.
fn step(
    alloc: Global,
    scenario: &Scenario,
    shared: &mut Shared,
    actors: &mut Actors,
    event: &Event,
) -> Result<Onward, AllocError>
    requires { IsReady scenario.now shared.old actors.old event.now }
    ensures { IfOk result (λ onward. WasMade scenario.now event.now.actor shared.old shared.new actors.old actors.new
        onward) }
{
    let line = current(scenario, shared.phase, actors, event.actor).unwrap();
    let state = actors.actor_mut(event.actor);
    let asked = Asked::new(
        scenario,
        event.actor,
        line.number,
        &line.command,
        state.seen(),
    );
    let doing = state.take();
    make_next(shared, alloc, &asked, doing)
}

// The actor's command goes on, or has answered.
fn go_on(
    actors: &mut Actors,
    said: &mut Vec<Said>,
    phase: u32,
    event: &Event,
    onward: Onward,
) -> Result<Option<Found>, AllocError>
    requires { IsSome (slice_get actors.old event.now.actor) }
    ensures found { IfOk result (λ found. found ≡ found_on onward) }
    ensures actors { IfOk result (λ _. IfSome (slice_get actors.old event.now.actor) (λ a. actors.new
        ≡ with_nth event.now.actor (acting_after onward a) actors.old)) }
    ensures said { IfOk result (λ _. said.new.items
        ≡ said.old.items ++ said_on onward phase event.now.actor event.now.command) }
{
    let state = actors.actor_mut(event.actor);
    match onward {
        Onward::Goes { seen, doing, found } => {
            state.go_on(seen, doing);
            Ok(Some(found))
        }
        Onward::Ends { seen, answer } => {
            state.end(seen);
            said.push(Said {
                phase,
                line: AnswerLine {
                    actor: event.actor,
                    command: event.command,
                    seen,
                    answer,
                },
            })?;
            Ok(None)
        }
    }
}
