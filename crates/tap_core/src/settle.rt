//! The end of a detach whose file is empty.

ghost use Rattle.std.specs.Prelude.{◌≡◌, IfOk, MatchOption, IfSome, IsSome, OnOk, OnSome, slice_get};
ghost use Rattle.tap_core.specs.Applying.{HavePlaces, IsEnding, IsSettled, NoneEnds};

use crate::run::current;
use core_actors::Actors;
use core_shared::{Doing, Shared};
use scen_text::Scenario;
use std::alloc::AllocError;
use tap_trace::{Answer, AnswerLine};
use tap_world::Said;

// A detach that ends: its actor and number, what the actor has seen, and the version that the detach published.
#[derive(Clone, Copy)]
pub(crate) struct Detached {
    actor: u16,
    command: u32,
    seen: u64,
    version: u64,
}

// The detach whose file is empty now. It holds the writer.
fn ending(scenario: &Scenario, shared: &Shared, actors: &Actors) -> Option<Detached>
    requires { HavePlaces scenario.now shared.now actors.now }
    ensures { MatchOption result (NoneEnds scenario.now shared.now actors.now)
        (λ e. IsEnding scenario.now shared.now actors.now e) }
{
    let actor = shared.writer?;
    let state = actors.get(actor)?;
    let Doing::Purges { file, version } = state.doing() else {
        return None;
    };
    let line = current(scenario, shared.phase, actors, actor)?;
    if shared.files.has(*file) && shared.files.side(*file).is_empty() {
        Some(Detached {
            actor,
            command: line.number,
            seen: state.seen(),
            version: *version,
        })
    } else {
        None
    }
}

// The detach whose gate is shut and whose file is empty ends, whoever's event emptied it: it answers with its version,
// and gives back the writer. Tells its actor.
pub(crate) fn settle(
    scenario: &Scenario,
    shared: &mut Shared,
    actors: &mut Actors,
    said: &mut Vec<Said>,
) -> Result<Option<u16>, AllocError>
    requires { HavePlaces scenario.now shared.old actors.old }
    ensures { IfOk result (λ ended. IsSettled scenario.now shared.old shared.new actors.old actors.new said.old.items
        said.new.items ended) }
{
    let Some(ended) = ending(scenario, shared, actors) else {
        return Ok(None);
    };
    actors.actor_mut(ended.actor).end(ended.seen);
    said.push(Said {
        phase: shared.phase,
        line: AnswerLine {
            actor: ended.actor,
            command: ended.command,
            seen: ended.seen,
            answer: Answer::Version(ended.version),
        },
    })?;
    shared.writer = None;
    Ok(Some(ended.actor))
}
