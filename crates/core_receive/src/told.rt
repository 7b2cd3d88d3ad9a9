//! What an event of a turn tells.

ghost use Rattle.std.specs.Prelude.{◌≡◌, IfOk, OnErr, Some};
ghost use Rattle.core_receive.specs.Going.{turn_goes};
ghost use Rattle.tap_world.specs.StepTurns as world;

use core_shared::{Asked, Doing, Onward};
use sqlite_items::Items;
use std::alloc::{AllocError, Global};
use tap_frame::Name;
use tap_ledger::Act;
use tap_trace::{Answer, Kind, TurnText};
use tap_world::Found;
use vring_turns::{End, TurnEnd};

/// The step that an event of a turn on a ring has on its guest. Those on the file have none.
pub(crate) fn kind_of(vhost: u16, ring: u16, act: Act) -> Option<Kind>
    ensures { result ≡ world.kind_of vhost ring act }
{
    match act {
        Act::Fetch { position, head } => Some(Kind::Fetch {
            vhost,
            ring,
            position,
            head,
        }),
        Act::Nothing => Some(Kind::None { vhost, ring }),
        Act::Crowded => Some(Kind::Crowded { vhost, ring }),
        Act::Halt { fault } => Some(Kind::Halt { vhost, ring, fault }),
        Act::Copy { position, name } => Some(Kind::Copy {
            vhost,
            ring,
            position,
            name: Some(name),
        }),
        Act::Refused { position, bad: _ } => Some(Kind::Copy {
            vhost,
            ring,
            position,
            name: None,
        }),
        Act::Publish { count, call } => Some(Kind::Publish {
            vhost,
            ring,
            count,
            call,
        }),
        Act::Notices { on, wrote: _ } => Some(Kind::Notices { vhost, ring, on }),
        Act::Hand | Act::PutBack | Act::NotReady | Act::Out { .. } | Act::Given { .. } => None,
    }
}

/// What an event found: its step, or the frame that it moved.
pub(crate) fn found_by(step: Option<Kind>, name: Option<Name>) -> Option<Found>
    ensures { result ≡ world.found_by step name }
{
    match step {
        Some(kind) => Some(Found::Step(kind)),
        None => Some(Found::Moved(name?)),
    }
}

/// The words in which a trace tells why a turn ended. Want of memory has none, and is the error that it is.
pub(crate) fn end_text(end: End) -> Result<TurnText, AllocError>
    ensures told { IfOk result (λ text. world.end_told end ≡ Some text) }
    ensures no_memory { OnErr result (end ≡ End.NoMemory) }
{
    match end {
        End::Idle => Ok(TurnText::Idle),
        End::Short { need, had } => Ok(TurnText::Short { need, had }),
        End::Again => Ok(TurnText::Again),
        End::Stopped(fault) => Ok(TurnText::Stopped(fault.number())),
        End::Off => Ok(TurnText::Off),
        End::NoMemory => Err(AllocError),
    }
}

/// How a receive turn goes on behind an event that found this: with its next step, or to its answer.
pub(crate) fn onward(
    alloc: Global,
    asked: &Asked<'_>,
    vhost: u16,
    file: u16,
    found: Found,
    over: Option<TurnEnd>,
) -> Result<Onward, AllocError>
    ensures { IfOk result (λ on. turn_goes asked.now.seen vhost file found over ≡ Some on) }
{
    match over {
        None => Ok(Onward::Goes {
            seen: asked.seen(),
            doing: Doing::Receives { vhost, file },
            found,
        }),
        Some(turn) => Ok(Onward::Ends {
            seen: asked.seen(),
            answer: Answer::Turn {
                packets: turn.packets,
                bytes: turn.bytes,
                end: end_text(turn.end)?,
                chains: Items::new(alloc),
            },
        }),
    }
}
