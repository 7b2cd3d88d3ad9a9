//! What is told of the steps of a transmit turn.

ghost use Rattle.std.specs.Prelude.{◌≡◌, ◌++◌, IfSome, OnOk, OnErr, length};
ghost use Rattle.std.specs.Option.{option_copied};
ghost use Rattle.tap_flow_key.specs.FlowKey.{hash};
ghost use Rattle.tap_world.specs.StepTransmits.{chains_after, got as got_of};
ghost use Rattle.tap_world.specs.StepTurns.{end_told, kind_of as kind_by};

use core_shared::GivenFrame;
use std::alloc::AllocError;
use tap_flow_key::{flow_hash, fnv};
use tap_frame::Frame;
use tap_ledger::Act;
use tap_trace::{ChainText, Kind, TurnText};
use vring_turns::End;

// A frame may have so many bytes.
const MOST_BYTES: u32 = 65535;

/// The step on the guest that an event of the turn is; one that gives a frame to the host is none.
pub(crate) fn kind_of(vhost: u16, act: Act) -> Option<Kind>
    ensures { result ≡ kind_by vhost 1 act }
{
    let ring = 1;
    match act {
        Act::Fetch { position, head } => Some(Kind::Fetch {
            vhost,
            ring,
            position,
            head,
        }),
        Act::Nothing => Some(Kind::None { vhost, ring }),
        Act::Crowded => Some(Kind::Crowded { vhost, ring }),
        Act::Halt { fault } => Some(Kind::Halt { vhost, ring, fault }),
        Act::Copy { position, name } => Some(Kind::Copy {
            vhost,
            ring,
            position,
            name: Some(name),
        }),
        Act::Refused { position, bad: _ } => Some(Kind::Copy {
            vhost,
            ring,
            position,
            name: None,
        }),
        Act::Publish { count, call } => Some(Kind::Publish {
            vhost,
            ring,
            count,
            call,
        }),
        Act::Notices { on, wrote: _ } => Some(Kind::Notices { vhost, ring, on }),
        Act::Hand | Act::PutBack | Act::NotReady | Act::Out { name: _ } | Act::Given { name: _ } =>
            None,
    }
}

/// The words in which a trace tells why the turn ended; want of memory has none.
pub(crate) fn end_text(end: End) -> Option<TurnText>
    ensures { result ≡ end_told end }
{
    match end {
        End::Idle => Some(TurnText::Idle),
        End::Short { need, had } => Some(TurnText::Short { need, had }),
        End::Again => Some(TurnText::Again),
        End::Stopped(fault) => Some(TurnText::Stopped(fault.number())),
        End::Off => Some(TurnText::Off),
        End::NoMemory => None,
    }
}

/// Adds what became of a chain by an event that read it: it was refused, or is the frame that is held now.
pub(crate) fn add_chain(
    chains: &mut Vec<ChainText>,
    act: Act,
    held: Option<&Frame>,
) -> Result<(), AllocError>
    requires whole { IfSome (option_copied held) (λ f. f.mark ≡ length f.made) }
    ensures { OnOk result (chains.new.items ≡ chains_after act (option_copied held.entry) chains.old.items) }
{
    match act {
        Act::Refused { position, bad } => chains.push(ChainText::Refused { position, bad })?,
        Act::Copy {
            position: _,
            name: _,
        } => match held {
            Some(frame) => chains.push(got(frame))?,
            None => {}
        },
        Act::Hand
        | Act::PutBack
        | Act::NotReady
        | Act::Out { name: _ }
        | Act::Fetch {
            position: _,
            head: _,
        }
        | Act::Nothing
        | Act::Crowded
        | Act::Halt { fault: _ }
        | Act::Given { name: _ }
        | Act::Publish { count: _, call: _ }
        | Act::Notices { on: _, wrote: _ } => {}
    }
    Ok(())
}

// What became of a chain whose frame was accepted with all of its bytes.
fn got(frame: &Frame) -> ChainText
    requires whole { frame.now.mark ≡ length frame.now.made }
    ensures { result ≡ got_of frame.now }
{
    let bytes = frame.bytes();
    ChainText::Got {
        name: frame.name(),
        len: bytes.len() as u32,
        fnv: fnv(bytes),
    }
}

/// Ends a frame that the host has. What is kept of it is its name, and the hash of its flow over all bytes that it was
/// made with.
pub(crate) fn keep(frame: Frame) -> GivenFrame
    ensures { result ≡ record { name = frame.name; flow = hash frame.made } }
{
    let mut frame = frame;
    frame.stretch(MOST_BYTES);
    let flow = flow_hash(frame.bytes());
    GivenFrame {
        name: frame.end(),
        flow,
    }
}
