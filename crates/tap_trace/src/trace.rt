//! A trace and its parts.

use crate::answer::Answer;
use crate::kind::Kind;
use scen_words::Command;
use sqlite_items::Items;
use tap_frame::Name;
use tap_ledger::{Fate, Side};
use text_fields::DeviceName;

/// What a run did.
#[derive(Debug, Drop)]
pub struct Trace {
    /// The phases in their order.
    pub phases: Items<PhasePart>,
    /// The declared files, by number.
    pub files: Items<FilePart>,
    /// The declared guests, by number.
    pub guests: Items<GuestPart>,
    /// Rings 0 and 1 of each declared vhost, by number.
    pub rings: Items<RingPart>,
}

/// What was published and answered in one phase.
#[derive(Debug, Drop)]
pub struct PhasePart {
    pub actors: u16,
    /// The operations on the queue table, by version.
    pub ops: Items<OpLine>,
    /// The answers, by actor and then by command.
    pub answers: Items<AnswerLine>,
}

/// One published operation.
#[derive(Debug, Drop)]
pub struct OpLine {
    /// The version of the table that it made, from 1.
    pub version: u64,
    /// The number of the command that published it.
    pub command: u32,
    pub text: OpText,
}

/// The operation itself.
#[derive(Debug, Drop)]
pub enum OpText {
    /// `setiff F NAME HEX4`: the file was attached to the device of this name.
    SetIff {
        file: u16,
        name: DeviceName,
        flags: u16,
    },
    /// Another command on the table, in its own words: `setqueue`, `close`, `persist`, `hdrsize`, `steer`, `filter`,
    /// `tick` or `resize`.
    Words(Command),
    /// `learn F HASH8`: a flow of this hash was seen at the file.
    Learn {
        file: u16,
        hash: u32,
    },
    /// `back F rx V`, `back F tx V`, or `-` for the vhost: that side of the file has this backend, or none.
    Back {
        file: u16,
        side: Side,
        vhost: Option<u16>,
    },
}

/// One answer.
#[derive(Debug, Drop)]
pub struct AnswerLine {
    pub actor: u16,
    /// The number of the command that is answered.
    pub command: u32,
    /// The greatest version of the table that the actor had seen when the command ended.
    pub seen: u64,
    pub answer: Answer,
}

/// The line of one file.
#[derive(Debug, Drop)]
pub struct FilePart {
    pub file: u16,
    /// The number of the first place that no frame has had yet.
    pub claimed: u64,
    /// The number of the first place that isn't free again.
    pub freed: u64,
    /// Each frame ever placed, by place.
    pub lines: Items<PlaceLine>,
}

/// One frame in the line of a file.
#[derive(Clone, Copy, Debug, PartialEq, Eq)]
pub struct PlaceLine {
    pub place: u64,
    /// The attachment of the file under which it was placed, from 1.
    pub epoch: u16,
    pub name: Name,
    /// Its Ethernet bytes.
    pub len: u32,
    pub fate: Fate,
}

/// The steps on one guest.
#[derive(Debug, Drop)]
pub struct GuestPart {
    pub guest: u16,
    /// The steps in the order of the holds of the guest's lock.
    pub steps: Items<StepLine>,
}

/// One step on a guest.
#[derive(Clone, Copy, Debug, PartialEq, Eq)]
pub struct StepLine {
    pub actor: u16,
    /// The number of the command that made the step.
    pub command: u32,
    pub kind: Kind,
}

/// What was published on one ring.
#[derive(Debug, Drop)]
pub struct RingPart {
    pub vhost: u16,
    pub ring: u16,
    /// The lists of positions, the first of base 0.
    pub lists: Items<PositionList>,
}

/// One list of positions of a ring, from one setting of the base to the next.
#[derive(Debug, Drop)]
pub struct PositionList {
    /// The position at which the list begins.
    pub base: u16,
    /// The published chains: position, head and the bytes written.
    pub used: Items<(u16, u16, u32)>,
}
