//! What a token of a ring knows, and the rule that ties it to the ring's words and slots.
//!
//! The rule is `specs/Standing.antt`; what each step tells is `specs/Steps.antt`.

use atomic_table::{Seat, Shared, Table, TableRule};
use std::alloc::Global;
use std::collections::LinkedList;
use tap_frame::Frame;

/// What a ring was at one step.
pub struct Moment {
    /// The claim count: one more than the last place that was given out.
    pub claimed: u64,
    /// The freed count: the first place that isn't free again.
    pub freed: u64,
    pub shut: bool,
    /// How often the gate was reopened, below `EPOCHS_END`.
    pub epoch: u16,
    /// How often the ring was resized, below `RESIZES_END`.
    pub resizes: u8,
    /// How many places may be claimed and not freed, in frames.
    pub capacity: u16,
}

/// A place that was given to a producer, under an epoch, for a frame.
pub struct Claim {
    pub place: u64,
    pub epoch: u16,
    pub frame: Frame,
}

/// A capacity that a producer loaded, with the number of resizes that it is of.
pub struct Loaded {
    pub resizes: u8,
    pub capacity: u16,
}

/// What a producer knows. No value of it is made.
pub struct Produced {
    /// The claims that it made, in order.
    pub mine: LinkedList<Claim>,
    /// What the ring was when it met the gate last.
    pub gate: Moment,
    /// How often it met the gate.
    pub gate_loads: u64,
    /// What the ring was when it met the gate last before it loaded a capacity.
    pub asked: Moment,
    /// How often it had met the gate then.
    pub asked_loads: u64,
    /// The capacities that it loaded, in order.
    pub loaded: LinkedList<Loaded>,
    /// What the ring was when it loaded the freed count last.
    pub room: Moment,
    /// How often it had met the gate then.
    pub room_loads: u64,
}

/// What the consumer knows. No value of it is made.
pub struct Consumed {
    /// The front place: the first that it hasn't lifted.
    pub next: u64,
    /// The frames that it lifted, in order.
    pub lifted: LinkedList<Frame>,
    /// The freed count.
    pub freed: u64,
    /// The word that it found at the front place last.
    pub front: u64,
    /// How often it loaded the front place's word to see whether its frame is there.
    pub front_loads: u64,
}

/// What the keeper knows. No value of it is made.
pub struct Kept {
    /// What its last step made of the ring.
    pub gate: Moment,
    /// The claim count at each reopening, in order.
    pub opened: LinkedList<u64>,
    /// The capacity that each resize was given, in order.
    pub resized: LinkedList<u16>,
    /// The claim count at the last resize; the ring's first place where there was none.
    pub resized_from: u64,
}

/// What the seat of a token knows, whichever token it is; the first seat is all of them, and so is the
/// consumer's at the end. No value of it is made.
pub struct View {
    /// How many of the ring's producers it is.
    pub parts: u64,
    /// The claims that it made, in order.
    pub mine: LinkedList<Claim>,
    /// The claim whose frame isn't in its place yet.
    pub putting: Option<Claim>,
    /// Whether it is the consumer.
    pub takes: bool,
    /// The front place: the first that it hasn't lifted.
    pub next: u64,
    /// The frames that it lifted, in order.
    pub lifted: LinkedList<Frame>,
    /// The frame that is on its way out of the front place.
    pub in_hand: Option<Frame>,
    /// The freed count.
    pub freed: u64,
    /// Whether it is the keeper.
    pub keeps: bool,
    /// Of the keeper, the claim count at each reopening, in order.
    pub opened: LinkedList<u64>,
    /// Of the keeper, the capacity that each resize was given, in order.
    pub resized: LinkedList<u16>,
    /// Of the keeper, the claim count at the last resize; the ring's first place where there was none.
    pub resized_from: u64,
    /// The capacity that it stored for the next number of resizes.
    pub stored: Option<u16>,
    /// What the ring was when the tokens that joined it met it last.
    pub met: LinkedList<Moment>,
    /// Whether another token took over what it knew.
    pub spent: bool,
    /// What the ring was when it met the gate last; of the keeper, what its own step made of it.
    pub gate: Moment,
    /// How often it met the gate.
    pub gate_loads: u64,
    /// What the ring was when it met the gate last before it loaded a capacity.
    pub asked: Moment,
    /// How often it had met the gate then.
    pub asked_loads: u64,
    /// The capacities that it loaded, in order.
    pub loaded: LinkedList<Loaded>,
    /// What the ring was when it loaded the freed count last.
    pub room: Moment,
    /// How often it had met the gate then.
    pub room_loads: u64,
    /// The word that it found at the front place last.
    pub front: u64,
    /// How often it loaded the front place's word to see whether its frame is there.
    pub front_loads: u64,
}

/// What a ring is told once, when it is made.
#[derive(Clone, Copy)]
pub struct Plan {
    /// The ring's first place.
    pub first: u64,
    /// The capacity that it begins with.
    pub capacity: u16,
    /// How many producers it has.
    pub producers: u64,
}

/// The rule of a ring.
pub struct Gated;

impl TableRule<Option<Frame>, View, Plan> for Gated {
    ghost use Rattle.tap_ring.specs.Standing.{Ring, maker};

    ghost holds = { Ring };

    ghost first = { maker };
}

pub(crate) type Places = Shared<Option<Frame>, View, Plan, Gated>;

pub(crate) type RingTable = Table<Option<Frame>, View, Plan, Gated, Global>;

pub(crate) type RingSeat = Seat<Option<Frame>, View>;
