//! The ring itself.

use crate::rule::RingTable;
use std::marker::Model;
use tap_frame::Frame;

/// A ring of frames that many producers fill and one consumer empties.
///
/// To a contract it is which ring it is, what it was told when it was made, and how many slots it
/// has.
pub struct TapRing {
    pub(crate) table: RingTable,
    pub(crate) most: u16,
    // Room for the frames that are left at the end.
    pub(crate) left: Vec<Frame>,
}

impl Model for TapRing {
    ghost use Rattle.std.specs.Prelude.{◌≡◌, ◌+◌, ◌<◌, ◌≤◌, [], vec_capacity};
    ghost use Rattle.tap_ring.specs.Calls.{RingValue};
    ghost use Rattle.tap_ring.specs.declared.steps.TheConstants.{PLACES};

    ghost Value = { RingValue };

    ghost view = { λ r. record { ring = r.table.shared.table_id; plan = r.table.shared.key; most = r.most } };

    ghost invariant = { λ r. (r.table.shared.table_id.words ≡ PLACES + r.most)
        × (r.table.shared.table_id.slots ≡ r.most) × (0 < r.most) × (r.left.items ≡ [])
        × (r.most ≤ vec_capacity r.left) };
}
