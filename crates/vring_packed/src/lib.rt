//! The packed virtqueue, after VIRTIO 1.2, 2.8, in this project's own profile.
//!
//! A `PackedLayout` says where a packed ring and its two event suppression areas lie, and a `Place` is
//! an entry of the ring with its wrap counter. `fetch` takes the chain that is available at a place, or
//! tells the first rule that the ring breaks; `publish_at`, `wants_notice` and `set_notices` are what a
//! device writes to publish chains, and what it reads and writes about notices. A `PackedVq` is what a
//! device keeps of a ring; it is `Once`, as a split ring's queue is.
//!
//! `specs/Packed.antt` has the picture: places, descriptors and their flags. `specs/Chain.antt` has the
//! rules for a descriptor; `specs/Fetched.antt` says what a fetch finds as a function of the memory, and
//! `specs/Paths.antt` as a relation. `specs/Publication.antt` says which bytes a publication writes, and
//! when the driver wants a notice, `specs/Queue.antt` what each call makes of a queue, and
//! `specs/Calls.antt` what any list of calls publishes.
#![tactic(auto)]

mod chain;
mod desc;
mod done;
mod fetched;
mod journal;
mod laws;
mod layout;
mod notices;
mod place;
mod publish;
mod read;
mod rules;
mod segments;
mod vq;
mod walk;

pub use crate::chain::PackedChain;
pub use crate::desc::PackedDesc;
pub use crate::done::PackedDone;
pub use crate::fetched::{PackedFetched, Segments, fetch};
pub use crate::laws::{
    chains_are_usable, each_is_once, empty_is_not_crowded, fetches_as_function, worked_bounds,
    worked_fetches, worked_turns,
};
pub use crate::layout::PackedLayout;
pub use crate::notices::{set_notices, wants_notice};
pub use crate::place::Place;
pub use crate::publish::{passed, publish_at};
pub use crate::vq::PackedVq;
pub use vring_split::{RingFault, Segment};

#[cfg(test)]
mod tests;
