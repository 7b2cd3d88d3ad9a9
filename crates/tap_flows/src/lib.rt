//! The flows of a device: at which queue a flow was last seen, and when.
//!
//! To a contract `Flows` is a limit, an age and a list of flows in the order of their hashes, which is a
//! finite map: the order in which they came is never seen. Inside, a flow is kept by one of as many nodes
//! as the limit. A node stands in the ring of its hash's bucket, or in the free ring, and one in use also
//! in the ring by age, the oldest first: so learning and finding look at one bucket, and a tick at the
//! flows that it removes and one more. Only `new` takes memory.
//!
//! Read `specs/FlowList.antt`, and `specs/Laws.antt` for the map; `specs/Rings.antt` and
//! `specs/Nodes.antt` say how the nodes keep it.
#![tactic(auto)]

mod flows;
mod heads;
mod laws;
mod links;
mod table;
#[cfg(test)]
mod tests;

pub use flows::{DEFAULT_AGE, DEFAULT_LIMIT, Flows, Learnt, MAX_AGE};
pub use heads::MAX_LIMIT;
pub use laws::{lists_are_maps, steps_are_one};
