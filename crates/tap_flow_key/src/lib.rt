//! The flow of a frame: a key by which the two directions of a connection are one, and its hash.
//!
//! The key is a definition on whole lists of bytes: the type, the protocol, and the unordered pair of
//! the two ends. The hash is FNV-1a of the key's bytes, and never 0. The code takes the key's parts in
//! order, without building it, so no call takes memory. Any bytes are a frame.
//!
//! Read `specs/FlowKey.antt` for the key, and `specs/Reply.antt` for a frame on its way back.
#![tactic(auto)]

mod fnv1a;
mod hash;
mod laws;
mod layout;
#[cfg(test)]
mod tests;

pub use fnv1a::fnv;
pub use hash::flow_hash;
pub use laws::replies_have_one_hash;
