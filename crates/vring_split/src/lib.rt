//! The split virtqueue as bytes, after VIRTIO 1.2, 2.7: where its fields stand and how they are read
//! and written.
//!
//! A `Layout` says where a ring's three parts start; its methods give the address of each field. A
//! `Desc` and a `UsedElem` are read from their bytes and written to them, and `le16_of` and
//! `le16_bytes_of` do the same for the other fields, whatever holds the bytes. A clause sees each of
//! these types as the record of its fields.
//!
//! `specs/Split.antt` has the picture: the parts, the fields' addresses, the bytes of descriptors and
//! used elements, and when an index that moves has to be told. `specs/Good.antt` says when a layout is
//! good for a memory, and `specs/Laws.antt` what is read back of what was written. The crates that walk,
//! drive and serve a ring cite them.
#![tactic(auto)]

mod desc;
mod fault;
mod field;
mod laws;
mod layout;
mod segment;
mod used_elem;

pub use crate::desc::Desc;
pub use crate::fault::RingFault;
pub use crate::field::{le16_bytes_of, le16_of, need_event};
pub use crate::laws::{field_laws, good_laws};
pub use crate::layout::{Layout, avail_len, desc_len, used_len};
pub use crate::segment::Segment;
pub use crate::used_elem::UsedElem;

#[cfg(test)]
mod tests;
