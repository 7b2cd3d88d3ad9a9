//! The events of a transmit turn of a vhost.
//!
//! A turn begins by turning the driver's notices off ([`begin_transmit`]), unless its ring has no backend or is stopped.
//! Each later event is the next step of the ring's worker ([`transmit`]); a step that gives a frame to the host is
//! followed by a look at the table ([`look_at_flow`]), and where the file learns, by the publication of the frame's flow
//! ([`teach`]).
#![tactic(auto)]

mod begins;
mod learns;
mod steps;
mod telling;
mod words;

pub use begins::begin_transmit;
pub use learns::{look_at_flow, teach};
pub use steps::transmit;
