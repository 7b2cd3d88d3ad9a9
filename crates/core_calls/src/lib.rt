//! The events of commands on guests and vhosts: bytes of a guest's memory, calls of a vhost's control and of its
//! drivers, and backends from their look to the file's owner.
//!
//! Each public function is one command's next event at one `Doing` of `core_shared`: it asks for `MayGo` and promises
//! `Went`, where the kind of the event is what `next_kind` of `tap_world` says. What is done is the row of that kind in
//! `tap_world/specs/StepControl.antt` and `tap_world/specs/StepBackend.antt`. A command on a backend that the table
//! doesn't refuse holds the writer and its ring's turn from its look on; its last event gives both back.
//!
//! Where memory runs out nothing is promised of what actors share, and the run is given up; a frame that was passed in
//! is ended then.
#![tactic(auto)]

mod backing;
mod control;
mod memory;
mod owning;
mod publishing;
mod shares;

pub use backing::{begin_back, drive_back};
pub use control::call;
pub use memory::{peek, poke};
pub use owning::{disown, own};
pub use publishing::{publish_back, publish_disowned, publish_released};
