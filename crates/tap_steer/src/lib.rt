//! The table of a tap: which files stand at which devices, and which queue gets a frame.
//!
//! To a contract [`Steer`] is the plain table of `specs/Table.antt`: the clock, the files by number, and by
//! number of name the device that there is, with its settings, its queue rows and its flows. An operation
//! is refused with the first rule of `specs/Rules.antt` that it breaks; what it changes otherwise is
//! `specs/After.antt`, and which queue gets a frame `specs/Select.antt`. `specs/Laws.antt` says what holds
//! after any lawful operations. Only `new` takes memory.
#![tactic(auto)]

mod changes;
mod files;
mod laws;
mod operation;
mod rules;
mod selection;
mod settings;
mod slot;
mod state;
mod steer;
#[cfg(test)]
mod tests;

pub use files::{Attachment, File};
pub use laws::{
    devices_have_files, epochs_never_fall, epochs_rise_by_one, files_are_in_use, names_stay,
    numbers_are_left, persistent_devices_stay, reached_is_sound, resizes_rise_by_one,
    rows_are_enabled, worked_examples,
};
pub use operation::{
    IFF_ATTACH_QUEUE, IFF_DETACH_QUEUE, IFF_MULTI_QUEUE, IFF_NO_PI, IFF_TAP, IFF_TUN_EXCL,
    IFF_UNSUPPORTED, IFF_VNET_HDR, Op,
};
pub use rules::{LEAST_HEADER_SIZE, MAX_DEVICES, MAX_EPOCH, MAX_RESIZES, MOST_HEADER_SIZE};
pub use selection::{Select, scaled};
pub use settings::Settings;
pub use steer::{NAMES, Steer};
pub use tap_ledger::{Busy, Invalid, Side, TapErr, TooBig};
