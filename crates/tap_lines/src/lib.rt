//! The files of a tap as their lines of frames, and the operations that were published.
//!
//! To a contract a [`FileSide`] is a file of `tap_world`, and beside each entry of its line the frame of that entry,
//! where the file has it (`specs/Placed.antt`, `specs/Framed.antt`). Each of its calls that change it is one change of
//! `tap_world/specs/LineSteps.antt`, and each that reads it a function of `tap_world/specs/Line.antt`; none searches
//! the line. [`Files`] are files by number (`specs/Files.antt`). [`Ops`] are the operations of a world, with the
//! newest table (`specs/Told.antt`).
//!
//! Frames can't be dropped: what takes a file apart ends those that it has.
#![tactic(auto)]

mod changes;
mod files;
mod frame_line;
mod ops;
mod side;
#[cfg(test)]
mod tests;

pub use files::{Files, one_changes, same_numbers};
pub use ops::{Ops, table_follows};
pub use side::{FileSide, MOST_PLACES};
