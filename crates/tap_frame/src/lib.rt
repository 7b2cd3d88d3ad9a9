//! Frames as they pass a file: how they are read, written and spent.
//!
//! To a contract a [`Frame`] is its name, the ten bytes of its header, the bytes that it was made
//! with, and a mark: it has the bytes up to the mark. It isn't droppable, and [`Frame::end`] is the
//! only way out. [`read_frame`] takes bytes apart that spell a frame in a [`Shape`], [`read_parts`] does
//! where they stand apart already, and [`write_frame`] spells one out for a room.
//!
//! `specs/Spelling.antt` says what spells a frame and which case is answered where bytes spell none,
//! `specs/Header.antt` how far a header reaches, `specs/Text.antt` what is written, and
//! `specs/Laws.antt` what ties these together.
#![tactic(auto)]

mod frame;
mod header;
mod laws;
mod name;
mod reading;
mod shape;
#[cfg(test)]
mod tests;
mod writing;

pub use frame::Frame;
pub use header::Hdr;
pub use laws::{frame_laws, spelling_laws, text_laws};
pub use name::Name;
pub use reading::{BadFrame, read_frame, read_parts};
pub use shape::Shape;
pub use writing::{least, write_frame};
