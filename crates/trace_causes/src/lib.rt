//! The fields of traces one by one, and the causes, fates, ends of turns and operations that several of them say.
//!
//! To a contract each is a value of `tap_trace`. `specs/Words.antt` has the words, each with its spelling, which serve
//! reading and printing; `specs/Values.antt`, `specs/Causes.antt` and `specs/Operations.antt` how values are written,
//! and `specs/Fits.antt` which of them a text can stand for. `specs/Reading.antt` has what a field says,
//! `specs/CauseReading.antt` and `specs/OpReading.antt` what several say together.
//!
//! `specs/Laws.antt` has that what is written is read again, and that what is read is written so.
#![tactic(auto)]

mod cause_reading;
mod causes;
mod ends;
mod err_text;
mod fates;
pub mod fields;
mod laws;
mod op_reading;
mod operations;
mod shown;
mod single_words;
mod table;
mod words;

pub use cause_reading::{derr, dropped, err, fate, verr};
pub use causes::{put_drive, put_tap, put_vhost};
pub use ends::{end, put_end};
pub use err_text::ErrText;
pub use fates::{put_dropped, put_fated};
pub use laws::{cause_laws, field_laws};
pub use op_reading::op_text;
pub use operations::put_op_text;
pub use shown::{FrameName, Hash, NameOrDash};
pub use table::{Word, next_word};
