//! Lines, fields and values: what scenarios and traces are made of.
//!
//! A text is lines, and a line is fields with one space between them. A [`Kind`] says what a field may be,
//! a [`Form`] which kinds the fields behind a word have, and a [`Value`] what a field says. The same
//! form reads a line and writes it. No word of a scenario or of a trace is known here.
//!
//! `specs/Lines.antt` has lines and fields, `specs/Fields.antt` the kinds: when a field is of one, what it says
//! and how a value is written; `specs/Forms.antt` has forms, and `specs/Laws.antt` that reading and writing agree.
#![tactic(auto)]

mod device_name;
mod fault;
mod fields;
mod form;
mod hexadecimal;
mod kind;
mod laws;
mod lines;
mod numbers;
mod reading;
mod shared;
#[cfg(test)]
mod tests;
mod text;
mod value;
mod writing;

pub use device_name::DeviceName;
pub use fault::FieldFault;
pub use fields::read_field;
pub use form::{Form, Rest};
pub use kind::{Digits, Kind, Shape};
pub use laws::{form_laws, line_laws, value_laws};
pub use lines::{Fields, Lines, is_text_line};
pub use numbers::number_of;
pub use shared::SharedBytes;
pub use tap_ground::OrMemory;
pub use text::Text;
pub use value::Value;
pub use writing::{HexDigits, LowerHex, Written};
