//! The lines of traces: what a line says by itself, and how it is written.
//!
//! A line is one [`Said`]: the head of a part, an operation, an answer or a line behind one, a place, a step, a
//! published chain, or the end. To a contract it is a record of numbers and lists.
//!
//! `specs/Said.antt` has the fields of each line and which of them fit their types; `specs/Operations.antt`,
//! `specs/Answers.antt`, `specs/Places.antt` and `specs/Steps.antt` the fields of the longer ones, and
//! `specs/Fits.antt` the ranges of their numbers. `specs/Laws.antt` has that a line says one thing.
//!
//! [`said_of`] reads a line: its words are in `specs/Words.antt`, and what its fields say together in
//! `specs/StepReading.antt`, `specs/AnswerReading.antt` and `specs/LineReading.antt`. The fields one by one, and what
//! several lines have in common, are those of `trace_causes`.
#![tactic(auto)]

mod answer_reading;
mod answers;
mod laws;
mod line_reading;
mod operations;
mod places;
mod said;
mod step_reading;
mod steps;
#[cfg(test)]
mod tests;
mod words;

pub use answers::put_answer;
pub use laws::said_laws;
pub use line_reading::said_of;
pub use operations::put_op;
pub use places::put_place;
pub use said::Said;
pub use steps::put_step;
