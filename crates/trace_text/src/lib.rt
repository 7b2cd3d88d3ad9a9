//! The texts of traces, written and read.
//!
//! `specs/TraceText.antt` has the text of a trace, which is lines made of fields, and `specs/Parts.antt` its parts; the
//! lines themselves are those of `trace_words`. `specs/Ordered.antt` says which traces have a text, and
//! `specs/BadLine.antt` which line of other bytes is the first bad one, and which parts an input has; `specs/Laws.antt`
//! has that a text stands for one trace, and that its first bad line is one. A trace is read
//! line by line: `specs/Building.antt` has what a line adds to the trace so far, which `builder` keeps.
#![tactic(auto)]

mod builder;
mod cuts;
mod input;
mod items;
mod laws;
mod limits;
mod parts;
mod phases;
mod printing;
mod reading;
#[cfg(test)]
mod tests;

pub use input::{InputParts, split_input};
pub use laws::{one_bad_line, one_text};
pub use limits::MAX_BYTES;
pub use printing::print_trace;
pub use reading::read_trace;
