//! The report of a run: what became of its frames, by device, by file and by ring.
//!
//! [`report`] counts over a scenario and its trace. `specs/Index.antt` says for which device a frame counts,
//! `specs/Frames.antt` which frames there are, `specs/Turns.antt` what the turns and the steps of a ring say,
//! `specs/Rows.antt` what is counted, and `specs/Report.antt` the report as a function of both;
//! `specs/ReportText.antt` and `specs/Json.antt` have its two texts, and `specs/Following.antt` says what may follow a
//! trace.
#![tactic(auto)]

mod examples;
mod following;
mod frames;
mod history;
mod index;
mod json;
mod printing;
mod rings;
mod rows;
mod summary;
mod sums;
mod turns;

pub use examples::worked_examples;
pub use following::may_follow;
pub use json::report_json;
pub use printing::report_text;
pub use rows::report;
pub use summary::{DeviceRow, FileRow, RingRow, Summary};
