//! The top call of the program: words, bytes in, bytes out, one exit status.
//!
//! [`plain_main`] does what its words ask for: it counts the commands of a scenario, runs it on one thread as a seed
//! picks and writes the trace and its report, prints it in version 2, or makes a large one by number. Which run a seed
//! picks is said in `scen_plain`.
//!
//! `specs/Top.antt` has the statuses, and what is wanted at each; `specs/Output.antt` what is written for a trace;
//! `specs/Headline.antt` what is promised of the run behind it: each accepted frame stands exactly once in the world
//! that it ends in, frames leave each line in the order placed, and each chain is published used at most once.
//! `specs/Course.antt` is of the inside: the ways a run of the program can take between its two ends.
#![tactic(auto)]

mod ends;
mod output;
mod refusal;
mod serving;
mod top;
mod words;

pub use top::plain_main;
