//! Words that many crates share.
//!
//! [`OrMemory`] is the error of a call that fails for a reason of its own or for want of memory. To a contract it is
//! what it is to the code; `specs/Errors.antt` says what an answer gives where want of memory is free.
//!
//! The other files of `specs/` have words for definitions alone: `Options.antt` and `Results.antt` one answer after
//! another, `Lists.antt` how often a number stands in a list, and `Counts.antt` counts that rise to the end of their
//! type.
#![tactic(auto)]

mod error;

pub use error::OrMemory;
