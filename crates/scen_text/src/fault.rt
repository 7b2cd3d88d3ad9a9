//! The refusal of a scenario.

use scen_words::Why;
use std::error::Error;
use std::fmt;

/// The first refusal of a scenario, with its line from 1, or 0 for the text as a whole.
#[derive(Clone, Copy, Debug, PartialEq, Eq)]
pub struct ScenFault {
    pub line: u32,
    pub why: Why,
}

/// `refused LINE WHY`, and the further numbers of the refusal.
impl fmt::Display for ScenFault {
    ghost use Rattle.std.specs.Prelude.{Some};
    ghost use Rattle.std.specs.List.{join_with_byte};
    ghost use Rattle.scen_text.specs.Refused.{refused_fields};

    ghost output = { λ fault. Some (join_with_byte 32 (refused_fields fault)) };

    fn fmt<W: fmt::Write>(&self, f: &mut fmt::Formatter<W>) -> fmt::Result {
        let line = self.line;
        let why = self.why;
        write!(f, "refused {line} {why}")
    }
}

impl Error for ScenFault {}
