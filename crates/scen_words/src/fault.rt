//! Why a line or a scenario is refused.

ghost use Rattle.std.specs.Prelude.{◌≡◌};
ghost use Rattle.scen_words.specs.Why.{why_number};

use ebpf_code::CodeFault;
use guest_mem::RegionFault;
use std::error::Error;
use std::fmt;

/// Why a scenario is refused.
#[derive(Clone, Copy, Debug, PartialEq, Eq)]
pub enum Why {
    /// It has more than 67,108,864 bytes.
    TooLong,
    /// A byte that isn't one of 0x20 to 0x7e.
    NotText,
    /// The first line is neither `tapscen 1` nor `tapscen 2`.
    Version,
    /// An unknown word.
    Word,
    /// An empty field, or too few or too many.
    Fields,
    /// The form or the range of a number or of a name.
    Number,
    /// Hexadecimal digits, or their count.
    Hex,
    /// A declaration after a command or a phase.
    Late,
    /// Declared twice.
    Twice,
    /// A file, guest, vhost or program that isn't declared.
    Unknown,
    /// The guest's regions so far make no memory.
    Region(RegionFault),
    /// The bytes are no program.
    Program(CodeFault),
    /// A command, `phase` or `end` in a place where it can't stand, or a phase that isn't ended.
    Phase,
    /// One command, turn or name too many.
    Limit,
}

impl Why {
    /// The number that is printed for the refusal.
    pub fn number(self) -> u8
        ensures { result ≡ why_number self }
    {
        match self {
            Why::TooLong => 1,
            Why::NotText => 2,
            Why::Version => 3,
            Why::Word => 4,
            Why::Fields => 5,
            Why::Number => 6,
            Why::Hex => 7,
            Why::Late => 8,
            Why::Twice => 9,
            Why::Unknown => 10,
            Why::Region(_) => 11,
            Why::Program(_) => 12,
            Why::Phase => 13,
            Why::Limit => 14,
        }
    }
}

/// The number of the refusal, and its further numbers: which fault the regions have; which fault a program has, and at
/// which place.
impl fmt::Display for Why {
    ghost use Rattle.std.specs.Prelude.{Some};
    ghost use Rattle.std.specs.List.{join_with_byte};
    ghost use Rattle.scen_words.specs.Why.{why_fields};

    ghost output = { λ why. Some (join_with_byte 32 (why_fields why)) };

    fn fmt<W: fmt::Write>(&self, f: &mut fmt::Formatter<W>) -> fmt::Result {
        let number = self.number();
        match self {
            Why::Region(fault) => write!(f, "{number} {}", fault.number()),
            Why::Program(fault) => write!(f, "{number} {} {}", fault.why.number(), fault.place),
            _ => write!(f, "{number}"),
        }
    }
}

impl Error for Why {}
