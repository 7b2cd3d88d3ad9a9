//! A scenario read from its text.

ghost use Rattle.std.specs.Prelude.{◌≡◌, ◌+◌, ◌^◌, ◌<◌, length, IfOk, IfErr};
ghost use Rattle.scen_text.specs.Building.{Builds, error_at};
ghost use Rattle.scen_text.specs.Scenario.{IsError, Stands};

use crate::builder::Builder;
use crate::fault::ScenFault;
use crate::scenario::Scenario;
use scen_words::{MAX_BYTES, OrMemory, Why, version_of};
use std::alloc::Global;
use text_fields::Lines;

// The error of a line, with the line's number.
fn at_line(number: u32, error: OrMemory<Why>) -> OrMemory<ScenFault>
    ensures { result ≡ error_at number error }
{
    match error {
        OrMemory::Fault(why) => OrMemory::Fault(ScenFault { line: number, why }),
        OrMemory::NoMemory => OrMemory::NoMemory,
    }
}

// The lines behind the first.
fn read_lines(
    alloc: Global,
    version: u8,
    mut lines: Lines<'_>,
) -> Result<Builder, OrMemory<ScenFault>>
    requires { length lines + 2 < 2 ^ 32 }
    ensures { Builds version lines.entry result }
{
    let mut builder = Builder::new(alloc);
    let mut number: u32 = 1;
    let mut next = lines.next();
    'lines: while let Some(line) = next {
        number += 1;
        next = lines.next();
        match builder.hear(alloc, version, line, next.is_none()) {
            Ok(()) => {}
            Err(error) => return Err(at_line(number, error)),
        }
    }
    Ok(builder)
}

/// The scenario that the text stands for, or exactly its first refusal: the first line that is refused, and on it
/// the refusal with the least number. More than 67,108,864 bytes are refused at line 0, before all else.
pub fn read_scenario(alloc: Global, bytes: &[u8]) -> Result<Scenario, OrMemory<ScenFault>>
    ensures found { IfOk result (Stands bytes.now) }
    ensures refused { IfErr result (IsError bytes.now) }
{
    if bytes.len() > MAX_BYTES {
        return Err(OrMemory::Fault(ScenFault {
            line: 0,
            why: Why::TooLong,
        }));
    }
    let mut lines = Lines::new(bytes);
    let Some(first) = lines.next() else {
        return Err(OrMemory::Fault(ScenFault {
            line: 1,
            why: Why::Version,
        }));
    };
    match version_of(first) {
        Ok(version) => match read_lines(alloc, version, lines) {
            Ok(builder) => Ok(builder.finish(alloc, version)?),
            Err(error) => Err(error),
        },
        Err(why) => Err(OrMemory::Fault(ScenFault { line: 1, why })),
    }
}
