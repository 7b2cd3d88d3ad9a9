//! A trace read from its text.

ghost use Rattle.std.specs.Prelude.{ℕ, ◌≤◌, length, Err, Ok, IfErr, IfOk};
ghost use Rattle.tap_ground.specs.Errors.{Gives, IfFault};
ghost use Rattle.tap_trace.specs.declared.trace.Trace.{Trace};
ghost use Rattle.trace_text.specs.BadLine.{IsBadLine};
ghost use Rattle.trace_text.specs.Ordered.{StandsFor};
ghost use Rattle.trace_text.specs.Reading.{TakesLine};
ghost use Rattle.trace_text.specs.declared.limits.TheConstants.{MAX_BYTES};

use crate::builder::Builder;
use crate::cuts::cut_line;
use crate::limits::MAX_BYTES;
use scen_words::OrMemory;
use std::alloc::{AllocError, Global};
use tap_trace::Trace;
use trace_words::{said_laws, said_of};

// Adds what a line says, where it can stand behind the lines so far.
fn take_line(builder: &mut Builder, alloc: Global, line: &[u8]) -> Result<bool, AllocError>
    ensures { IfOk result (λ taken. TakesLine builder.old line.now taken builder.new) }
{
    said_laws();
    let Some(said) = said_of(alloc, line)? else {
        return Ok(false);
    };
    let taken = builder.take(alloc, said)?;
    Ok(taken)
}

/// The trace that the bytes stand for, or the number of their first bad line, counted from 1: the first that lacks its
/// LF, or where no trace's text begins with the lines up to it; where all lines are good and more are wanted, the number
/// behind the last one.
pub fn read_trace(alloc: Global, bytes: &[u8]) -> Result<Trace, OrMemory<u32>>
    requires { length bytes.now ≤ MAX_BYTES }
    ensures found { IfOk result (StandsFor bytes.now) }
    ensures only { (t : Trace) → StandsFor bytes.now t → Gives result (Ok t) }
    ensures bad { IfErr result (IfFault (IsBadLine bytes.now)) }
    ensures refused { (line : ℕ) → IsBadLine bytes.now line → Gives result (Err line) }
{
    said_laws();
    let mut builder = Builder::new(alloc);
    let mut rest = bytes;
    let mut number: u32 = 0;
    'lines: while let Some((line, behind)) = cut_line(rest) {
        let taken = take_line(&mut builder, alloc, line)?;
        if !taken {
            return Err(OrMemory::Fault(number + 1));
        }
        rest = behind;
        number += 1;
    }
    if !rest.is_empty() {
        return Err(OrMemory::Fault(number + 1));
    }
    match builder.ended() {
        Some(trace) => Ok(trace),
        None => Err(OrMemory::Fault(number + 1)),
    }
}
