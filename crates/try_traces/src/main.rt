//! Tries texts that are no trace's, one after another.
//!
//! `bad_traces.txt` has a text in each row, behind the number of its first bad line; `|` stands for LF, `<` for a tab
//! and `>` for CR. `good_traces.txt` has texts of traces, one of them with a line of each kind, which are read and
//! printed again. For each that is read otherwise the program prints what was found, and at the end how many were
//! tried. Two rows of the first table are wrong on purpose, so that the output shows that a failure is told.
#![tactic(auto)]

use anyhow::{Context, Result};
use scen_words::OrMemory;
use std::alloc::{AllocError, Global};
use std::fs;
use trace_text::{MAX_BYTES, print_trace, read_trace};

/// What a text was read as.
#[derive(Debug, PartialEq, Drop)]
enum Found {
    /// Its first bad line.
    Bad(u32),
    /// A trace, whose text is this one again, or another one.
    Trace { again: bool },
    /// It is too long.
    TooLong,
}

/// How many texts were tried, and how many of them were read otherwise than wanted.
#[derive(Default, Drop)]
struct Tally {
    tried: u32,
    failed: u32,
}

// The text of a row.
fn text_of(alloc: Global, row: &str) -> Result<Vec<u8>, AllocError> {
    let mut text = Vec::new(alloc);
    for byte in row.bytes() {
        text.push(match byte {
            b'|' => b'\n',
            b'<' => b'\t',
            b'>' => b'\r',
            _ => byte,
        })?;
    }
    Ok(text)
}

// What a text is read as.
fn found_in(alloc: Global, text: &[u8]) -> Result<Found, AllocError> {
    if text.len() > MAX_BYTES {
        return Ok(Found::TooLong);
    }
    match read_trace(alloc, text) {
        Ok(trace) => {
            let again = print_trace(alloc, &trace)?;
            Ok(Found::Trace {
                again: again.as_bytes() == text,
            })
        }
        Err(OrMemory::Fault(line)) => Ok(Found::Bad(line)),
        Err(OrMemory::NoMemory) => Err(AllocError),
    }
}

// Tries a text, and prints what was found where it isn't what is wanted.
fn judge<R: Print + AllocGlobal>(
    rt: &R,
    tally: &mut Tally,
    row: &str,
    wanted: Found,
) -> Result<()> {
    let text = text_of(rt.alloc(), row)?;
    let found = found_in(rt.alloc(), &text)?;
    tally.tried = tally.tried.saturating_add(1);
    if found != wanted {
        tally.failed = tally.failed.saturating_add(1);
        println!(rt; "{row}: {found:?}, wanted {wanted:?}")?;
    }
    Ok(())
}

// Tries a row: the line, and the text.
fn judge_row<R: Print + AllocGlobal>(rt: &R, tally: &mut Tally, row: &str) -> Result<()> {
    let (line, text) = row.split_once(' ').context("a row without a text")?;
    let wanted = Found::Bad(line.parse().context("a line")?);
    judge(rt, tally, text, wanted)
}

fn main(rt: HostRuntime) -> Result<()> {
    let mut tally = Tally::default();
    let table = fs::read_to_string(&rt, "bad_traces.txt")?;
    for row in table.lines() {
        judge_row(&rt, &mut tally, row)?;
    }
    let good = fs::read_to_string(&rt, "good_traces.txt")?;
    for row in good.lines() {
        judge(&rt, &mut tally, row, Found::Trace { again: true })?;
    }
    println!(rt; "{} tried, {} failed", tally.tried, tally.failed)?;
    Ok(())
}
