//! Runs the top call on words and inputs, one after another, and prints its statuses and what it wrote.
//!
//! Each row of `runs.txt` has the words, the calls of source and sink that fail, and the input. The input that is
//! longer than any scenario, and what may follow a trace, stand here.
#![tactic(auto)]

use anyhow::{Context, Result};
use scen_text::{MAX_BYTES, read_scenario};
use sqlite_items::Items;
use std::alloc::{AllocError, Global};
use std::fs;
use tap_outside::{MemSink, MemSource};
use tap_report::{may_follow, report, report_json, report_text};
use tap_top::plain_main;
use tap_trace::Trace;

/// How many bytes a source gives at once.
const READ: usize = 7;

/// How many bytes a sink takes at once.
const WRITTEN: usize = 5;

/// A scenario in which nothing happens.
const ATTACHED: &str = "tapscen 1\nfile 0 1\nsetiff 0 tap0 1102\n";

// What a letter behind a backslash stands for.
fn meant(letter: u8) -> u8 {
    match letter {
        b'n' => b'\n',
        b'r' => b'\r',
        b'd' => 0x7f,
        other => other,
    }
}

// The input of a row.
fn input_of(alloc: Global, row: &str) -> Result<Vec<u8>, AllocError> {
    let mut input = Vec::new(alloc);
    let mut escaped = false;
    for byte in row.bytes() {
        if escaped {
            input.push(meant(byte))?;
            escaped = false;
        } else if byte == b'\\' {
            escaped = true;
        } else {
            input.push(byte)?;
        }
    }
    Ok(input)
}

// The words between blanks.
fn words_of(alloc: Global, row: &str) -> Result<Vec<String>, AllocError> {
    let mut words = Vec::new(alloc);
    for word in row.split_ascii_whitespace() {
        words.push(String::from_str(alloc, word)?)?;
    }
    Ok(words)
}

// The one call that fails, or none.
fn fails_of(alloc: Global, row: &str) -> Result<Vec<u32>> {
    let mut fails = Vec::new(alloc);
    if row != "-" {
        fails.push(row.parse().context("the number of a call")?)?;
    }
    Ok(fails)
}

// Runs the call, and prints its status and what it wrote.
fn show<R: Print + AllocGlobal>(
    rt: &R,
    words: &[String],
    mut source: MemSource,
    mut sink: MemSink,
) -> Result<()> {
    let status = plain_main(rt.alloc(), words, &mut source, &mut sink);
    let bytes = sink.bytes();
    let count = bytes.len();
    let text = str::from_utf8(bytes).context("text")?;
    println!(rt; "status {status}, {count} bytes\n{text}")?;
    Ok(())
}

// Runs a row: the words, the call of the source that fails, that of the sink, and the input.
fn run_row<R: Print + AllocGlobal>(rt: &R, row: &str) -> Result<()> {
    let (words, rest) = row.split_once('|').context("a row without calls")?;
    let (reads, rest) = rest.split_once('|').context("a row with one call")?;
    let (writes, input) = rest.split_once('|').context("a row without an input")?;
    println!(rt; "# {words} | {reads} | {writes}")?;
    let words = words_of(rt.alloc(), words)?;
    let input = input_of(rt.alloc(), input)?;
    let source = MemSource::new(input, fails_of(rt.alloc(), reads)?, READ);
    let sink = MemSink::new(rt.alloc(), fails_of(rt.alloc(), writes)?, WRITTEN);
    show(rt, &words, source, sink)
}

// Runs the call on one byte more than a scenario may have.
fn run_long<R: Print + AllocGlobal>(rt: &R) -> Result<()> {
    println!(rt; "# 67,108,865 bytes")?;
    let words = words_of(rt.alloc(), "plain")?;
    let input = vec![in rt.alloc(); b'a'; MAX_BYTES + 1]?;
    let source = MemSource::new(input, Vec::new(rt.alloc()), usize::MAX);
    let sink = MemSink::new(rt.alloc(), Vec::new(rt.alloc()), usize::MAX);
    show(rt, &words, source, sink)
}

// Tells which texts may follow a trace: the report, its line of JSON, and that without its LF.
fn follow<R: Print + AllocGlobal>(rt: &R) -> Result<()> {
    let alloc = rt.alloc();
    let scenario = read_scenario(alloc, ATTACHED.as_bytes()).context("refused")?;
    let trace = Trace {
        phases: Items::new(alloc),
        files: Items::new(alloc),
        guests: Items::new(alloc),
        rings: Items::new(alloc),
    };
    let summary = report(alloc, &scenario, &trace)?;
    let text = report_text(alloc, &summary)?;
    let text_follows = may_follow(alloc, &summary, text.as_bytes())?;
    let mut json = report_json(alloc, &summary)?;
    let unended = may_follow(alloc, &summary, json.as_bytes())?;
    json.push_str("\n")?;
    let json_follows = may_follow(alloc, &summary, json.as_bytes())?;
    print!(rt; "# behind a trace\n{text}{json}")?;
    println!(rt; "{text_follows} {json_follows} {unended}")?;
    Ok(())
}

fn main(rt: HostRuntime) -> Result<()> {
    let table = fs::read_to_string(&rt, "runs.txt")?;
    for row in table.lines() {
        if !row.starts_with('#') {
            run_row(&rt, row)?;
        }
    }
    run_long(&rt)?;
    follow(&rt)
}
