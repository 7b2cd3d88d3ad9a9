//! Tries texts that are refused, one after another.
//!
//! `refused.txt` has a text in each row, with the line and the number of its first refusal; whole texts and texts at
//! the limits stand here. For each that is refused otherwise it prints what was found, and at the end how many were
//! tried.
#![tactic(auto)]

use anyhow::{Context, Result};
use scen_text::{MAX_BYTES, MAX_COMMANDS, MAX_NAMES, MAX_TURNS, OrMemory, read_scenario};
use std::alloc::{AllocError, Global};
use std::fmt::Write;
use std::fs;

/// The good lines before the text of a row.
const FRONT: &str =
    "tapscen 2\nfile 0 1\nregion 0 0 4096\nvhost 0 0\nprog 0 b7000000050000009500000000000000\n";

/// The first refusal of a text: its line, and its number.
#[derive(Clone, Copy, Debug, PartialEq, Eq)]
struct Refusal {
    line: u32,
    number: u8,
}

/// Whole texts, with line and number of their refusals.
const WHOLE: [(&str, u32, u8); 7] = [
    ("", 1, 3),
    ("\n", 1, 3),
    ("tapscen 3\n", 1, 3),
    ("tapscen 1 \n", 1, 3),
    ("tapscen\t1\n", 1, 2),
    ("tapscen 1\nflows tap0 1 1\n", 2, 4),
    ("tapscen 2\nflows tap0 0 1000\n", 2, 6),
];

/// How many texts were tried, and how many of them weren't refused as wanted.
#[derive(Default, Drop)]
struct Tally {
    tried: u32,
    failed: u32,
}

// What a letter behind a backslash stands for.
fn meant(letter: u8) -> u8 {
    match letter {
        b'n' => b'\n',
        b'r' => b'\r',
        b't' => b'\t',
        b'd' => 0x7f,
        other => other,
    }
}

// The text of a row, behind the good lines.
fn text_of(alloc: Global, row: &str) -> Result<Vec<u8>, AllocError> {
    let mut text = Vec::from_slice(alloc, FRONT.as_bytes())?;
    let mut escaped = false;
    for byte in row.bytes() {
        if escaped {
            text.push(meant(byte))?;
            escaped = false;
        } else if byte == b'\\' {
            escaped = true;
        } else {
            text.push(byte)?;
        }
    }
    Ok(text)
}

// The first refusal of a text, or none where it is good.
fn refusal_of(alloc: Global, text: &[u8]) -> Result<Option<Refusal>, AllocError> {
    match read_scenario(alloc, text) {
        Ok(_) => Ok(None),
        Err(OrMemory::Fault(fault)) => Ok(Some(Refusal {
            line: fault.line,
            number: fault.why.number(),
        })),
        Err(OrMemory::NoMemory) => Err(AllocError),
    }
}

// Tries a text, and prints what was found where it isn't what is wanted.
fn judge<R: Print + AllocGlobal>(
    rt: &R,
    tally: &mut Tally,
    name: &str,
    text: &[u8],
    wanted: Option<Refusal>,
) -> Result<()> {
    let found = refusal_of(rt.alloc(), text)?;
    tally.tried = tally.tried.saturating_add(1);
    if found != wanted {
        tally.failed = tally.failed.saturating_add(1);
        println!(rt; "{name}: {found:?}, wanted {wanted:?}")?;
    }
    Ok(())
}

// Tries a row: the line, the number, and the text.
fn judge_row<R: Print + AllocGlobal>(rt: &R, tally: &mut Tally, row: &str) -> Result<()> {
    let (line, rest) = row.split_once(' ').context("a row without a number")?;
    let (number, text) = rest.split_once(' ').context("a row without a text")?;
    let wanted = Refusal {
        line: line.parse().context("a line")?,
        number: number.parse().context("a number")?,
    };
    let bytes = text_of(rt.alloc(), text)?;
    judge(rt, tally, row, &bytes, Some(wanted))
}

// So many times the same line behind others.
fn repeated(alloc: Global, front: &str, line: &str, count: u32) -> Result<String, AllocError> {
    let mut text = String::from_str(alloc, front)?;
    for _ in 0..count {
        text.push_str(line)?;
    }
    Ok(text)
}

// So many names.
fn named(alloc: Global, count: usize) -> Result<String, AllocError> {
    let mut text = String::from_str(alloc, "tapscen 1\n")?;
    for name in 0..count {
        writeln!(text, "send tap{name} - 00")?;
    }
    Ok(text)
}

// Tries texts at the limits of names, turns, commands and bytes, and one past each.
fn judge_limits<R: Print + AllocGlobal>(rt: &R, tally: &mut Tally) -> Result<()> {
    let alloc = rt.alloc();
    let past = |line: u32| { Some(Refusal { line, number: 14 }) };
    let turns = "tapscen 1\nregion 0 0 1\nvhost 0 0\n";
    let reads = "tapscen 1\nfile 0 1\n";
    let text = named(alloc, MAX_NAMES)?;
    judge(rt, tally, "64 names", text.as_bytes(), None)?;
    let text = named(alloc, MAX_NAMES + 1)?;
    judge(rt, tally, "65 names", text.as_bytes(), past(66))?;
    let text = repeated(alloc, turns, "rxturn 0\n", MAX_TURNS)?;
    judge(rt, tally, "512 turns", text.as_bytes(), None)?;
    let text = repeated(alloc, turns, "rxturn 0\n", MAX_TURNS + 1)?;
    judge(rt, tally, "513 turns", text.as_bytes(), past(516))?;
    let text = repeated(alloc, reads, "read 0 0\n", MAX_COMMANDS)?;
    judge(rt, tally, "200,000 commands", text.as_bytes(), None)?;
    let text = repeated(alloc, reads, "read 0 0\n", MAX_COMMANDS + 1)?;
    judge(
        rt,
        tally,
        "200,001 commands",
        text.as_bytes(),
        past(200_003),
    )
}

// Tries texts of comments alone that reach the limit of bytes, and that are one byte longer.
fn judge_lengths<R: Print + AllocGlobal>(rt: &R, tally: &mut Tally) -> Result<()> {
    let mut text = Vec::from_slice(rt.alloc(), b"tapscen 1\n#")?;
    text.resize(MAX_BYTES, b' ')?;
    judge(rt, tally, "67,108,864 bytes", &text, None)?;
    text.push(b' ')?;
    let past = Refusal { line: 0, number: 1 };
    judge(rt, tally, "67,108,865 bytes", &text, Some(past))
}

fn main(rt: HostRuntime) -> Result<()> {
    let mut tally = Tally::default();
    let table = fs::read_to_string(&rt, "refused.txt")?;
    for row in table.lines() {
        if !row.starts_with('#') {
            judge_row(&rt, &mut tally, row)?;
        }
    }
    for (text, line, number) in WHOLE {
        let wanted = Refusal { line, number };
        judge(&rt, &mut tally, text, text.as_bytes(), Some(wanted))?;
    }
    judge_limits(&rt, &mut tally)?;
    judge_lengths(&rt, &mut tally)?;
    println!(rt; "{} tried, {} failed", tally.tried, tally.failed)?;
    Ok(())
}
