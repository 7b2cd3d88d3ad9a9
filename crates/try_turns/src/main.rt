//! Makes worked turns over a vhost in a guest's memory, and prints what each of them reports.
//!
//! `turns.txt` has a command in each line; `#` begins a heading, which is printed. Numbers are decimal. `new BIT..` is a
//! memory of 65,536 bytes at 0 and a vhost with these features; `desc AT ADDR LEN FLAGS NEXT` writes a descriptor,
//! `table AT COUNT` linked ones, `frame AT` a header of 12 bytes and a frame of 14, `entry AT PLACE HEAD` and `index AT N`
//! the available ring at an address; `chains TABLE AT COUNT LEN` offers so many chains of one descriptor each, which the
//! device reads at 32,768. `ring R NUM TABLE AVAILABLE USED` sets a ring up, `set R` and `unset R` give it a backend and
//! take it away; `wait N` lets frames of 60 bytes come, and `purge` drops those that wait. `rx` and `tx` make a turn.
//! `look AT..` prints 16-bit fields, `out` the fates of the frames that are out, and `positions` the next ones.
#![tactic(auto)]

mod lab;
mod turns;

use crate::lab::Lab;
use crate::turns::{receive, spelled, transmit};
use anyhow::{Context, Result, bail};
use std::alloc::Global;
use std::fs;
use vring_turns::TurnEnd;

// The numbers behind a word.
fn numbers_of(alloc: Global, line: &str) -> Result<Vec<u64>> {
    let mut numbers = Vec::new(alloc);
    for word in line.split(' ').skip(1) {
        numbers.push(word.parse().context("a number")?)?;
    }
    Ok(numbers)
}

fn show<R: AllocGlobal + Print>(rt: &R, word: &str, ended: TurnEnd) -> Result<()> {
    let end = spelled(rt.alloc(), ended.end)?;
    let TurnEnd { packets, bytes, .. } = ended;
    rt.println(format_args!("{word}: turn {packets} {bytes} {end}"))?;
    Ok(())
}

// A command that writes into the memory; whether it is one.
fn write(lab: &mut Lab, word: &str, numbers: &[u64]) -> Result<bool> {
    match word.as_bytes() {
        b"desc" => lab.put_desc(numbers)?,
        b"table" => lab.put_table(numbers)?,
        b"frame" => lab.put_frame(numbers)?,
        b"entry" => lab.put_entry(numbers)?,
        b"index" => lab.put_index(numbers)?,
        b"chains" => lab.put_chains(numbers)?,
        _ => return Ok(false),
    }
    Ok(true)
}

// A command to the vhost or the queue of frames; whether it is one.
fn control(alloc: Global, lab: &mut Lab, word: &str, numbers: &[u64]) -> Result<bool> {
    match word.as_bytes() {
        b"new" => lab.renew(alloc, numbers)?,
        b"ring" => lab.set_up(numbers)?,
        b"set" => lab.set(numbers)?,
        b"unset" => lab.unset(numbers)?,
        b"wait" => lab.wait(alloc, numbers)?,
        b"purge" => lab.purge(alloc),
        _ => return Ok(false),
    }
    Ok(true)
}

// A command that prints.
fn look<R: AllocGlobal + Print>(rt: &R, lab: &mut Lab, word: &str, numbers: &[u64]) -> Result<()> {
    match word.as_bytes() {
        b"rx" => show(rt, word, receive(rt.alloc(), lab)?),
        b"tx" => show(rt, word, transmit(rt.alloc(), lab)?),
        b"look" => lab.show_fields(rt, numbers),
        b"out" => lab.show_fates(rt),
        b"positions" => lab.show_positions(rt),
        _ => bail!("an unknown command"),
    }
}

fn command<R: AllocGlobal + Print>(rt: &R, lab: &mut Lab, line: &str) -> Result<()> {
    let numbers = numbers_of(rt.alloc(), line)?;
    let word = line.split(' ').next().unwrap_or("");
    if write(lab, word, &numbers)? || control(rt.alloc(), lab, word, &numbers)? {
        return Ok(());
    }
    look(rt, lab, word, &numbers)
}

fn run<R: AllocGlobal + Print>(rt: &R, lab: &mut Lab, text: &str) -> Result<()> {
    for line in text.lines() {
        if line.starts_with('#') {
            rt.println(format_args!("{line}"))?;
        } else if !line.is_empty() {
            command(rt, lab, line)?;
        }
    }
    Ok(())
}

fn main(rt: HostRuntime) -> Result<()> {
    let text = fs::read_to_string(&rt, "turns.txt")?;
    let mut lab = Lab::new(rt.alloc())?;
    let done = run(&rt, &mut lab, &text);
    lab.abandon();
    done
}
