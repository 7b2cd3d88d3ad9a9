//! The lines of answers.

ghost use Rattle.std.specs.Prelude.{◌≡◌, ◌++◌, ◌∷◌, OnOk, string_bytes, map, codes};
ghost use Rattle.std.specs.List.{flat_map, join_with_byte};
ghost use Rattle.std.specs.Fmt.{decimal};
ghost use Rattle.scen_words.specs.Field.{line, text};
ghost use Rattle.trace_causes.specs.Causes.{end_fields};
ghost use Rattle.trace_causes.specs.Values.{harvested};
ghost use Rattle.trace_words.specs.Answers.{answer_fields, answer_line, answer_lines, chain_line, lines_behind};

use std::alloc::AllocError;
use std::fmt::Write;
use tap_trace::{Answer, AnswerLine, ChainText, TurnText};
use text_fields::LowerHex;
use trace_causes::{FrameName, Hash, Word, put_drive, put_dropped, put_end, put_tap, put_vhost};

// A turn with its packets and bytes, and how it ended.
fn put_turn(out: &mut String, packets: u32, bytes: u64, end: TurnText) -> Result<(), AllocError>
    ensures { OnOk result (string_bytes out.new ≡ string_bytes out.old
        ++ join_with_byte 32 (codes "turn" ∷ decimal packets ∷ decimal bytes ∷ end_fields end)) }
{
    write!(out, "turn {packets} {bytes} ")?;
    put_end(out, end)
}

// The line of a chain of a transmit turn.
fn put_chain(out: &mut String, chain: &ChainText) -> Result<(), AllocError>
    ensures { OnOk result (string_bytes out.new ≡ string_bytes out.old ++ line (chain_line chain.now)) }
{
    match chain {
        ChainText::Got { name, len, fnv } => {
            writeln!(out, "got {} {len} {}", FrameName(*name), Hash(*fnv))
        }
        ChainText::Refused { position, bad } => {
            let bad = bad.spelling();
            writeln!(out, "refused {position} {bad}")
        }
    }
}

fn put_chains(out: &mut String, chains: &[ChainText]) -> Result<(), AllocError>
    ensures { OnOk result (string_bytes out.new ≡ string_bytes out.old ++ text (map chain_line chains.now)) }
{
    for chain in chains {
        put_chain(out, chain)?;
    }
    Ok(())
}

// The chains that came back, each behind a space.
fn put_harvested(out: &mut String, chains: &[(u32, u32)]) -> Result<(), AllocError>
    ensures { OnOk result (string_bytes out.new ≡ string_bytes out.old ++ flat_map (λ e. 32 ∷ harvested e) chains.now) }
{
    for (id, len) in chains {
        write!(out, " {id}:{len}")?;
    }
    Ok(())
}

// What a command answered.
fn put_answer_text(out: &mut String, answer: &Answer) -> Result<(), AllocError>
    ensures { OnOk result (string_bytes out.new ≡ string_bytes out.old
        ++ join_with_byte 32 (answer_fields answer.now)) }
{
    match answer {
        Answer::Done => out.push_str("ok"),
        Answer::Version(version) => write!(out, "ok {version}"),
        Answer::Resized { version, .. } => write!(out, "ok {version}"),
        Answer::Host { len, fnv } => write!(out, "host {len} {}", Hash(*fnv)),
        Answer::Base(position) => write!(out, "base {position}"),
        Answer::Peeked(bytes) => write!(out, "bytes {}", LowerHex::new(bytes.as_slice())),
        Answer::Posted(head) => write!(out, "posted {head}"),
        Answer::Harvested(chains) => {
            out.push_str("harvest")?;
            put_harvested(out, chains.as_slice())
        }
        Answer::NoDriver => out.push_str("nodriver"),
        Answer::Fault { addr } => write!(out, "fault {addr}"),
        Answer::Turn {
            packets,
            bytes,
            end,
            ..
        } => put_turn(out, *packets, *bytes, *end),
        Answer::Bad(bad) => {
            let bad = bad.spelling();
            write!(out, "bad {bad}")
        }
        Answer::Placed {
            file,
            place,
            epoch,
            len,
        } => write!(out, "placed {file} {place} {epoch} {len}"),
        Answer::Dropped { file, cause } => put_dropped(out, *file, *cause),
        Answer::Read { name, place, bytes } => write!(
            out,
            "read {} {place} {}",
            FrameName(*name),
            LowerHex::new(bytes.as_slice())
        ),
        Answer::Room { least } => write!(out, "err EINVAL {least}"),
        Answer::Busy => out.push_str("err EBUSY"),
        Answer::Again { place } => write!(out, "err EAGAIN {place}"),
        Answer::Tap(why) => put_tap(out, *why),
        Answer::Vhost(why) => put_vhost(out, *why),
        Answer::Drive(why) => put_drive(out, *why),
    }
}

// The line of an answer.
fn put_answer_line(out: &mut String, answer: &AnswerLine) -> Result<(), AllocError>
    ensures { OnOk result (string_bytes out.new ≡ string_bytes out.old ++ line (answer_line answer.now)) }
{
    let actor = answer.actor;
    let command = answer.command;
    let seen = answer.seen;
    write!(out, "ans {actor} {command} {seen} ")?;
    put_answer_text(out, &answer.answer)?;
    out.push('\n')
}

// The lines behind an answer.
fn put_lines_behind(out: &mut String, answer: &Answer) -> Result<(), AllocError>
    ensures { OnOk result (string_bytes out.new ≡ string_bytes out.old ++ text (lines_behind answer.now)) }
{
    match answer {
        Answer::Resized {
            claimed,
            freed,
            cut,
            ..
        } => writeln!(out, "resize {claimed} {freed} {cut}"),
        Answer::Turn { chains, .. } => put_chains(out, chains.as_slice()),
        _ => Ok(()),
    }
}

/// Adds an answer, and the lines behind it.
pub fn put_answer(out: &mut String, answer: &AnswerLine) -> Result<(), AllocError>
    ensures { OnOk result (string_bytes out.new ≡ string_bytes out.old ++ text (answer_lines answer.now)) }
{
    put_answer_line(out, answer)?;
    put_lines_behind(out, &answer.answer)
}
