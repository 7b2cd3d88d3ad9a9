//! How turns ended.

ghost use Rattle.std.specs.Prelude.{◌≡◌, ◌++◌, OnOk, string_bytes};
ghost use Rattle.std.specs.List.{join_with_byte};
ghost use Rattle.trace_causes.specs.CauseReading.{end_behind, end_in, short_in, stopped_in};
ghost use Rattle.trace_causes.specs.Causes.{end_fields};

use crate::fields::{ended, number8, number32, number64};
use crate::table::next_word;
use crate::words::EndWord;
use std::alloc::AllocError;
use std::fmt::Write;
use tap_trace::TurnText;
use text_fields::Fields;

/// Adds how a turn ended.
pub fn put_end(out: &mut String, end: TurnText) -> Result<(), AllocError>
    ensures { OnOk result (string_bytes out.new ≡ string_bytes out.old ++ join_with_byte 32 (end_fields end)) }
{
    match end {
        TurnText::Idle => out.push_str("idle"),
        TurnText::Short { need, had } => write!(out, "short {need} {had}"),
        TurnText::Again => out.push_str("again"),
        TurnText::Stopped(fault) => write!(out, "stopped {fault}"),
        TurnText::Off => out.push_str("off"),
    }
}

// NEED HAD.
#[tactic(auto, unfolding(crate::specs::CauseReading::short_in))]
fn short(fields: Fields<'_>) -> Option<TurnText>
    ensures { result ≡ short_in fields.entry }
{
    let (need, fields) = number32(fields)?;
    let (had, fields) = number64(fields)?;
    ended(fields)?;
    Some(TurnText::Short { need, had })
}

// N.
#[tactic(auto, unfolding(crate::specs::CauseReading::stopped_in))]
fn stopped(fields: Fields<'_>) -> Option<TurnText>
    ensures { result ≡ stopped_in fields.entry }
{
    let (fault, fields) = number8(fields)?;
    ended(fields)?;
    Some(TurnText::Stopped(fault))
}

// What stands behind the word for how a turn ended.
#[tactic(auto, unfolding(crate::specs::CauseReading::end_behind))]
fn end_behind(word: EndWord, fields: Fields<'_>) -> Option<TurnText>
    ensures { result ≡ end_behind word fields.entry }
{
    match word {
        EndWord::Idle => {
            ended(fields)?;
            Some(TurnText::Idle)
        }
        EndWord::Short => short(fields),
        EndWord::Again => {
            ended(fields)?;
            Some(TurnText::Again)
        }
        EndWord::Stopped => stopped(fields),
        EndWord::Off => {
            ended(fields)?;
            Some(TurnText::Off)
        }
    }
}

/// How a turn ended.
#[tactic(auto, unfolding(crate::specs::CauseReading::end_in))]
pub fn end(fields: Fields<'_>) -> Option<TurnText>
    ensures { result ≡ end_in fields.entry }
{
    let (word, fields) = next_word(fields)?;
    end_behind(word, fields)
}
