//! What one line of a trace says, read.

ghost use Rattle.std.specs.Prelude.{◌≡◌, IfOk};
ghost use Rattle.std.specs.Option.{IfNone, IfSome};
ghost use Rattle.text_fields.specs.Lines.{fields_of};
ghost use Rattle.trace_words.specs.LineReading.{begins_in, file_in, format_of, got_in, guest_in, list_in, phase_in, refused_in, resize_in, ring_in, said_behind, said_in, used_in};
ghost use Rattle.trace_words.specs.Said.{Says};

use crate::answer_reading::answer;
use crate::operations::op;
use crate::places::place;
use crate::said::Said;
use crate::step_reading::step;
use crate::words::HeadWord;
use std::alloc::{AllocError, Global};
use tap_trace::ChainText;
use text_fields::Fields;
use trace_causes::fields::{digits8, ended, first, name, number16, number32, number64};
use trace_causes::next_word;

// The version of the format.
#[tactic(auto, unfolding(crate::specs::LineReading::format_of))]
fn format_of(field: &[u8]) -> Option<()>
    ensures { result ≡ format_of field.now }
{
    if b"1".as_slice() == field {
        Some(())
    } else {
        None
    }
}

// The line that a trace begins with, behind its word.
#[tactic(auto, unfolding(crate::specs::LineReading::begins_in))]
fn begins(fields: Fields<'_>) -> Option<Said>
    ensures { result ≡ begins_in fields.entry }
{
    let (field, fields) = first(fields)?;
    format_of(field)?;
    ended(fields)?;
    Some(Said::Begins)
}

// P ACTORS.
#[tactic(auto, unfolding(crate::specs::LineReading::phase_in))]
fn phase(fields: Fields<'_>) -> Option<Said>
    ensures { result ≡ phase_in fields.entry }
{
    let (number, fields) = number64(fields)?;
    let (actors, fields) = number16(fields)?;
    ended(fields)?;
    Some(Said::Phase { number, actors })
}

// CLAIMED FREED CUT.
#[tactic(auto, unfolding(crate::specs::LineReading::resize_in))]
fn resize(fields: Fields<'_>) -> Option<Said>
    ensures { result ≡ resize_in fields.entry }
{
    let (claimed, fields) = number64(fields)?;
    let (freed, fields) = number64(fields)?;
    let (cut, fields) = number64(fields)?;
    ended(fields)?;
    Some(Said::Resize {
        claimed,
        freed,
        cut,
    })
}

// NAME LEN FNV.
#[tactic(auto, unfolding(crate::specs::LineReading::got_in))]
fn got(alloc: Global, fields: Fields<'_>) -> Result<Option<Said>, AllocError>
    ensures { IfOk result (λ o. o ≡ got_in fields.entry) }
{
    let Some((name, fields)) = name(fields) else {
        return Ok(None);
    };
    let Some((len, fields)) = number32(fields) else {
        return Ok(None);
    };
    let Some((fnv, fields)) = digits8(alloc, fields)? else {
        return Ok(None);
    };
    if ended(fields).is_none() {
        return Ok(None);
    }
    Ok(Some(Said::Chain(ChainText::Got { name, len, fnv })))
}

// POSITION N.
#[tactic(auto, unfolding(crate::specs::LineReading::refused_in))]
fn refused(fields: Fields<'_>) -> Option<Said>
    ensures { result ≡ refused_in fields.entry }
{
    let (position, fields) = number16(fields)?;
    let (bad, fields) = next_word(fields)?;
    ended(fields)?;
    Some(Said::Chain(ChainText::Refused { position, bad }))
}

// F CLAIMED FREED.
#[tactic(auto, unfolding(crate::specs::LineReading::file_in))]
fn file(fields: Fields<'_>) -> Option<Said>
    ensures { result ≡ file_in fields.entry }
{
    let (file, fields) = number16(fields)?;
    let (claimed, fields) = number64(fields)?;
    let (freed, fields) = number64(fields)?;
    ended(fields)?;
    Some(Said::File {
        file,
        claimed,
        freed,
    })
}

// G.
#[tactic(auto, unfolding(crate::specs::LineReading::guest_in))]
fn guest(fields: Fields<'_>) -> Option<Said>
    ensures { result ≡ guest_in fields.entry }
{
    let (guest, fields) = number16(fields)?;
    ended(fields)?;
    Some(Said::Guest { guest })
}

// V R.
#[tactic(auto, unfolding(crate::specs::LineReading::ring_in))]
fn ring(fields: Fields<'_>) -> Option<Said>
    ensures { result ≡ ring_in fields.entry }
{
    let (vhost, fields) = number16(fields)?;
    let (ring, fields) = number16(fields)?;
    ended(fields)?;
    Some(Said::Ring { vhost, ring })
}

// N.
#[tactic(auto, unfolding(crate::specs::LineReading::list_in))]
fn list(fields: Fields<'_>) -> Option<Said>
    ensures { result ≡ list_in fields.entry }
{
    let (base, fields) = number16(fields)?;
    ended(fields)?;
    Some(Said::Base { base })
}

// POSITION HEAD LEN.
#[tactic(auto, unfolding(crate::specs::LineReading::used_in))]
fn used(fields: Fields<'_>) -> Option<Said>
    ensures { result ≡ used_in fields.entry }
{
    let (position, fields) = number16(fields)?;
    let (head, fields) = number16(fields)?;
    let (len, fields) = number32(fields)?;
    ended(fields)?;
    Some(Said::Used {
        position,
        head,
        len,
    })
}

// An operation.
#[tactic(auto, unfolding(crate::specs::LineReading::said_behind))]
fn op_line(alloc: Global, fields: Fields<'_>) -> Result<Option<Said>, AllocError>
    ensures { IfOk result (λ o. o ≡ said_behind HeadWord.Op fields.entry) }
{
    match op(alloc, fields)? {
        Some(line) => Ok(Some(Said::Op(line))),
        None => Ok(None),
    }
}

// An answer.
#[tactic(auto, unfolding(crate::specs::LineReading::said_behind))]
fn answer_line(alloc: Global, fields: Fields<'_>) -> Result<Option<Said>, AllocError>
    ensures { IfOk result (λ o. o ≡ said_behind HeadWord.Answer fields.entry) }
{
    match answer(alloc, fields)? {
        Some(line) => Ok(Some(Said::Answer(line))),
        None => Ok(None),
    }
}

// A frame that had a place.
#[tactic(auto, unfolding(crate::specs::LineReading::said_behind))]
fn place_line(fields: Fields<'_>) -> Option<Said>
    ensures { result ≡ said_behind HeadWord.Place fields.entry }
{
    let line = place(fields)?;
    Some(Said::Place(line))
}

// A step on a guest.
#[tactic(auto, unfolding(crate::specs::LineReading::said_behind))]
fn step_line(fields: Fields<'_>) -> Option<Said>
    ensures { result ≡ said_behind HeadWord.Step fields.entry }
{
    let line = step(fields)?;
    Some(Said::Step(line))
}

// The end.
#[tactic(auto, unfolding(crate::specs::LineReading::said_behind))]
fn end(fields: Fields<'_>) -> Option<Said>
    ensures { result ≡ said_behind HeadWord.End fields.entry }
{
    ended(fields)?;
    Some(Said::End)
}

// What stands behind the first word of a line.
#[tactic(auto, unfolding(crate::specs::LineReading::said_behind))]
fn said_behind(
    alloc: Global,
    word: HeadWord,
    fields: Fields<'_>,
) -> Result<Option<Said>, AllocError>
    ensures { IfOk result (λ o. o ≡ said_behind word fields.entry) }
{
    match word {
        HeadWord::Begins => Ok(begins(fields)),
        HeadWord::Phase => Ok(phase(fields)),
        HeadWord::Op => op_line(alloc, fields),
        HeadWord::Answer => answer_line(alloc, fields),
        HeadWord::Resize => Ok(resize(fields)),
        HeadWord::Got => got(alloc, fields),
        HeadWord::Refused => Ok(refused(fields)),
        HeadWord::File => Ok(file(fields)),
        HeadWord::Place => Ok(place_line(fields)),
        HeadWord::Guest => Ok(guest(fields)),
        HeadWord::Step => Ok(step_line(fields)),
        HeadWord::Ring => Ok(ring(fields)),
        HeadWord::Base => Ok(list(fields)),
        HeadWord::Used => Ok(used(fields)),
        HeadWord::End => Ok(end(fields)),
    }
}

// What the fields of a line say.
#[tactic(auto, unfolding(crate::specs::LineReading::said_in))]
fn said_in(alloc: Global, fields: Fields<'_>) -> Result<Option<Said>, AllocError>
    ensures { IfOk result (λ o. o ≡ said_in fields.entry) }
{
    let Some((word, fields)) = next_word(fields) else {
        return Ok(None);
    };
    said_behind(alloc, word, fields)
}

// What a line says, by the fields.
fn line_said(alloc: Global, line: &[u8]) -> Result<Option<Said>, AllocError>
    ensures { IfOk result (λ o. o ≡ said_in (fields_of line.now)) }
{
    said_in(alloc, Fields::new(line))
}

/// What a line without its LF says by itself, or nothing where no line of a trace is written so. Of an answer it says
/// nothing of the lines behind it. `Err` is want of memory alone.
pub fn said_of(alloc: Global, line: &[u8]) -> Result<Option<Said>, AllocError>
    // What is found is what the line says.
    ensures found { IfOk result (λ o. IfSome o (λ s. Says line.now s)) }
    // Where nothing is found, the line says nothing.
    ensures none { IfOk result (λ o. IfNone o ((s : Said) → Says line.now s → ⊥)) }
{
    text_fields::line_laws();
    trace_causes::field_laws();
    trace_causes::cause_laws();
    line_said(alloc, line)
}
