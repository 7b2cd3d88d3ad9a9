//! The lines of answers, read.

ghost use Rattle.std.specs.Prelude.{◌≡◌, IfOk};
ghost use Rattle.trace_words.specs.AnswerReading.{answer_behind, answer_in, bad_in, base_in, chains_of, done_in, fault_in, harvested_in, host_in, peeked_in, placed_in, posted_in, read_in, refusal, turn_in};

use crate::words::AnswerWord;
use sqlite_items::Items;
use std::alloc::{AllocError, Global};
use tap_trace::{Answer, AnswerLine};
use text_fields::Fields;
use trace_causes::fields::{
    bytes, bytes_or_none, digits8, ended, first, harvested_of, name, number_to, number16, number32,
    number64,
};
use trace_causes::{ErrText, derr, dropped, end, err, next_word, verr};

// Behind `ok`: nothing, or a version.
#[tactic(auto, unfolding(crate::specs::AnswerReading::done_in))]
fn done(fields: Fields<'_>) -> Option<Answer>
    ensures { result ≡ done_in fields.entry }
{
    let Some((field, fields)) = first(fields) else {
        return Some(Answer::Done);
    };
    let version = number_to(u64::MAX, field)?;
    ended(fields)?;
    Some(Answer::Version(version))
}

// LEN FNV.
#[tactic(auto, unfolding(crate::specs::AnswerReading::host_in))]
fn host(alloc: Global, fields: Fields<'_>) -> Result<Option<Answer>, AllocError>
    ensures { IfOk result (λ o. o ≡ host_in fields.entry) }
{
    let Some((len, fields)) = number32(fields) else {
        return Ok(None);
    };
    let Some((fnv, fields)) = digits8(alloc, fields)? else {
        return Ok(None);
    };
    if ended(fields).is_none() {
        return Ok(None);
    }
    Ok(Some(Answer::Host { len, fnv }))
}

// N.
#[tactic(auto, unfolding(crate::specs::AnswerReading::base_in))]
fn base(fields: Fields<'_>) -> Option<Answer>
    ensures { result ≡ base_in fields.entry }
{
    let (position, fields) = number16(fields)?;
    ended(fields)?;
    Some(Answer::Base(position))
}

// HEX.
#[tactic(auto, unfolding(crate::specs::AnswerReading::peeked_in))]
fn peeked(alloc: Global, fields: Fields<'_>) -> Result<Option<Answer>, AllocError>
    ensures { IfOk result (λ o. o ≡ peeked_in fields.entry) }
{
    let Some((bytes, fields)) = bytes(alloc, fields)? else {
        return Ok(None);
    };
    if ended(fields).is_none() {
        return Ok(None);
    }
    Ok(Some(Answer::Peeked(bytes)))
}

// HEAD.
#[tactic(auto, unfolding(crate::specs::AnswerReading::posted_in))]
fn posted(fields: Fields<'_>) -> Option<Answer>
    ensures { result ≡ posted_in fields.entry }
{
    let (head, fields) = number16(fields)?;
    ended(fields)?;
    Some(Answer::Posted(head))
}

// The chains that came back, one a field.
fn chains(alloc: Global, fields: Fields<'_>) -> Result<Option<Items<(u32, u32)>>, AllocError>
    ensures { IfOk result (λ o. o ≡ chains_of fields.entry) }
{
    let mut left = fields;
    let mut chains = Items::new(alloc);
    while let Some(field) = left.next() {
        let Some(chain) = harvested_of(field) else {
            return Ok(None);
        };
        chains.push(chain)?;
    }
    Ok(Some(chains))
}

// ID:LEN ..
#[tactic(auto, unfolding(crate::specs::AnswerReading::harvested_in))]
fn harvested(alloc: Global, fields: Fields<'_>) -> Result<Option<Answer>, AllocError>
    ensures { IfOk result (λ o. o ≡ harvested_in fields.entry) }
{
    match chains(alloc, fields)? {
        Some(chains) => Ok(Some(Answer::Harvested(chains))),
        None => Ok(None),
    }
}

// ADDR.
#[tactic(auto, unfolding(crate::specs::AnswerReading::fault_in))]
fn fault(fields: Fields<'_>) -> Option<Answer>
    ensures { result ≡ fault_in fields.entry }
{
    let (addr, fields) = number64(fields)?;
    ended(fields)?;
    Some(Answer::Fault { addr })
}

// Nothing.
#[tactic(auto, unfolding(crate::specs::AnswerReading::answer_behind))]
fn no_driver(fields: Fields<'_>) -> Option<Answer>
    ensures { result ≡ answer_behind AnswerWord.NoDriver fields.entry }
{
    ended(fields)?;
    Some(Answer::NoDriver)
}

// PACKETS BYTES END.
#[tactic(auto, unfolding(crate::specs::AnswerReading::turn_in))]
fn turn(alloc: Global, fields: Fields<'_>) -> Option<Answer>
    ensures { result ≡ turn_in fields.entry }
{
    let (packets, fields) = number32(fields)?;
    let (bytes, fields) = number64(fields)?;
    let end = end(fields)?;
    Some(Answer::Turn {
        packets,
        bytes,
        end,
        chains: Items::new(alloc),
    })
}

// N.
#[tactic(auto, unfolding(crate::specs::AnswerReading::bad_in))]
fn bad(fields: Fields<'_>) -> Option<Answer>
    ensures { result ≡ bad_in fields.entry }
{
    let (bad, fields) = next_word(fields)?;
    ended(fields)?;
    Some(Answer::Bad(bad))
}

// F PLACE EPOCH LEN.
#[tactic(auto, unfolding(crate::specs::AnswerReading::placed_in))]
fn placed(fields: Fields<'_>) -> Option<Answer>
    ensures { result ≡ placed_in fields.entry }
{
    let (file, fields) = number16(fields)?;
    let (place, fields) = number64(fields)?;
    let (epoch, fields) = number16(fields)?;
    let (len, fields) = number32(fields)?;
    ended(fields)?;
    Some(Answer::Placed {
        file,
        place,
        epoch,
        len,
    })
}

// NAME PLACE HEX.
#[tactic(auto, unfolding(crate::specs::AnswerReading::read_in))]
fn read(alloc: Global, fields: Fields<'_>) -> Result<Option<Answer>, AllocError>
    ensures { IfOk result (λ o. o ≡ read_in fields.entry) }
{
    let Some((name, fields)) = name(fields) else {
        return Ok(None);
    };
    let Some((place, fields)) = number64(fields) else {
        return Ok(None);
    };
    let Some((bytes, fields)) = bytes_or_none(alloc, fields)? else {
        return Ok(None);
    };
    if ended(fields).is_none() {
        return Ok(None);
    }
    Ok(Some(Answer::Read { name, place, bytes }))
}

// Why a frame was dropped.
#[tactic(auto, unfolding(crate::specs::AnswerReading::answer_behind))]
fn discarded(fields: Fields<'_>) -> Option<Answer>
    ensures { result ≡ answer_behind AnswerWord.Dropped fields.entry }
{
    let (file, cause) = dropped(fields)?;
    Some(Answer::Dropped { file, cause })
}

// The answer that stands behind `err`.
fn refusal(text: ErrText) -> Answer
    ensures { result ≡ refusal text }
{
    match text {
        ErrText::Room { least } => Answer::Room { least },
        ErrText::Busy => Answer::Busy,
        ErrText::Again { place } => Answer::Again { place },
        ErrText::Tap(why) => Answer::Tap(why),
    }
}

// Why an operation or a read is refused.
#[tactic(auto, unfolding(crate::specs::AnswerReading::answer_behind))]
fn refused(fields: Fields<'_>) -> Option<Answer>
    ensures { result ≡ answer_behind AnswerWord.Refused fields.entry }
{
    let text = err(fields)?;
    Some(refusal(text))
}

// Why a vhost refuses a command.
#[tactic(auto, unfolding(crate::specs::AnswerReading::answer_behind))]
fn vhost(fields: Fields<'_>) -> Option<Answer>
    ensures { result ≡ answer_behind AnswerWord.Vhost fields.entry }
{
    let why = verr(fields)?;
    Some(Answer::Vhost(why))
}

// Why a driver refuses a command.
#[tactic(auto, unfolding(crate::specs::AnswerReading::answer_behind))]
fn drive(fields: Fields<'_>) -> Option<Answer>
    ensures { result ≡ answer_behind AnswerWord.Drive fields.entry }
{
    let why = derr(fields)?;
    Some(Answer::Drive(why))
}

// What stands behind the word of an answer.
#[tactic(auto, unfolding(crate::specs::AnswerReading::answer_behind))]
fn answer_behind(
    alloc: Global,
    word: AnswerWord,
    fields: Fields<'_>,
) -> Result<Option<Answer>, AllocError>
    ensures { IfOk result (λ o. o ≡ answer_behind word fields.entry) }
{
    match word {
        AnswerWord::Done => Ok(done(fields)),
        AnswerWord::Host => host(alloc, fields),
        AnswerWord::Base => Ok(base(fields)),
        AnswerWord::Peeked => peeked(alloc, fields),
        AnswerWord::Posted => Ok(posted(fields)),
        AnswerWord::Harvested => harvested(alloc, fields),
        AnswerWord::NoDriver => Ok(no_driver(fields)),
        AnswerWord::Fault => Ok(fault(fields)),
        AnswerWord::Turn => Ok(turn(alloc, fields)),
        AnswerWord::Bad => Ok(bad(fields)),
        AnswerWord::Placed => Ok(placed(fields)),
        AnswerWord::Dropped => Ok(discarded(fields)),
        AnswerWord::Read => read(alloc, fields),
        AnswerWord::Refused => Ok(refused(fields)),
        AnswerWord::Vhost => Ok(vhost(fields)),
        AnswerWord::Drive => Ok(drive(fields)),
    }
}

/// What stands behind `ans`.
#[tactic(auto, unfolding(crate::specs::AnswerReading::answer_in))]
pub fn answer(alloc: Global, fields: Fields<'_>) -> Result<Option<AnswerLine>, AllocError>
    ensures { IfOk result (λ o. o ≡ answer_in fields.entry) }
{
    let Some((actor, fields)) = number16(fields) else {
        return Ok(None);
    };
    let Some((command, fields)) = number32(fields) else {
        return Ok(None);
    };
    let Some((seen, fields)) = number64(fields) else {
        return Ok(None);
    };
    let Some((word, fields)) = next_word(fields) else {
        return Ok(None);
    };
    match answer_behind(alloc, word, fields)? {
        Some(answer) => Ok(Some(AnswerLine {
            actor,
            command,
            seen,
            answer,
        })),
        None => Ok(None),
    }
}
