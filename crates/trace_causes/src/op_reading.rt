//! Operations on the queue table, read.

ghost use Rattle.std.specs.Prelude.{◌≡◌, IfOk};
ghost use Rattle.trace_causes.specs.OpReading.{back_in, learn_in, op_behind, op_text_in, setiff_in, words_in};

use crate::fields::{device, digits4, digits8, ended, file_number, number_or_dash, number16};
use crate::table::next_word;
use crate::words::{OpWord, TableWord, table_word};
use scen_words::meaning::command_of;
use std::alloc::{AllocError, Global};
use tap_trace::OpText;
use text_fields::{Fields, OrMemory};

// F NAME HEX4.
#[tactic(auto, unfolding(crate::specs::OpReading::setiff_in))]
fn setiff(alloc: Global, fields: Fields<'_>) -> Result<Option<OpText>, AllocError>
    ensures { IfOk result (λ o. o ≡ setiff_in fields.entry) }
{
    let Some((file, fields)) = file_number(fields) else {
        return Ok(None);
    };
    let Some((name, fields)) = device(fields) else {
        return Ok(None);
    };
    let Some((flags, fields)) = digits4(alloc, fields)? else {
        return Ok(None);
    };
    if ended(fields).is_none() {
        return Ok(None);
    }
    Ok(Some(OpText::SetIff { file, name, flags }))
}

// F HASH8.
#[tactic(auto, unfolding(crate::specs::OpReading::learn_in))]
fn learn(alloc: Global, fields: Fields<'_>) -> Result<Option<OpText>, AllocError>
    ensures { IfOk result (λ o. o ≡ learn_in fields.entry) }
{
    let Some((file, fields)) = number16(fields) else {
        return Ok(None);
    };
    let Some((hash, fields)) = digits8(alloc, fields)? else {
        return Ok(None);
    };
    if ended(fields).is_none() {
        return Ok(None);
    }
    Ok(Some(OpText::Learn { file, hash }))
}

// F SIDE V.
#[tactic(auto, unfolding(crate::specs::OpReading::back_in))]
fn back(fields: Fields<'_>) -> Option<OpText>
    ensures { result ≡ back_in fields.entry }
{
    let (file, fields) = number16(fields)?;
    let (side, fields) = next_word(fields)?;
    let (vhost, fields) = number_or_dash(fields)?;
    ended(fields)?;
    Some(OpText::Back { file, side, vhost })
}

// A command's own words, as a scenario has them.
#[tactic(auto, unfolding(crate::specs::OpReading::words_in))]
fn words(alloc: Global, word: TableWord, fields: Fields<'_>) -> Result<Option<OpText>, AllocError>
    ensures { IfOk result (λ o. o ≡ words_in word fields.entry) }
{
    let word = table_word(word);
    match word.form().read(alloc, fields) {
        Ok(values) => {
            let command = command_of(alloc, 0, word, values.as_slice())?;
            Ok(Some(OpText::Words(command)))
        }
        Err(OrMemory::Fault(_)) => Ok(None),
        Err(OrMemory::NoMemory) => Err(AllocError),
    }
}

// What stands behind the word of an operation.
#[tactic(auto, unfolding(crate::specs::OpReading::op_behind))]
fn op_behind(alloc: Global, word: OpWord, fields: Fields<'_>) -> Result<Option<OpText>, AllocError>
    ensures { IfOk result (λ o. o ≡ op_behind word fields.entry) }
{
    match word {
        OpWord::SetIff => setiff(alloc, fields),
        OpWord::Learn => learn(alloc, fields),
        OpWord::Back => Ok(back(fields)),
        OpWord::Words(word) => words(alloc, word, fields),
    }
}

/// An operation.
#[tactic(auto, unfolding(crate::specs::OpReading::op_text_in))]
pub fn op_text(alloc: Global, fields: Fields<'_>) -> Result<Option<OpText>, AllocError>
    ensures { IfOk result (λ o. o ≡ op_text_in fields.entry) }
{
    let Some((word, fields)) = next_word(fields) else {
        return Ok(None);
    };
    op_behind(alloc, word, fields)
}
