//! What a line says by itself.

ghost use Rattle.std.specs.Prelude.{◌≡◌};
ghost use Rattle.tap_ground.specs.Errors.{Gives};
ghost use Rattle.scen_words.specs.Sentences.{actor_sentence, fields_sentence, is_skipped, ordered, plain_sentence, sentence, sentence_of, version_of, why_of};
ghost use Rattle.text_fields.specs.Forms.{values_of};
ghost use Rattle.scen_words.specs.Words.{command_form};

use crate::fault::Why;
use crate::meaning::u16_at;
use crate::sentence::Sentence;
use crate::word::{CommandWord, Word, word_of};
use sqlite_items::Items;
use std::alloc::Global;
use tap_ground::OrMemory;
use text_fields::{FieldFault, Fields, Value, is_text_line, number_of};

/// The version that the first line gives.
#[tactic(auto, unfolding(crate::specs::Sentences::version_of))]
pub fn version_of(line: &[u8]) -> Result<u8, Why>
    ensures { result ≡ version_of line.now }
{
    if !is_text_line(line) {
        return Err(Why::NotText);
    }
    if line == b"tapscen 1".as_slice() {
        return Ok(1);
    }
    if line == b"tapscen 2".as_slice() {
        return Ok(2);
    }
    Err(Why::Version)
}

// How a line's fields are refused.
fn why_of(fault: FieldFault) -> Why
    ensures { result ≡ why_of fault }
{
    match fault {
        FieldFault::Fields => Why::Fields,
        FieldFault::Number => Why::Number,
        FieldFault::Hex => Why::Hex,
    }
}

// What a word without `@K` and its values say.
#[tactic(auto, unfolding(crate::specs::Sentences::sentence))]
fn sentence(word: Word, values: Items<Value>) -> Sentence
    ensures { result ≡ sentence word values }
{
    match word {
        Word::Declares(word) => Sentence::Declares { word, values },
        Word::Orders(word) => Sentence::Orders {
            actor: None,
            word,
            values,
        },
        Word::Phase => Sentence::Opens {
            actors: u16_at(values.as_slice(), 0),
        },
        Word::End => Sentence::Ends,
    }
}

// A line without `@K`.
#[tactic(auto, unfolding(crate::specs::Sentences::plain_sentence))]
fn plain_sentence(
    alloc: Global,
    version: u8,
    first: &[u8],
    fields: Fields,
) -> Result<Sentence, OrMemory<Why>>
    ensures { Gives result (plain_sentence version first.now fields.entry) }
{
    let Some(word) = word_of(version, first) else {
        return Err(OrMemory::Fault(Why::Word));
    };
    match word.form().read(alloc, fields) {
        Ok(values) => Ok(sentence(word, values)),
        Err(OrMemory::Fault(fault)) => Err(OrMemory::Fault(why_of(fault))),
        Err(OrMemory::NoMemory) => Err(OrMemory::NoMemory),
    }
}

// A command of the actor of `@K`, or of none where that isn't `@` and a number.
fn ordered(
    alloc: Global,
    word: CommandWord,
    actor: Option<u64>,
    fields: Fields,
) -> Result<Sentence, OrMemory<Why>>
    ensures { Gives result (ordered word actor (values_of (command_form word) fields.entry)) }
{
    match (word.form().read(alloc, fields), actor) {
        (Err(OrMemory::NoMemory), _) => Err(OrMemory::NoMemory),
        (Err(OrMemory::Fault(FieldFault::Fields)), _) => Err(OrMemory::Fault(Why::Fields)),
        (_, None) => Err(OrMemory::Fault(Why::Number)),
        (Ok(values), Some(_)) => Ok(Sentence::Orders {
            actor,
            word,
            values,
        }),
        (Err(OrMemory::Fault(fault)), Some(_)) => Err(OrMemory::Fault(why_of(fault))),
    }
}

// A line with `@K`, of which this is what stands behind the `@`.
#[tactic(auto, unfolding(crate::specs::Sentences::actor_sentence))]
fn actor_sentence(
    alloc: Global,
    version: u8,
    actor: &[u8],
    mut fields: Fields,
) -> Result<Sentence, OrMemory<Why>>
    ensures { Gives result (actor_sentence version actor.now fields.entry) }
{
    let Some(word) = fields.next() else {
        return Err(OrMemory::Fault(Why::Fields));
    };
    match word_of(version, word) {
        Some(Word::Orders(word)) => ordered(alloc, word, number_of(actor), fields),
        _ => Err(OrMemory::Fault(Why::Word)),
    }
}

// The fields of a line that isn't skipped.
#[tactic(auto, unfolding(crate::specs::Sentences::fields_sentence))]
fn fields_sentence(
    alloc: Global,
    version: u8,
    mut fields: Fields,
) -> Result<Sentence, OrMemory<Why>>
    ensures { Gives result (fields_sentence version fields.entry) }
{
    match fields.next() {
        Some([b'@', actor @ ..]) => actor_sentence(alloc, version, actor, fields),
        Some([]) | None => Err(OrMemory::Fault(Why::Word)),
        Some(first) => plain_sentence(alloc, version, first, fields),
    }
}

// An empty line, or one that begins with `#`.
fn is_skipped(line: &[u8]) -> bool
    ensures { result ≡ is_skipped line.now }
{
    match line {
        [] => true,
        [first, ..] => *first == b'#',
    }
}

/// What a line says, or its first refusal.
#[tactic(auto, unfolding(crate::specs::Sentences::sentence_of))]
pub fn sentence_of(alloc: Global, version: u8, line: &[u8]) -> Result<Sentence, OrMemory<Why>>
    ensures { Gives result (sentence_of version line.now) }
{
    if !is_text_line(line) {
        return Err(OrMemory::Fault(Why::NotText));
    }
    if is_skipped(line) {
        return Ok(Sentence::Skipped);
    }
    fields_sentence(alloc, version, Fields::new(line))
}
