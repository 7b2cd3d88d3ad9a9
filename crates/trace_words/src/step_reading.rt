//! The lines of steps, read.

ghost use Rattle.std.specs.Prelude.{◌≡◌};
ghost use Rattle.trace_words.specs.StepReading.{backend_in, copy_in, features_in, fetch_in, halt_in, kind_behind, notices_in, plain_in, plain_kind, publish_in, step_in};

use crate::words::{KindWord, PlainWord};
use tap_trace::{Kind, StepLine};
use text_fields::Fields;
use trace_causes::fields::{ended, name_or_dash, number8, number16, number32};
use trace_causes::next_word;

fn plain_kind(word: PlainWord, vhost: u16, ring: u16) -> Kind
    ensures { result ≡ plain_kind word vhost ring }
{
    match word {
        PlainWord::None => Kind::None { vhost, ring },
        PlainWord::Crowded => Kind::Crowded { vhost, ring },
        PlainWord::Off => Kind::Off { vhost, ring },
        PlainWord::Stopped => Kind::Stopped { vhost, ring },
        PlainWord::Num => Kind::Num { vhost, ring },
        PlainWord::Base => Kind::Base { vhost, ring },
        PlainWord::Addr => Kind::Addr { vhost, ring },
        PlainWord::GetBase => Kind::GetBase { vhost, ring },
        PlainWord::Drive => Kind::Drive { vhost, ring },
        PlainWord::Post => Kind::Post { vhost, ring },
        PlainWord::Harvest => Kind::Harvest { vhost, ring },
    }
}

// V R.
#[tactic(auto, unfolding(crate::specs::StepReading::plain_in))]
fn plain(word: PlainWord, fields: Fields<'_>) -> Option<Kind>
    ensures { result ≡ plain_in word fields.entry }
{
    let (vhost, fields) = number16(fields)?;
    let (ring, fields) = number16(fields)?;
    ended(fields)?;
    Some(plain_kind(word, vhost, ring))
}

// V R POSITION HEAD.
#[tactic(auto, unfolding(crate::specs::StepReading::fetch_in))]
fn fetch(fields: Fields<'_>) -> Option<Kind>
    ensures { result ≡ fetch_in fields.entry }
{
    let (vhost, fields) = number16(fields)?;
    let (ring, fields) = number16(fields)?;
    let (position, fields) = number16(fields)?;
    let (head, fields) = number16(fields)?;
    ended(fields)?;
    Some(Kind::Fetch {
        vhost,
        ring,
        position,
        head,
    })
}

// V R N.
#[tactic(auto, unfolding(crate::specs::StepReading::halt_in))]
fn halt(fields: Fields<'_>) -> Option<Kind>
    ensures { result ≡ halt_in fields.entry }
{
    let (vhost, fields) = number16(fields)?;
    let (ring, fields) = number16(fields)?;
    let (fault, fields) = number8(fields)?;
    ended(fields)?;
    Some(Kind::Halt { vhost, ring, fault })
}

// V R POSITION NAME.
#[tactic(auto, unfolding(crate::specs::StepReading::copy_in))]
fn copy(fields: Fields<'_>) -> Option<Kind>
    ensures { result ≡ copy_in fields.entry }
{
    let (vhost, fields) = number16(fields)?;
    let (ring, fields) = number16(fields)?;
    let (position, fields) = number16(fields)?;
    let (name, fields) = name_or_dash(fields)?;
    ended(fields)?;
    Some(Kind::Copy {
        vhost,
        ring,
        position,
        name,
    })
}

// V R COUNT CALL.
#[tactic(auto, unfolding(crate::specs::StepReading::publish_in))]
fn publish(fields: Fields<'_>) -> Option<Kind>
    ensures { result ≡ publish_in fields.entry }
{
    let (vhost, fields) = number16(fields)?;
    let (ring, fields) = number16(fields)?;
    let (count, fields) = number16(fields)?;
    let (call, fields) = next_word(fields)?;
    ended(fields)?;
    Some(Kind::Publish {
        vhost,
        ring,
        count,
        call,
    })
}

// V R B.
#[tactic(auto, unfolding(crate::specs::StepReading::notices_in))]
fn notices(fields: Fields<'_>) -> Option<Kind>
    ensures { result ≡ notices_in fields.entry }
{
    let (vhost, fields) = number16(fields)?;
    let (ring, fields) = number16(fields)?;
    let (on, fields) = next_word(fields)?;
    ended(fields)?;
    Some(Kind::Notices { vhost, ring, on })
}

// V R B.
#[tactic(auto, unfolding(crate::specs::StepReading::backend_in))]
fn backend(fields: Fields<'_>) -> Option<Kind>
    ensures { result ≡ backend_in fields.entry }
{
    let (vhost, fields) = number16(fields)?;
    let (ring, fields) = number16(fields)?;
    let (set, fields) = next_word(fields)?;
    ended(fields)?;
    Some(Kind::Backend { vhost, ring, set })
}

// V.
#[tactic(auto, unfolding(crate::specs::StepReading::features_in))]
fn features(fields: Fields<'_>) -> Option<Kind>
    ensures { result ≡ features_in fields.entry }
{
    let (vhost, fields) = number16(fields)?;
    ended(fields)?;
    Some(Kind::Features { vhost })
}

// What stands behind the word of a step.
#[tactic(auto, unfolding(crate::specs::StepReading::kind_behind))]
fn kind_behind(word: KindWord, fields: Fields<'_>) -> Option<Kind>
    ensures { result ≡ kind_behind word fields.entry }
{
    match word {
        KindWord::Fetch => fetch(fields),
        KindWord::Halt => halt(fields),
        KindWord::Copy => copy(fields),
        KindWord::Publish => publish(fields),
        KindWord::Notices => notices(fields),
        KindWord::Backend => backend(fields),
        KindWord::Features => features(fields),
        KindWord::Poke => {
            ended(fields)?;
            Some(Kind::Poke)
        }
        KindWord::Peek => {
            ended(fields)?;
            Some(Kind::Peek)
        }
        KindWord::Plain(word) => plain(word, fields),
    }
}

/// What stands behind `step`.
#[tactic(auto, unfolding(crate::specs::StepReading::step_in))]
pub fn step(fields: Fields<'_>) -> Option<StepLine>
    ensures { result ≡ step_in fields.entry }
{
    let (actor, fields) = number16(fields)?;
    let (command, fields) = number32(fields)?;
    let (word, fields) = next_word(fields)?;
    let kind = kind_behind(word, fields)?;
    Some(StepLine {
        actor,
        command,
        kind,
    })
}
