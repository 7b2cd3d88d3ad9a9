//! Why commands are refused, and what became of frames, read.

ghost use Rattle.std.specs.Prelude.{◌≡◌};
ghost use Rattle.trace_causes.specs.CauseReading.{derr_behind, derr_in, drop_behind, drop_in, e2big_in, eagain_in, ebusy_in, ehdr_in, einval_in, err_behind, err_in, fate_behind, fate_in, full_in, gone_in, outside_in, overrun_in, ring_full_in, room_or_invalid, spent_in, stray_in, too_long_in, verr_behind, verr_in};

use crate::err_text::ErrText;
use crate::fields::{ended, first, number_to, number16, number32, number64};
use crate::table::{next_word, word_of};
use crate::words::{DriveWord, DropWord, ErrWord, FateWord, VhostWord};
use tap_trace::{Cause, DriveText, Fate, TapText, VhostText};
use text_fields::Fields;

// The least room, or what makes no sense.
fn room_or_invalid(field: &[u8]) -> Option<ErrText>
    ensures { result ≡ room_or_invalid field.now }
{
    if let Some(least) = number_to(u64::MAX, field) {
        return Some(ErrText::Room { least });
    }
    let why = word_of(field)?;
    Some(ErrText::Tap(TapText::EINVAL(why)))
}

// Behind `EINVAL`.
#[tactic(auto, unfolding(crate::specs::CauseReading::einval_in))]
fn einval(fields: Fields<'_>) -> Option<ErrText>
    ensures { result ≡ einval_in fields.entry }
{
    let (field, fields) = first(fields)?;
    let text = room_or_invalid(field)?;
    ended(fields)?;
    Some(text)
}

// Behind `EBUSY`: nothing, or what is taken.
#[tactic(auto, unfolding(crate::specs::CauseReading::ebusy_in))]
fn ebusy(fields: Fields<'_>) -> Option<ErrText>
    ensures { result ≡ ebusy_in fields.entry }
{
    let Some((field, fields)) = first(fields) else {
        return Some(ErrText::Busy);
    };
    let why = word_of(field)?;
    ended(fields)?;
    Some(ErrText::Tap(TapText::EBUSY(why)))
}

// Behind `E2BIG`.
#[tactic(auto, unfolding(crate::specs::CauseReading::e2big_in))]
fn e2big(fields: Fields<'_>) -> Option<ErrText>
    ensures { result ≡ e2big_in fields.entry }
{
    let (why, fields) = next_word(fields)?;
    ended(fields)?;
    Some(ErrText::Tap(TapText::E2BIG(why)))
}

// Behind `EAGAIN`.
#[tactic(auto, unfolding(crate::specs::CauseReading::eagain_in))]
fn eagain(fields: Fields<'_>) -> Option<ErrText>
    ensures { result ≡ eagain_in fields.entry }
{
    let (place, fields) = number64(fields)?;
    ended(fields)?;
    Some(ErrText::Again { place })
}

// What stands behind a word of `err`.
#[tactic(auto, unfolding(crate::specs::CauseReading::err_behind))]
fn err_behind(word: ErrWord, fields: Fields<'_>) -> Option<ErrText>
    ensures { result ≡ err_behind word fields.entry }
{
    match word {
        ErrWord::EEXIST => {
            ended(fields)?;
            Some(ErrText::Tap(TapText::EEXIST))
        }
        ErrWord::EINVAL => einval(fields),
        ErrWord::EBUSY => ebusy(fields),
        ErrWord::E2BIG => e2big(fields),
        ErrWord::EBADFD => {
            ended(fields)?;
            Some(ErrText::Tap(TapText::EBADFD))
        }
        ErrWord::ENOTSUP => {
            ended(fields)?;
            Some(ErrText::Tap(TapText::ENOTSUP))
        }
        ErrWord::ENFILE => {
            ended(fields)?;
            Some(ErrText::Tap(TapText::ENFILE))
        }
        ErrWord::EAGAIN => eagain(fields),
    }
}

/// What stands behind `err`.
#[tactic(auto, unfolding(crate::specs::CauseReading::err_in))]
pub fn err(fields: Fields<'_>) -> Option<ErrText>
    ensures { result ≡ err_in fields.entry }
{
    let (word, fields) = next_word(fields)?;
    err_behind(word, fields)
}

// Behind `EHDR`.
#[tactic(auto, unfolding(crate::specs::CauseReading::ehdr_in))]
fn ehdr(fields: Fields<'_>) -> Option<VhostText>
    ensures { result ≡ ehdr_in fields.entry }
{
    let (want, fields) = number16(fields)?;
    let (have, fields) = number16(fields)?;
    ended(fields)?;
    Some(VhostText::EHDR { want, have })
}

// What stands behind a word of `verr`.
#[tactic(auto, unfolding(crate::specs::CauseReading::verr_behind))]
fn verr_behind(word: VhostWord, fields: Fields<'_>) -> Option<VhostText>
    ensures { result ≡ verr_behind word fields.entry }
{
    match word {
        VhostWord::EINVAL => {
            ended(fields)?;
            Some(VhostText::EINVAL)
        }
        VhostWord::EBUSY => {
            ended(fields)?;
            Some(VhostText::EBUSY)
        }
        VhostWord::EFAULT => {
            ended(fields)?;
            Some(VhostText::EFAULT)
        }
        VhostWord::ENOBUFS => {
            ended(fields)?;
            Some(VhostText::ENOBUFS)
        }
        VhostWord::EHDR => ehdr(fields),
        VhostWord::ENOTSUP => {
            ended(fields)?;
            Some(VhostText::ENOTSUP)
        }
    }
}

/// What stands behind `verr`.
#[tactic(auto, unfolding(crate::specs::CauseReading::verr_in))]
pub fn verr(fields: Fields<'_>) -> Option<VhostText>
    ensures { result ≡ verr_in fields.entry }
{
    let (word, fields) = next_word(fields)?;
    verr_behind(word, fields)
}

// Behind `Outside`.
#[tactic(auto, unfolding(crate::specs::CauseReading::outside_in))]
fn outside(fields: Fields<'_>) -> Option<DriveText>
    ensures { result ≡ outside_in fields.entry }
{
    let (first_bad, fields) = number64(fields)?;
    ended(fields)?;
    Some(DriveText::Outside { first_bad })
}

// Behind `TooLong`.
#[tactic(auto, unfolding(crate::specs::CauseReading::too_long_in))]
fn too_long(fields: Fields<'_>) -> Option<DriveText>
    ensures { result ≡ too_long_in fields.entry }
{
    let (len, fields) = number32(fields)?;
    ended(fields)?;
    Some(DriveText::TooLong { len })
}

// Behind `Full`, of a driver.
#[tactic(auto, unfolding(crate::specs::CauseReading::ring_full_in))]
fn ring_full(fields: Fields<'_>) -> Option<DriveText>
    ensures { result ≡ ring_full_in fields.entry }
{
    let (need, fields) = number16(fields)?;
    let (free, fields) = number16(fields)?;
    ended(fields)?;
    Some(DriveText::Full { need, free })
}

// Behind `Stray`.
#[tactic(auto, unfolding(crate::specs::CauseReading::stray_in))]
fn stray(fields: Fields<'_>) -> Option<DriveText>
    ensures { result ≡ stray_in fields.entry }
{
    let (id, fields) = number32(fields)?;
    ended(fields)?;
    Some(DriveText::Stray { id })
}

// What stands behind a word of `derr`.
#[tactic(auto, unfolding(crate::specs::CauseReading::derr_behind))]
fn derr_behind(word: DriveWord, fields: Fields<'_>) -> Option<DriveText>
    ensures { result ≡ derr_behind word fields.entry }
{
    match word {
        DriveWord::Unaligned => {
            ended(fields)?;
            Some(DriveText::Unaligned)
        }
        DriveWord::Outside => outside(fields),
        DriveWord::TooLong => too_long(fields),
        DriveWord::Full => ring_full(fields),
        DriveWord::Stray => stray(fields),
    }
}

/// What stands behind `derr`.
#[tactic(auto, unfolding(crate::specs::CauseReading::derr_in))]
pub fn derr(fields: Fields<'_>) -> Option<DriveText>
    ensures { result ≡ derr_in fields.entry }
{
    let (word, fields) = next_word(fields)?;
    derr_behind(word, fields)
}

// Behind `Gone`.
#[tactic(auto, unfolding(crate::specs::CauseReading::gone_in))]
fn gone(fields: Fields<'_>) -> Option<(Option<u16>, Cause)>
    ensures { result ≡ gone_in fields.entry }
{
    let (file, fields) = number16(fields)?;
    let (want, fields) = number16(fields)?;
    let (found, fields) = number16(fields)?;
    let (shut, fields) = next_word(fields)?;
    ended(fields)?;
    Some((Some(file), Cause::Gone { want, found, shut }))
}

// Behind `Full`, of a frame.
#[tactic(auto, unfolding(crate::specs::CauseReading::full_in))]
fn full(fields: Fields<'_>) -> Option<(Option<u16>, Cause)>
    ensures { result ≡ full_in fields.entry }
{
    let (file, fields) = number16(fields)?;
    let (claimed, fields) = number64(fields)?;
    let (freed, fields) = number64(fields)?;
    ended(fields)?;
    Some((Some(file), Cause::Full { claimed, freed }))
}

// Behind `Spent`.
#[tactic(auto, unfolding(crate::specs::CauseReading::spent_in))]
fn spent(fields: Fields<'_>) -> Option<(Option<u16>, Cause)>
    ensures { result ≡ spent_in fields.entry }
{
    let (file, fields) = number16(fields)?;
    let (claimed, fields) = number64(fields)?;
    ended(fields)?;
    Some((Some(file), Cause::Spent { claimed }))
}

// What stands behind a word of `drop`.
#[tactic(auto, unfolding(crate::specs::CauseReading::drop_behind))]
fn drop_behind(word: DropWord, fields: Fields<'_>) -> Option<(Option<u16>, Cause)>
    ensures { result ≡ drop_behind word fields.entry }
{
    match word {
        DropWord::NoQueue => {
            ended(fields)?;
            Some((None, Cause::NoQueue))
        }
        DropWord::Filtered => {
            ended(fields)?;
            Some((None, Cause::Filtered))
        }
        DropWord::Gone => gone(fields),
        DropWord::Full => full(fields),
        DropWord::Spent => spent(fields),
    }
}

/// What stands behind `drop`.
#[tactic(auto, unfolding(crate::specs::CauseReading::drop_in))]
pub fn dropped(fields: Fields<'_>) -> Option<(Option<u16>, Cause)>
    ensures { result ≡ drop_in fields.entry }
{
    let (word, fields) = next_word(fields)?;
    drop_behind(word, fields)
}

// Behind `overrun`.
#[tactic(auto, unfolding(crate::specs::CauseReading::overrun_in))]
fn overrun(fields: Fields<'_>) -> Option<Fate>
    ensures { result ≡ overrun_in fields.entry }
{
    let (need, fields) = number32(fields)?;
    let (quota, fields) = number16(fields)?;
    let (had, fields) = number64(fields)?;
    ended(fields)?;
    Some(Fate::Discarded(Cause::Overrun { need, quota, had }))
}

// What stands behind the word of a fate.
#[tactic(auto, unfolding(crate::specs::CauseReading::fate_behind))]
fn fate_behind(word: FateWord, fields: Fields<'_>) -> Option<Fate>
    ensures { result ≡ fate_behind word fields.entry }
{
    match word {
        FateWord::Waiting => {
            ended(fields)?;
            Some(Fate::Waiting)
        }
        FateWord::Read => {
            ended(fields)?;
            Some(Fate::Read)
        }
        FateWord::Guest => {
            ended(fields)?;
            Some(Fate::Guest)
        }
        FateWord::Purged => {
            ended(fields)?;
            Some(Fate::Discarded(Cause::Purged))
        }
        FateWord::Overrun => overrun(fields),
        FateWord::Cut => {
            ended(fields)?;
            Some(Fate::Discarded(Cause::Cut))
        }
    }
}

/// What became of a frame that had a place.
#[tactic(auto, unfolding(crate::specs::CauseReading::fate_in))]
pub fn fate(fields: Fields<'_>) -> Option<Fate>
    ensures { result ≡ fate_in fields.entry }
{
    let (word, fields) = next_word(fields)?;
    fate_behind(word, fields)
}
