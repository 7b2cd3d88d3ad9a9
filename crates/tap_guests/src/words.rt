//! The words in which a trace tells refusals.

ghost use Rattle.std.specs.Prelude.{◌≡◌, Some, None, IfOk, OnErr, option_map};
ghost use Rattle.tap_trace.specs.declared.answer.Answer.TheVariants as TheAnswer;
ghost use Rattle.tap_guests.specs.Words.{answer_to, base_told};
ghost use Rattle.tap_world.specs.Guests.{vhost_answer as vhost_answer_of, vhost_text as vhost_text_of};
ghost use Rattle.tap_world.specs.StepControl.{drive_told, post_told};

use std::alloc::AllocError;
use tap_trace::{Answer, DriveText, VhostText};
use vhost_dev::VhostErr;
use vring_drive::{DriveErr, PostErr};

// The words of a vhost's refusal; want of memory has none.
fn vhost_text(error: VhostErr) -> Option<VhostText>
    ensures { result ≡ vhost_text_of error }
{
    match error {
        VhostErr::EINVAL => Some(VhostText::EINVAL),
        VhostErr::EBUSY => Some(VhostText::EBUSY),
        VhostErr::EFAULT => Some(VhostText::EFAULT),
        VhostErr::ENOBUFS => Some(VhostText::ENOBUFS),
        VhostErr::EHDR { want, have } => Some(VhostText::EHDR { want, have }),
        VhostErr::ENOTSUP => Some(VhostText::ENOTSUP),
        VhostErr::NoMemory => None,
    }
}

// The words of a driver's refusal of an area, and of a chain.
fn drive_text(error: DriveErr) -> Option<DriveText>
    ensures { result ≡ drive_told error }
{
    match error {
        DriveErr::Unaligned => Some(DriveText::Unaligned),
        DriveErr::Outside { first_bad } => Some(DriveText::Outside { first_bad }),
        DriveErr::NoMemory => None,
    }
}

fn post_text(error: PostErr) -> Option<DriveText>
    ensures { result ≡ post_told error }
{
    match error {
        PostErr::TooLong { len } => Some(DriveText::TooLong { len }),
        PostErr::Full { need, free } => Some(DriveText::Full { need, free }),
        PostErr::NoMemory => None,
    }
}

// The answer that tells a vhost's refusal. Want of memory is the call's own.
pub(crate) fn vhost_answer(error: VhostErr) -> Result<Answer, AllocError>
    ensures told { IfOk result (λ answer. vhost_answer_of error ≡ Some answer) }
    ensures none { OnErr result (vhost_answer_of error ≡ None) }
{
    match vhost_text(error) {
        Some(text) => Ok(Answer::Vhost(text)),
        None => Err(AllocError),
    }
}

// The answer to a control call that answered so.
pub(crate) fn answer_of(made: Result<(), VhostErr>) -> Result<Answer, AllocError>
    ensures told { IfOk result (λ answer. answer_to made ≡ Some answer) }
    ensures none { OnErr result (answer_to made ≡ None) }
{
    match made {
        Ok(()) => Ok(Answer::Done),
        Err(error) => vhost_answer(error),
    }
}

// The answer that tells a ring's base.
pub(crate) fn base_answer(made: Result<u16, VhostErr>) -> Result<Answer, AllocError>
    ensures told { IfOk result (λ answer. base_told made ≡ Some answer) }
    ensures none { OnErr result (base_told made ≡ None) }
{
    match made {
        Ok(base) => Ok(Answer::Base(base)),
        Err(error) => vhost_answer(error),
    }
}

// The answers that tell a driver's refusals.
pub(crate) fn drive_answer(error: DriveErr) -> Result<Answer, AllocError>
    ensures told { IfOk result (λ answer. option_map TheAnswer.Drive (drive_told error) ≡ Some answer) }
    ensures none { OnErr result (drive_told error ≡ None) }
{
    match drive_text(error) {
        Some(text) => Ok(Answer::Drive(text)),
        None => Err(AllocError),
    }
}

pub(crate) fn post_answer(error: PostErr) -> Result<Answer, AllocError>
    ensures told { IfOk result (λ answer. option_map TheAnswer.Drive (post_told error) ≡ Some answer) }
    ensures none { OnErr result (post_told error ≡ None) }
{
    match post_text(error) {
        Some(text) => Ok(Answer::Drive(text)),
        None => Err(AllocError),
    }
}
