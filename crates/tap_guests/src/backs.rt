//! Drive of a backend: it is set or unset, or the command ends.

ghost use Rattle.std.specs.Prelude.{◌≡◌, None, Some, IfOk, is_ok, true, option_map};
ghost use Rattle.guest_mem.specs.Memory.{Contents};
ghost use Rattle.tap_guests.specs.Backs.{back_ends, front_of, set_call, unset_call};
ghost use Rattle.tap_world.specs.StepBackend.{back_answer as back_answer_of, unfit_for};
ghost use Rattle.vhost_dev.specs.Refusals.{ready_refusal};
ghost use Rattle.vhost_dev.specs.Settings.{ring_at};
ghost use Rattle.vhost_queue.specs.Queue.{IsGood};
ghost use Rattle.tap_guests.specs.Calls.{IsUnserved, with_vhost};
ghost use Rattle.tap_guests.specs.Within.{IsIn, StaysIn};
ghost use Rattle.tap_guests.specs.declared.backs.Backed.TheVariants as TheBacked;
ghost use Rattle.tap_trace.specs.declared.kind.Kind.TheVariants as TheKind;

use crate::called::on_ring;
use crate::laws::vhosts_tell;
use crate::side::VhostSide;
use crate::words::vhost_answer;
use guest_mem::Memory;
use std::alloc::AllocError;
use tap_frame::Shape;
use tap_ledger::TapErr;
use tap_trace::{Answer, Kind};
use vhost_dev::VhostDev;

/// How a command on a backend goes on.
#[derive(Debug, Drop)]
pub enum Backed {
    /// It ends with this answer, and this step tells it, if one does.
    Ends {
        /// The command's answer.
        answer: Answer,
        /// The step; a refusal for want of such a ring has none.
        step: Option<Kind>,
    },
    /// The ring has got or lost this file as its backend: the table is told next.
    Goes {
        /// The backend.
        file: u16,
        /// The step.
        step: Kind,
    },
}

// The step of a backend that was set or unset, or wasn't.
fn backend(vhost: u16, ring: u16, set: bool) -> Kind
    ensures { result ≡ TheKind.Backend vhost ring set }
{
    Kind::Backend { vhost, ring, set }
}

// The answer that ends a command which sets a backend, if one does: the first refusal.
fn back_answer(
    dev: &VhostDev,
    ring: u16,
    refusal: Option<TapErr>,
    front: Option<Shape>,
    mem: &Memory,
) -> Result<Option<Answer>, AllocError>
    ensures told { IfOk result (λ told. back_answer_of (ready_refusal ring mem.now dev.now.settings) refusal
        (unfit_for (option_map front_of front) dev.now.settings) ≡ Some told) }
    ensures good { IfOk result (λ told. told ≡ None → IsGood (ring_at ring dev.now.settings).queue mem.now) }
    ensures answers { is_ok result ≡ true }
{
    vhosts_tell();
    if let Err(error) = dev.ready(ring, mem) {
        return Ok(Some(vhost_answer(error)?));
    }
    if let Some(refusal) = refusal {
        return Ok(Some(Answer::Tap(refusal)));
    }
    let Some(front) = front else {
        return Ok(None);
    };
    match dev.fits(front) {
        Ok(()) => Ok(None),
        Err(error) => Ok(Some(vhost_answer(error)?)),
    }
}

impl VhostSide {
    /// `backend V R F`: makes a file the backend of a ring, unless it is refused, for the first of these reasons:
    /// the ring isn't ready (ENOBUFS, EBUSY, EFAULT), the table refused it so, or what stands in front of the file's
    /// frames doesn't fit (EHDR). A command that ends gives back the ring's turn, which it holds where the table
    /// didn't refuse it.
    pub fn set_back(
        &mut self,
        vhost: u16,
        ring: u16,
        file: u16,
        refusal: Option<TapErr>,
        front: Option<Shape>,
        mem: &Memory,
    ) -> Result<Backed, AllocError>
        requires unserved { IsUnserved ring self.old }
        requires within { IsIn mem.now.regions self.old }
        ensures call { IfOk result
            (λ b. set_call vhost ring file refusal (option_map front_of front) self.old.vhost mem.now
            ≡ Some (self.new.vhost, b)) }
        ensures answers { is_ok result ≡ true }
        ensures only { self.new ≡ with_vhost self.new.vhost self.old }
        ensures within { IsIn mem.now.regions self.new }
    {
        let answer = back_answer(&self.dev, ring, refusal, front, mem)?;
        match answer {
            Some(answer) => {
                let step = on_ring(ring, backend(vhost, ring, false));
                Ok(self.back_ends(ring, refusal, answer, step))
            }
            None => {
                self.dev.set_backend(ring, file, mem);
                Ok(Backed::Goes {
                    file,
                    step: backend(vhost, ring, true),
                })
            }
        }
    }

    /// `backend V R -`: takes a ring's backend away, if it has one. It is refused where there is no such ring
    /// (ENOBUFS). A command that ends gives back the ring's turn, which it holds.
    pub fn unset_back(&mut self, vhost: u16, ring: u16) -> Result<Backed, AllocError>
        requires unserved { IsUnserved ring self.old }
        ensures call { IfOk result (λ b. unset_call vhost ring self.old.vhost ≡ Some (self.new.vhost, b)) }
        ensures answers { is_ok result ≡ true }
        ensures only { self.new ≡ with_vhost self.new.vhost self.old }
        ensures within { StaysIn self.old self.new }
    {
        vhosts_tell();
        match self.dev.unset_backend(ring) {
            Ok(Some(file)) => Ok(Backed::Goes {
                file,
                step: backend(vhost, ring, true),
            }),
            Ok(None) => {
                let step = backend(vhost, ring, false);
                Ok(self.back_ends(ring, None, Answer::Done, Some(step)))
            }
            Err(error) => {
                let answer = vhost_answer(error)?;
                Ok(self.back_ends(ring, None, answer, None))
            }
        }
    }

    // The command ends, and gives back the ring's turn, if it holds it.
    fn back_ends(
        &mut self,
        ring: u16,
        refusal: Option<TapErr>,
        answer: Answer,
        step: Option<Kind>,
    ) -> Backed
        requires unserved { IsUnserved ring self.old }
        ensures how { result ≡ TheBacked.Ends answer step }
        ensures vhost { back_ends ring refusal self.old.vhost result ≡ (self.new.vhost, result) }
        ensures only { self.new ≡ with_vhost self.new.vhost self.old }
        ensures within { StaysIn self.old self.new }
    {
        if ring < 2 && refusal.is_none() {
            self.set_turn(ring, None);
        }
        Backed::Ends { answer, step }
    }
}
