//! Backends: the look of a command, and its call.

ghost use Rattle.std.specs.Prelude.{◌≡◌, IfOk, IfSome, IsSome, None, if◌then◌else◌, is_none};
ghost use Rattle.core_calls.specs.Driven.{HasDriven, MayDrive, come_to as come_to_of, holding, told};
ghost use Rattle.core_shared.specs.Did.{Went};
ghost use Rattle.core_shared.specs.MayDo.{MayGo};
ghost use Rattle.core_shared.specs.declared.doing.Doing.TheVariants as doing;
ghost use Rattle.scen_words.specs.declared.command.Command.TheVariants as command;
ghost use Rattle.tap_guests.specs.Calls.{IsUnserved};
ghost use Rattle.tap_steer.specs.Named.{IsFile};
ghost use Rattle.tap_world.specs.ByNumber.{at};
ghost use Rattle.tap_world.specs.StepBackend.{back_refusal as back_refusal_of};

use crate::publishing::side_of;
use crate::shares::turn;
use core_shared::{Asked, Doing, Onward, Shared};
use std::alloc::AllocError;
use tap_guests::{Backed, backs_are_the_worlds, callers_meet_no_worker};
use tap_steer::{Op, Steer, TapErr};
use tap_trace::Kind;
use tap_world::Found;

// The table's refusal of a backend. A ring that there isn't is for the vhost to refuse, and to unset one has no rules.
fn back_refusal(table: &Steer, vhost: u16, ring: u16, file: Option<u16>) -> Option<TapErr>
    requires { IfSome file (λ file. IsFile table.now file) }
    ensures { result ≡ back_refusal_of table.now vhost ring file }
{
    let file = file?;
    if ring < 2 {
        table.refuse(&Op::Back {
            file,
            side: side_of(ring),
            vhost: Some(vhost),
        })
    } else {
        None
    }
}

/// `backend`: the command looks at the table, while nobody holds the writer and the ring's turn. Unless the table
/// refuses it, it holds the writer from now on, and its ring's turn, where there is such a ring. It goes on to its call
/// in any case.
pub fn begin_back(
    shared: &mut Shared,
    asked: &Asked<'_>,
    vhost: u16,
    ring: u16,
    file: Option<u16>,
) -> Onward
    requires command { asked.now.command ≡ command.Backend vhost ring file }
    requires may { MayGo asked.now doing.Begun shared.old }
    ensures went { Went asked.now doing.Begun shared.old shared.new result }
{
    callers_meet_no_worker();
    shared.vhosts.side(vhost).is_sound();
    let refusal = back_refusal(shared.ops.table(), vhost, ring, file);
    hold(shared, refusal, asked.actor(), vhost, ring);
    let seen = shared.ops.newest() as u64;
    Onward::Goes {
        seen,
        doing: Doing::Backs {
            vhost,
            ring,
            file,
            refusal,
        },
        found: Found::Version(seen),
    }
}

// An actor holds the writer and a ring's turn, where there is such a ring, unless the table refused it so.
fn hold(shared: &mut Shared, refusal: Option<TapErr>, actor: u16, vhost: u16, ring: u16)
    requires there { IsSome (at shared.old.vhosts vhost) }
    requires unserved { refusal ≡ None → IfSome (at shared.old.vhosts vhost) (λ v. IsUnserved ring v) }
    ensures { shared.new ≡ holding refusal actor vhost ring shared.old }
{
    if refusal.is_some() {
        return;
    }
    if ring < 2 {
        turn(shared, vhost, ring, Some(u32::from(actor)));
    }
    shared.writer = Some(actor);
}

// The call of a command on a backend, without what is told of it.
fn drive(
    shared: &mut Shared,
    vhost: u16,
    ring: u16,
    file: Option<u16>,
    refusal: Option<TapErr>,
) -> Result<Backed, AllocError>
    requires may { MayDrive vhost ring shared.old }
    requires known { IfSome file (λ file. IsFile shared.old.ops.table file) }
    ensures { IfOk result (λ b. HasDriven vhost ring file refusal shared.old shared.new b) }
{
    match file {
        Some(file) => {
            let front = shared.ops.table().shape_of(file);
            let side = shared.vhosts.side_mut(vhost);
            let memory = shared.guests.guest(side.guest()).memory();
            side.set_back(vhost, ring, file, refusal, front, memory)
        }
        None => shared.vhosts.side_mut(vhost).unset_back(vhost, ring),
    }
}

// The step of the command on a guest is told, if it made one.
fn tell(
    shared: &mut Shared,
    asked: &Asked<'_>,
    guest: u16,
    step: Option<Kind>,
) -> Result<(), AllocError>
    requires { IsSome (at shared.old.guests guest) }
    ensures { IfOk result (λ done. shared.new ≡ record shared.old {
      guests = told guest asked.now.actor asked.now.number step shared.old.guests;
    }) }
{
    shared
        .guests
        .guest_mut(guest)
        .tell(asked.actor(), asked.number(), step)
}

// The command gives back the writer, which it holds unless the table refused it so.
fn let_go(shared: &mut Shared, refusal: Option<TapErr>)
    ensures { shared.new ≡ record shared.old { writer = if is_none refusal then None else shared.old.writer } }
{
    if refusal.is_none() {
        shared.writer = None;
    }
}

// How far a command has come that set this file as a backend, or unset it.
fn come_to(vhost: u16, ring: u16, asked: Option<u16>, file: u16) -> Doing
    ensures { result ≡ come_to_of vhost ring asked file }
{
    match asked {
        Some(_) => Doing::Backed { vhost, ring, file },
        None => {
            if ring == 0 {
                Doing::Unbacked { vhost, file }
            } else {
                Doing::Released { vhost, file }
            }
        }
    }
}

/// A backend is set in its ring, or unset, or the command ends with a refusal, the table's among them, or because
/// there was none to unset. It then gives back what it holds. A set one goes on to its publication, and an unset one to
/// the file's owner where its ring receives, else to its publication.
///
/// # Errors
///
/// Only where memory runs out.
pub fn drive_back(
    shared: &mut Shared,
    asked: &Asked<'_>,
    vhost: u16,
    ring: u16,
    file: Option<u16>,
    refusal: Option<TapErr>,
) -> Result<Onward, AllocError>
    requires may { MayGo asked.now (doing.Backs vhost ring file refusal) shared.old }
    ensures went { IfOk result
        (λ on. Went asked.now (doing.Backs vhost ring file refusal) shared.old shared.new on) }
{
    callers_meet_no_worker();
    backs_are_the_worlds();
    let side = shared.vhosts.side(vhost);
    side.is_sound();
    let guest = side.guest();
    match drive(shared, vhost, ring, file, refusal)? {
        Backed::Ends { answer, step } => {
            tell(shared, asked, guest, step)?;
            let_go(shared, refusal);
            Ok(Onward::Ends {
                seen: asked.seen(),
                answer,
            })
        }
        Backed::Goes {
            file: backend,
            step,
        } => {
            tell(shared, asked, guest, Some(step))?;
            Ok(Onward::Goes {
                seen: asked.seen(),
                doing: come_to(vhost, ring, file, backend),
                found: Found::Step(step),
            })
        }
    }
}
