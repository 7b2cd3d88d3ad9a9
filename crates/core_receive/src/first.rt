//! The first event of a receive turn.

ghost use Rattle.std.specs.Prelude.{◌≡◌, IfOk, Some};
ghost use Rattle.core_receive.specs.Ready.{CanBegin, off_in};
ghost use Rattle.core_shared.specs.Did.{Did, Went};
ghost use Rattle.core_shared.specs.MayDo.{MayDo, MayGo};
ghost use Rattle.core_shared.specs.declared.doing.Doing.TheVariants as doing;
ghost use Rattle.scen_words.specs.declared.command.Command.TheVariants as command;
ghost use Rattle.tap_world.specs.declared.event.EventKind.TheVariants as event;

use crate::moved::begin_turn;
use crate::told::{found_by, kind_of, onward};
use core_shared::{Asked, Onward, Shared};
use sqlite_items::Items;
use std::alloc::{AllocError, Global};
use tap_trace::{Answer, Kind, TurnText};

/// The first event of a receive turn of a vhost. Where its receive ring has no backend or is stopped, the turn ends at
/// once (`Owner`); else it turns the guest's notices off (`Notices`).
///
/// Where memory runs out the run is to be given up.
pub fn begin_receive(
    shared: &mut Shared,
    alloc: Global,
    asked: &Asked<'_>,
    vhost: u16,
) -> Result<Onward, AllocError>
    requires may { MayGo asked.now doing.Begun shared.old }
    requires command { asked.now.command ≡ command.RxTurn vhost }
    ensures went { IfOk result (λ on. Went asked.now doing.Begun shared.old shared.new on) }
{
    match shared.vhosts.side(vhost).off(vhost, 0) {
        Some((end, step)) => find_off(shared, alloc, asked, vhost, end, step),
        None => begin(shared, alloc, asked, vhost),
    }
}

// Owner: the ring is off, so that the turn ends at once.
fn find_off(
    shared: &mut Shared,
    alloc: Global,
    asked: &Asked<'_>,
    vhost: u16,
    end: TurnText,
    step: Kind,
) -> Result<Onward, AllocError>
    requires may { MayDo asked.now doing.Begun event.Owner shared.old }
    requires command { asked.now.command ≡ command.RxTurn vhost }
    requires off { off_in shared.old.vhosts vhost ≡ Some (end, step) }
    ensures did { IfOk result (λ on. Did asked.now doing.Begun event.Owner shared.old shared.new on) }
{
    let guest = shared.vhosts.side(vhost).guest();
    shared
        .guests
        .guest_mut(guest)
        .tell(asked.actor(), asked.number(), Some(step))?;
    Ok(Onward::Ends {
        seen: asked.seen(),
        answer: Answer::Turn {
            packets: 0,
            bytes: 0,
            end,
            chains: Items::new(alloc),
        },
    })
}

// Notices: the turn begins, and turns notices off.
fn begin(
    shared: &mut Shared,
    alloc: Global,
    asked: &Asked<'_>,
    vhost: u16,
) -> Result<Onward, AllocError>
    requires may { MayDo asked.now doing.Begun event.Notices shared.old }
    requires command { asked.now.command ≡ command.RxTurn vhost }
    requires can { CanBegin vhost shared.old }
    ensures did { IfOk result (λ on. Did asked.now doing.Begun event.Notices shared.old shared.new on) }
{
    let file = shared.vhosts.side(vhost).dev().backend(true).unwrap();
    let act = begin_turn(shared, alloc, asked, vhost)?;
    let found = found_by(kind_of(vhost, 0, act), None).unwrap();
    onward(alloc, asked, vhost, file, found, None)
}
