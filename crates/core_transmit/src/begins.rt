//! How a transmit turn begins.

ghost use Rattle.std.specs.Prelude.{◌≡◌, [], IfOk, IfSome, OnOk};
ghost use Rattle.core_shared.specs.declared.doing.Doing.TheVariants as doing;
ghost use Rattle.core_shared.specs.declared.onward.Onward.TheVariants as on;
ghost use Rattle.core_shared.specs.Did.{Went};
ghost use Rattle.core_shared.specs.MayDo.{MayGo};
ghost use Rattle.core_transmit.specs.Stepping.{BeganSo, Begins, IsThere, MayBegin, OnVhost, Tells};
ghost use Rattle.scen_words.specs.declared.command.Command.TheVariants as command;
ghost use Rattle.tap_trace.specs.declared.answer.Answer.TheVariants as answer;
ghost use Rattle.tap_world.specs.ByNumber.{at};

use crate::telling::tell;
use crate::words::kind_of;
use core_shared::{Asked, Doing, Onward, Shared};
use sqlite_items::Items;
use std::alloc::{AllocError, Global};
use tap_ledger::Act;
use tap_trace::{Answer, Kind, TurnText};
use tap_world::Found;

/// The first event of a transmit turn of a vhost. Where its ring has no backend or is stopped, the turn ends at once
/// (Owner); else it takes its ring's turn, and its first step turns notices off (Notices).
pub fn begin_transmit(
    shared: &mut Shared,
    alloc: Global,
    asked: &Asked<'_>,
    vhost: u16,
) -> Result<Onward, AllocError>
    requires command { asked.now.command ≡ command.TxTurn vhost }
    requires may { MayGo asked.now doing.Begun shared.old }
    ensures went { IfOk result (λ on. Went asked.now doing.Begun shared.old shared.new on) }
{
    match shared.vhosts.side(vhost).off(vhost, 1) {
        Some((end, kind)) => find_off(shared, alloc, asked, vhost, end, kind),
        None => begin(shared, alloc, asked, vhost),
    }
}

// Owner: the ring has no backend, or is stopped. The answer tells so, and so does the step on the guest.
fn find_off(
    shared: &mut Shared,
    alloc: Global,
    asked: &Asked<'_>,
    vhost: u16,
    end: TurnText,
    kind: Kind,
) -> Result<Onward, AllocError>
    requires there { IsThere vhost shared.old }
    ensures tells { OnOk result (Tells asked.now vhost kind shared.old shared.new) }
    ensures ends { IfOk result (λ o. o ≡ on.Ends asked.now.seen (answer.Turn 0 0 end [])) }
{
    tell(shared, asked, vhost, kind)?;
    Ok(Onward::Ends {
        seen: asked.seen(),
        answer: Answer::Turn {
            packets: 0,
            bytes: 0,
            end,
            chains: Items::new(alloc),
        },
    })
}

// Notices: the turn begins.
fn begin(
    shared: &mut Shared,
    alloc: Global,
    asked: &Asked<'_>,
    vhost: u16,
) -> Result<Onward, AllocError>
    requires there { IsThere vhost shared.old }
    requires free { IfSome (at shared.old.vhosts vhost) MayBegin }
    ensures { IfOk result (λ on. BeganSo asked.now vhost shared.old shared.new on) }
{
    let act = first_step(shared, alloc, asked, vhost)?;
    let file = shared.vhosts.side(vhost).dev().backend(false).unwrap();
    let kind = kind_of(vhost, act).unwrap();
    tell(shared, asked, vhost, kind)?;
    Ok(Onward::Goes {
        seen: asked.seen(),
        doing: Doing::Transmits {
            vhost,
            file,
            chains: Vec::new(alloc),
        },
        found: Found::Step(kind),
    })
}

// The first step of the turn, whose frames get the command's name.
fn first_step(
    shared: &mut Shared,
    alloc: Global,
    asked: &Asked<'_>,
    vhost: u16,
) -> Result<Act, AllocError>
    requires there { IsThere vhost shared.old }
    requires free { IfSome (at shared.old.vhosts vhost) MayBegin }
    ensures { IfOk result (λ act. OnVhost vhost (Begins asked.now act) shared.old shared.new) }
{
    let side = shared.vhosts.side_mut(vhost);
    let guest = shared.guests.guest_mut(side.guest());
    side.begin_tx(
        alloc,
        u32::from(asked.actor()),
        asked.name(),
        guest.memory_mut(),
    )
}
