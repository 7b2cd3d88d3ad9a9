//! The steps of a transmit turn that is under way.

ghost use Rattle.std.specs.Prelude.{◌≡◌, ◌++◌, ◌∷◌, [], length, true, IfOk, IfSome, OnOk, Some, is_some};
ghost use Rattle.std.specs.Option.{option_copied};
ghost use Rattle.core_shared.specs.declared.doing.Doing.TheVariants as doing;
ghost use Rattle.core_shared.specs.declared.onward.Onward.TheVariants as on;
ghost use Rattle.core_shared.specs.Did.{Went};
ghost use Rattle.core_shared.specs.MayDo.{MayGo};
ghost use Rattle.core_transmit.specs.Stepping.{Goes, IsThere, OnVhost, Tells, WentOn, held_in, onward_by};
ghost use Rattle.tap_flow_key.specs.FlowKey.{hash};
ghost use Rattle.tap_world.specs.ByNumber.{at};
ghost use Rattle.tap_world.specs.declared.event.Found.TheVariants as found;
ghost use Rattle.tap_world.specs.StepTurns.{end_told, kind_of as kind_by};

use crate::telling::tell;
use crate::words::{add_chain, end_text, keep, kind_of};
use core_shared::{Asked, Doing, Onward, Shared};
use sqlite_items::Items;
use std::alloc::AllocError;
use tap_frame::Frame;
use tap_guests::VhostSide;
use tap_ledger::Act;
use tap_trace::{Answer, ChainText, Kind};
use tap_world::Found;
use vhost_step::{TxDid, gives_alone};
use vring_turns::TurnEnd;

/// The next event of a transmit turn of a vhost on a file, which has told this of its chains: the next step of the ring's
/// worker. It gives a frame to the host (HostIn), or is a step on the guest (Fetch, Copy, PublishUsed or Notices), with
/// which the turn may end.
pub fn transmit(
    shared: &mut Shared,
    asked: &Asked<'_>,
    vhost: u16,
    file: u16,
    chains: Vec<ChainText>,
) -> Result<Onward, AllocError>
    requires may { MayGo asked.now (doing.Transmits vhost file chains) shared.old }
    ensures went { IfOk result (λ on. Went asked.now (doing.Transmits vhost file chains) shared.old shared.new on) }
{
    gives_alone();
    let TxDid { act, given, over } = step(shared, vhost)?;
    match given {
        Some(frame) => give(shared, asked.seen(), vhost, file, chains, frame),
        None => go_on(shared, asked, vhost, file, chains, act, over),
    }
}

// The worker's next step, on its vhost and the memory of the guest.
fn step(shared: &mut Shared, vhost: u16) -> Result<TxDid, AllocError>
    requires there { IsThere vhost shared.old }
    requires served { IfSome (at shared.old.vhosts vhost) (λ s. is_some s.tx ≡ true) }
    ensures { IfOk result (λ did. OnVhost vhost (Goes did.act did.given did.over) shared.old shared.new) }
{
    let side = shared.vhosts.side_mut(vhost);
    let guest = shared.guests.guest_mut(side.guest());
    side.step_tx(guest.memory_mut())
}

// The frame is the host's, and the turn is to look at the table.
fn give(
    shared: &mut Shared,
    seen: u64,
    vhost: u16,
    file: u16,
    chains: Vec<ChainText>,
    frame: Frame,
) -> Result<Onward, AllocError>
    ensures hosted { OnOk result (shared.new.hosted.items ≡ shared.old.hosted.items ++ frame.name ∷ []) }
    ensures left { shared.new ≡ record shared.old { hosted = shared.new.hosted } }
    ensures onward { IfOk result (λ o. o ≡ on.Goes seen
        (doing.Given vhost file chains (record { name = frame.name; flow = hash frame.made }))
        (found.Moved frame.name)) }
{
    let frame = keep(frame);
    shared.hosted.push(frame.name)?;
    Ok(Onward::Goes {
        seen,
        doing: Doing::Given {
            vhost,
            file,
            chains,
            frame,
        },
        found: Found::Moved(frame.name),
    })
}

// The step was one on the guest, which is told it. Where it read a chain, the turn tells what became of that. Where the
// turn is over, it is the answer.
fn go_on(
    shared: &mut Shared,
    asked: &Asked<'_>,
    vhost: u16,
    file: u16,
    chains: Vec<ChainText>,
    act: Act,
    over: Option<TurnEnd>,
) -> Result<Onward, AllocError>
    requires there { IsThere vhost shared.old }
    requires whole { IfSome (at shared.old.vhosts vhost) (λ s. IfSome (held_in s) (λ f. f.mark ≡ length f.made)) }
    requires step { is_some (kind_by vhost 1 act) ≡ true }
    requires told { IfSome over (λ t. is_some (end_told t.end) ≡ true) }
    ensures { IfOk result (λ on. WentOn asked.now vhost file chains.items act over shared.old shared.new on) }
{
    let mut chains = chains;
    let side = shared.vhosts.side(vhost);
    add_chain(&mut chains, act, held(side))?;
    let kind = kind_of(vhost, act).unwrap();
    tell(shared, asked, vhost, kind)?;
    Ok(onward(asked.seen(), vhost, file, chains, kind, over))
}

// The frame that the worker of a vhost holds.
fn held(side: &VhostSide) -> Option<&Frame>
    ensures { option_copied result ≡ held_in side.now }
{
    side.tx_worker()?.held()
}

// The turn goes on to its next step, or is over and answers.
fn onward(
    seen: u64,
    vhost: u16,
    file: u16,
    chains: Vec<ChainText>,
    kind: Kind,
    over: Option<TurnEnd>,
) -> Onward
    requires { IfSome over (λ t. is_some (end_told t.end) ≡ true) }
    ensures { onward_by seen vhost file chains kind over ≡ Some result }
{
    match over {
        None => Onward::Goes {
            seen,
            doing: Doing::Transmits {
                vhost,
                file,
                chains,
            },
            found: Found::Step(kind),
        },
        Some(turn) => Onward::Ends {
            seen,
            answer: Answer::Turn {
                packets: turn.packets,
                bytes: turn.bytes,
                end: end_text(turn.end).unwrap(),
                chains: Items::from_vec(chains),
            },
        },
    }
}
