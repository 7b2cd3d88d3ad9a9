//! One step of a receive turn on its vhost and its guest, and what becomes of the file.

ghost use Rattle.std.specs.Prelude.{◌≡◌, IfOk, IfSome, IsSome, OnOk, Some, None, false, is_some, true};
ghost use Rattle.core_receive.specs.Going.{AreSent, ComesSent, MayGoSo, file_change};
ghost use Rattle.core_receive.specs.Moved.{Moved};
ghost use Rattle.core_receive.specs.Ready.{CanBegin, CanStep, begun_on};
ghost use Rattle.core_shared.specs.Asking.{setup};
ghost use Rattle.core_shared.specs.Coming.{rx_turn_in};
ghost use Rattle.tap_ledger.specs.declared.act.Act.TheVariants as act;
ghost use Rattle.tap_ledger.specs.declared.hand.Hand.TheVariants as handed;
ghost use Rattle.tap_lines.specs.Files.{files_of};
ghost use Rattle.tap_world.specs.ByNumber.{at};
ghost use Rattle.tap_world.specs.Effect.{files_after};
ghost use Rattle.tap_world.specs.Setup.{Setup};
ghost use Rattle.vhost_step.specs.Receive.{rx_went};
ghost use Rattle.vring_turns.specs.RxTurn.{RxTurn};

use crate::told::kind_of;
use core_shared::{Asked, Shared};
use std::alloc::{AllocError, Global};
use tap_frame::Frame;
use tap_ledger::Act;
use tap_lines::Files;
use vhost_step::{RxDid, Went};
use vring_turns::TurnEnd;

/// Begins a turn on a vhost's receive ring, and makes its first step.
pub(crate) fn begin_turn(
    shared: &mut Shared,
    alloc: Global,
    asked: &Asked<'_>,
    vhost: u16,
) -> Result<Act, AllocError>
    requires may { CanBegin vhost shared.old }
    ensures moved { IfOk result (λ act. IfSome (at shared.old.vhosts vhost) (λ s.
        Moved asked.now handed.Off vhost (begun_on s) shared.old act None shared.new)) }
{
    let side = shared.vhosts.side_mut(vhost);
    let guest = shared.guests.guest_mut(side.guest());
    let act = side.begin_rx(alloc, u32::from(asked.actor()), guest.memory_mut())?;
    guest.tell(asked.actor(), asked.number(), kind_of(vhost, 0, act))?;
    Ok(act)
}

/// Makes the next step of the turn under way on a vhost's receive ring, where that doesn't ask for a frame.
pub(crate) fn step_turn(
    shared: &mut Shared,
    asked: &Asked<'_>,
    vhost: u16,
) -> Result<RxDid, AllocError>
    requires may { CanStep asked.now.actor vhost false shared.old }
    ensures moved { IfOk result (λ did. (t : RxTurn) → rx_turn_in shared.old.vhosts vhost ≡ Some t
        → Moved asked.now handed.Off vhost t shared.old did.act did.over shared.new) }
    ensures went { IfOk result (λ did. (t : RxTurn) → rx_turn_in shared.old.vhosts vhost ≡ Some t
        → did.went ≡ rx_went t.stage t) }
{
    let side = shared.vhosts.side_mut(vhost);
    let guest = shared.guests.guest_mut(side.guest());
    let RxDid { act, went, over } = side.step_rx(guest.memory_mut());
    match guest.tell(asked.actor(), asked.number(), kind_of(vhost, 0, act)) {
        Ok(()) => Ok(RxDid { act, went, over }),
        Err(error) => {
            went.abandon();
            Err(error)
        }
    }
}

/// Hands a frame to the turn under way, which asks for one.
pub(crate) fn hand_to_turn(
    shared: &mut Shared,
    asked: &Asked<'_>,
    vhost: u16,
    frame: Frame,
) -> Result<(), AllocError>
    requires may { CanStep asked.now.actor vhost true shared.old }
    ensures moved { OnOk result ((t : RxTurn) → rx_turn_in shared.old.vhosts vhost ≡ Some t
        → Moved asked.now (handed.Got frame) vhost t shared.old act.Hand None shared.new) }
{
    let side = shared.vhosts.side_mut(vhost);
    let guest = shared.guests.guest_mut(side.guest());
    side.hand_over(frame, guest.memory_mut())
}

/// Tells the turn under way, which asks for a frame, that the one at this place isn't ready.
pub(crate) fn none_for_turn(
    shared: &mut Shared,
    asked: &Asked<'_>,
    vhost: u16,
    place: u64,
) -> Result<Option<TurnEnd>, AllocError>
    requires may { CanStep asked.now.actor vhost true shared.old }
    ensures moved { IfOk result (λ over. (t : RxTurn) → rx_turn_in shared.old.vhosts vhost ≡ Some t
        → Moved asked.now (handed.NotReady place) vhost t shared.old act.NotReady over shared.new) }
{
    let side = shared.vhosts.side_mut(vhost);
    let guest = shared.guests.guest_mut(side.guest());
    side.find_none(place, guest.memory_mut())
}

/// The frame that a worker has in hand stays there, is put back, or leaves its file.
pub(crate) fn change_file(files: &mut Files, vhost: u16, file: u16, went: Went)
    requires there { IsSome (at files.old file) }
    requires may { IfSome (at files.old file) (λ p. MayGoSo vhost went p) }
    ensures files { files_after (file_change vhost file went) (files_of files.old) ≡ Some (files_of files.new) }
    ensures sent { (s : Setup) → AreSent s files.old → ComesSent s went → AreSent s files.new }
{
    match went {
        Went::Nowhere => {}
        Went::Back(frame) => files.side_mut(file).put_back(vhost, frame),
        Went::Out(fate) => files.side_mut(file).leave_from_hand(vhost, fate),
    }
}
