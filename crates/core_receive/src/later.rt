//! The later events of a receive turn.

ghost use Rattle.std.specs.Prelude.{◌≡◌, ◌||◌, IfOk, None, false, is_some, true};
ghost use Rattle.std.specs.Option.{option_map_or};
ghost use Rattle.core_receive.specs.Ready.{CanStep};
ghost use Rattle.core_shared.specs.Did.{Did, Went};
ghost use Rattle.core_shared.specs.MayDo.{MayDo, MayGo};
ghost use Rattle.core_shared.specs.declared.doing.Doing.TheVariants as doing;
ghost use Rattle.tap_world.specs.Line.{has_batch};
ghost use Rattle.tap_world.specs.LineSteps.{ready_front};
ghost use Rattle.tap_world.specs.StepTurns.{held_name};
ghost use Rattle.tap_world.specs.declared.event.EventKind.TheVariants as event;
ghost use Rattle.vring_turns.specs.Stage.{is_asking};

use crate::moved::{change_file, hand_to_turn, none_for_turn, step_turn};
use crate::told::{found_by, kind_of, onward};
use core_shared::{Asked, Doing, Onward, Shared};
use std::alloc::{AllocError, Global};
use tap_frame::Name;
use tap_guests::VhostSide;
use tap_lines::FileSide;
use tap_world::Found;
use vhost_step::RxDid;
use vring_turns::RxStage;

/// The next event of a receive turn that is under way. Where it asks for a frame, that is taken in hand (`Hand`), or
/// none is ready (`NotReady`). Else the turn makes its next step: a chain is fetched (`Fetch`), notices are turned on
/// or off (`Notices`), the frame is copied (`Copy`), leaves its file (`Out`) or is put back (`PutBack`), or what is done
/// is published (`PublishUsed`).
///
/// Where memory runs out the run is to be given up.
pub fn receive(
    shared: &mut Shared,
    alloc: Global,
    asked: &Asked<'_>,
    vhost: u16,
    file: u16,
) -> Result<Onward, AllocError>
    requires may { MayGo asked.now (doing.Receives vhost file) shared.old }
    ensures went { IfOk result (λ on. Went asked.now (doing.Receives vhost file) shared.old shared.new on) }
{
    if !asks(shared.vhosts.side(vhost)) {
        return step(shared, alloc, asked, vhost, file);
    }
    if has_frame(shared.files.side(file)) {
        take_frame(shared, asked, vhost, file)
    } else {
        find_none(shared, alloc, asked, vhost, file)
    }
}

// The turn that is under way asks for a frame.
fn asks(side: &VhostSide) -> bool
    ensures { result ≡ option_map_or (λ w. is_asking w.turn.stage) side.now.rx false }
{
    matches!(side.rx_stage(), Some(RxStage::Hand))
}

// A frame can be taken in hand: one is in the batch, or the ring's front is ready.
fn has_frame(side: &FileSide) -> bool
    ensures { result ≡ (has_batch side.now.file || is_some (ready_front side.now.file.line)) }
{
    side.has_batch() || side.ready_front().is_some()
}

// The name of the frame that the worker has in hand.
fn in_hand(side: &VhostSide) -> Option<Name>
    ensures { result ≡ option_map_or (λ w. held_name w.turn.held) side.now.rx None }
{
    side.rx_worker()?.in_hand()
}

// Hand: the front of the batch is taken in hand.
fn take_frame(
    shared: &mut Shared,
    asked: &Asked<'_>,
    vhost: u16,
    file: u16,
) -> Result<Onward, AllocError>
    requires may { MayDo asked.now (doing.Receives vhost file) event.Hand shared.old }
    requires asks { CanStep asked.now.actor vhost true shared.old }
    ensures did { IfOk result (λ on. Did asked.now (doing.Receives vhost file) event.Hand shared.old shared.new on) }
{
    let frame = shared.files.side_mut(file).take(vhost);
    let name = frame.name();
    hand_to_turn(shared, asked, vhost, frame)?;
    Ok(Onward::Goes {
        seen: asked.seen(),
        doing: Doing::Receives { vhost, file },
        found: Found::Moved(name),
    })
}

// NotReady: no frame is ready.
fn find_none(
    shared: &mut Shared,
    alloc: Global,
    asked: &Asked<'_>,
    vhost: u16,
    file: u16,
) -> Result<Onward, AllocError>
    requires may { MayDo asked.now (doing.Receives vhost file) event.NotReady shared.old }
    requires asks { CanStep asked.now.actor vhost true shared.old }
    ensures did { IfOk result (λ on. Did asked.now (doing.Receives vhost file) event.NotReady shared.old shared.new on) }
{
    let place = shared.files.side(file).front_place();
    let over = none_for_turn(shared, asked, vhost, place)?;
    onward(alloc, asked, vhost, file, Found::NotReady { place }, over)
}

// Every other event of a turn, of the kind that its stage tells.
fn step(
    shared: &mut Shared,
    alloc: Global,
    asked: &Asked<'_>,
    vhost: u16,
    file: u16,
) -> Result<Onward, AllocError>
    requires may { MayGo asked.now (doing.Receives vhost file) shared.old }
    requires steps { CanStep asked.now.actor vhost false shared.old }
    ensures went { IfOk result (λ on. Went asked.now (doing.Receives vhost file) shared.old shared.new on) }
{
    let name = in_hand(shared.vhosts.side(vhost));
    let RxDid { act, went, over } = step_turn(shared, asked, vhost)?;
    change_file(&mut shared.files, vhost, file, went);
    let found = found_by(kind_of(vhost, 0, act), name).unwrap();
    onward(alloc, asked, vhost, file, found, over)
}
