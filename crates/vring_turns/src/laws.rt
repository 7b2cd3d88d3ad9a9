//! Worked rings, as contracts of functions that do nothing.
ghost use Rattle.vring_turns.specs.TxExamples.{OneIsSent, NoneIsSent, HaltPublishes, ShortIsRefused, ManyTakeTwoTurns};
ghost use Rattle.vring_turns.specs.TxRun.{TransmitTurnsDo, TransmitTurnsPass};
ghost use Rattle.vring_turns.specs.RxRun.{ReceiveTurnsDo};
ghost use Rattle.vring_turns.specs.Publications.{TransmitTurnsPublish, ReceiveTurnsPublish};
ghost use Rattle.vring_turns.specs.RxLine.{ReceiveTurnsPass};
ghost use Rattle.vring_turns.specs.Standing.{TransmitTurnsBegin, TransmitTurnsStand, TransmitTurnsKeepOrder, ReceiveTurnsBegin, ReceiveTurnsStand, ReceiveTurnsKeepOrder};
ghost use Rattle.vring_turns.specs.Ready.{TransmitTurnsBeginReady, TransmitTurnsStayReady, TransmitTurnsGoOn, ReceiveTurnsBeginReady, ReceiveTurnsStayReady, ReceiveTurnsGoOn};
ghost use Rattle.vring_turns.specs.Ends.{TransmitTurnsTell, TransmitTurnsEnd, ReceiveTurnsTell, ReceiveTurnsEnd, ReceiveTurnsAreShort};
ghost use Rattle.vring_turns.specs.RxExamples.{TwoChainsTakeIt, OneChainIsShort, OneChainOverruns, BadTableStops, NoChainIsShort};

use vhost_queue::positions_stay_in_order;
use vring_walk::empty_is_not_crowded;

/// What a whole transmit turn did, whatever others write into the memory between its steps: each chain
/// whose bytes were read is a packet of its bytes, and is published or done with length 0, in the order in
/// which they were read, behind all that was published or done before; and nothing else is. The frames
/// that were accepted are given in their order, or the last of them is held.
pub fn transmit_turns()
    ensures chains { TransmitTurnsDo }
    ensures frames { TransmitTurnsPass }
    ensures publications { TransmitTurnsPublish }
{}

/// What a whole receive turn did, whatever others write into the memory between its steps: packets and
/// bytes are those of the frames that left the line; the chains into which frames were copied are published
/// or done with the bytes that they got, in their order, behind all that was before; and no other chain is.
/// Its queue of frames keeps its order, whatever others send, purge or cut between its steps; and a turn that
/// ends as too short or stopped has put back the one frame that it had in hand.
pub fn receive_turns()
    ensures chains { ReceiveTurnsDo }
    ensures publications { ReceiveTurnsPublish }
    ensures line { ReceiveTurnsPass }
{}

/// How a transmit turn and its ring stand between two steps, whatever others write into the memory meanwhile:
/// one chain is gathered from its fetch to its copy, the turn ends for the cause that it tells, nothing is
/// served and not published then, and the k-th chain of a list of positions has the k-th position.
pub fn transmit_standing()
    ensures begins { TransmitTurnsBegin }
    ensures stands { TransmitTurnsStand }
    ensures order { TransmitTurnsKeepOrder }
{
    positions_stay_in_order();
}

/// How a receive turn and its ring stand between two steps, whatever others write into the memory meanwhile:
/// chains are gathered while they are too short for the frame in hand and fewer than it may go into, the turn
/// ends for the cause that it tells, nothing is served and not published then, and the k-th chain of a list
/// of positions has the k-th position.
pub fn receive_standing()
    ensures begins { ReceiveTurnsBegin }
    ensures stands { ReceiveTurnsStand }
    ensures order { ReceiveTurnsKeepOrder }
{
    positions_stay_in_order();
}

/// A transmit turn has ready what its next step needs, whatever others write into the memory between its steps,
/// and until it is over there is one: no fetch finds too few places for a chain, and a frame is given where the
/// host has room.
pub fn transmit_ready()
    ensures begins { TransmitTurnsBeginReady }
    ensures stays { TransmitTurnsStayReady }
    ensures goes_on { TransmitTurnsGoOn }
{
    empty_is_not_crowded();
}

/// A receive turn has ready what its next step needs, whatever others write into the memory between its steps,
/// and until it is over there is one, where the queue of frames that is asked for one hands it out or has none
/// ready.
pub fn receive_ready()
    ensures begins { ReceiveTurnsBeginReady }
    ensures stays { ReceiveTurnsStayReady }
    ensures goes_on { ReceiveTurnsGoOn }
{
    positions_stay_in_order();
}

/// Why a transmit turn ends, whatever others write into the memory between its steps, but for the end without
/// an event, want of memory: with its first answer, or with the one end that one of its steps brought about: a
/// second fetch, after notices on, that found nothing; a fetch that found a fault, and told its number; a
/// packet with which it did as much as one turn does, which is the end exactly where it did. Where none of
/// them did, it goes on.
pub fn transmit_ends()
    ensures tell { TransmitTurnsTell }
    ensures end { TransmitTurnsEnd }
{}

/// Why a receive turn ends, whatever others write into the memory between its steps, but for the two ends
/// without an event, a queue of frames that is off and want of memory: with its first answer, or with the one
/// end that one of its steps brought about: a frame that wasn't ready; a second fetch, after notices on, that
/// found nothing; a fetch that found a fault, and told its number; a packet with which it did as much as one
/// turn does, which is the end exactly where it did. Where a fetch finds nothing, the chains are too short for
/// the frame in hand, and fewer than it may go into.
pub fn receive_ends()
    ensures tell { ReceiveTurnsTell }
    ensures end { ReceiveTurnsEnd }
    ensures short { ReceiveTurnsAreShort }
{
    positions_stay_in_order();
}

/// Receive turns on worked rings.
pub fn receive_examples()
    ensures two_chains { TwoChainsTakeIt }
    ensures short { OneChainIsShort }
    ensures overrun { OneChainOverruns }
    ensures stopped { BadTableStops }
    ensures none { NoChainIsShort }
{}

/// Transmit turns on worked rings.
pub fn transmit_examples()
    ensures one { OneIsSent }
    ensures none { NoneIsSent }
    ensures halt { HaltPublishes }
    ensures refused { ShortIsRefused }
    ensures many { ManyTakeTwoTurns }
{}
