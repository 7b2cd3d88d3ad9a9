//! More worked rings, as contracts of functions that do nothing.
ghost use Rattle.vring_turns.specs.EndExamples.{TransmitEnds, ReceiveEnds, LineIsCut};
ghost use Rattle.vring_turns.specs.RxGathering.{StillTooShort, LateChainTakesIt, OverrunAtSecondFetch, CrowdedAfterTwo, CrowdedAtSecondFetch, JustFits, QuotaOverruns, JumpStops};
ghost use Rattle.vring_turns.specs.RxPublishing.{EnoughChains, EnoughBytesOrPackets, PublishedBy64, OverrunThenGuest, DoneThenPutBack, CutFrameGoesCut, NoCountOfBuffers, PositionsWrap};
ghost use Rattle.vring_turns.specs.TxCases.{HaltAtSecondFetch, ChainAtSecondFetch, RefusedBetween, NoNotifyAlone, NoInterrupt, NoticeIsJudgedLast, EnoughBytes, TenBytesOfHeader, Refusals, LongIsRefused};

/// Receive turns on worked rings: chains that come between two fetches, too many segments, the last chain that a
/// frame may take.
pub fn gathering_examples()
    ensures still_too_short { StillTooShort }
    ensures late_chain_takes_it { LateChainTakesIt }
    ensures overrun_at_second_fetch { OverrunAtSecondFetch }
    ensures crowded_after_two { CrowdedAfterTwo }
    ensures crowded_at_second_fetch { CrowdedAtSecondFetch }
    ensures just_fits { JustFits }
    ensures quota_overruns { QuotaOverruns }
    ensures jump_stops { JumpStops }
{}

/// Receive turns on worked rings: where they end, what they publish, and what they write.
pub fn publishing_examples()
    ensures enough_chains { EnoughChains }
    ensures enough_bytes_or_packets { EnoughBytesOrPackets }
    ensures published_by64 { PublishedBy64 }
    ensures overrun_then_guest { OverrunThenGuest }
    ensures done_then_put_back { DoneThenPutBack }
    ensures cut_frame_goes_cut { CutFrameGoesCut }
    ensures no_count_of_buffers { NoCountOfBuffers }
    ensures positions_wrap { PositionsWrap }
{}

/// Transmit turns on worked rings: chains that come between two fetches, refused ones, flags, and where they end.
pub fn transmit_cases()
    ensures halt_at_second_fetch { HaltAtSecondFetch }
    ensures chain_at_second_fetch { ChainAtSecondFetch }
    ensures refused_between { RefusedBetween }
    ensures no_notify_alone { NoNotifyAlone }
    ensures no_interrupt { NoInterrupt }
    ensures notice_is_judged_last { NoticeIsJudgedLast }
    ensures enough_bytes { EnoughBytes }
    ensures ten_bytes_of_header { TenBytesOfHeader }
    ensures refusals { Refusals }
    ensures long_is_refused { LongIsRefused }
{}

/// What ends turns on worked rings, and a line that others change.
pub fn end_examples()
    ensures transmit { TransmitEnds }
    ensures receive { ReceiveEnds }
    ensures line { LineIsCut }
{}
