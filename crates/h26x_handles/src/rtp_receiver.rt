//! A receiver of access units, of datagrams as a socket brings them, and the access unit that had no
//! room where it was to be written.

ghost use Rattle.std.specs.Prelude.{◌≡◌, ◌<◌, ◌≤◌, ◌^◌, None, Err, IfOk, OnOk, OnErr, length};
ghost use Rattle.std.specs.Option.{option_map};
ghost use Rattle.h26x_assembler.specs.AccessUnit.{units_so_far_value};
ghost use Rattle.h26x_access_units.specs.ReceivedAccessUnit.{received_unit_value};
ghost use Rattle.h26x_rtp_receiver.specs.Keyframes.{is_keyframe_due};
ghost use Rattle.h26x_rtp_receiver.specs.RtpReception.{nacks_due, after_nacks, after_keyframe, report_of, after_report_of};
ghost use Rattle.h26x_codes.specs.Copies.{with_first};
ghost use Rattle.h26x_handles.specs.UnitsState.{is_window, next_answer, buffer_with_unit, unit_without_room};
ghost use Rattle.h26x_handles.specs.RtpState.{with_rtp_reception, fresh_rtp_state, rtp_state_with_settings, rtp_state_followed, rtp_state_finished, rtp_deadline, rtp_open, IsDatagramPushed, IsRtpUnitGiven, IsRtpOutOfMemory};

use crate::access_units::{NextAnswer, told_of};
use h26x_access_units::{AccessUnitConfig, Counts, NackTimes, ReceivedAccessUnit};
use h26x_assembler::UnitsSoFar;
use h26x_codec::{AnyPayloadDepacketizer, Codec};
use h26x_codes::copy::{copy_first, copy_where_room};
use h26x_core::PacketError;
use h26x_rtp::{ReportBlock, RtpStatistics};
use h26x_rtp_receiver::{
    ReceivesRtp, RtpPayloadTypes, RtpPushError, RtpPushed, RtpReceiver, RtpSources,
};
use std::alloc::Global;

/// A receiver of datagrams of a codec's stream, and the access unit that had no room where it was to be
/// written.
#[derive(Drop)]
pub struct RtpReceiverEndpoint {
    codec: Codec,
    receiver: RtpReceiver<AnyPayloadDepacketizer>,
    left: Option<ReceivedAccessUnit>,
}

/// What such an endpoint is to contracts.
pub trait GivesRtpUnits: Drop {
    ghost use Rattle.h26x_handles.specs.RtpState.{RtpState};

    ghost rtp: { Self → RtpState };

    /// What was counted.
    fn counts(&self) -> Counts
        ensures { result ≡ (rtp self.now).reception.reception.counts };
}

impl GivesRtpUnits for RtpReceiverEndpoint {
    ghost use Rattle.std.specs.Option.{option_map};
    ghost use Rattle.h26x_access_units.specs.ReceivedAccessUnit.{received_unit_value};
    ghost use Rattle.h26x_handles.specs.RtpState.{rtp_state};

    ghost rtp = { λ it. rtp_state it.codec
        (⟦<RtpReceiver<AnyPayloadDepacketizer> as ReceivesRtp>⟧.reception it.receiver)
        (option_map received_unit_value it.left) };

    fn counts(&self) -> Counts {
        self.receiver.counts()
    }
}

impl RtpReceiverEndpoint {
    ghost use Rattle.h26x_handles.specs.RtpReceivers.{rtp_state_of};

    /// A receiver of the stream of these payload types, which follows the SSRC of the first packet of
    /// the codec or of RED.
    pub fn new(
        alloc: Global,
        codec: Codec,
        has_donl: bool,
        is_avc: bool,
        types: RtpPayloadTypes,
        config: AccessUnitConfig,
    ) -> Self
        requires some { 0 < config.window }
        requires half { config.window ≤ 2 ^ 14 }
        ensures { rtp_state_of result ≡ fresh_rtp_state codec has_donl is_avc types config }
    {
        let mut depacketizer = AnyPayloadDepacketizer::new(alloc, codec);
        depacketizer.with_donl(has_donl);
        depacketizer.is_avc = is_avc;
        RtpReceiverEndpoint {
            codec,
            receiver: RtpReceiver::new(alloc, depacketizer, types, config),
            left: None,
        }
    }

    /// Has other settings from now on; the answer is whether the window is in range, where nothing
    /// changes if not.
    pub fn set_config(&mut self, config: AccessUnitConfig) -> bool
        ensures told { result ≡ is_window config.window }
        ensures after { rtp_state_of self.new
            ≡ rtp_state_with_settings config (rtp_state_of self.old) }
    {
        if config.window == 0 || config.window > 1 << 14 {
            return false;
        }
        self.receiver.set_config(config);
        true
    }

    /// Follows these sources from now on: all that waits or is open is dropped, and statistics begin
    /// anew. The access unit that had no room stays.
    pub fn follow(&mut self, sources: RtpSources)
        ensures { rtp_state_of self.new ≡ rtp_state_followed sources (rtp_state_of self.old) }
    {
        self.receiver.follow(sources);
    }

    /// The SSRCs that are followed, as far as they are known.
    pub fn sources(&self) -> RtpSources
        ensures { result ≡ (rtp_state_of self.now).reception.sources }
    {
        self.receiver.sources()
    }

    /// Takes a datagram that came at this tick, and at this one of the timestamps' clock. A refusal
    /// leaves all as it was.
    pub fn push(
        &mut self,
        now: u32,
        arrival: u32,
        datagram: &[u8],
    ) -> Result<RtpPushed, RtpPushError>
        ensures pushed { IsDatagramPushed now arrival datagram.now (rtp_state_of self.old) result
            (rtp_state_of self.new) }
        ensures kept { OnErr result (rtp_state_of self.new ≡ rtp_state_of self.old) }
    {
        self.receiver.push(now, arrival, datagram)
    }

    /// The next access unit, if one has ended at this tick: the one that had no room, or what the
    /// receiver gives out. It goes to the caller's memory where there is room for it, and else is kept
    /// for the next call. Without memory the packet for which it lacks is due still.
    pub fn next(&mut self, now: u32, to: &mut [u8]) -> Result<NextAnswer, PacketError>
        ensures given { IfOk result (λ answer.
            IsRtpUnitGiven now (rtp_state_of self.old) (rtp_state_of self.new)
            to.old to.new answer) }
        ensures memory { OnErr result (result ≡ Err PacketError.OutOfMemory) }
        ensures taken { OnErr result (IsRtpOutOfMemory now (rtp_state_of self.old)
            (rtp_state_of self.new)) }
        ensures kept_to { OnErr result (to.new ≡ to.old) }
    {
        if let Some(unit) = self.left.take() {
            return Ok(self.give(unit, to));
        }
        let Some(unit) = self.receiver.next(now)? else {
            return Ok(NextAnswer::NothingYet);
        };
        Ok(self.give(unit, to))
    }

    /// Gives out an access unit where there is room for it, and takes its memory back; else keeps it.
    fn give(&mut self, unit: ReceivedAccessUnit, to: &mut [u8]) -> NextAnswer
        requires { (rtp_state_of self.old).left ≡ None }
        ensures answer { result ≡ next_answer (Some (received_unit_value unit)) to.old }
        ensures put { to.new ≡ buffer_with_unit (Some (received_unit_value unit)) to.old }
        ensures after { rtp_state_of self.new ≡ record (rtp_state_of self.old) {
          left = unit_without_room (Some (received_unit_value unit)) to.old;
        } }
    {
        let told = told_of(&unit);
        if copy_where_room(&unit.bytes, to) > to.len() {
            self.left = Some(unit);
            return NextAnswer::NoRoom(told);
        }
        self.receiver.give_back(unit);
        NextAnswer::Written(told)
    }

    /// When to ask for the next access unit at the latest, in the caller's ticks, if packets wait.
    pub fn deadline(&self) -> Option<u32>
        ensures { result ≡ rtp_deadline (rtp_state_of self.now) }
    {
        self.receiver.deadline()
    }

    /// What came whole so far of the access unit that is open.
    pub fn units_so_far(&self) -> Option<UnitsSoFar<'_>>
        ensures { option_map units_so_far_value result ≡ rtp_open (rtp_state_of self.now) }
    {
        if self.left.is_some() {
            return None;
        }
        self.receiver.units_so_far()
    }

    /// Copies the missing numbers that are to be asked for at this tick, in order, as many as there is
    /// room for, which count as asked for; how many they are.
    pub fn nacks(
        &mut self,
        now: u32,
        times: NackTimes,
        to: &mut [u16],
    ) -> Result<usize, PacketError>
        ensures count { IfOk result (λ count. count
            ≡ length (nacks_due times now (length to.old) (rtp_state_of self.old).reception)) }
        ensures copied { IfOk result (λ count. to.new ≡ with_first
            (nacks_due times now (length to.old) (rtp_state_of self.old).reception) to.old) }
        ensures after { OnOk result (rtp_state_of self.new ≡ with_rtp_reception
            (after_nacks times now (length to.old) (rtp_state_of self.old).reception)
            (rtp_state_of self.old)) }
        ensures kept { OnErr result (rtp_state_of self.new ≡ rtp_state_of self.old) }
        ensures kept_to { OnErr result (to.new ≡ to.old) }
        ensures memory { OnErr result (result ≡ Err PacketError.OutOfMemory) }
    {
        let asked = self.receiver.nacks(now, times, to.len())?;
        Ok(copy_first(&asked, to))
    }

    /// Whether to ask for a keyframe at this tick, which then counts as asked for.
    pub fn keyframe_wanted(&mut self, now: u32, again: u32) -> bool
        ensures wanted { result ≡ is_keyframe_due again now
            (rtp_state_of self.old).reception.keyframes }
        ensures after { rtp_state_of self.new ≡ with_rtp_reception
            (after_keyframe again now (rtp_state_of self.old).reception) (rtp_state_of self.old) }
    {
        self.receiver.keyframe_wanted(now, again)
    }

    /// What is counted of the packets of the SSRC that is followed.
    pub fn statistics(&self) -> RtpStatistics
        ensures { result ≡ (rtp_state_of self.now).reception.statistics }
    {
        self.receiver.statistics()
    }

    /// What is reported of the SSRC that is followed, if it is known.
    pub fn report(&mut self, last_sender_report: u32, delay: u32) -> Option<ReportBlock>
        ensures block { result
            ≡ report_of last_sender_report delay (rtp_state_of self.old).reception }
        ensures after { rtp_state_of self.new ≡ with_rtp_reception
            (after_report_of (rtp_state_of self.old).reception) (rtp_state_of self.old) }
    {
        self.receiver.report(last_sender_report, delay)
    }

    /// At the end of the stream: all that waits is due, and then the open access unit ends.
    pub fn finish(&mut self)
        ensures { rtp_state_of self.new ≡ rtp_state_finished (rtp_state_of self.old) }
    {
        self.receiver.finish();
    }
}
