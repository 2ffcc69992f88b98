//! A receiver that takes datagrams and gives out access units.

ghost use Rattle.std.specs.Prelude.{◌≡◌, ◌^◌, ◌<◌, ◌≤◌, true, None, Err, IfOk, OnOk, OnErr, length};
ghost use Rattle.std.specs.Option.{option_map};
ghost use Rattle.h26x_assembler.specs.AccessUnit.{units_so_far_value};
ghost use Rattle.h26x_access_units.specs.Pushed as pushes;
ghost use Rattle.h26x_access_units.specs.ReceivedAccessUnit.{received_unit_value};
ghost use Rattle.h26x_access_units.specs.Reception.{nack_numbers, next_deadline, open_units, settings};
ghost use Rattle.h26x_rtp.specs.Views.{header_view, datagram_view};
ghost use Rattle.h26x_rtp_receiver.specs.Keyframes.{is_keyframe_due};
ghost use Rattle.h26x_rtp_receiver.specs.Original.{plain_original};
ghost use Rattle.h26x_rtp_receiver.specs.Plain.{is_plain_packet};
ghost use Rattle.h26x_rtp_receiver.specs.Sources.{told, is_followed, sources_with};
ghost use Rattle.h26x_rtp_receiver.specs.RtpReception.{fresh_rtp, followed_rtp, statistics_after, other_source, brought_original, brought_packet, IsRtpPush, IsPacketPush, IsBroughtPush, IsOriginalPush, IsRtpNext, IsRtpNextInPart, nacks_due, after_nacks, after_keyframe, finished_rtp, rtp_with_settings, report_of, after_report_of};

use crate::keyframes::KeyframeRequests;
use crate::original::RtpOriginal;
use crate::payload_types::{RtpPayloadTypes, StreamTypes};
use crate::pushed::{RtpPushError, RtpPushed, RtpTaken};
use crate::sources::{RtpSources, bears_missing};
use h26x_access_units::{
    AccessUnitConfig, AccessUnitReceiver, Counts, NackTimes, Nacks, Pushed, ReceivedAccessUnit,
    Receives,
};
use h26x_assembler::UnitsSoFar;
use h26x_core::PacketError;
use h26x_depacketizer::RunDepacketizer;
use h26x_reorder::RtpPacket;
use h26x_rtp::{ReportBlock, RtpDatagram, RtpHeader, RtpStatistics, is_rtcp};
use std::alloc::Global;

/// Takes the datagrams of one stream as they come and gives out access units.
#[derive(Debug, Drop)]
pub struct RtpReceiver<D: RunDepacketizer> {
    types: StreamTypes,
    sources: RtpSources,
    receiver: AccessUnitReceiver<D>,
    statistics: RtpStatistics,
    nacks: Nacks,
    keyframes: KeyframeRequests,
}

/// What a receiver of datagrams is to contracts.
pub trait ReceivesRtp: Drop {
    ghost use Rattle.h26x_rtp_receiver.specs.RtpReception.{RtpReception};

    ghost reception: { Self → RtpReception };

    /// What its receiver of access units has counted.
    fn counts(&self) -> Counts
        ensures { result ≡ (reception self.now).reception.counts };
}

impl<D: RunDepacketizer> ReceivesRtp for RtpReceiver<D> {
    ghost use Rattle.h26x_rtp_receiver.specs.RtpReception.{rtp_reception};

    ghost reception = { λ it. rtp_reception it.types it.sources
        (⟦<AccessUnitReceiver<D> as Receives>⟧.reception it.receiver) it.statistics it.nacks
        it.keyframes };

    fn counts(&self) -> Counts {
        self.receiver.counts()
    }
}

impl<D: RunDepacketizer> RtpReceiver<D> {
    /// A receiver of the stream of these payload types over a depacketizer, which follows the SSRC of
    /// the first packet of the codec or of RED. It takes no memory.
    pub fn new(
        alloc: Global,
        depacketizer: D,
        types: RtpPayloadTypes,
        config: AccessUnitConfig,
    ) -> Self
        requires some { 0 < config.window }
        requires half { config.window ≤ 2 ^ 14 }
        ensures { let r = ⟦<Self as ReceivesRtp>⟧.reception in
            r result ≡ fresh_rtp types config (D.state depacketizer) }
    {
        RtpReceiver {
            types: StreamTypes::new(types),
            sources: RtpSources::none(),
            receiver: AccessUnitReceiver::new(alloc, depacketizer, config),
            statistics: RtpStatistics::new(),
            nacks: Nacks::new(alloc),
            keyframes: KeyframeRequests::none(),
        }
    }

    /// Follows these sources from now on, as those of a new SSRC, or of a session description: all that
    /// waits or is open is dropped, as by `restart` of an `AccessUnitReceiver`, and statistics begin
    /// anew. What its receiver of access units has counted stays.
    pub fn follow(&mut self, sources: RtpSources)
        ensures { let r = ⟦<Self as ReceivesRtp>⟧.reception in
            r self.new ≡ followed_rtp sources (r self.old) }
    {
        self.sources = sources;
        self.receiver.restart();
        self.statistics = RtpStatistics::new();
        self.nacks.clear();
        self.keyframes = KeyframeRequests::none();
    }

    /// The SSRCs that are followed, as far as they are known.
    pub fn sources(&self) -> RtpSources
        ensures { let r = ⟦<Self as ReceivesRtp>⟧.reception in result ≡ (r self.now).sources }
    {
        self.sources
    }

    /// Whether a packet is of the stream.
    fn is_followed(&self, packet: RtpDatagram<'_>) -> Result<bool, PacketError>
        ensures followed { let r = ⟦<Self as ReceivesRtp>⟧.reception in
            IfOk result (λ is. is ≡ is_followed (r self.now).types (r self.now).sources
            (nack_numbers (r self.now).reception) (datagram_view packet.entry)) }
        ensures memory { OnErr result (result ≡ Err PacketError.OutOfMemory) }
        ensures wanted { let r = ⟦<Self as ReceivesRtp>⟧.reception in
            OnErr result (told (r self.now).types (r self.now).sources (datagram_view packet.entry)
            ≡ None) }
    {
        match self.sources.tell(self.types.all(), packet) {
            Some(is_followed) => Ok(is_followed),
            None => {
                let missing = self.receiver.missing()?;
                Ok(bears_missing(&missing, packet))
            }
        }
    }

    /// What is told of a packet of another source.
    fn other_source(&self, header: RtpHeader<'_>) -> RtpPushed
        ensures { let r = ⟦<Self as ReceivesRtp>⟧.reception in
            result ≡ other_source (r self.now).types (header_view header.entry) }
    {
        if self.types.all().begins(header.payload_type) {
            RtpPushed::NewSource(header.ssrc)
        } else {
            RtpPushed::OtherSource(header.ssrc)
        }
    }

    /// Takes a datagram that came at this tick, `now` of the receiver's ticks, and `arrival` of the
    /// timestamps' clock, for the jitter: a packet of the stream is given to an `AccessUnitReceiver`,
    /// RTX and RED undone. One that bears nothing of the codec has a number of the stream all the same,
    /// as padding, FEC or another payload type. Where the SSRC of retransmissions isn't known, it is
    /// that of the first that bears a missing number (RFC 4588, 5.3): where several streams of a
    /// session may miss the same number at a time, `follow` is to tell it. Without memory all stays as
    /// it was.
    pub fn push(
        &mut self,
        now: u32,
        arrival: u32,
        datagram: &[u8],
    ) -> Result<RtpPushed, RtpPushError>
        ensures { let r = ⟦<Self as ReceivesRtp>⟧.reception in
            IsRtpPush now arrival (r self.old) datagram.now result (r self.new) }
    {
        if self.types.may_be_plain(datagram) {
            if let Ok(packet) = RtpDatagram::read(datagram) {
                if self.is_plain(packet) {
                    return self.push_plain(now, arrival, packet);
                }
            }
        }
        self.push_datagram(now, arrival, datagram)
    }

    /// Takes any datagram.
    #[inline(never)]
    fn push_datagram(
        &mut self,
        now: u32,
        arrival: u32,
        datagram: &[u8],
    ) -> Result<RtpPushed, RtpPushError>
        ensures { let r = ⟦<Self as ReceivesRtp>⟧.reception in
            IsRtpPush now arrival (r self.old) datagram.now result (r self.new) }
    {
        if is_rtcp(datagram) {
            return Ok(RtpPushed::Rtcp);
        }
        match RtpDatagram::read(datagram) {
            Ok(packet) => self.push_packet(now, arrival, packet),
            Err(e) => Err(RtpPushError::Rtp(e)),
        }
    }

    /// Takes an RTP packet.
    fn push_packet(
        &mut self,
        now: u32,
        arrival: u32,
        packet: RtpDatagram<'_>,
    ) -> Result<RtpPushed, RtpPushError>
        ensures { let r = ⟦<Self as ReceivesRtp>⟧.reception in
            IsPacketPush now arrival (r self.old) (datagram_view packet.entry) result (r self.new) }
    {
        match self.is_followed(packet) {
            Ok(true) => self.push_followed(now, arrival, packet),
            Ok(false) => Ok(self.other_source(packet.header)),
            Err(e) => Err(RtpPushError::Packet(e)),
        }
    }

    /// Whether a packet of the SSRC that is followed bears the codec's payload by itself, as nearly all
    /// do: neither RTX nor RED is to be undone.
    #[inline(always)]
    fn is_plain(&self, packet: RtpDatagram<'_>) -> bool
        ensures { let r = ⟦<Self as ReceivesRtp>⟧.reception in
            result ≡ is_plain_packet (r self.now) (datagram_view packet.entry) }
    {
        let header = packet.header;
        self.sources.is_media(header.ssrc)
            && self.types.is_plain(header.payload_type)
            && !packet.payload.is_empty()
    }

    /// Takes a packet that bears the codec's payload by itself.
    #[inline(always)]
    fn push_plain(
        &mut self,
        now: u32,
        arrival: u32,
        packet: RtpDatagram<'_>,
    ) -> Result<RtpPushed, RtpPushError>
        requires { let r = ⟦<Self as ReceivesRtp>⟧.reception in
            is_plain_packet (r self.old) (datagram_view packet) ≡ true }
        ensures { let r = ⟦<Self as ReceivesRtp>⟧.reception in
            IsPacketPush now arrival (r self.old) (datagram_view packet.entry) result (r self.new) }
    {
        self.push_itself(now, arrival, packet)
    }

    /// Takes a packet that brings itself, whose SSRC is known.
    #[inline(always)]
    fn push_itself(
        &mut self,
        now: u32,
        arrival: u32,
        packet: RtpDatagram<'_>,
    ) -> Result<RtpPushed, RtpPushError>
        requires { let r = ⟦<Self as ReceivesRtp>⟧.reception in
            sources_with packet.header.ssrc (r self.old).sources ≡ (r self.old).sources }
        ensures { let r = ⟦<Self as ReceivesRtp>⟧.reception in
            IsOriginalPush now arrival (r self.old) (datagram_view packet.entry)
            (plain_original (datagram_view packet.entry)) result (r self.new) }
    {
        let header = packet.header;
        let payload = packet.payload;
        let original = RtpPacket {
            sequence: header.sequence,
            timestamp: header.timestamp,
            marker: header.marker,
            payload,
        };
        match self.receiver.push(now, &original) {
            Ok(pushed) => {
                self.statistics
                    .receive(arrival, header.sequence, header.timestamp, payload.len());
                Ok(RtpPushed::Packet(RtpTaken {
                    sequence: header.sequence,
                    is_recovered: false,
                    no_media: None,
                    pushed,
                }))
            }
            Err(e) => Err(RtpPushError::Packet(e)),
        }
    }

    /// Takes an RTP packet of the stream.
    fn push_followed(
        &mut self,
        now: u32,
        arrival: u32,
        packet: RtpDatagram<'_>,
    ) -> Result<RtpPushed, RtpPushError>
        ensures { let r = ⟦<Self as ReceivesRtp>⟧.reception in
            IsBroughtPush now arrival (r self.old)
            (brought_original (r self.old).types (datagram_view packet.entry)) result (r self.new) }
    {
        match RtpOriginal::read(self.types.all(), packet) {
            Ok(Some(original)) => self.push_original(now, arrival, packet, original),
            Ok(None) => Ok(RtpPushed::Probe),
            Err(e) => Err(RtpPushError::Red(e)),
        }
    }

    /// Takes what an RTP packet of the stream brings.
    fn push_original(
        &mut self,
        now: u32,
        arrival: u32,
        packet: RtpDatagram<'_>,
        original: RtpOriginal<'_>,
    ) -> Result<RtpPushed, RtpPushError>
        ensures { let r = ⟦<Self as ReceivesRtp>⟧.reception in
            IsOriginalPush now arrival (r self.old) (datagram_view packet.entry) original.entry result
            (r self.new) }
    {
        match self.receiver.push(now, &original.packet) {
            Ok(pushed) => {
                self.sources = self.sources.with(packet.header.ssrc);
                self.count(arrival, packet, original.is_recovered, pushed);
                Ok(RtpPushed::Packet(RtpTaken {
                    sequence: original.packet.sequence,
                    is_recovered: original.is_recovered,
                    no_media: original.no_media,
                    pushed,
                }))
            }
            Err(e) => Err(RtpPushError::Packet(e)),
        }
    }

    /// Counts a packet of the stream.
    fn count(&mut self, arrival: u32, packet: RtpDatagram<'_>, is_recovered: bool, pushed: Pushed)
        ensures { let r = ⟦<Self as ReceivesRtp>⟧.reception in
            r self.new ≡ record (r self.old) {
              statistics = statistics_after arrival (datagram_view packet.entry) is_recovered pushed
                  (r self.old).statistics;
            } }
    {
        if !is_recovered {
            let header = packet.header;
            let size = packet.payload.len();
            self.statistics
                .receive(arrival, header.sequence, header.timestamp, size);
        } else if is_kept(pushed) {
            self.statistics.recover();
        }
    }

    /// The next access unit, if one has ended at this tick, as of an `AccessUnitReceiver`. Call it
    /// until it gives out none, after each `push`, and at `deadline`.
    #[inline]
    pub fn next(&mut self, now: u32) -> Result<Option<ReceivedAccessUnit>, PacketError>
        ensures next { let r = ⟦<Self as ReceivesRtp>⟧.reception in
            IfOk result (λ unit. IsRtpNext now (r self.old) (option_map received_unit_value unit)
            (r self.new)) }
        ensures memory { OnErr result (result ≡ Err PacketError.OutOfMemory) }
        ensures kept { let r = ⟦<Self as ReceivesRtp>⟧.reception in
            OnErr result (IsRtpNextInPart now (r self.old) (r self.new)) }
    {
        let unit = self.receiver.next(now);
        if let Ok(Some(unit)) = &unit {
            self.keyframes = self.keyframes.after(unit.is_clean, unit.is_disposable);
        }
        unit
    }

    /// The numbers to ask for at this tick by a NACK, which count as asked for: the first so many of
    /// those that are due, as `Nacks` tells them (RFC 4585, 6.2.1).
    pub fn nacks(
        &mut self,
        now: u32,
        times: NackTimes,
        most: usize,
    ) -> Result<Vec<u16>, PacketError>
        ensures numbers { let r = ⟦<Self as ReceivesRtp>⟧.reception in
            IfOk result (λ numbers. numbers.items ≡ nacks_due times now most (r self.old)) }
        ensures after { let r = ⟦<Self as ReceivesRtp>⟧.reception in
            OnOk result (r self.new ≡ after_nacks times now most (r self.old)) }
        ensures kept { let r = ⟦<Self as ReceivesRtp>⟧.reception in
            OnErr result (r self.new ≡ r self.old) }
        ensures memory { OnErr result (result ≡ Err PacketError.OutOfMemory) }
    {
        let missing = self.receiver.missing()?;
        self.nacks.due(&missing, times, now, most)
    }

    /// Whether to ask for a keyframe at this tick, by a PLI or a FIR, which then counts as asked for:
    /// by the access units that were given out no decoder can go on, and none was asked for in the last
    /// `again` ticks, in which it may be on its way: a round trip and a keyframe at least.
    pub fn keyframe_wanted(&mut self, now: u32, again: u32) -> bool
        ensures wanted { let r = ⟦<Self as ReceivesRtp>⟧.reception in
            result ≡ is_keyframe_due again now (r self.old).keyframes }
        ensures after { let r = ⟦<Self as ReceivesRtp>⟧.reception in
            r self.new ≡ after_keyframe again now (r self.old) }
    {
        self.keyframes.ask(again, now)
    }

    /// What is counted of the packets of the SSRC that is followed (RFC 3550, 6.4.1).
    pub fn statistics(&self) -> RtpStatistics
        ensures { let r = ⟦<Self as ReceivesRtp>⟧.reception in result ≡ (r self.now).statistics }
    {
        self.statistics
    }

    /// What is reported of the SSRC that is followed, if it is known, with the part of packets that was
    /// lost since the last report; the last two are 0 where no sender report came (RFC 3550, 6.4.1).
    pub fn report(&mut self, last_sender_report: u32, delay: u32) -> Option<ReportBlock>
        ensures block { let r = ⟦<Self as ReceivesRtp>⟧.reception in
            result ≡ report_of last_sender_report delay (r self.old) }
        ensures after { let r = ⟦<Self as ReceivesRtp>⟧.reception in
            r self.new ≡ after_report_of (r self.old) }
    {
        let ssrc = self.sources.media?;
        Some(self.statistics.report(ssrc, last_sender_report, delay))
    }

    /// At the end of the stream: all that waits is due, and then the open access unit ends.
    pub fn finish(&mut self)
        ensures { let r = ⟦<Self as ReceivesRtp>⟧.reception in
            r self.new ≡ finished_rtp (r self.old) }
    {
        self.receiver.finish();
    }

    /// Takes back an access unit that was given out, for its memory.
    pub fn give_back(&mut self, unit: ReceivedAccessUnit)
        ensures { let r = ⟦<Self as ReceivesRtp>⟧.reception in r self.new ≡ r self.old }
    {
        self.receiver.give_back(unit);
    }

    /// The NAL units that came whole so far of the access unit that is open, as those of an
    /// `AccessUnitReceiver`.
    pub fn units_so_far(&self) -> Option<UnitsSoFar<'_>>
        ensures { let r = ⟦<Self as ReceivesRtp>⟧.reception in
            option_map units_so_far_value result ≡ open_units (r self.now).reception }
    {
        self.receiver.units_so_far()
    }

    /// When to call `next` again at the latest, in the receiver's ticks, if packets wait.
    pub fn deadline(&self) -> Option<u32>
        ensures { let r = ⟦<Self as ReceivesRtp>⟧.reception in
            result ≡ next_deadline (r self.now).reception }
    {
        self.receiver.deadline()
    }

    /// The settings of what waits.
    pub fn config(&self) -> AccessUnitConfig
        ensures settings { let r = ⟦<Self as ReceivesRtp>⟧.reception in
            result ≡ settings (r self.now).reception }
        ensures some { 0 < result.window }
        ensures half { result.window ≤ 2 ^ 14 }
    {
        self.receiver.config()
    }

    /// Has other settings from now on.
    pub fn set_config(&mut self, config: AccessUnitConfig)
        requires some { 0 < config.window }
        requires half { config.window ≤ 2 ^ 14 }
        ensures { let r = ⟦<Self as ReceivesRtp>⟧.reception in
            r self.new ≡ rtp_with_settings config (r self.old) }
    {
        self.receiver.set_config(config);
    }
}

/// Whether a packet of which this became is kept.
fn is_kept(pushed: Pushed) -> bool
    ensures { result ≡ pushes.is_kept pushed }
{
    match pushed {
        Pushed::Late(_) | Pushed::Twice | Pushed::Full => false,
        Pushed::Held | Pushed::Stray | Pushed::Jumped | Pushed::Anew => true,
    }
}
