//! A sender that makes RTP packets of the packets of access units.

ghost use Rattle.std.specs.Prelude.{◌≡◌, ◌≤◌, true, false, Err, OnOk, OnErr, length};
ghost use Rattle.std.specs.Option.{option_map};
ghost use Rattle.h26x_packetizer.specs.Buffer.{ArePacketEnds, last_end, packets_from};
ghost use Rattle.h26x_rtp.specs.Datagram.{HeaderFits};
ghost use Rattle.h26x_rtp.specs.Views.{extension_view};
ghost use Rattle.h26x_rtp_sender.specs.InMemory.{are_in_memory, IsSendInMemory};
ghost use Rattle.h26x_rtp_sender.specs.Sending.{fresh_sender, unit_of, unit_header, once_sent, with_headers, IsSend, IsResend};
ghost use Rattle.h26x_rtp_sender.specs.Sent.{unit_view, packet_header, packet_headers};

use crate::count::SentCount;
use crate::error::RtpSendError;
use crate::history::PacketHistory;
use crate::sent::unit_packets;
use crate::stream::RtpStream;
use crate::unit::UnitHeader;
use h26x_packetizer::PacketBuffer;
use h26x_rtp::{RtpExtension, RtpWriteError};
use std::alloc::Global;
use std::marker::Model;

/// Makes RTP packets of the packets of access units, and holds the last of them, to send those again
/// that are lost.
#[derive(Debug, Drop)]
pub struct RtpSender {
    media: RtpStream,
    rtx: Option<RtpStream>,
    sent: SentCount,
    resent: SentCount,
    history: PacketHistory,
    alloc: Global,
}

impl Model for RtpSender {
    ghost use Rattle.h26x_rtp_sender.specs.History.{AreHeldBefore};
    ghost use Rattle.h26x_rtp_sender.specs.Sending.{RtpSending, sending};

    ghost Value = { RtpSending };

    ghost view = { λ a. sending a.media a.rtx a.sent a.resent a.history };

    ghost invariant = { λ a. AreHeldBefore a.media.sequence a.history.bound a.history.packets };
}

impl RtpSender {
    /// A sender of the packets of one SSRC, which sends packets again by RTX, or, without, as they
    /// were. It holds the last packets whose payloads have `history` bytes at most, and 32768 at most.
    /// It takes no memory.
    pub fn new(alloc: Global, media: RtpStream, rtx: Option<RtpStream>, history: usize) -> Self
        ensures { result ≡ fresh_sender media rtx history }
    {
        RtpSender {
            media,
            rtx,
            sent: SentCount::none(),
            resent: SentCount::none(),
            history: PacketHistory::new(alloc, history),
            alloc,
        }
    }

    /// Makes RTP packets of the packets of an access unit, by headers that are written right before
    /// each in its headroom: numbers follow each other, and the last has the marker (RFC 3550, 5.1).
    /// Each begins at the place of its headroom that is answered. Copies of the last are held. Where
    /// they are refused all stays.
    ///
    /// ```rust
    /// let start = sender.send(timestamp, None, &mut packets)?;
    /// for place in 0..packets.len() {
    ///     socket.send(&packets.with_headroom(place)[start..])?;
    /// }
    /// ```
    pub fn send(
        &mut self,
        timestamp: u32,
        extension: Option<RtpExtension<'_>>,
        packets: &mut PacketBuffer,
    ) -> Result<usize, RtpSendError>
        ensures { IsSend timestamp (option_map extension_view extension.entry) self.old packets.old
            result self.new packets.new }
    {
        let unit = self.unit(timestamp, extension);
        match unit.test(packets.headroom()) {
            Ok(start) => {
                self.send_unit(unit, packets)?;
                Ok(start)
            }
            Err(e) => Err(RtpSendError::Header(e)),
        }
    }

    /// The same of packets that lie in memory of the caller, as
    /// [`packetize_units_to_memory`](h26x_packetizer::PayloadPacketizer::packetize_units_to_memory)
    /// leaves them: one behind the other up to these ends, each behind its headroom, where
    /// [`are_in_memory`](crate::are_in_memory) says that they do. Nothing but the headers is written.
    ///
    /// ```rust
    /// let start = sender.send_in_memory(timestamp, None, headroom, &ends, &mut memory)?;
    /// ```
    #[tactic(auto, using(crate::proofs::EndLemmas::in_order, crate::proofs::EndLemmas::ends_within))]
    pub fn send_in_memory(
        &mut self,
        timestamp: u32,
        extension: Option<RtpExtension<'_>>,
        headroom: usize,
        ends: &[usize],
        memory: &mut [u8],
    ) -> Result<usize, RtpSendError>
        requires { are_in_memory headroom 0 (length memory.old) ends.now ≡ true }
        ensures { IsSendInMemory timestamp (option_map extension_view extension.entry) self.old
            headroom ends.now memory.old result self.new memory.new }
    {
        let unit = self.unit(timestamp, extension);
        match unit.test(headroom) {
            Ok(start) => {
                let first = self.media.sequence;
                self.take(unit, headroom, ends, memory)?;
                unit.put_all_in_memory(first, headroom, ends, memory);
                Ok(start)
            }
            Err(error) => Err(RtpSendError::Header(error)),
        }
    }

    /// What the headers of an access unit's packets have in common.
    fn unit<'a>(&self, timestamp: u32, extension: Option<RtpExtension<'a>>) -> UnitHeader<'a>
        ensures { unit_view result
            ≡ unit_of self.now timestamp (option_map extension_view extension.entry) }
    {
        UnitHeader {
            payload_type: self.media.payload_type,
            timestamp,
            ssrc: self.media.ssrc,
            extension,
        }
    }

    /// Holds copies of the packets of an access unit of which this is the header, and counts them.
    #[tactic(auto, using(crate::proofs::EndLemmas::packets_count))]
    fn take(
        &mut self,
        unit: UnitHeader<'_>,
        headroom: usize,
        ends: &[usize],
        bytes: &[u8],
    ) -> Result<(), RtpSendError>
        requires order { ArePacketEnds headroom 0 ends.now }
        requires within { last_end 0 ends.now ≤ length bytes.now }
        ensures taken { OnOk result (self.new ≡ once_sent (unit_view unit.entry)
            (packets_from headroom 0 bytes.now ends.now) self.old) }
        ensures memory { OnErr result (result ≡ Err RtpSendError.OutOfMemory) }
        ensures kept { OnErr result (self.new ≡ self.old) }
    {
        let first = self.media.sequence;
        let made = unit_packets(self.alloc, unit, first, headroom, ends, bytes)?;
        self.history.take(made)?;
        self.sent = self.sent.with_all(headroom, ends, bytes);
        self.media = self.media.behind(ends.len());
        Ok(())
    }

    /// Sends the packets of an access unit of which this is the header.
    #[tactic(auto, using(crate::proofs::EndLemmas::buffer_in_order))]
    fn send_unit(
        &mut self,
        unit: UnitHeader<'_>,
        packets: &mut PacketBuffer,
    ) -> Result<(), RtpSendError>
        requires fits { HeaderFits (packet_header (unit_view unit) 0 false) }
        requires short { length (unit_header (unit_view unit)) ≤ 272 }
        requires room { length (unit_header (unit_view unit)) ≤ packets.old.headroom }
        ensures sent { OnOk result (self.new
            ≡ once_sent (unit_view unit.entry) packets.old.packets self.old) }
        ensures headed { OnOk result (packets.new ≡ with_headers (packet_headers
            (unit_view unit.entry) self.old.media.sequence packets.old.packets) packets.old) }
        ensures memory { OnErr result (result ≡ Err RtpSendError.OutOfMemory) }
        ensures kept { OnErr result (self.new ≡ self.old) }
        ensures unheaded { OnErr result (packets.new ≡ packets.old) }
    {
        let first = self.media.sequence;
        self.take(
            unit,
            packets.headroom(),
            packets.packet_ends(),
            packets.bytes(),
        )?;
        unit.put_all(first, packets);
        Ok(())
    }

    /// Writes the packet that goes again for the one of this number to the front of memory: its
    /// retransmission (RFC 4588, 4), or, without RTX, the same packet; how many bytes it has. None
    /// where it is held no longer, or was never sent. Where it isn't written all stays.
    pub fn resend(&mut self, number: u16, to: &mut [u8]) -> Result<Option<usize>, RtpWriteError>
        ensures { IsResend number self.old to.old result self.new to.new }
    {
        let Some(packet) = self.history.find(self.media.sequence, number) else {
            return Ok(None);
        };
        let packet = packet.datagram();
        let size = packet.payload.len();
        match self.rtx {
            Some(rtx) => {
                let len = packet.write_rtx(rtx.payload_type, rtx.sequence, rtx.ssrc, to)?;
                self.resent = self.resent.with(2 + size);
                self.rtx = Some(rtx.behind(1));
                Ok(Some(len))
            }
            None => {
                let len = packet.write(to)?;
                self.sent = self.sent.with(size);
                Ok(Some(len))
            }
        }
    }

    /// The stream of what is sent, with the number of the next packet.
    pub fn media(&self) -> RtpStream
        ensures { result ≡ self.now.media }
    {
        self.media
    }

    /// The stream of what is sent again by RTX, with the number of the next packet.
    pub fn rtx(&self) -> Option<RtpStream>
        ensures { result ≡ self.now.rtx }
    {
        self.rtx
    }

    /// What was sent with the SSRC of the stream, for its sender reports (RFC 3550, 6.4.1).
    pub fn sent(&self) -> SentCount
        ensures { result ≡ self.now.sent }
    {
        self.sent
    }

    /// What was sent with the SSRC of RTX, for its sender reports (RFC 3550, 6.4.1).
    pub fn resent(&self) -> SentCount
        ensures { result ≡ self.now.resent }
    {
        self.resent
    }
}
