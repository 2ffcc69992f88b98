//! Packets that were sent and are held.

ghost use Rattle.std.specs.Prelude.{◌≡◌, ◌≤◌, IfOk, map, length};
ghost use Rattle.std.specs.Option.{option_map};
ghost use Rattle.h26x_packetizer.specs.Buffer.{ArePacketEnds, last_end, packets_from};
ghost use Rattle.h26x_rtp.specs.Views.{extension_view, datagram_view};
ghost use Rattle.h26x_rtp_sender.specs.Sent.{held_extension, unit_view, sent_view, packet_of, numbered_packets};

use crate::payloads::Payloads;
use crate::unit::UnitHeader;
use h26x_rtp::{RtpDatagram, RtpExtension, RtpHeader};
use std::alloc::{AllocError, Global};
use std::collections::VecDeque;

/// A packet that was sent and is held.
#[derive(Debug, Drop)]
pub struct SentPacket {
    pub marker: bool,
    pub payload_type: u8,
    pub sequence: u16,
    pub timestamp: u32,
    pub ssrc: u32,
    /// Of its extension, if it has one.
    pub profile: Option<u16>,
    pub extension: Vec<u8>,
    pub payload: Vec<u8>,
}

/// The profile of an extension, and a copy of its bytes.
fn copy_extension(
    alloc: Global,
    extension: Option<RtpExtension<'_>>,
) -> Result<(Option<u16>, Vec<u8>), AllocError>
    ensures { IfOk result (λ it. held_extension it.0 it.1.items
        ≡ option_map extension_view extension.entry) }
{
    match extension {
        Some(extension) => Ok((Some(extension.profile), extension.bytes.to_vec(alloc)?)),
        None => Ok((None, Vec::new(alloc))),
    }
}

impl SentPacket {
    /// A packet of an access unit.
    fn new(
        alloc: Global,
        unit: UnitHeader<'_>,
        sequence: u16,
        marker: bool,
        payload: &[u8],
    ) -> Result<Self, AllocError>
        ensures { IfOk result (λ it. sent_view it
            ≡ packet_of (unit_view unit.entry) sequence marker payload.now) }
    {
        let (profile, extension) = copy_extension(alloc, unit.extension)?;
        Ok(SentPacket {
            marker,
            payload_type: unit.payload_type,
            sequence,
            timestamp: unit.timestamp,
            ssrc: unit.ssrc,
            profile,
            extension,
            payload: payload.to_vec(alloc)?,
        })
    }

    /// Its extension.
    fn extension(&self) -> Option<RtpExtension<'_>>
        ensures { option_map extension_view result
            ≡ held_extension self.now.profile self.now.extension.items }
    {
        match self.profile {
            Some(profile) => Some(RtpExtension {
                profile,
                bytes: &self.extension,
            }),
            None => None,
        }
    }

    /// The packet.
    pub(crate) fn datagram(&self) -> RtpDatagram<'_>
        ensures { datagram_view result ≡ sent_view self.now }
    {
        let header = RtpHeader {
            marker: self.marker,
            payload_type: self.payload_type,
            sequence: self.sequence,
            timestamp: self.timestamp,
            ssrc: self.ssrc,
            csrcs: &[],
            extension: self.extension(),
        };
        RtpDatagram {
            header,
            payload: &self.payload,
            padding: &[],
        }
    }
}

/// The packets of an access unit, of which the first has this number, and whose payloads end at these
/// places of memory.
#[tactic(auto, using(crate::proofs::EndLemmas::packets_count))]
pub(crate) fn unit_packets(
    alloc: Global,
    unit: UnitHeader<'_>,
    first: u16,
    headroom: usize,
    ends: &[usize],
    bytes: &[u8],
) -> Result<VecDeque<SentPacket>, AllocError>
    requires order { ArePacketEnds headroom 0 ends.now }
    requires within { last_end 0 ends.now ≤ length bytes.now }
    ensures { IfOk result (λ made. map sent_view made.items ≡ numbered_packets
        (unit_view unit.entry) first (packets_from headroom 0 bytes.now ends.now)) }
{
    let mut made = VecDeque::new(alloc);
    made.reserve(ends.len())?;
    let mut sequence = first;
    let mut left = ends.len();
    for payload in Payloads::new(headroom, ends, bytes) {
        let packet = SentPacket::new(alloc, unit, sequence, left == 1, payload)?;
        made.push_back_reserved(packet);
        sequence = sequence.wrapping_add(1);
        left -= 1;
    }
    Ok(made)
}
