//! What the headers of an access unit's packets have in common.

ghost use Rattle.std.specs.Prelude.{◌≡◌, ◌≤◌, ◌<◌, ◌+◌, min, false, Ok, length};
ghost use Rattle.h26x_packetizer.specs.Buffer.{ArePacketEnds, headed_at, last_end, packets_from};
ghost use Rattle.h26x_rtp.specs.Datagram.{HeaderFits, datagram_header};
ghost use Rattle.h26x_rtp.specs.Views.{header_view};
ghost use Rattle.h26x_rtp.specs.Writing.{IsHeaderWritten};
ghost use Rattle.h26x_rtp_sender.specs.InMemory.{headed_before};
ghost use Rattle.h26x_rtp_sender.specs.Sent.{unit_view, packet_header, packet_headers};
ghost use Rattle.h26x_rtp_sender.specs.Sending.{IsUnitTest, headed_from};

use h26x_packetizer::PacketBuffer;
use h26x_rtp::{RtpExtension, RtpHeader, RtpWriteError, laws};

/// How many bytes a header may have here: an extension of 256 bytes.
const LONGEST_HEADER: usize = 272;

/// What the headers of an access unit's packets have in common (RFC 3550, 5.1).
#[derive(Debug, Clone, Copy)]
pub(crate) struct UnitHeader<'a> {
    pub payload_type: u8,
    pub timestamp: u32,
    pub ssrc: u32,
    pub extension: Option<RtpExtension<'a>>,
}

impl<'a> UnitHeader<'a> {
    /// The header of a packet.
    fn header(self, sequence: u16, marker: bool) -> RtpHeader<'a>
        ensures { header_view result ≡ packet_header (unit_view self.entry) sequence marker }
    {
        RtpHeader {
            marker,
            payload_type: self.payload_type,
            sequence,
            timestamp: self.timestamp,
            ssrc: self.ssrc,
            csrcs: &[],
            extension: self.extension,
        }
    }

    /// Where each header begins in a headroom of so many bytes, at whose end it stands, or why none is
    /// written.
    pub(crate) fn test(self, headroom: usize) -> Result<usize, RtpWriteError>
        ensures { IsUnitTest (unit_view self.entry) headroom result }
    {
        let mut memory = [0; LONGEST_HEADER];
        let place = headroom.min(LONGEST_HEADER);
        let start = self
            .header(0, false)
            .write_before(false, place, &mut memory)?;
        Ok(start + (headroom - place))
    }

    /// Writes the header of a packet right before it.
    fn put(self, sequence: u16, marker: bool, place: usize, packets: &mut PacketBuffer)
        requires fits { HeaderFits (packet_header (unit_view self) 0 false) }
        requires short { length (datagram_header (packet_header (unit_view self) 0 false) false)
            ≤ 272 }
        requires room { length (datagram_header (packet_header (unit_view self) 0 false) false)
            ≤ packets.old.headroom }
        requires place { place < length packets.old.packets }
        ensures { packets.new ≡ record packets.old {
          headrooms = headed_at place
              (datagram_header (packet_header (unit_view self.entry) sequence marker) false)
              packets.old.headrooms;
        } }
    {
        laws::headers_before_payloads_make_packets();
        let header = self.header(sequence, marker);
        let mut memory = [0; LONGEST_HEADER];
        let start = header
            .write_before(false, LONGEST_HEADER, &mut memory)
            .unwrap();
        packets.write_header(place, &memory[start..]);
    }

    /// Writes the headers of all packets, of which the first has this number: the last has the marker
    /// (RFC 6184, 5.1; RFC 7798, 4.1; RFC 9328, 4.1).
    pub(crate) fn put_all(self, first: u16, packets: &mut PacketBuffer)
        requires fits { HeaderFits (packet_header (unit_view self) 0 false) }
        requires short { length (datagram_header (packet_header (unit_view self) 0 false) false)
            ≤ 272 }
        requires room { length (datagram_header (packet_header (unit_view self) 0 false) false)
            ≤ packets.old.headroom }
        ensures { packets.new ≡ record packets.old {
          headrooms = headed_from 0
              (packet_headers (unit_view self.entry) first packets.old.packets)
              packets.old.headrooms;
        } }
    {
        let count = packets.len();
        let mut sequence = first;
        for place in 0..count {
            self.put(sequence, place + 1 == count, place, packets);
            sequence = sequence.wrapping_add(1);
        }
    }
    /// Writes the header of a packet right before its place in memory; where it begins.
    fn put_before(self, sequence: u16, marker: bool, place: usize, memory: &mut [u8]) -> usize
        requires fits { HeaderFits (packet_header (unit_view self) 0 false) }
        requires room { length (datagram_header (packet_header (unit_view self) 0 false) false)
            ≤ place }
        requires within { place ≤ length memory.old }
        ensures written { IsHeaderWritten (packet_header (unit_view self.entry) sequence marker)
            false place memory.old memory.new (Ok result) }
        ensures size { length memory.new ≡ length memory.old }
    {
        self.header(sequence, marker)
            .write_before(false, place, memory)
            .unwrap()
    }

    /// Writes the headers of all packets that end at these places of memory, as `put_all`.
    pub(crate) fn put_all_in_memory(
        self,
        first: u16,
        headroom: usize,
        ends: &[usize],
        memory: &mut [u8],
    )
        requires fits { HeaderFits (packet_header (unit_view self) 0 false) }
        requires room { length (datagram_header (packet_header (unit_view self) 0 false) false)
            ≤ headroom }
        requires order { ArePacketEnds headroom 0 ends.now }
        requires within { last_end 0 ends.now ≤ length memory.old }
        ensures { memory.new ≡ headed_before headroom 0 ends.now (packet_headers
            (unit_view self.entry) first (packets_from headroom 0 memory.old ends.now))
            memory.old }
    {
        let mut sequence = first;
        let mut start = 0;
        let mut left = ends.len();
        for end in ends.iter() {
            self.put_before(sequence, left == 1, start + headroom, memory);
            sequence = sequence.wrapping_add(1);
            start = *end;
            left -= 1;
        }
    }
}
