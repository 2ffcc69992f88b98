//! The packets of a buffer, one after the other.

ghost use Rattle.std.specs.Prelude.{◌≡◌, ◌+◌, ◌<◌, ◌≤◌, get_or, length};
ghost use Rattle.std.specs.Iterator.{YieldsFirstBy, item_count};
ghost use Rattle.h26x_packetizer.specs.Buffer.{ArePacketEnds, last_end, packets_from};

use std::marker::Model;

/// The packets of a [`PacketBuffer`](crate::PacketBuffer) that are left, in order, as slices of it.
#[derive(Debug, Drop)]
pub struct BufferPackets<'a> {
    bytes: &'a [u8],
    /// Where those that are left end.
    ends: &'a [usize],
    /// Where the packet before them ends.
    start: usize,
    headroom: usize,
}

impl<'a> Model for BufferPackets<'a> {
    ghost use Rattle.std.specs.Prelude.{◌≤◌, List, ℕ, length};
    ghost use Rattle.h26x_packetizer.specs.Buffer.{ArePacketEnds, last_end, packets_from};

    ghost Value = { List (List ℕ) };

    ghost view = { λ a. packets_from a.headroom a.start a.bytes.now a.ends.now };

    ghost invariant = { λ a. ArePacketEnds a.headroom a.start a.ends.now
        × (last_end a.start a.ends.now ≤ length a.bytes.now) };
}

impl<'a> BufferPackets<'a> {
    /// The packets that end at these places of bytes, each behind its headroom.
    pub(crate) fn new(bytes: &'a [u8], ends: &'a [usize], headroom: usize) -> Self
        requires order { ArePacketEnds headroom 0 ends.now }
        requires within { last_end 0 ends.now ≤ length bytes.now }
        ensures { result ≡ packets_from headroom 0 bytes.now ends.now }
    {
        BufferPackets {
            bytes,
            ends,
            start: 0,
            headroom,
        }
    }
}

/// Where the next packet begins and ends.
fn next_bounds(bytes: &[u8], ends: &[usize], start: usize, headroom: usize) -> (usize, usize)
    requires order { ArePacketEnds headroom start ends.now }
    requires within { last_end start ends.now ≤ length bytes.now }
    requires some { 0 < length ends.now }
    ensures start { result.0 ≡ start + headroom }
    ensures end { result.1 ≡ get_or ends.now 0 0 }
    ensures order { result.0 ≤ result.1 }
    ensures within { result.1 ≤ length bytes.now }
{
    (start + headroom, ends[0])
}

impl<'a> Iterator for BufferPackets<'a> {
    type Item = &'a [u8];

    ghost next_gives = { YieldsFirstBy (λ packet. packet.now) (λ s. s) };

    ghost remaining = { item_count (λ s. s) };

    fn next(&mut self) -> Option<&'a [u8]> {
        if self.ends.is_empty() {
            return None;
        }
        let (start, end) = next_bounds(self.bytes, self.ends, self.start, self.headroom);
        let packet = &self.bytes[start..end];
        self.ends = &self.ends[1..];
        self.start = end;
        Some(packet)
    }
}
