//! The payloads of packets that lie in memory, each behind its headroom.

ghost use Rattle.std.specs.Prelude.{◌≡◌, ◌+◌, ◌<◌, ◌≤◌, get_or, length, nat_le};
ghost use Rattle.std.specs.Iterator.{YieldsFirstBy, item_count};
ghost use Rattle.h26x_packetizer.specs.Buffer.{ArePacketEnds, last_end, packets_from};
ghost use Rattle.h26x_rtp_sender.specs.InMemory as spec;

use std::marker::Model;

/// The payloads that are left of packets in memory, in order.
#[derive(Debug, Drop)]
pub(crate) struct Payloads<'a> {
    bytes: &'a [u8],
    /// Where those that are left end.
    ends: &'a [usize],
    /// Where the packet before them ends.
    start: usize,
    headroom: usize,
}

impl<'a> Model for Payloads<'a> {
    ghost use Rattle.std.specs.Prelude.{◌≤◌, List, ℕ, length};
    ghost use Rattle.h26x_packetizer.specs.Buffer.{ArePacketEnds, last_end, packets_from};

    ghost Value = { List (List ℕ) };

    ghost view = { λ a. packets_from a.headroom a.start a.bytes.now a.ends.now };

    ghost invariant = { λ a. ArePacketEnds a.headroom a.start a.ends.now
        × (last_end a.start a.ends.now ≤ length a.bytes.now) };
}

impl<'a> Payloads<'a> {
    /// The payloads of the packets that end at these places, each behind its headroom.
    pub(crate) fn new(headroom: usize, ends: &'a [usize], bytes: &'a [u8]) -> Self
        requires order { ArePacketEnds headroom 0 ends.now }
        requires within { last_end 0 ends.now ≤ length bytes.now }
        ensures { result ≡ packets_from headroom 0 bytes.now ends.now }
    {
        Payloads {
            bytes,
            ends,
            start: 0,
            headroom,
        }
    }
}

/// Where the next payload begins and ends.
fn next_bounds(bytes: &[u8], ends: &[usize], start: usize, headroom: usize) -> (usize, usize)
    requires order { ArePacketEnds headroom start ends.now }
    requires within { last_end start ends.now ≤ length bytes.now }
    requires some { 0 < length ends.now }
    ensures start { result.0 ≡ start + headroom }
    ensures end { result.1 ≡ get_or ends.now 0 0 }
    ensures order { result.0 ≤ result.1 }
    ensures within { result.1 ≤ length bytes.now }
{
    (start + headroom, ends[0])
}

impl<'a> Iterator for Payloads<'a> {
    type Item = &'a [u8];

    ghost next_gives = { YieldsFirstBy (λ payload. payload.now) (λ s. s) };

    ghost remaining = { item_count (λ s. s) };

    fn next(&mut self) -> Option<&'a [u8]> {
        if self.ends.is_empty() {
            return None;
        }
        let (start, end) = next_bounds(self.bytes, self.ends, self.start, self.headroom);
        let payload = &self.bytes[start..end];
        self.ends = &self.ends[1..];
        self.start = end;
        Some(payload)
    }
}

/// Whether a packet that ends here has its headroom behind the one before.
fn has_headroom(headroom: usize, start: usize, end: usize) -> bool
    ensures { result ≡ nat_le (start + headroom) end }
{
    start <= end && headroom <= end - start
}

/// Whether packets may end at these places of memory of so many bytes: each behind a headroom of so
/// many, and the last in it.
pub fn are_in_memory(headroom: usize, ends: &[usize], size: usize) -> bool
    ensures { result ≡ spec.are_in_memory headroom 0 size ends.now }
{
    let mut start = 0;
    for end in ends.iter() {
        if !has_headroom(headroom, start, *end) {
            return false;
        }
        start = *end;
    }
    start <= size
}
