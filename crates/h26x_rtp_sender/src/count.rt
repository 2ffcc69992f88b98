//! What is counted of packets that were sent (RFC 3550, 6.4.1).

ghost use Rattle.std.specs.Prelude.{◌≡◌, ◌≤◌, length};
ghost use Rattle.h26x_packetizer.specs.Buffer.{ArePacketEnds, last_end, packets_from};
ghost use Rattle.h26x_rtp_sender.specs.Sending as spec;

use crate::payloads::Payloads;

/// What a sender report tells of an SSRC, in 32 bits each (RFC 3550, 6.4.1). Counts stay at 2^64 - 1.
#[derive(Debug, Clone, Copy, PartialEq, Eq)]
pub struct SentCount {
    /// How many packets were sent.
    pub packets: u64,
    /// How many bytes of payload, without headers and padding.
    pub bytes: u64,
}

impl SentCount {
    /// Nothing was sent.
    pub(crate) fn none() -> Self
        ensures { result ≡ spec.nothing_sent }
    {
        SentCount {
            packets: 0,
            bytes: 0,
        }
    }

    /// Once a packet with so many bytes of payload was sent.
    pub(crate) fn with(self, size: usize) -> Self
        ensures { result ≡ spec.count_with size self }
    {
        SentCount {
            packets: self.packets.saturating_add(1),
            bytes: self.bytes.saturating_add(size as u64),
        }
    }

    /// Once payloads were sent that end at these places of memory.
    pub(crate) fn with_all(self, headroom: usize, ends: &[usize], bytes: &[u8]) -> Self
        requires order { ArePacketEnds headroom 0 ends.now }
        requires within { last_end 0 ends.now ≤ length bytes.now }
        ensures { result
            ≡ spec.count_with_all (packets_from headroom 0 bytes.now ends.now) self }
    {
        let mut count = self;
        for payload in Payloads::new(headroom, ends, bytes) {
            count = count.with(payload.len());
        }
        count
    }
}
