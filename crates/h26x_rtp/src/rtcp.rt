//! RTCP on the port of RTP (RFC 5761), and its packets in a datagram (RFC 3550).

ghost use Rattle.std.specs.Prelude.{◌≡◌, ◌↔◌, ◌++◌, IsTrue, IfSome};
ghost use Rattle.std.specs.Option.{option_map};
ghost use Rattle.h26x_rtp.specs.Rtcp.{IsRtcp, is_rtcp_packet, first_rtcp};

use crate::words::word_in;

/// Whether a datagram is RTCP and not RTP: by its second byte, 192 to 223, where an RTP packet would
/// have the marker and a payload type of 64 to 95 (RFC 5761, 4).
pub fn is_rtcp(bytes: &[u8]) -> bool
    ensures by_type { IsTrue result ↔ IsRtcp bytes.now }
    ensures test { result ≡ is_rtcp_packet bytes.now }
{
    bytes.len() >= 2 && bytes[1] >= 192 && bytes[1] <= 223
}

/// The first packet of a datagram of RTCP, and what stands behind it, where others may be: most RTCP is
/// sent so (RFC 3550, 6.1). None where the version isn't 2, or the packet isn't all there (RFC 3550,
/// A.2).
pub fn split_rtcp(bytes: &[u8]) -> Option<(&[u8], &[u8])>
    ensures first { option_map (λ it. (it.0.now, it.1.now)) result ≡ first_rtcp bytes.now }
    ensures all { IfSome result (λ it. it.0.now ++ it.1.now ≡ bytes.now) }
{
    if bytes.len() < 4 || bytes[0] >> 6 != 2 {
        return None;
    }
    let size = 4 * usize::from(word_in(bytes, 2)) + 4;
    if bytes.len() < size {
        return None;
    }
    Some(bytes.split_at(size))
}
