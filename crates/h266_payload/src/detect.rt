//! Whether a packet is known to hold a key unit, or to begin one (str0m's rule).

ghost use Rattle.std.specs.Prelude.{◌≡◌, ◌≤◌, length};
ghost use Rattle.h26x_model.specs.Payload.TwoBytes.{two_byte_detects, two_byte_detects_fragment};
ghost use Rattle.h266_payload.specs.H266.{h266_header};

use crate::codec::{H266, header_of};
use crate::packet::PACKET_HEADER_SIZE;
use h26x_core::{H266FragmentationUnitHeader, H266NALUHeader};
use h26x_depacketizer::holds_key;
use h26x_payload::PayloadFormat;

/// Whether what stands behind a fragment's header begins a key unit (RFC 9328, 4.3.3).
fn begins_key(rest: &[u8]) -> bool
    ensures { result ≡ two_byte_detects_fragment h266_header rest.now }
{
    if rest.is_empty() {
        return false;
    }
    let fu = H266FragmentationUnitHeader(rest[0]);
    fu.s() && H266NALUHeader::new_with_type(fu.fu_type(), 0, 0).is_irap()
}

/// Whether a packet is known to hold a slice of an IDR or CRA picture, or to be the first fragment
/// of one (RFC 9328, 4.3).
///
/// F is not looked at, and no decoding order number is expected. The units of an aggregate are
/// looked at up to one that has no whole header or passes the end.
///
/// ```rust
/// assert!(rt; detect_h266_keyframe(&[0x00, 0x39, 0x80]));
/// assert!(rt; !detect_h266_keyframe(&[0x00, 0x09, 0x80]));
/// ```
pub fn detect_h266_keyframe(payload: &[u8]) -> bool
    ensures { result ≡ two_byte_detects h266_header payload.now }
{
    if payload.len() < PACKET_HEADER_SIZE {
        return false;
    }
    let header = header_of(payload);
    let rest = &payload[PACKET_HEADER_SIZE..];
    if header.is_aggregation_packet() {
        holds_key(H266::new(), rest)
    } else if header.is_fragmentation_unit() {
        begins_key(rest)
    } else {
        header.is_irap()
    }
}
