//! Whether a packet is known to hold a key unit, or to begin one (str0m's rule).

ghost use Rattle.std.specs.Prelude.{◌≡◌};
ghost use Rattle.h26x_model.specs.Payload.TwoBytes.{two_byte_detects, two_byte_detects_fragment};
ghost use Rattle.h265_payload.specs.H265.{h265_header};

use crate::codec::{H265, header_of};
use h26x_core::{H265FragmentationUnitHeader, H265NALUHeader};
use h26x_depacketizer::holds_key;
use h26x_payload::PayloadFormat;

/// Whether what stands behind a fragment's header begins a key unit (RFC 7798, 4.4.3).
fn begins_key(rest: &[u8]) -> bool
    ensures { result ≡ two_byte_detects_fragment h265_header rest.now }
{
    if rest.is_empty() {
        return false;
    }
    let marks = H265FragmentationUnitHeader(rest[0]);
    marks.s() && H265NALUHeader::new_with_type(marks.fu_type(), 0, 0).is_irap()
}

/// Whether a packet is known to hold a slice of an IRAP picture, or to be the first fragment of one
/// (RFC 7798, 4.4).
///
/// F is not looked at, and no decoding order number is expected. The units of an aggregate are
/// looked at up to one that has no whole header or passes the end.
///
/// ```rust
/// assert!(rt; detect_h265_keyframe(&[0x26, 0x01, 0xaf]));
/// assert!(rt; !detect_h265_keyframe(&[0x02, 0x01, 0xaf]));
/// ```
pub fn detect_h265_keyframe(payload: &[u8]) -> bool
    ensures { result ≡ two_byte_detects h265_header payload.now }
{
    if payload.len() < 2 {
        return false;
    }
    let header = header_of(payload);
    let rest = &payload[2..];
    if header.is_aggregation_packet() {
        holds_key(H265::new(), rest)
    } else if header.is_fragmentation_unit() {
        begins_key(rest)
    } else {
        header.is_irap()
    }
}
