//! The codec with its setting, which the packetizer and the depacketizer are made with, and the
//! header of units and packets.

ghost use Rattle.std.specs.Prelude.{◌≡◌, ◌<◌, ◌≤◌, length, slice_index};
ghost use Rattle.h26x_core.specs.Word.{field, is_set};
ghost use Rattle.h26x_core.specs.H266Unit.{type_of};
ghost use Rattle.h266_payload.specs.H266 as spec;

use h26x_core::H266NALUHeader;

/// H.266 (RFC 9328), and whether packets bear decoding order numbers (4.4).
#[derive(Debug, Clone, Copy, PartialEq, Eq)]
pub struct H266 {
    pub(crate) has_donl: bool,
}

/// The header of a unit or of a packet.
pub(crate) fn header_of(unit: &[u8]) -> H266NALUHeader
    requires { 2 ≤ length unit.now }
    ensures f { is_set result.0 15 ≡ is_set (slice_index unit.now 0) 7 }
    ensures nalu_type { field result.0 7 3 ≡ type_of (slice_index unit.now 1) }
{
    H266NALUHeader::new(unit[0], unit[1])
}

/// The second byte of a header with another type; the temporal id is kept.
pub(crate) fn with_type(low: u8, nalu_type: u8) -> u8
    requires { nalu_type < 32 }
    ensures { result ≡ spec.with_type low nalu_type }
{
    nalu_type * 8 + (low & 7)
}
