//! The codec with its setting, which the depacketizer is made with, that which the packetizer is made
//! with, and the header of units and packets.

ghost use Rattle.std.specs.Prelude.{◌≡◌, ◌≤◌, length, slice_index};
ghost use Rattle.h26x_core.specs.Word.{field};
ghost use Rattle.h26x_core.specs.H265Unit.{type_of};

use h26x_core::H265NALUHeader;

/// H.265 (RFC 7798), and whether packets bear decoding order numbers (4.6).
#[derive(Debug, Clone, Copy, PartialEq, Eq)]
pub struct H265 {
    pub(crate) has_donl: bool,
}

/// H.265 as it is sent: whether sets that share a packet have the header of their own, or that of the
/// unit behind them (RFC 7798, 4.4.2), beside what is alike for who sends and who receives.
#[derive(Debug, Clone, Copy, PartialEq, Eq)]
pub struct H265Sending {
    pub(crate) codec: H265,
    pub(crate) lowest_header: bool,
}

/// The header of a unit or of a packet.
pub(crate) fn header_of(unit: &[u8]) -> H265NALUHeader
    requires { 2 ≤ length unit.now }
    ensures { field result.0 14 9 ≡ type_of (slice_index unit.now 0) }
{
    H265NALUHeader::new(unit[0], unit[1])
}
