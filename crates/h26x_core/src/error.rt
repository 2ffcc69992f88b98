//! Why a packet or a payload is refused.

use std::alloc::{AllocError, AllocFailed};
use thiserror::Error;

/// Why a call is refused. A refused call changes nothing, but for a packetizer of a caller's own in
/// the box of a `CodecPacketizer`: where memory lacks for the copy of its packets into a buffer, it
/// has gone on, and they are lost.
///
/// The packets are those of RFC 6184 (H.264), RFC 7798 (H.265) and RFC 9328 (H.266).
#[derive(Debug, Clone, Copy, PartialEq, Eq, Error)]
pub enum PacketError {
    /// The packet ends before what its type asks for (RFC 6184, 5.6 to 5.8; RFC 7798, 4.4; RFC
    /// 9328, 4.3).
    #[error("packet is too short")]
    ErrShortPacket,

    /// H.264: a packet of this type is none that a depacketizer reads (RFC 6184, 5.2 and 5.4).
    #[error("NAL unit type {0} is not handled")]
    NaluTypeIsNotHandled(u8),

    /// H.264: a STAP-A gives this length where only so many bytes are left (RFC 6184, 5.7.1).
    #[error("STAP-A unit of {0} bytes, {1} left")]
    StapASizeLargerThanBuffer(usize, usize),

    /// H.265: the packet's forbidden bit is set (RFC 7798, 1.1.4 and 4.2).
    #[error("corrupted H.265 packet")]
    ErrH265CorruptedPacket,

    /// H.265: an extension of a PACI packet has at most 31 bytes (RFC 7798, 4.4.4).
    #[error("PACI extension is longer than 31 bytes")]
    ErrH265PACIPHESTooLong,

    /// H.266: the packet's forbidden bit is set, or an aggregate holds an aggregate or a fragment
    /// (RFC 9328, 1.1.4 and 4.3.2).
    #[error("corrupted H.266 packet")]
    ErrH266CorruptedPacket,

    /// Behind lengths, of every codec: the unit's length doesn't fit four bytes (ISO/IEC 14496-15).
    #[error("unit is too long for an AVC length")]
    AvcUnitTooLong,

    /// The allocator had no memory.
    #[error("out of memory")]
    OutOfMemory,
}

impl From<AllocError> for PacketError {
    ghost use Rattle.std.specs.Prelude.{◌≡◌};
    ghost use Rattle.h26x_core.specs.declared.error.PacketError.TheVariants.{OutOfMemory};

    ghost from_gives = { λ _ e. e ≡ OutOfMemory };

    fn from(_e: AllocError) -> PacketError {
        PacketError::OutOfMemory
    }
}

impl<T: Drop> From<AllocFailed<T>> for PacketError {
    ghost use Rattle.std.specs.Prelude.{◌≡◌};
    ghost use Rattle.h26x_core.specs.declared.error.PacketError.TheVariants.{OutOfMemory};

    ghost from_gives = { λ _ e. e ≡ OutOfMemory };

    fn from(e: AllocFailed<T>) -> PacketError {
        AllocError::from(e).into()
    }
}
