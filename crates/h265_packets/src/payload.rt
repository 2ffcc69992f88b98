//! Packets as a depacketizer shows them (RFC 7798, 4.4).

ghost use Rattle.std.specs.Prelude.{◌≡◌, IfOk, OnErr, Err};
ghost use Rattle.h265_packets.specs.Payload.{empty_single};

use crate::aggregation::H265AggregationPacket;
use crate::fragmentation::H265FragmentationUnitPacket;
use crate::paci::H265PACIPacket;
use crate::single::H265SingleNALUnitPacket;
use h26x_core::PacketError;
use std::alloc::Global;

/// A packet that was read (RFC 7798, 4.4).
#[derive(Debug, Drop)]
pub enum H265Payload {
    /// A single NAL unit packet (RFC 7798, 4.4.1).
    H265SingleNALUnitPacket(H265SingleNALUnitPacket),
    /// A fragmentation unit (RFC 7798, 4.4.3).
    H265FragmentationUnitPacket(H265FragmentationUnitPacket),
    /// An aggregation packet (RFC 7798, 4.4.2).
    H265AggregationPacket(H265AggregationPacket),
    /// A PACI packet (RFC 7798, 4.4.4).
    H265PACIPacket(H265PACIPacket),
}

impl H265Payload {
    /// The empty single NAL unit packet (RFC 7798, 4.4.1). It takes no memory.
    pub fn empty(alloc: Global) -> Self
        ensures { result ≡ H265Payload.H265SingleNALUnitPacket empty_single }
    {
        H265Payload::H265SingleNALUnitPacket(H265SingleNALUnitPacket::empty(alloc))
    }

    /// The same packet again. `OutOfMemory` is its only error.
    pub fn clone(&self, alloc: Global) -> Result<Self, PacketError>
        ensures same { IfOk result (λ it. it ≡ self.now) }
        ensures memory { OnErr result (result ≡ Err PacketError.OutOfMemory) }
    {
        Ok(match self {
            H265Payload::H265SingleNALUnitPacket(packet) => {
                H265Payload::H265SingleNALUnitPacket(packet.clone(alloc)?)
            }
            H265Payload::H265FragmentationUnitPacket(packet) => {
                H265Payload::H265FragmentationUnitPacket(packet.clone(alloc)?)
            }
            H265Payload::H265AggregationPacket(packet) => {
                H265Payload::H265AggregationPacket(packet.clone(alloc)?)
            }
            H265Payload::H265PACIPacket(packet) => {
                H265Payload::H265PACIPacket(packet.clone(alloc)?)
            }
        })
    }

    /// The buffer of the packet's data, to be used again, or of an aggregation packet's first unit.
    pub fn into_buffer(self) -> Option<Vec<u8>> {
        match self {
            H265Payload::H265SingleNALUnitPacket(packet) => Some(packet.into_buffer()),
            H265Payload::H265FragmentationUnitPacket(packet) => Some(packet.into_buffer()),
            H265Payload::H265AggregationPacket(packet) => packet.into_buffer(),
            H265Payload::H265PACIPacket(packet) => Some(packet.into_buffer()),
        }
    }
}

impl PartialEq for H265Payload {
    ghost use Rattle.h265_packets.specs.Equality.{payload_eq, payload_equiv};
    ghost use Rattle.std.specs.Cmp.{partial_equiv_from_equiv};

    ghost eq = { payload_eq };

    ghost laws = { partial_equiv_from_equiv payload_equiv };

    fn eq(&self, other: &Self) -> bool {
        match (self, other) {
            (
                H265Payload::H265SingleNALUnitPacket(one),
                H265Payload::H265SingleNALUnitPacket(two),
            ) => one == two,
            (
                H265Payload::H265FragmentationUnitPacket(one),
                H265Payload::H265FragmentationUnitPacket(two),
            ) => one == two,
            (H265Payload::H265AggregationPacket(one), H265Payload::H265AggregationPacket(two)) =>
                one == two,
            (H265Payload::H265PACIPacket(one), H265Payload::H265PACIPacket(two)) => one == two,
            _ => false,
        }
    }
}

impl Eq for H265Payload {
    ghost use Rattle.h265_packets.specs.Equality.{payload_equiv};

    ghost laws = { payload_equiv };
}
