//! The examples of `h26x_assembler`'s documents: access units of packets with their timestamps.

use h26x_assembler::{AccessUnit, AccessUnitAssembler};
use h26x_core::PacketError;
use h26x_receiver::SequencedDepacketizer;
use h26x_reorder::{ReorderBuffer, RtpPacket};
use h264_payload::H264Depacketizer;
use std::alloc::Global;

/// Receives packets, put in order within the window of a buffer.
pub fn receive(
    buffer: &mut ReorderBuffer,
    assembler: &mut AccessUnitAssembler<H264Depacketizer>,
    packets: &[RtpPacket<'_>],
    units: &mut Vec<AccessUnit>,
) -> Result<(), PacketError> {
    for packet in packets {
        buffer.push(packet)?;
        while let Some(held) = buffer.pop() {
            assembler.receive(&held.packet(), units)?;
        }
    }
    while let Some(held) = buffer.pop_first() {
        assembler.receive(&held.packet(), units)?;
    }
    assembler.finish(units)
}

/// Appends the access units of packets.
pub fn receive_access_units(
    alloc: Global,
    packets: &[RtpPacket<'_>],
    units: &mut Vec<AccessUnit>,
) -> Result<(), PacketError> {
    let mut buffer = ReorderBuffer::new(alloc, 64);
    let depacketizer = H264Depacketizer::new(alloc);
    let sequenced = SequencedDepacketizer::new(alloc, depacketizer, 4_000_000);
    let mut assembler = AccessUnitAssembler::new(alloc, sequenced, 8_000_000);
    receive(&mut buffer, &mut assembler, packets, units)
}

mod tests {
    use super::*;

    #[test]
    fn access_units_in_another_order(rt: HostRuntime) -> Result<(), PacketError> {
        let packets = [2, 1, 3].map(|sequence| RtpPacket {
            sequence,
            timestamp: u32::from(sequence) * 3000,
            marker: sequence != 3,
            payload: &[0x65, 1],
        });
        let mut units = Vec::new(rt.alloc());
        receive_access_units(rt.alloc(), &packets, &mut units)?;
        let want = [(3000, false), (6000, true), (9000, false)];
        assert!(rt; units.len() == want.len());
        for (unit, (timestamp, is_whole)) in units.iter().zip(&want) {
            assert!(rt; unit.timestamp == *timestamp && unit.is_whole == *is_whole);
        }
        Ok(())
    }
}
