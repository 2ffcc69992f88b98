//! The examples of `h26x_receiver`'s documents: packets with their sequence numbers.

use crate::stand_ins::ask_for_a_keyframe;
use h26x_codec::{AnyDepacketizer, Codec};
use h26x_core::{CodecExtra, PacketError};
use h26x_receiver::{Received, SequencedDepacketizer, receive_all};
use h264_payload::H264Depacketizer;
use h265_payload::H265Depacketizer;
use std::alloc::Global;

/// Writes the units of packets with their sequence numbers of RTP, and asks for a keyframe where
/// some are lost: no unit with a gap is written.
pub fn receive_with_gaps(
    alloc: Global,
    packets: &[(u16, Vec<u8>)],
) -> Result<Vec<u8>, PacketError> {
    let depacketizer = H264Depacketizer::new(alloc);
    let mut receiver = SequencedDepacketizer::new(alloc, depacketizer, 4_000_000);
    let mut out = Vec::new(alloc);
    let mut extra = CodecExtra::None;
    for (sequence, packet) in packets {
        match receiver.receive(*sequence, packet, &mut out, &mut extra)? {
            Received::InOrder | Received::Late(_) => {}
            Received::Gap(_) | Received::TooLong(_) => ask_for_a_keyframe(),
        }
    }
    Ok(out)
}

/// Receives the first packet of a stream.
pub fn receive_first(alloc: Global, sequence: u16, packet: &[u8]) -> Result<Received, PacketError> {
    let mut out = Vec::new(alloc);
    let mut extra = CodecExtra::None;
    let depacketizer = H265Depacketizer::new(alloc);
    let mut receiver = SequencedDepacketizer::new(alloc, depacketizer, 4_000_000);
    let received = receiver.receive(sequence, packet, &mut out, &mut extra)?;
    Ok(received)
}

/// How many packets of a peer, of any codec, were taken.
pub fn count_taken(
    alloc: Global,
    codec: Codec,
    packets: &[(u16, Vec<u8>)],
) -> Result<usize, PacketError> {
    let mut out = Vec::new(alloc);
    let mut extra = CodecExtra::None;
    let depacketizer = AnyDepacketizer::new(alloc, codec);
    let mut receiver = SequencedDepacketizer::new(alloc, depacketizer, 4_000_000);
    let answers = receive_all(alloc, &mut receiver, packets, &mut out, &mut extra)?;
    let taken = answers
        .iter()
        .filter(|answer| answer.is_ok_and(|received| received.is_taken()))
        .count();
    Ok(taken)
}

mod tests {
    use super::*;
    use crate::outcomes::wrote;
    use std::test::Fail;

    /// The fragments of two units, the middle one of the first lost.
    fn fragments_with_a_gap(alloc: Global) -> Result<Vec<(u16, Vec<u8>)>, PacketError> {
        let rows: [(u16, [u8; 3]); 4] = [
            (65534, [0x7c, 0x85, 0x01]),
            (0, [0x7c, 0x45, 0x03]),
            (1, [0x5c, 0x81, 0x04]),
            (2, [0x5c, 0x41, 0x05]),
        ];
        let mut packets = Vec::new(alloc);
        for (sequence, packet) in &rows {
            packets.push((*sequence, packet.to_vec(alloc)?))?;
        }
        Ok(packets)
    }

    #[test]
    fn a_unit_with_a_gap_is_not_written(rt: HostRuntime) -> Result<(), Fail> {
        let packets = fragments_with_a_gap(rt.alloc())?;
        let want = [0, 0, 0, 1, 0x41, 0x04, 0x05];
        assert!(rt; wrote(receive_with_gaps(rt.alloc(), &packets), &want));
        Ok(())
    }

    #[test]
    fn packets_with_a_gap_are_taken(rt: HostRuntime) -> Result<(), Fail> {
        let packets = fragments_with_a_gap(rt.alloc())?;
        assert!(rt; count_taken(rt.alloc(), Codec::H264, &packets)? == 4);
        Ok(())
    }

    #[test]
    fn any_number_may_be_the_first(rt: HostRuntime) -> Result<(), Fail> {
        let received = receive_first(rt.alloc(), 40000, &[0x26, 0x01, 0xaa])?;
        assert!(rt; received == Received::InOrder);
        Ok(())
    }
}
