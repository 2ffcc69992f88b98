//! The examples of `h264_payload`'s documents; that of both together is the one of `first`.

use crate::stand_ins::send;
use h26x_core::{CodecExtra, Depacketizer, PacketError, Packetizer};
use h264_payload::{H264Depacketizer, H264Packetizer};
use std::alloc::Global;

/// Sends a frame.
pub fn send_frame(alloc: Global, frame: &[u8]) -> Result<(), PacketError> {
    let mut packetizer = H264Packetizer::new(alloc);
    for packet in &packetizer.packetize(1200, frame)? {
        send(packet);
    }
    Ok(())
}

/// Writes the units of packets in AVC form, each behind its length in four bytes.
pub fn receive_avc(alloc: Global, packets: &[Vec<u8>]) -> Result<Vec<u8>, PacketError> {
    let mut depacketizer = H264Depacketizer::new(alloc);
    depacketizer.is_avc = true;
    let mut out = Vec::new(alloc);
    let mut extra = CodecExtra::None;
    for packet in packets {
        depacketizer.depacketize(packet, &mut out, &mut extra)?;
    }
    Ok(out)
}

mod tests {
    use super::*;
    use crate::outcomes::wrote;
    use h264_payload::detect_h264_keyframe;
    use std::test::Fail;

    #[test]
    fn keyframes_are_detected(rt: HostRuntime) {
        let detected = (
            detect_h264_keyframe(&[0x65, 0x88]),
            detect_h264_keyframe(&[0x67, 0x42]),
        );
        assert!(rt; detected == (true, false));
    }

    #[test]
    fn a_frame_is_sent(rt: HostRuntime) {
        assert!(rt; send_frame(rt.alloc(), &[0x65, 0x01]).is_ok());
    }

    /// Two fragments of a slice of an IDR picture.
    fn fragments(alloc: Global) -> Result<Vec<Vec<u8>>, Fail> {
        let mut packets = Vec::new(alloc);
        packets.push([0x7c, 0x85, 0x01].to_vec(alloc)?)?;
        packets.push([0x7c, 0x45, 0x02].to_vec(alloc)?)?;
        Ok(packets)
    }

    #[test]
    fn avc_units_stand_behind_their_lengths(rt: HostRuntime) -> Result<(), Fail> {
        let want = [0, 0, 0, 3, 0x65, 0x01, 0x02];
        assert!(rt; wrote(receive_avc(rt.alloc(), &fragments(rt.alloc())?), &want));
        Ok(())
    }
}
