//! The examples of `h266_payload`'s documents.

use crate::stand_ins::send;
use h26x_core::{CodecExtra, Depacketizer, PacketError, Packetizer};
use h266_payload::{H266Depacketizer, H266Packetizer};
use std::alloc::Global;

/// Cuts a frame into packets, and puts its units together again.
pub fn send_and_receive(alloc: Global, frame: &[u8]) -> Result<Vec<u8>, PacketError> {
    let mut packetizer = H266Packetizer::new(alloc);
    let packets = packetizer.packetize(1200, frame)?;

    let mut out = Vec::new(alloc);
    let mut depacketizer = H266Depacketizer::new(alloc);
    let mut extra = CodecExtra::None;
    for packet in &packets {
        depacketizer.depacketize(packet, &mut out, &mut extra)?;
    }
    Ok(out)
}

/// Sends a frame in packets of up to 1400 bytes.
pub fn send_frame(alloc: Global, frame: &[u8]) -> Result<(), PacketError> {
    let mut packetizer = H266Packetizer::new(alloc);
    packetizer.with_max_packet_size(1400);
    for packet in &packetizer.packetize(1400, frame)? {
        send(packet);
    }
    Ok(())
}

mod tests {
    use super::*;
    use crate::outcomes::wrote;
    use h266_payload::detect_h266_keyframe;

    #[test]
    fn keyframes_are_detected(rt: HostRuntime) {
        let detected = (
            detect_h266_keyframe(&[0x00, 0x39, 0x80]),
            detect_h266_keyframe(&[0x00, 0x09, 0x80]),
        );
        assert!(rt; detected == (true, false));
    }

    #[test]
    fn a_frame_comes_back(rt: HostRuntime) {
        let want = [0, 0, 0, 1, 0x00, 0x39, 0xdd];
        assert!(rt; wrote(send_and_receive(rt.alloc(), &[0x00, 0x39, 0xdd]), &want));
    }

    #[test]
    fn a_frame_is_sent(rt: HostRuntime) {
        assert!(rt; send_frame(rt.alloc(), &[0x00, 0x39, 0xdd]).is_ok());
    }
}
