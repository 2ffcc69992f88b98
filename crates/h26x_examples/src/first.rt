//! The first example of `h264_payload`'s page: both endpoints.

use h26x_core::{CodecExtra, Depacketizer, PacketError, Packetizer};
use h264_payload::{H264Depacketizer, H264Packetizer};
use std::alloc::Global;

/// Cuts a frame into packets of at most 1200 bytes, puts its units together again, and tells whether
/// one is of a keyframe.
pub fn send_and_receive(alloc: Global, frame: &[u8]) -> Result<(Vec<u8>, CodecExtra), PacketError> {
    let mut packetizer = H264Packetizer::new(alloc);
    let packets = packetizer.packetize(1200, frame)?;

    let mut out = Vec::new(alloc);
    let mut depacketizer = H264Depacketizer::new(alloc);
    let mut extra = CodecExtra::None;
    for packet in &packets {
        depacketizer.depacketize(packet, &mut out, &mut extra)?;
    }
    Ok((out, extra))
}

mod tests {
    use super::*;
    use h26x_core::H264CodecExtra;

    /// Whether these bytes and this come back of a frame.
    fn comes_back(alloc: Global, frame: &[u8], want: &[u8], told: CodecExtra) -> bool {
        match send_and_receive(alloc, frame) {
            Ok((out, extra)) => out.as_slice() == want && extra == told,
            Err(_) => false,
        }
    }

    #[test]
    fn a_keyframe_comes_back_and_is_told_of(rt: HostRuntime) {
        let key = CodecExtra::H264(H264CodecExtra { is_keyframe: true });
        let written = [0, 0, 0, 1, 0x65, 0x01];
        assert!(rt; comes_back(rt.alloc(), &[0x65, 0x01], &written, key));
    }
}
