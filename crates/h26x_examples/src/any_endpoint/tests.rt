use super::*;
use crate::outcomes::wrote;
use h264_payload::H264Depacketizer;
use std::test::Fail;

/// A frame of one unit of H.264, of four bytes.
fn frames(alloc: Global) -> Result<Vec<Vec<u8>>, PacketError> {
    let mut frames = Vec::new(alloc);
    frames.push([0x65, 0x01, 0x02, 0x03].to_vec(alloc)?)?;
    Ok(frames)
}

/// The three fragments of this frame at a limit of 3.
fn fragments(alloc: Global) -> Result<Vec<Vec<u8>>, PacketError> {
    let frames = frames(alloc)?;
    packetize_all(alloc, &mut H264Packetizer::new(alloc), 3, &frames)
}

/// Whether packets are these.
fn are_packets(packets: &[Vec<u8>], want: &[&[u8]]) -> bool {
    let mut same = packets.len() == want.len();
    for (packet, wanted) in packets.iter().zip(want) {
        same &= packet.as_slice() == *wanted;
    }
    same
}

#[test]
fn a_unit_goes_in_fragments(rt: HostRuntime) -> Result<(), Fail> {
    let want: [&[u8]; 3] = [
        &[0x7c, 0x85, 0x01],
        &[0x7c, 0x05, 0x02],
        &[0x7c, 0x45, 0x03],
    ];
    assert!(rt; are_packets(&fragments(rt.alloc())?, &want));
    Ok(())
}

/// What is written of packets.
fn written(alloc: Global, packets: &[Vec<u8>]) -> Result<Vec<u8>, PacketError> {
    depacketize_all(alloc, &mut H264Depacketizer::new(alloc), packets)
}

#[test]
fn the_unit_is_written(rt: HostRuntime) -> Result<(), Fail> {
    let want = [0, 0, 0, 1, 0x65, 0x01, 0x02, 0x03];
    assert!(rt; wrote(written(rt.alloc(), &fragments(rt.alloc())?), &want));
    Ok(())
}

/// How many packets are marked, and which is the first head.
fn marked_and_head(alloc: Global, packets: &[Vec<u8>]) -> (usize, Option<usize>) {
    (
        count_marked(&mut H264Packetizer::new(alloc), packets),
        first_head(&H264Depacketizer::new(alloc), packets),
    )
}

#[test]
fn the_first_fragment_is_a_head_and_the_last_is_marked(rt: HostRuntime) -> Result<(), Fail> {
    assert!(rt; marked_and_head(rt.alloc(), &fragments(rt.alloc())?) == (1, Some(0)));
    Ok(())
}

/// How many packets a codec sends of a frame. For H.266 it is a unit of the type of a fragment,
/// which is not sent.
fn count_sent(alloc: Global, codec: Codec) -> Result<usize, PacketError> {
    Ok(packetize_by(alloc, codec, &[0x02, 0xe9, 0xaa])?.len())
}

#[test]
fn each_codec_sends_its_frame(rt: HostRuntime) -> Result<(), Fail> {
    for (codec, count) in [(Codec::H264, 1), (Codec::H265, 1), (Codec::H266, 0)] {
        assert!(rt; count_sent(rt.alloc(), codec)? == count);
    }
    Ok(())
}
