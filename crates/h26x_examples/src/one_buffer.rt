//! The example of packets in one buffer: the headers of RTP are written in place.

ghost use Rattle.std.specs.Prelude.{◌≤◌};

use h26x_core::PacketError;
use h264_payload::{H264Packetizer, PacketBuffer};

/// An RTP header without extensions (RFC 3550, 5.1) of payload type 96; the marker bit stands on the
/// last packet of a frame.
pub fn rtp_header(last: bool, sequence: u16, timestamp: u32) -> [u8; 12] {
    let [s0, s1] = sequence.to_be_bytes();
    let [t0, t1, t2, t3] = timestamp.to_be_bytes();
    let marker_and_type = if last { 0xe0 } else { 0x60 };
    [0x80, marker_and_type, s0, s1, t0, t1, t2, t3, 0, 0, 0, 1]
}

/// Puts the packets of a frame behind each other, each behind its RTP header; the next sequence
/// number. The buffer has a headroom of 12 bytes or more.
pub fn packetize_frame(
    packetizer: &mut H264Packetizer,
    frame: &[u8],
    first: u16,
    timestamp: u32,
    packets: &mut PacketBuffer,
) -> Result<u16, PacketError>
    requires { 12 ≤ packets.old.headroom }
{
    packets.clear();
    packetizer.packetize_into(1200, frame, packets)?;
    let count = packets.len();
    let mut sequence = first;
    for place in 0..count {
        packets.write_header(place, &rtp_header(place + 1 == count, sequence, timestamp));
        sequence = sequence.wrapping_add(1);
    }
    Ok(sequence)
}

#[test]
fn a_frame_in_one_buffer(rt: HostRuntime) -> Result<(), PacketError> {
    let mut packetizer = H264Packetizer::new(rt.alloc());
    let mut packets = PacketBuffer::new(rt.alloc(), 12);
    let frame = [0, 0, 1, 0x61, 1, 0, 0, 1, 0x61, 2, 3];
    let next = packetize_frame(&mut packetizer, &frame, 65535, 0x0102_0304, &mut packets)?;
    let want = [
        0x80, 0x60, 0xff, 0xff, 1, 2, 3, 4, 0, 0, 0, 1, 0x61, 1, // the first
        0x80, 0xe0, 0, 0, 1, 2, 3, 4, 0, 0, 0, 1, 0x61, 2, 3, // the last
    ];
    assert!(rt;
        (next, packets.bytes(), packets.packet_ends()) == (1, want.as_slice(), [14, 29].as_slice())
    );
    Ok(())
}
