//! Code over any packetizer and any depacketizer: by a type parameter, and by `dyn`.

use h26x_codec::Codec;
use h26x_core::{CodecExtra, Depacketizer, PacketError, Packetizer};
use h264_payload::H264Packetizer;
use h265_payload::H265Packetizer;
use h266_payload::H266Packetizer;
use std::alloc::Global;

/// The packets of frames, none longer than `limit` bytes where the packetizer is one of a codec.
pub fn packetize_all<P: Packetizer>(
    alloc: Global,
    packetizer: &mut P,
    limit: usize,
    frames: &[Vec<u8>],
) -> Result<Vec<Vec<u8>>, PacketError> {
    let mut packets = Vec::new(alloc);
    for frame in frames {
        packets.append(&mut packetizer.packetize(limit, frame)?)?;
    }
    Ok(packets)
}

/// What is written of packets, in a buffer of the size that the depacketizer hints at.
pub fn depacketize_all<D: Depacketizer>(
    alloc: Global,
    depacketizer: &mut D,
    packets: &[Vec<u8>],
) -> Result<Vec<u8>, PacketError> {
    let mut size: usize = 0;
    for packet in packets {
        size = size.saturating_add(packet.len());
    }
    let hint = depacketizer.out_size_hint(size).unwrap_or(0);
    let mut out = Vec::with_capacity(alloc, hint)?;
    let mut extra = CodecExtra::None;
    for packet in packets {
        depacketizer.depacketize(packet, &mut out, &mut extra)?;
    }
    Ok(out)
}

/// How many packets of a frame bear the marker bit.
pub fn count_marked(packetizer: &mut dyn Packetizer, packets: &[Vec<u8>]) -> usize {
    let mut previous: Option<&[u8]> = None;
    let mut marked: usize = 0;
    for (place, packet) in packets.iter().enumerate() {
        let last = place.saturating_add(1) == packets.len();
        if packetizer.is_marker(packet, previous, last) {
            marked = marked.saturating_add(1);
        }
        previous = Some(packet);
    }
    marked
}

/// Where the first packet stands that may begin a frame.
pub fn first_head(depacketizer: &dyn Depacketizer, packets: &[Vec<u8>]) -> Option<usize> {
    packets
        .iter()
        .position(|packet| depacketizer.is_partition_head(packet))
}

/// The packets of a frame, by a packetizer that is chosen while the program runs.
pub fn packetize_by(
    alloc: Global,
    codec: Codec,
    frame: &[u8],
) -> Result<Vec<Vec<u8>>, PacketError> {
    match codec {
        Codec::H264 => packetize_with(&mut H264Packetizer::new(alloc), frame),
        Codec::H265 => packetize_with(&mut H265Packetizer::new(alloc), frame),
        Codec::H266 => packetize_with(&mut H266Packetizer::new(alloc), frame),
    }
}

/// The packets of a frame, by this packetizer.
fn packetize_with(
    packetizer: &mut dyn Packetizer,
    frame: &[u8],
) -> Result<Vec<Vec<u8>>, PacketError> {
    packetizer.packetize(1200, frame)
}

mod tests;
