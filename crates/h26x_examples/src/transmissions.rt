//! The examples of `h26x_codec`'s documents: packetizers and depacketizers of any codec, and whole
//! transmissions through both.

use crate::any_endpoint::depacketize_all;
use crate::stand_ins::send;
use h26x_codec::Codec;
use h26x_core::{CodecExtra, PacketError, Packetizer};
use h26x_transmission::{CodecDepacketizer, CodecPacketizer, Repeated, again, carry, take_all};
use std::alloc::Global;

/// Cuts a frame into packets, and puts its units together again.
pub fn send_and_receive(alloc: Global, frame: &[u8]) -> Result<Vec<u8>, PacketError> {
    let packets = packets_of(alloc, frame)?;
    let mut depacketizer = CodecDepacketizer::new(alloc, Codec::H266);
    depacketize_all(alloc, &mut depacketizer, &packets)
}

/// The packets of a frame.
fn packets_of(alloc: Global, frame: &[u8]) -> Result<Vec<Vec<u8>>, PacketError> {
    let mut packetizer = CodecPacketizer::new(alloc, Codec::H266);
    packetizer.packetize(1200, frame)
}

/// Sends a frame with decoding order numbers where the session's description asks for them.
pub fn send_frame(
    alloc: Global,
    sprop_max_don_diff: Option<u32>,
    frame: &[u8],
) -> Result<(), PacketError> {
    let mut packetizer = CodecPacketizer::new(alloc, Codec::H265);
    packetizer.configure_for(sprop_max_don_diff);
    for packet in &packetizer.packetize(1200, frame)? {
        send(packet);
    }
    Ok(())
}

/// Carries a frame from end to end; what is written of it.
pub fn carry_frame(alloc: Global, frame: Vec<u8>) -> Result<Vec<u8>, PacketError> {
    let mut out = Vec::new(alloc);
    let mut extra = CodecExtra::None;
    let mut p = CodecPacketizer::new(alloc, Codec::H264);
    let mut d = CodecDepacketizer::new(alloc, Codec::H264);
    let carried = carry(
        alloc,
        &mut p,
        &mut d,
        &[(1200, frame)],
        &mut out,
        &mut extra,
    )?;
    for packet in carried.packets.as_slice() {
        send(packet);
    }
    Ok(out)
}

/// How many packets of a peer are refused; the others are taken.
pub fn count_refused(alloc: Global, packets: Vec<Vec<u8>>) -> Result<usize, PacketError> {
    let mut depacketizer = CodecDepacketizer::new(alloc, Codec::H264);
    let mut out = Vec::new(alloc);
    let mut extra = CodecExtra::None;
    let outcomes = take_all(alloc, &mut depacketizer, &packets, &mut out, &mut extra)?;
    let refused = outcomes.iter().filter(|outcome| outcome.is_err()).count();
    Ok(refused)
}

/// Sends frames, writes them in Annex B, and sends what was written.
pub fn send_twice(alloc: Global, frames: Vec<Vec<u8>>) -> Result<Repeated, PacketError> {
    let repeated = again(alloc, Codec::H264, false, 1200, 1200, &frames)?;
    Ok(repeated)
}

mod tests;
