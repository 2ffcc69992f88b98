//! Packets of pictures, as a sender makes them.

use crate::setting::Setting;
use crate::stream::{Picture, STAMP, stamp_at};
use h26x_core::{PacketError, Packetizer};
use h26x_transmission::CodecPacketizer;
use std::alloc::Global;

/// The longest packet, in bytes.
pub const LIMIT: usize = 1200;

/// Behind how many bytes of a picture a round may write its number: its first start code and header.
pub const FIRST_UNIT: usize = 8;

/// A packet, and whether it is the last of its picture.
#[derive(Drop)]
pub struct Packet {
    /// Its payload.
    pub payload: Vec<u8>,
    /// Whether it is the last of its picture.
    pub marker: bool,
}

/// The packets of pictures.
pub fn packets_of(
    alloc: Global,
    setting: Setting,
    pictures: &[Picture],
) -> Result<Vec<Packet>, PacketError> {
    let mut packetizer = CodecPacketizer::new(alloc, setting.codec);
    packetizer.configure_for(setting.max_don_diff());
    let mut packets: Vec<Packet> = Vec::new(alloc);
    for picture in pictures {
        for payload in packetizer.packetize(LIMIT, &picture.bytes)? {
            packets.push(Packet {
                payload,
                marker: false,
            })?;
        }
        if let Some(last) = packets.last_mut() {
            last.marker = true;
        }
    }
    Ok(packets)
}

/// How many bytes a packet has at least into which a round writes: more than its headers and the
/// round's number.
pub const LEAST: usize = 12;

/// Writes the number of a round over the last bytes of a payload, if these are no headers.
pub fn stamp_end(payload: &mut Vec<u8>, round: u32) {
    let len = payload.len();
    if len > LEAST {
        stamp_at(payload, len - STAMP, round);
    }
}

/// Writes the number of a round into each packet, so that no two rounds have the same.
pub fn stamp_all(packets: &mut Vec<Packet>, round: u32) {
    for packet in packets.iter_mut() {
        stamp_end(&mut packet.payload, round);
    }
}
