//! A server or a camera sends: an access unit a call, as a list of packets and into one buffer.

use crate::Work;
use crate::digest::Digest;
use h26x_core::{PacketError, Packetizer};
use h26x_inputs::{Draws, Picture, SETTINGS, Setting, pictures};
use h26x_packetizer::PacketBuffer;
use h26x_transmission::CodecPacketizer;
use std::alloc::Global;

/// The bytes of RTP's header.
const HEADROOM: usize = 12;

/// Sends pictures, the packets of each as a list.
pub fn send_lists(
    alloc: Global,
    setting: Setting,
    pictures: &[Picture],
    limit: usize,
    digest: &mut Digest,
) -> Result<(), PacketError> {
    let mut packetizer = CodecPacketizer::new(alloc, setting.codec);
    packetizer.configure_for(setting.max_don_diff());
    for picture in pictures {
        for packet in &packetizer.packetize(limit, &picture.bytes)? {
            digest.bytes(packet);
        }
    }
    Ok(())
}

/// Sends pictures, the packets of each in one buffer, with room for RTP's headers.
pub fn send_buffers(
    alloc: Global,
    setting: Setting,
    pictures: &[Picture],
    limit: usize,
    digest: &mut Digest,
) -> Result<(), PacketError> {
    let mut packetizer = CodecPacketizer::new(alloc, setting.codec);
    packetizer.configure_for(setting.max_don_diff());
    let mut buffer = PacketBuffer::new(alloc, HEADROOM);
    for picture in pictures {
        buffer.clear();
        packetizer.packetize_into(limit, &picture.bytes, &mut buffer)?;
        for packet in buffer.iter() {
            digest.bytes(packet);
        }
    }
    Ok(())
}

/// Sends the pictures of a setting in each round, by turns as lists and in a buffer.
fn send_setting(
    alloc: Global,
    work: Work,
    setting: Setting,
    draws: &mut Draws,
    digest: &mut Digest,
) -> Result<(), PacketError> {
    let mut stream = pictures(alloc, draws, setting, work.pictures)?;
    for round in 0..work.rounds {
        for picture in stream.iter_mut() {
            picture.stamp(round);
        }
        let limit = 1_100 + draws.below(301) as usize;
        if round % 2 == 0 {
            send_lists(alloc, setting, &stream, limit, digest)?;
        } else {
            send_buffers(alloc, setting, &stream, limit, digest)?;
        }
    }
    Ok(())
}

/// Sends the pictures of each setting.
pub fn run(alloc: Global, work: Work) -> Result<Digest, PacketError> {
    let mut draws = Draws::new(work.seed);
    let mut digest = Digest::new();
    for setting in &SETTINGS {
        send_setting(alloc, work, *setting, &mut draws, &mut digest)?;
    }
    Ok(digest)
}
