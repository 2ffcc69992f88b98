//! A recorder takes packets in order: one by one, as a list, behind start codes and behind lengths,
//! and pictures from end to end.

use crate::Work;
use crate::digest::Digest;
use h26x_codec::Codec;
use h26x_core::{CodecExtra, Depacketizer, PacketError};
use h26x_inputs::{
    Draws, FIRST_UNIT, LIMIT, Packet, SETTINGS, Setting, packets_of, pictures, stamp_all, stamp_at,
    stamp_end,
};
use h26x_transmission::{CodecDepacketizer, CodecPacketizer, carry, take_all};
use h264_payload::H264Depacketizer;
use h265_payload::H265Depacketizer;
use h266_payload::H266Depacketizer;
use std::alloc::Global;

/// A depacketizer of a setting, behind lengths or behind start codes.
fn depacketizer_of(alloc: Global, setting: Setting, is_avc: bool) -> CodecDepacketizer {
    match setting.codec {
        Codec::H264 => {
            let mut it = H264Depacketizer::new(alloc);
            it.is_avc = is_avc;
            CodecDepacketizer::H264(it)
        }
        Codec::H265 => {
            let mut it = H265Depacketizer::new(alloc);
            it.is_avc = is_avc;
            it.with_donl(setting.has_donl);
            CodecDepacketizer::H265(it)
        }
        Codec::H266 => {
            let mut it = H266Depacketizer::new(alloc);
            it.is_avc = is_avc;
            it.with_donl(setting.has_donl);
            CodecDepacketizer::H266(it)
        }
    }
}

/// Adds what is told of units.
#[inline]
fn add_extra(digest: &mut Digest, extra: CodecExtra) {
    let number = match extra {
        CodecExtra::None => 0,
        CodecExtra::H264(told) => 2 + u64::from(told.is_keyframe),
        CodecExtra::H265(told) => 4 + u64::from(told.is_keyframe),
        CodecExtra::H266(told) => 6 + u64::from(told.is_keyframe),
    };
    digest.number(number);
}

/// Takes packets one by one, and writes a picture at a time.
pub fn take_each(
    alloc: Global,
    setting: Setting,
    is_avc: bool,
    packets: &[Packet],
    digest: &mut Digest,
) -> Result<(), PacketError> {
    let mut depacketizer = depacketizer_of(alloc, setting, is_avc);
    let mut out = Vec::new(alloc);
    for packet in packets {
        let mut extra = CodecExtra::None;
        let taken = depacketizer.depacketize(&packet.payload, &mut out, &mut extra);
        digest.number(u64::from(taken.is_ok()));
        add_extra(digest, extra);
        if packet.marker {
            digest.bytes(&out);
            out.clear();
        }
    }
    Ok(())
}

/// Takes a list of packets, and writes what all of them bring.
pub fn take_list(
    alloc: Global,
    setting: Setting,
    packets: &[Vec<u8>],
    digest: &mut Digest,
) -> Result<(), PacketError> {
    let mut depacketizer = depacketizer_of(alloc, setting, false);
    let mut out = Vec::new(alloc);
    let mut extra = CodecExtra::None;
    let outcomes = take_all(alloc, &mut depacketizer, packets, &mut out, &mut extra)?;
    for outcome in outcomes.iter() {
        digest.number(u64::from(outcome.is_ok()));
    }
    digest.bytes(&out);
    Ok(())
}

/// Carries payloads from end to end.
fn carry_all(
    alloc: Global,
    setting: Setting,
    calls: &[(usize, Vec<u8>)],
    digest: &mut Digest,
) -> Result<(), PacketError> {
    let mut packetizer = CodecPacketizer::new(alloc, setting.codec);
    packetizer.configure_for(setting.max_don_diff());
    let mut depacketizer = depacketizer_of(alloc, setting, false);
    let mut out = Vec::new(alloc);
    let mut extra = CodecExtra::None;
    let (p, d) = (&mut packetizer, &mut depacketizer);
    let carried = carry(alloc, p, d, calls, &mut out, &mut extra)?;
    for packet in carried.packets.as_slice() {
        digest.bytes(packet);
    }
    digest.bytes(&out);
    Ok(())
}

/// Records the pictures of a setting in each round.
fn record_setting(
    alloc: Global,
    work: Work,
    setting: Setting,
    draws: &mut Draws,
    digest: &mut Digest,
) -> Result<(), PacketError> {
    let stream = pictures(alloc, draws, setting, work.pictures)?;
    let mut packets = packets_of(alloc, setting, &stream)?;
    let mut list = Vec::new(alloc);
    for packet in &packets {
        list.push(packet.payload.clone()?)?;
    }
    let mut calls = Vec::new(alloc);
    for picture in stream {
        calls.push((LIMIT, picture.bytes))?;
    }
    for round in 0..work.rounds {
        match round % 4 {
            0 | 2 => {
                stamp_all(&mut packets, round);
                take_each(alloc, setting, round % 4 == 2, &packets, digest)?;
            }
            1 => {
                for packet in list.iter_mut() {
                    stamp_end(packet, round);
                }
                take_list(alloc, setting, &list, digest)?;
            }
            _ => {
                for call in calls.iter_mut() {
                    stamp_at(&mut call.1, FIRST_UNIT, round);
                }
                carry_all(alloc, setting, &calls, digest)?;
            }
        }
    }
    Ok(())
}

/// Records the pictures of each setting.
pub fn run(alloc: Global, work: Work) -> Result<Digest, PacketError> {
    let mut draws = Draws::new(work.seed);
    let mut digest = Digest::new();
    for setting in &SETTINGS {
        record_setting(alloc, work, *setting, &mut draws, &mut digest)?;
    }
    Ok(digest)
}
