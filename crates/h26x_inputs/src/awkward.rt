//! Payloads of start codes or zeros alone, and a stranger's short fragments.

use crate::draws::Draws;
use crate::setting::Setting;
use crate::stream::Picture;
use h26x_codec::Codec;
use h26x_core::PacketError;
use std::alloc::Global;

/// How many bytes a payload has.
const SIZE: usize = 60_000;

/// A payload of this text again and again, behind the number of a round.
fn repeated(alloc: Global, text: &[u8], round: u32) -> Result<Picture, PacketError> {
    let mut payload = Picture::new(alloc);
    payload.bytes.reserve(SIZE)?;
    payload.bytes.extend_from_slice(&[0, 0, 1, 0x41, 0x01])?;
    for shift in [0, 7, 14, 21] {
        payload.bytes.push(0x80 | (round >> shift & 0x7f) as u8)?;
    }
    for _ in 0..SIZE / text.len().max(1) {
        payload.bytes.extend_from_slice(text)?;
    }
    Ok(payload)
}

/// Payloads of start codes, of start codes with a byte behind each, of zeros, and of zeros that
/// almost make start codes.
pub fn awkward_payloads(alloc: Global, round: u32) -> Result<Vec<Picture>, PacketError> {
    let mut payloads = Vec::new(alloc);
    let texts: [&[u8]; 4] = [
        &[0, 0, 1],
        &[0, 0, 0, 1, 0x65, 0x88],
        &[0, 0, 0, 0],
        &[0, 0, 3, 0, 1],
    ];
    for text in texts {
        payloads.push(repeated(alloc, text, round)?)?;
    }
    Ok(payloads)
}

/// What a fragment begins with, before its marks (5.8 of RFC 6184, 4.4.3 of RFC 7798, 4.3.3 of RFC
/// 9328).
fn fragment_header(codec: Codec) -> &'static [u8] {
    match codec {
        Codec::H264 => &[0x7c],
        Codec::H265 => &[0x62, 0x01],
        Codec::H266 => &[0x00, 0xe9],
    }
}

/// A fragment of one byte, which begins a unit, goes on or ends it.
fn fragment(alloc: Global, setting: Setting, marks: u8, byte: u8) -> Result<Vec<u8>, PacketError> {
    let mut packet = Vec::from_slice(alloc, fragment_header(setting.codec))?;
    packet.push(marks | 1)?;
    if setting.has_donl && marks == 0x80 {
        packet.extend_from_slice(&[0, 1])?;
    }
    packet.push(byte)?;
    Ok(packet)
}

/// A stranger's fragments of one byte: every 200th begins a unit, and few end one.
pub fn fragments(
    alloc: Global,
    setting: Setting,
    draws: &mut Draws,
    count: u32,
) -> Result<Vec<Vec<u8>>, PacketError> {
    let mut packets = Vec::new(alloc);
    for _ in 0..count {
        let marks = match draws.below(200) {
            0 => 0x80,
            1 => 0x40,
            _ => 0,
        };
        let byte = (draws.next() >> 32 & 0xff) as u8;
        packets.push(fragment(alloc, setting, marks, byte)?)?;
    }
    Ok(packets)
}
