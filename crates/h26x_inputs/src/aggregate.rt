//! Aggregates, as another sender makes them: ours makes them of parameter sets alone.

use crate::draws::Draws;
use crate::setting::Setting;
use crate::stream::STAMP;
use h26x_codec::Codec;
use h26x_core::PacketError;
use std::alloc::Global;

/// How many units an aggregate has.
const UNITS: u32 = 11;

/// The header of an aggregate (5.7.1 of RFC 6184, 4.4.2 of RFC 7798, 4.3.2 of RFC 9328).
fn aggregate_header(setting: Setting) -> &'static [u8] {
    match setting.codec {
        Codec::H264 => &[0x78],
        Codec::H265 => &[0x60, 0x01],
        Codec::H266 => &[0x00, 0xe1],
    }
}

/// What stands before the length of a unit: a number of two bytes before the first where units bear
/// numbers, and of H.265 one of a byte before each other.
fn numbers(setting: Setting, is_first: bool) -> &'static [u8] {
    match (setting.has_donl, is_first, setting.codec) {
        (true, true, _) => &[0, 1],
        (true, false, Codec::H265) => &[0],
        _ => &[],
    }
}

/// Appends a unit of so many bytes behind its header, behind its length; of none an empty unit.
fn push_unit(
    packet: &mut Vec<u8>,
    draws: &mut Draws,
    setting: Setting,
    len: u32,
) -> Result<(), PacketError> {
    if len == 0 {
        packet.extend_from_slice(&[0, 0])?;
        return Ok(());
    }
    let header = setting.slice_header();
    let size = u64::from(len).saturating_add(header.len() as u64);
    packet.push((size >> 8 & 0xff) as u8)?;
    packet.push((size & 0xff) as u8)?;
    packet.extend_from_slice(header)?;
    for _ in 0..len {
        packet.push((draws.next() >> 32 & 0xff) as u8 | 1)?;
    }
    Ok(())
}

/// So many aggregates of eleven units of `least` bytes behind their headers, or fewer than `more`
/// more; the last has room for the number of a round.
pub fn aggregates(
    alloc: Global,
    draws: &mut Draws,
    setting: Setting,
    count: u32,
    least: u32,
    more: u32,
) -> Result<Vec<Vec<u8>>, PacketError> {
    let mut packets = Vec::new(alloc);
    for _ in 0..count {
        let mut packet = Vec::from_slice(alloc, aggregate_header(setting))?;
        for place in 0..UNITS {
            let mut len = least.saturating_add(draws.below(more.max(1)));
            if place == UNITS - 1 {
                len = len.max(STAMP as u32);
            }
            packet.extend_from_slice(numbers(setting, place == 0))?;
            push_unit(&mut packet, draws, setting, len)?;
        }
        packets.push(packet)?;
    }
    Ok(packets)
}
