//! A player or a gateway receives over a lossy network: packets put in order one by one and as a
//! list, and access units.

ghost use Rattle.std.specs.Prelude.{◌^◌, ◌<◌, ◌≤◌};

use crate::Work;
use crate::digest::Digest;
use h26x_assembler::{AccessUnit, AccessUnitAssembler, assemble_all};
use h26x_codec::AnyDepacketizer;
use h26x_core::{CodecExtra, PacketError};
use h26x_inputs::{
    Draws, Packet, SETTINGS, Setting, arrivals, packets_of, pictures, small_pictures,
};
use h26x_receiver::{Received, SequencedDepacketizer};
use h26x_reorder::{ReorderBuffer, RtpPacket};
use std::alloc::Global;

/// How many bytes an open run may hold.
pub const RUN_LIMIT: usize = 1_000_000;

/// How many bytes an open access unit may hold.
pub const UNIT_LIMIT: usize = 4_000_000;

/// How far timestamps of pictures lie apart, at 30 a second.
const TICKS: u32 = 3_000;

/// What packets of a round bear: the number of the first, and its timestamp.
#[derive(Clone, Copy)]
pub struct First {
    /// The number.
    pub sequence: u16,
    /// The timestamp.
    pub timestamp: u32,
}

/// A depacketizer of a setting.
fn depacketizer_of(alloc: Global, setting: Setting) -> AnyDepacketizer {
    let mut depacketizer = AnyDepacketizer::new(alloc, setting.codec);
    depacketizer.with_donl(setting.has_donl);
    depacketizer
}

/// Adds what became of a packet.
#[inline]
pub fn add_received(digest: &mut Digest, received: Result<Received, PacketError>) {
    let number = match received {
        Ok(Received::InOrder) => 1,
        Ok(Received::Gap(missing)) => 0x1_0000 + u64::from(missing),
        Ok(Received::TooLong(missing)) => 0x2_0000 + u64::from(missing),
        Ok(Received::Late(behind)) => 0x3_0000 + u64::from(behind),
        Err(_) => 2,
    };
    digest.number(number);
}

/// Adds access units, and drops them.
fn add_units(digest: &mut Digest, units: &mut Vec<AccessUnit>) {
    for unit in units.iter() {
        digest.number(u64::from(unit.timestamp));
        digest.number(u64::from(unit.is_whole));
        digest.bytes(&unit.bytes);
    }
    units.clear();
}

/// The packets of a round with their numbers and timestamps.
pub fn numbered<'a>(
    alloc: Global,
    packets: &'a [Packet],
    first: First,
) -> Result<Vec<RtpPacket<'a>>, PacketError> {
    let mut numbered = Vec::new(alloc);
    let First {
        mut sequence,
        mut timestamp,
    } = first;
    for packet in packets {
        numbered.push(RtpPacket {
            sequence,
            timestamp,
            marker: packet.marker,
            payload: &packet.payload,
        })?;
        sequence = sequence.wrapping_add(1);
        if packet.marker {
            timestamp = timestamp.wrapping_add(TICKS);
        }
    }
    Ok(numbered)
}

/// Receives packets as they come, one by one, through a buffer.
#[inline]
fn receive_through(
    buffer: &mut ReorderBuffer,
    receiver: &mut AccessUnitAssembler<AnyDepacketizer>,
    packets: &[RtpPacket<'_>],
    order: &[usize],
    units: &mut Vec<AccessUnit>,
    digest: &mut Digest,
) -> Result<(), PacketError> {
    for place in order {
        if let Some(packet) = packets.get(*place) {
            buffer.push(packet)?;
            while let Some(held) = buffer.pop() {
                add_received(digest, receiver.receive(&held.packet(), units));
            }
            add_units(digest, units);
        }
    }
    while let Some(held) = buffer.pop_first() {
        add_received(digest, receiver.receive(&held.packet(), units));
    }
    receiver.finish(units)?;
    add_units(digest, units);
    Ok(())
}

/// So does a receiver of its own, through a buffer with a window.
fn receive_each(
    alloc: Global,
    setting: Setting,
    window: u16,
    packets: &[RtpPacket<'_>],
    order: &[usize],
    digest: &mut Digest,
) -> Result<(), PacketError>
    requires some { 0 < window }
    requires half { window ≤ 2 ^ 14 }
{
    let sequenced = SequencedDepacketizer::new(alloc, depacketizer_of(alloc, setting), RUN_LIMIT);
    let mut receiver = AccessUnitAssembler::new(alloc, sequenced, UNIT_LIMIT);
    let mut buffer = ReorderBuffer::new(alloc, window);
    let mut units = Vec::new(alloc);
    receive_through(
        &mut buffer,
        &mut receiver,
        packets,
        order,
        &mut units,
        digest,
    )
}

/// The packets that came.
fn packets_in_order<'a>(
    alloc: Global,
    packets: &[RtpPacket<'a>],
    order: &[usize],
) -> Result<Vec<RtpPacket<'a>>, PacketError> {
    let mut came = Vec::new(alloc);
    for place in order {
        if let Some(packet) = packets.get(*place) {
            came.push(RtpPacket {
                sequence: packet.sequence,
                timestamp: packet.timestamp,
                marker: packet.marker,
                payload: packet.payload,
            })?;
        }
    }
    Ok(came)
}

/// Receives a list.
fn receive_all_of(
    alloc: Global,
    receiver: &mut AccessUnitAssembler<AnyDepacketizer>,
    window: u16,
    came: &[RtpPacket<'_>],
    digest: &mut Digest,
) -> Result<(), PacketError>
    requires some { 0 < window }
    requires half { window ≤ 2 ^ 14 }
{
    let mut units = Vec::new(alloc);
    for received in assemble_all(alloc, receiver, window, came, &mut units)? {
        add_received(digest, received);
    }
    add_units(digest, &mut units);
    Ok(())
}

/// Receives packets that came as a list.
fn receive_list(
    alloc: Global,
    setting: Setting,
    window: u16,
    packets: &[RtpPacket<'_>],
    order: &[usize],
    digest: &mut Digest,
) -> Result<(), PacketError>
    requires some { 0 < window }
    requires half { window ≤ 2 ^ 14 }
{
    let came = packets_in_order(alloc, packets, order)?;
    let sequenced = SequencedDepacketizer::new(alloc, depacketizer_of(alloc, setting), RUN_LIMIT);
    let mut receiver = AccessUnitAssembler::new(alloc, sequenced, UNIT_LIMIT);
    receive_all_of(alloc, &mut receiver, window, &came, digest)
}

/// Receives packets as they come, without a buffer and without access units.
fn receive_sequenced(
    alloc: Global,
    setting: Setting,
    packets: &[RtpPacket<'_>],
    order: &[usize],
    digest: &mut Digest,
) -> Result<(), PacketError> {
    let mut receiver = SequencedDepacketizer::new(
        alloc,
        depacketizer_of(alloc, setting),
        RUN_LIMIT,
    );
    let mut out = Vec::new(alloc);
    let mut extra = CodecExtra::None;
    for place in order {
        if let Some(packet) = packets.get(*place) {
            let received = receiver.receive(packet.sequence, packet.payload, &mut out, &mut extra);
            add_received(digest, received);
            if packet.marker {
                digest.bytes(&out);
                out.clear();
            }
        }
    }
    Ok(())
}

impl First {
    /// That of the first round.
    pub fn new() -> Self {
        First {
            sequence: 65_000,
            timestamp: 4_294_000_000,
        }
    }

    /// That of the next round.
    pub fn next(self) -> Self {
        First {
            sequence: self.sequence.wrapping_add(7_919),
            timestamp: self.timestamp.wrapping_add(1_000_003),
        }
    }
}

/// Receives the packets of a setting in each round: each time with other numbers, and others of them
/// lost, repeated and late.
fn receive_setting(
    alloc: Global,
    rounds: u32,
    setting: Setting,
    packets: &[Packet],
    draws: &mut Draws,
    digest: &mut Digest,
) -> Result<(), PacketError> {
    let mut first = First::new();
    for round in 0..rounds {
        let sent = numbered(alloc, packets, first)?;
        let order = arrivals(alloc, draws, sent.len())?;
        let window = 64 + draws.below(961) as u16;
        match round % 4 {
            0 | 2 => receive_each(alloc, setting, window, &sent, &order, digest)?,
            1 => receive_list(alloc, setting, window, &sent, &order, digest)?,
            _ => receive_sequenced(alloc, setting, &sent, &order, digest)?,
        }
        first = first.next();
    }
    Ok(())
}

/// Receives the pictures of each setting, and small ones.
pub fn run(alloc: Global, work: Work) -> Result<Digest, PacketError> {
    let mut draws = Draws::new(work.seed);
    let mut digest = Digest::new();
    for setting in &SETTINGS {
        let stream = pictures(alloc, &mut draws, *setting, work.pictures)?;
        let packets = packets_of(alloc, *setting, &stream)?;
        receive_setting(
            alloc,
            work.rounds,
            *setting,
            &packets,
            &mut draws,
            &mut digest,
        )?;
        let count = work.pictures.saturating_mul(40);
        let stream = small_pictures(alloc, &mut draws, *setting, count)?;
        let packets = packets_of(alloc, *setting, &stream)?;
        receive_setting(
            alloc,
            work.rounds,
            *setting,
            &packets,
            &mut draws,
            &mut digest,
        )?;
    }
    Ok(digest)
}
