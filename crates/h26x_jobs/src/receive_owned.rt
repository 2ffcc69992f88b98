//! A player or a gateway receives over a lossy network packets in memory of their own, which comes
//! back for the next ones, and gives back the memory of access units; nothing is shown of H.265.

ghost use Rattle.std.specs.Prelude.{◌^◌, ◌<◌, ◌≤◌};

use crate::Work;
use crate::digest::Digest;
use crate::receive::{First, RUN_LIMIT, UNIT_LIMIT, add_received, numbered};
use h26x_assembler::{AccessUnit, AccessUnitAssembler};
use h26x_codec::Codec;
use h26x_core::PacketError;
use h26x_depacketizer::{PayloadDepacketizer, RunDepacketizer};
use h26x_inputs::{
    Draws, Packet, SETTINGS, Setting, arrivals, packets_of, pictures, small_pictures,
};
use h26x_receiver::SequencedDepacketizer;
use h26x_reorder::{HeldPacket, NotHeld, NotHeldReason, ReorderBuffer, RtpPacket};
use h264_payload::H264;
use h265_payload::H265;
use h266_payload::H266;
use std::alloc::Global;

/// A packet as it arrives, in memory that came back from an earlier one.
#[inline]
fn arrived(
    alloc: Global,
    memories: &mut Vec<Vec<u8>>,
    packet: &RtpPacket<'_>,
) -> Result<HeldPacket, PacketError> {
    let mut memory = match memories.pop() {
        Some(memory) => memory,
        None => Vec::new(alloc),
    };
    memory.clear();
    memory.extend_from_slice(packet.payload)?;
    let (sequence, timestamp, marker) = (packet.sequence, packet.timestamp, packet.marker);
    Ok(HeldPacket::new(sequence, timestamp, marker, memory))
}

/// Adds why a packet isn't held.
#[inline]
fn add_not_held(digest: &mut Digest, not_held: &NotHeld) {
    digest.number(match not_held.reason {
        NotHeldReason::Late(behind) => 0x4_0000 + u64::from(behind),
        NotHeldReason::Twice => 3,
        NotHeldReason::OutOfMemory => 4,
    });
}

/// Adds access units, and gives their memory back.
#[inline]
fn give_back<D: RunDepacketizer>(
    digest: &mut Digest,
    receiver: &mut AccessUnitAssembler<D>,
    units: &mut Vec<AccessUnit>,
) {
    for unit in units.drain(..) {
        digest.number(u64::from(unit.timestamp));
        digest.number(u64::from(unit.is_whole));
        digest.bytes(&unit.bytes);
        receiver.give_back(unit);
    }
}

/// Receives packets as they come, one by one, through a buffer.
#[inline]
fn receive_through<D: RunDepacketizer>(
    alloc: Global,
    buffer: &mut ReorderBuffer,
    receiver: &mut AccessUnitAssembler<D>,
    packets: &[RtpPacket<'_>],
    order: &[usize],
    memories: &mut Vec<Vec<u8>>,
    digest: &mut Digest,
) -> Result<(), PacketError> {
    let mut units = Vec::new(alloc);
    for place in order {
        if let Some(packet) = packets.get(*place) {
            let packet = arrived(alloc, memories, packet)?;
            if let Err(not_held) = buffer.push_held(packet) {
                add_not_held(digest, &not_held);
                memories.push(not_held.packet.into_payload())?;
            }
            while let Some(held) = buffer.pop() {
                add_received(digest, receiver.receive(&held.packet(), &mut units));
                memories.push(held.into_payload())?;
            }
            give_back(digest, receiver, &mut units);
        }
    }
    while let Some(held) = buffer.pop_first() {
        add_received(digest, receiver.receive(&held.packet(), &mut units));
        memories.push(held.into_payload())?;
    }
    receiver.finish(&mut units)?;
    give_back(digest, receiver, &mut units);
    Ok(())
}

/// So does a receiver of its own, through a buffer with a window.
fn receive_each<D: RunDepacketizer>(
    alloc: Global,
    depacketizer: D,
    window: u16,
    packets: &[RtpPacket<'_>],
    order: &[usize],
    memories: &mut Vec<Vec<u8>>,
    digest: &mut Digest,
) -> Result<(), PacketError>
    requires some { 0 < window }
    requires half { window ≤ 2 ^ 14 }
{
    let sequenced = SequencedDepacketizer::new(alloc, depacketizer, RUN_LIMIT);
    let mut receiver = AccessUnitAssembler::new(alloc, sequenced, UNIT_LIMIT);
    let mut buffer = ReorderBuffer::new(alloc, window);
    receive_through(
        alloc,
        &mut buffer,
        &mut receiver,
        packets,
        order,
        memories,
        digest,
    )
}

/// Receives the packets of a setting, by its codec.
fn receive_by_codec(
    alloc: Global,
    setting: Setting,
    window: u16,
    packets: &[RtpPacket<'_>],
    order: &[usize],
    memories: &mut Vec<Vec<u8>>,
    digest: &mut Digest,
) -> Result<(), PacketError>
    requires some { 0 < window }
    requires half { window ≤ 2 ^ 14 }
{
    match setting.codec {
        Codec::H264 => {
            let depacketizer = PayloadDepacketizer::<H264>::new(alloc);
            receive_each(
                alloc,
                depacketizer,
                window,
                packets,
                order,
                memories,
                digest,
            )
        }
        Codec::H265 => {
            let mut depacketizer = PayloadDepacketizer::<H265>::new(alloc);
            depacketizer.with_donl(setting.has_donl);
            receive_each(
                alloc,
                depacketizer,
                window,
                packets,
                order,
                memories,
                digest,
            )
        }
        Codec::H266 => {
            let mut depacketizer = PayloadDepacketizer::<H266>::new(alloc);
            depacketizer.with_donl(setting.has_donl);
            receive_each(
                alloc,
                depacketizer,
                window,
                packets,
                order,
                memories,
                digest,
            )
        }
    }
}

/// Receives the packets of a setting in each round: each time with other numbers, and others of them
/// lost, repeated and late.
fn receive_setting(
    alloc: Global,
    rounds: u32,
    setting: Setting,
    packets: &[Packet],
    draws: &mut Draws,
    digest: &mut Digest,
) -> Result<(), PacketError> {
    let mut first = First::new();
    let mut memories = Vec::new(alloc);
    for _ in 0..rounds {
        let sent = numbered(alloc, packets, first)?;
        let order = arrivals(alloc, draws, sent.len())?;
        let window = 64 + draws.below(961) as u16;
        receive_by_codec(alloc, setting, window, &sent, &order, &mut memories, digest)?;
        first = first.next();
    }
    Ok(())
}

/// Receives the pictures of each setting, and small ones.
pub fn run(alloc: Global, work: Work) -> Result<Digest, PacketError> {
    let mut draws = Draws::new(work.seed);
    let mut digest = Digest::new();
    for setting in &SETTINGS {
        let stream = pictures(alloc, &mut draws, *setting, work.pictures)?;
        let packets = packets_of(alloc, *setting, &stream)?;
        receive_setting(
            alloc,
            work.rounds,
            *setting,
            &packets,
            &mut draws,
            &mut digest,
        )?;
        let count = work.pictures.saturating_mul(40);
        let stream = small_pictures(alloc, &mut draws, *setting, count)?;
        let packets = packets_of(alloc, *setting, &stream)?;
        receive_setting(
            alloc,
            work.rounds,
            *setting,
            &packets,
            &mut draws,
            &mut digest,
        )?;
    }
    Ok(digest)
}
