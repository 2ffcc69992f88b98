//! What is awkward and comes all the same: payloads of start codes or zeros alone, aggregates of
//! empty units, a stranger's short fragments, and numbers from both ends of a wide window.

use crate::Work;
use crate::digest::Digest;
use crate::record::take_list;
use crate::send::{send_buffers, send_lists};
use h26x_codec::AnyDepacketizer;
use h26x_core::{CodecExtra, PacketError};
use h26x_inputs::{Draws, SETTINGS, Setting, aggregates, awkward_payloads, fragments, stamp_end};
use h26x_receiver::SequencedDepacketizer;
use h26x_reorder::{Pushed, ReorderBuffer, RtpPacket};
use std::alloc::Global;

/// How many packets a window has, the most that it can have.
const WINDOW: u16 = 16_384;

/// Receives fragments that a stranger sends, from this number on, with a small limit on the open run.
fn receive_fragments(
    alloc: Global,
    setting: Setting,
    first: u16,
    packets: &[Vec<u8>],
    digest: &mut Digest,
) -> Result<(), PacketError> {
    let mut depacketizer = AnyDepacketizer::new(alloc, setting.codec);
    depacketizer.with_donl(setting.has_donl);
    let mut receiver = SequencedDepacketizer::new(alloc, depacketizer, 100);
    let mut out = Vec::new(alloc);
    let mut extra = CodecExtra::None;
    let mut sequence = first;
    for packet in packets {
        let received = receiver.receive(sequence, packet, &mut out, &mut extra);
        digest.number(u64::from(received.is_ok()));
        sequence = sequence.wrapping_add(1);
    }
    digest.bytes(&out);
    Ok(())
}

/// Pushes packets whose numbers come from both ends of the widest window by turns, and takes them
/// out in order.
fn from_both_ends(alloc: Global, first: u16, digest: &mut Digest) -> Result<(), PacketError> {
    let mut buffer = ReorderBuffer::new(alloc, WINDOW);
    for place in 0..WINDOW {
        let ahead = if place % 2 == 0 {
            place / 2
        } else {
            WINDOW - 1 - place / 2
        };
        let pushed = buffer.push(&RtpPacket {
            sequence: first.wrapping_add(ahead),
            timestamp: u32::from(place),
            marker: false,
            payload: &[0x41, 0x01, 0x80],
        })?;
        digest.number(match pushed {
            Pushed::Held => 0,
            Pushed::Twice => 1,
            Pushed::Late(behind) => 2 + u64::from(behind),
        });
    }
    while let Some(held) = buffer.pop_first() {
        digest.number(u64::from(held.sequence));
        digest.number(u64::from(held.timestamp));
    }
    Ok(())
}

/// Does the awkward work of a setting in each round.
fn do_setting(
    alloc: Global,
    work: Work,
    setting: Setting,
    draws: &mut Draws,
    digest: &mut Digest,
) -> Result<(), PacketError> {
    let count = work.pictures.saturating_mul(4);
    let mut empty = aggregates(alloc, draws, setting, count, 0, 2)?;
    let strange = fragments(alloc, setting, draws, work.pictures.saturating_mul(200))?;
    for round in 0..work.rounds {
        let payloads = awkward_payloads(alloc, round)?;
        send_lists(alloc, setting, &payloads, 1200, digest)?;
        send_buffers(alloc, setting, &payloads, 1201, digest)?;
        for packet in empty.iter_mut() {
            stamp_end(packet, round);
        }
        take_list(alloc, setting, &empty, digest)?;
        let first = (round & 0xffff) as u16;
        receive_fragments(alloc, setting, first, &strange, digest)?;
    }
    Ok(())
}

/// Does the awkward work of each setting, and fills a wide window from both ends.
pub fn run(alloc: Global, work: Work) -> Result<Digest, PacketError> {
    let mut draws = Draws::new(work.seed);
    let mut digest = Digest::new();
    for setting in &SETTINGS {
        do_setting(alloc, work, *setting, &mut draws, &mut digest)?;
    }
    for _ in 0..work.rounds / 8 {
        let first = draws.below(65_536) as u16;
        from_both_ends(alloc, first, &mut digest)?;
    }
    Ok(digest)
}
