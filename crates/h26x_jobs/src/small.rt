//! Screens, games and calls of low delay: payloads of fifty small units, and aggregates of eleven.

use crate::Work;
use crate::digest::Digest;
use crate::record::{take_each, take_list};
use crate::send::{send_buffers, send_lists};
use h26x_core::PacketError;
use h26x_inputs::{
    Draws, Packet, Picture, SETTINGS, Setting, aggregates, packets_of, small_payloads, stamp_all,
    stamp_end,
};
use std::alloc::Global;

/// What a setting's rounds send and take.
#[derive(Drop)]
struct Small {
    payloads: Vec<Picture>,
    packets: Vec<Packet>,
    aggregates: Vec<Vec<u8>>,
}

/// Sends the payloads, and takes the packets and the aggregates, in a round.
fn do_round(
    alloc: Global,
    setting: Setting,
    small: &mut Small,
    round: u32,
    digest: &mut Digest,
) -> Result<(), PacketError> {
    for payload in small.payloads.iter_mut() {
        payload.stamp(round);
    }
    let limit = 1_100 + (round % 301) as usize;
    if round % 2 == 0 {
        send_lists(alloc, setting, &small.payloads, limit, digest)?;
    } else {
        send_buffers(alloc, setting, &small.payloads, limit, digest)?;
    }
    stamp_all(&mut small.packets, round);
    take_each(alloc, setting, round % 4 == 3, &small.packets, digest)?;
    for aggregate in small.aggregates.iter_mut() {
        stamp_end(aggregate, round);
    }
    take_list(alloc, setting, &small.aggregates, digest)
}

/// Sends and takes the small units of each setting.
pub fn run(alloc: Global, work: Work) -> Result<Digest, PacketError> {
    let mut draws = Draws::new(work.seed);
    let mut digest = Digest::new();
    for setting in &SETTINGS {
        let payloads = small_payloads(alloc, &mut draws, *setting, work.pictures)?;
        let packets = packets_of(alloc, *setting, &payloads)?;
        let count = work.pictures.saturating_mul(5);
        let mut small = Small {
            payloads,
            packets,
            aggregates: aggregates(alloc, &mut draws, *setting, count, 20, 131)?,
        };
        for round in 0..work.rounds {
            do_round(alloc, *setting, &mut small, round, &mut digest)?;
        }
    }
    Ok(digest)
}
