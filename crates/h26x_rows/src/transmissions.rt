//! Payloads through both endpoints, lists of packets, and what is sent again.

use crate::dispatch::{set_numbers, set_up};
use crate::row::{Words, bytes_of, number, word};
use crate::said::Said;
use crate::sending::size;
use crate::settings::Settings;
use crate::tally::Answers;
use anyhow::{Context, Result, bail};
use h26x_core::{CodecExtra, PacketError};
use h26x_lines::plain::{PlainDepacketizer, PlainPacketizer};
use h26x_transmission::{
    Carried, CodecDepacketizer, CodecPacketizer, Repeated, again, carry, take_all,
};
use std::alloc::Global;

/// Each row is of fresh endpoints.
#[derive(Drop)]
pub struct Transmissions;

impl Answers for Transmissions {
    fn answer(
        &mut self,
        alloc: Global,
        name: &str,
        words: &mut Words<'_>,
        said: &mut Said,
    ) -> Result<()> {
        match name {
            "carry" => carry_calls(alloc, words, said),
            "take-all" => take_packets(alloc, words, said),
            "again" => send_again(alloc, words, said),
            _ => bail!("no call {name}"),
        }
    }
}

/// The settings of both ends, and calls, each a limit and a payload behind a colon.
fn calls_of(alloc: Global, words: &mut Words<'_>) -> Result<(Settings, Vec<(usize, Vec<u8>)>)> {
    let mut settings = Settings::of_codec(word(words)?)?;
    let mut calls = Vec::new(alloc);
    for word in words {
        if settings.takes(word) {
            continue;
        }
        let (limit, payload) = word.split_once(':').context("a call has a limit")?;
        let limit = limit.parse::<usize>().context("no limit")?;
        calls.push((limit, bytes_of(alloc, payload)?))?;
    }
    Ok((settings, calls))
}

/// Says the packets, which calls were made, what was written and what is told; of a refusal its name
/// in the place of packets and calls.
fn carry_calls(alloc: Global, words: &mut Words<'_>, said: &mut Said) -> Result<()> {
    let (settings, calls) = calls_of(alloc, words)?;
    let mut packetizer = match settings.codec {
        Some(codec) => CodecPacketizer::new(alloc, codec),
        None => CodecPacketizer::Boxed(Box::new(alloc, PlainPacketizer::new(alloc))?),
    };
    set_numbers(&mut packetizer, settings.has_donl);
    let mut depacketizer = match settings.codec {
        Some(codec) => CodecDepacketizer::new(alloc, codec),
        None => CodecDepacketizer::Boxed(Box::new(alloc, PlainDepacketizer::new(alloc))?),
    };
    set_up(&mut depacketizer, settings);
    let (mut out, mut extra) = (Vec::new(alloc), CodecExtra::None);
    let carried = carry(
        alloc,
        &mut packetizer,
        &mut depacketizer,
        &calls,
        &mut out,
        &mut extra,
    );
    say_carried(said, &carried)?;
    said.word("out")?;
    said.bytes(&out)?;
    said.told(settings.codec, extra)
}

fn say_carried(said: &mut Said, carried: &Result<Carried, PacketError>) -> Result<()> {
    let carried = match carried {
        Ok(carried) => carried,
        Err(error) => return said.refused(*error),
    };
    said.packets(carried.packets.as_slice())?;
    said.word("made")?;
    for is_made in carried.made.as_slice() {
        said.fact(*is_made)?;
    }
    Ok(())
}

/// Says what becomes of each packet, what was written and what is told.
fn take_packets(alloc: Global, words: &mut Words<'_>, said: &mut Said) -> Result<()> {
    let (settings, packets) = Settings::with_packets(alloc, words)?;
    let mut depacketizer = match settings.codec {
        Some(codec) => CodecDepacketizer::new(alloc, codec),
        None => CodecDepacketizer::Boxed(Box::new(alloc, PlainDepacketizer::new(alloc))?),
    };
    set_up(&mut depacketizer, settings);
    let (mut out, mut extra) = (Vec::new(alloc), CodecExtra::None);
    let mut outcomes = take_all(alloc, &mut depacketizer, &packets, &mut out, &mut extra);
    if said.lacks(&outcomes) {
        outcomes = take_all(alloc, &mut depacketizer, &packets, &mut out, &mut extra);
    }
    for outcome in &said.got(outcomes)? {
        said.outcome(outcome)?;
    }
    said.word("out")?;
    said.bytes(&out)?;
    said.told(settings.codec, extra)
}

/// Says the packets of payloads, what is written of these, and the packets of that.
fn send_again(alloc: Global, words: &mut Words<'_>, said: &mut Said) -> Result<()> {
    let (largest, limit) = (size(words)?, number(words)?);
    let (settings, payloads) = Settings::with_packets(alloc, words)?;
    let codec = settings.codec.context("no codec")?;
    if largest < 4 {
        bail!("no size of a packet");
    }
    let donl = settings.has_donl;
    let mut repeated = again(alloc, codec, donl, largest, limit, &payloads);
    if said.lacks(&repeated) {
        repeated = again(alloc, codec, donl, largest, limit, &payloads);
    }
    match repeated {
        Ok(repeated) => say_repeated(said, &repeated),
        Err(error) => said.refused(error),
    }
}

fn say_repeated(said: &mut Said, repeated: &Repeated) -> Result<()> {
    said.packets(repeated.first.as_slice())?;
    said.word("written")?;
    said.bytes(&repeated.written)?;
    said.word("second")?;
    said.packets(repeated.second.as_slice())
}
