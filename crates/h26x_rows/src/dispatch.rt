//! Packetizers and depacketizers chosen while the program runs, one in a box among them.
//!
//! They are locals of one function each: what lends or returns one of these enums to a function of
//! another crate may, for all that the checker knows, put another object into its box.

use crate::row::{Row, Words, bytes, bytes_of, number, rows_of, word};
use crate::said::Said;
use crate::sending::{How, Sending, size};
use crate::settings::Settings;
use crate::tally::Tally;
use anyhow::{Context, Result, bail};
use h26x_codec::{Codec, PacketBuffer};
use h26x_core::{CodecExtra, Depacketizer, PacketError, Packetizer};
use h26x_lines::plain::{PlainDepacketizer, PlainPacketizer};
use h26x_transmission::{CodecDepacketizer, CodecPacketizer};
use std::alloc::Global;
use std::mem;

/// Where packets go: to a list each time, or to one buffer, each behind so many bytes.
#[derive(Clone, Copy)]
pub enum Way {
    List,
    Buffer(usize),
}

impl Way {
    fn headroom(self) -> usize {
        match self {
            Way::List => 0,
            Way::Buffer(headroom) => headroom,
        }
    }
}

/// A call of a packetizer.
#[derive(Drop)]
enum Call {
    /// Sends bytes.
    Send(Sending),
    /// Makes another.
    Make(Settings),
    /// Goes on with a copy.
    Copy,
    /// Goes on with the one before.
    Other,
    /// Sets the largest packet size.
    Size(u16),
    /// Sets it to what a session description says of numbers.
    Configure(Option<u32>),
    /// Whether a packet bears the marker, behind another or none.
    Marker(Vec<u8>, Option<Vec<u8>>, bool),
    /// Whether lost packets may be asked for.
    Nackable,
    /// Whether the marker begins a talkspurt.
    Talkspurt,
}

/// The call of a row.
fn call_of(alloc: Global, row: &Row<'_>) -> Result<Call> {
    let (name, mut words) = row.words();
    if let Some(it) = Sending::read(alloc, name, &mut words)? {
        return Ok(Call::Send(it));
    }
    Ok(match name {
        "packetizer" => Call::Make(Settings::read(alloc, &mut words)?),
        "copy" => Call::Copy,
        "other" => Call::Other,
        "size" => Call::Size(size(&mut words)?),
        "configure" => Call::Configure(distance(&mut words)?),
        "marker" => {
            let packet = bytes(alloc, &mut words)?;
            let previous = match word(&mut words)? {
                "-" => None,
                word => Some(bytes_of(alloc, word)?),
            };
            Call::Marker(packet, previous, word(&mut words)? == "last")
        }
        "nackable" => Call::Nackable,
        "talkspurt" => Call::Talkspurt,
        _ => bail!("no call {name}"),
    })
}

/// Walks rows of a packetizer.
pub fn walk_sending<R: Print + AllocGlobal>(rt: &R, text: &str, way: Way) -> Result<Tally> {
    let alloc = rt.alloc();
    let mut packetizer = CodecPacketizer::new(alloc, Codec::H264);
    let mut other = CodecPacketizer::new(alloc, Codec::H264);
    let mut buffer = PacketBuffer::new(alloc, way.headroom());
    let (mut said, mut tally) = (Said::new(alloc), Tally::new());
    for row in &rows_of(alloc, text)? {
        said.clear();
        match call_of(alloc, row)? {
            Call::Send(it) => {
                // (once more, where memory lacks for one)
                let mut left = it.times;
                for _ in 0..it.times.saturating_add(1) {
                    if left == 0 {
                        break;
                    }
                    let before = buffer.len();
                    let sent = match (way, it.how) {
                        (Way::List, How::Payload) => packetizer.packetize(it.limit, &it.bytes),
                        (Way::List, How::Unit) => packetizer.packetize_unit(it.limit, &it.bytes),
                        (Way::Buffer(_), how) => {
                            let (limit, bytes, into) = (it.limit, &it.bytes, &mut buffer);
                            let sent = match how {
                                How::Payload => packetizer.packetize_into(limit, bytes, into),
                                How::Unit => packetizer.packetize_unit_into(limit, bytes, into),
                            };
                            appended(alloc, sent, &buffer, before)?
                        }
                    };
                    left = it.say_sent(&mut said, sent, left)?;
                }
            }
            Call::Make(settings) => {
                packetizer = match settings.codec {
                    Some(codec) => CodecPacketizer::new(alloc, codec),
                    None => {
                        let plain = PlainPacketizer::new(alloc);
                        CodecPacketizer::Boxed(Box::new(alloc, plain)?)
                    }
                };
                set_numbers(&mut packetizer, settings.has_donl);
                buffer.clear();
            }
            Call::Copy => {
                other = copy_of(&mut said, &packetizer)?;
                mem::swap(&mut packetizer, &mut other);
            }
            Call::Other => mem::swap(&mut packetizer, &mut other),
            Call::Size(size) if size >= 4 => packetizer.with_max_packet_size(size),
            Call::Size(_) => {}
            Call::Configure(distance) => packetizer.configure_for(distance),
            Call::Marker(packet, previous, is_last) => {
                let previous = previous.as_ref().map(|packet| packet.as_slice());
                said.fact(packetizer.is_marker(&packet, previous, is_last))?;
            }
            Call::Nackable => said.fact(packetizer.nackable())?,
            Call::Talkspurt => said.fact(packetizer.marks_talkspurt())?,
        }
        tally.count(rt, row, &said)?;
    }
    Ok(tally)
}

/// The packets that were appended to a buffer, or why they are refused.
fn appended(
    alloc: Global,
    sent: Result<(), PacketError>,
    buffer: &PacketBuffer,
    before: usize,
) -> Result<Result<Vec<Vec<u8>>, PacketError>> {
    if let Err(error) = sent {
        return Ok(Err(error));
    }
    let mut packets = Vec::new(alloc);
    for packet in buffer.iter().skip(before) {
        packets.push(packet.to_vec(alloc)?)?;
    }
    Ok(Ok(packets))
}

/// What a session description says of numbers: nothing, or a distance.
fn distance(words: &mut Words<'_>) -> Result<Option<u32>> {
    match word(words)? {
        "none" => Ok(None),
        word => Ok(Some(word.parse::<u32>().context("no distance")?)),
    }
}

/// Turns numbers of a codec that has them on or off.
pub fn set_numbers(packetizer: &mut CodecPacketizer, has_donl: bool) {
    match packetizer {
        CodecPacketizer::H265(it) => it.with_donl(has_donl),
        CodecPacketizer::H266(it) => it.with_donl(has_donl),
        CodecPacketizer::H264(_) | CodecPacketizer::Boxed(_) => {}
    }
}

/// A copy of a packetizer of a codec.
fn copy_of(said: &mut Said, it: &CodecPacketizer) -> Result<CodecPacketizer> {
    let copy = try_copy(it);
    let copy = if said.lacks(&copy) {
        try_copy(it)
    } else {
        copy
    };
    said.got(copy)?.context("one in a box is not copied")
}

fn try_copy(it: &CodecPacketizer) -> Result<Option<CodecPacketizer>, PacketError> {
    Ok(match it {
        CodecPacketizer::H264(it) => Some(CodecPacketizer::H264(it.clone()?)),
        CodecPacketizer::H265(it) => Some(CodecPacketizer::H265(it.clone()?)),
        CodecPacketizer::H266(it) => Some(CodecPacketizer::H266(it.clone()?)),
        CodecPacketizer::Boxed(_) => None,
    })
}

/// Walks rows of a depacketizer.
pub fn walk_receiving<R: Print + AllocGlobal>(rt: &R, text: &str) -> Result<Tally> {
    let alloc = rt.alloc();
    let mut depacketizer = CodecDepacketizer::new(alloc, Codec::H264);
    let mut codec = Some(Codec::H264);
    let mut said = Said::new(alloc);
    let mut tally = Tally::new();
    for row in &rows_of(alloc, text)? {
        said.clear();
        let (name, mut words) = row.words();
        match name {
            "depacketizer" => {
                let settings = Settings::read(alloc, &mut words)?;
                codec = settings.codec;
                depacketizer = match codec {
                    Some(codec) => CodecDepacketizer::new(alloc, codec),
                    None => {
                        let plain = PlainDepacketizer::new(alloc);
                        CodecDepacketizer::Boxed(Box::new(alloc, plain)?)
                    }
                };
                set_up(&mut depacketizer, settings);
            }
            "packet" => {
                let packet = bytes(alloc, &mut words)?;
                let (mut out, mut extra) = (Vec::new(alloc), CodecExtra::None);
                let mut taken = depacketizer.depacketize(&packet, &mut out, &mut extra);
                if said.lacks(&taken) {
                    taken = depacketizer.depacketize(&packet, &mut out, &mut extra);
                }
                said.outcome(&taken)?;
                said.bytes(&out)?;
                said.told(codec, extra)?;
            }
            "give-up" => depacketizer.give_up_run(),
            "units" => say_units(alloc, &mut said, &depacketizer)?,
            "head" => said.fact(depacketizer.is_partition_head(&bytes(alloc, &mut words)?))?,
            "tail" => said.fact(depacketizer.is_partition_tail(false, &bytes(alloc, &mut words)?))?,
            "marked-tail" => said.fact(depacketizer.is_partition_tail(
                true,
                &bytes(alloc, &mut words)?,
            ))?,
            "hint" => said.number(depacketizer.out_size_hint(number(&mut words)?))?,
            _ => bail!("no call {name}"),
        }
        tally.count(rt, row, &said)?;
    }
    Ok(tally)
}

/// Gives a depacketizer of a codec what settings say.
pub fn set_up(depacketizer: &mut CodecDepacketizer, settings: Settings) {
    match depacketizer {
        CodecDepacketizer::H264(it) => it.is_avc = settings.is_avc,
        CodecDepacketizer::H265(it) => it.with_donl(settings.has_donl),
        CodecDepacketizer::H266(it) => it.with_donl(settings.has_donl),
        CodecDepacketizer::Boxed(_) => {}
    }
}

/// The units of the aggregate that one of H.265 shows.
fn say_units(alloc: Global, said: &mut Said, it: &CodecDepacketizer) -> Result<()> {
    match it {
        CodecDepacketizer::H265(it) => crate::shown::say_units(alloc, said, it.payload()),
        _ => bail!("nothing is shown"),
    }
}
