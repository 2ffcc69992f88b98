//! A packetizer, whose packets go to a list or to memory of the caller.

use crate::row::{Words, bytes, number};
use crate::said::Said;
use crate::settings::Settings;
use crate::tally::Answers;
use anyhow::{Context, Result, bail, ensure};
use h26x_codec::{AnyPacketizer, Codec};
use h26x_core::{PacketError, Packetizer};
use h26x_packetizer::{PacketsSize, Placement};
use std::alloc::Global;
use std::mem;

/// How bytes are sent: as a payload, in which units are searched, or as one unit as it is.
#[derive(Clone, Copy)]
pub enum How {
    Payload,
    Unit,
}

/// What is sent, within which limit, and how often.
#[derive(Drop)]
pub struct Sending {
    pub how: How,
    pub limit: usize,
    pub bytes: Vec<u8>,
    pub times: usize,
    /// Whether the packets are counted, and not said.
    pub is_counted: bool,
}

impl Sending {
    /// What a call of this name sends, if it is one that sends.
    pub fn read(alloc: Global, name: &str, words: &mut Words<'_>) -> Result<Option<Sending>> {
        let (how, is_counted) = match name {
            "pack" | "repeat" => (How::Payload, false),
            "count" => (How::Payload, true),
            "unit" => (How::Unit, false),
            _ => return Ok(None),
        };
        let times = if name == "repeat" { number(words)? } else { 1 };
        Ok(Some(Sending {
            how,
            limit: number(words)?,
            bytes: bytes(alloc, words)?,
            times,
            is_counted,
        }))
    }

    /// Says the packets of the last of so many times that are left, or why it is refused, and how many
    /// are left then; where memory lacks the call is to be made again.
    pub fn say_sent(
        &self,
        said: &mut Said,
        sent: Result<Vec<Vec<u8>>, PacketError>,
        left: usize,
    ) -> Result<usize> {
        if said.lacks(&sent) {
            return Ok(left);
        }
        match sent {
            Ok(packets) if left == 1 => self.say(said, &packets)?,
            Ok(_) => return Ok(left.saturating_sub(1)),
            Err(error) => said.refused(error)?,
        }
        Ok(0)
    }

    /// Says packets, or how many there are, where none is longer than the limit.
    pub fn say(&self, said: &mut Said, packets: &[Vec<u8>]) -> Result<()> {
        if !self.is_counted {
            return said.packets(packets);
        }
        for packet in packets {
            ensure!(packet.len() <= self.limit, "a packet over the limit");
        }
        said.value(&packets.len())
    }
}

/// Where packets go.
#[derive(Clone, Copy)]
pub enum Way {
    /// To a list each time.
    List,
    /// To memory of the caller, each behind so many bytes.
    Memory(usize),
}

/// A packetizer, and the one that it was copied from.
#[derive(Drop)]
pub struct Sender {
    packetizer: AnyPacketizer,
    other: AnyPacketizer,
    way: Way,
}

impl Sender {
    pub fn new(alloc: Global, way: Way) -> Self {
        Sender {
            packetizer: AnyPacketizer::new(alloc, Codec::H264, false),
            other: AnyPacketizer::new(alloc, Codec::H264, false),
            way,
        }
    }

    /// The packets of what is sent once.
    fn send(&mut self, alloc: Global, said: &mut Said, it: &Sending) -> Result<Vec<Vec<u8>>> {
        match self.way {
            Way::Memory(headroom) => place(alloc, said, &mut self.packetizer, it, headroom),
            Way::List => {
                let listed = list(&mut self.packetizer, it);
                let listed = if said.lacks(&listed) {
                    list(&mut self.packetizer, it)
                } else {
                    listed
                };
                said.got(listed)
            }
        }
    }

    /// Goes on with a copy.
    fn copy(&mut self, said: &mut Said) -> Result<()> {
        let copy = self.packetizer.clone();
        let copy = if said.lacks(&copy) {
            self.packetizer.clone()
        } else {
            copy
        };
        self.other = mem::replace(&mut self.packetizer, said.got(copy)?);
        Ok(())
    }
}

impl Answers for Sender {
    fn answer(
        &mut self,
        alloc: Global,
        name: &str,
        words: &mut Words<'_>,
        said: &mut Said,
    ) -> Result<()> {
        if let Some(it) = Sending::read(alloc, name, words)? {
            let mut packets = Vec::new(alloc);
            for _ in 0..it.times {
                packets = self.send(alloc, said, &it)?;
            }
            return it.say(said, &packets);
        }
        match name {
            "packetizer" => self.packetizer = Settings::read(alloc, words)?.packetizer(alloc),
            "copy" => self.copy(said)?,
            "other" => mem::swap(&mut self.packetizer, &mut self.other),
            "size" => set_size(&mut self.packetizer, words)?,
            _ => bail!("no call {name}"),
        }
        Ok(())
    }
}

/// The largest packet size that the next word says, 4 or more.
pub fn size(words: &mut Words<'_>) -> Result<u16> {
    let size = u16::try_from(number(words)?).ok().filter(|size| *size >= 4);
    size.context("no size of a packet")
}

fn set_size(packetizer: &mut AnyPacketizer, words: &mut Words<'_>) -> Result<()> {
    let size = size(words)?;
    if size >= 4 {
        packetizer.with_max_packet_size(size);
    }
    Ok(())
}

/// The packets of what is sent, in a list.
fn list(packetizer: &mut AnyPacketizer, it: &Sending) -> Result<Vec<Vec<u8>>, PacketError> {
    match (it.how, packetizer) {
        (How::Payload, AnyPacketizer::H264(to)) => to.packetize(it.limit, &it.bytes),
        (How::Payload, AnyPacketizer::H265(to)) => to.packetize(it.limit, &it.bytes),
        (How::Payload, AnyPacketizer::H266(to)) => to.packetize(it.limit, &it.bytes),
        (How::Unit, AnyPacketizer::H264(to)) => to.packetize_unit(it.limit, &it.bytes),
        (How::Unit, AnyPacketizer::H265(to)) => to.packetize_unit(it.limit, &it.bytes),
        (How::Unit, AnyPacketizer::H266(to)) => to.packetize_unit(it.limit, &it.bytes),
    }
}

/// Copies the packets of what is sent to memory of the caller, if they fit.
fn place_in(
    packetizer: &mut AnyPacketizer,
    it: &Sending,
    headroom: usize,
    to: &mut [u8],
    ends: &mut [usize],
) -> Result<Placement, PacketError> {
    match it.how {
        How::Payload => packetizer.packetize_to_memory(it.limit, &it.bytes, headroom, to, ends),
        How::Unit => packetizer.packetize_unit_to_memory(it.limit, &it.bytes, headroom, to, ends),
    }
}

/// The same, and once more where memory lacks for it.
fn place_again(
    said: &mut Said,
    packetizer: &mut AnyPacketizer,
    it: &Sending,
    headroom: usize,
    to: &mut [u8],
    ends: &mut [usize],
) -> Result<Placement> {
    let placed = place_in(packetizer, it, headroom, to, ends);
    let placed = if said.lacks(&placed) {
        place_in(packetizer, it, headroom, to, ends)
    } else {
        placed
    };
    said.got(placed)
}

/// What stands in memory before packets go there, and in what they leave.
const FILL: u8 = 0xee;

/// Whether the packets of a payload are told to have this size; of a unit none is told.
fn is_size_of(
    said: &mut Said,
    packetizer: &AnyPacketizer,
    it: &Sending,
    headroom: usize,
    size: PacketsSize,
) -> Result<bool> {
    if matches!(it.how, How::Unit) {
        return Ok(true);
    }
    let told = packetizer.packets_size(it.limit, &it.bytes, headroom);
    let told = if said.lacks(&told) {
        packetizer.packets_size(it.limit, &it.bytes, headroom)
    } else {
        told
    };
    Ok(said.got(told)? == size)
}

/// The packets of what is sent, in memory that just holds them; in what is one byte short, or has
/// room for one end fewer, nothing is put.
fn place(
    alloc: Global,
    said: &mut Said,
    packetizer: &mut AnyPacketizer,
    it: &Sending,
    headroom: usize,
) -> Result<Vec<Vec<u8>>> {
    let size = match place_again(said, packetizer, it, headroom, &mut [], &mut [])? {
        Placement::Placed(size) | Placement::NoRoom(size) => size,
    };
    ensure!(
        is_size_of(said, packetizer, it, headroom, size)?,
        "another size is told"
    );
    if size.packets == 0 {
        return Ok(Vec::new(alloc));
    }
    let mut to = vec![in alloc; FILL; size.bytes]?;
    let mut ends = vec![in alloc; 0; size.packets]?;
    let (short, few) = (to.len().saturating_sub(1), ends.len().saturating_sub(1));
    let without_byte = place_again(said, packetizer, it, headroom, &mut to[..short], &mut ends)?;
    let without_end = place_again(said, packetizer, it, headroom, &mut to, &mut ends[..few])?;
    let wanted = (Placement::NoRoom(size), Placement::NoRoom(size));
    ensure!(
        (without_byte, without_end) == wanted,
        "room for what doesn't fit"
    );
    ensure!(to.iter().all(|byte| *byte == FILL), "packets without room");
    let placed = place_again(said, packetizer, it, headroom, &mut to, &mut ends)?;
    ensure!(placed == Placement::Placed(size), "no room for what fits");
    packets_in(alloc, &to, &ends, headroom, size)
}

/// The packets that lie in memory, each behind what it left free.
fn packets_in(
    alloc: Global,
    to: &[u8],
    ends: &[usize],
    headroom: usize,
    size: PacketsSize,
) -> Result<Vec<Vec<u8>>> {
    let mut packets = Vec::with_capacity(alloc, size.packets)?;
    let mut rest = to;
    let mut start = 0usize;
    for end in ends {
        let len = end.checked_sub(start).context("an end before a start")?;
        let (behind_last, further) = rest.split_at_checked(len).context("a packet outside")?;
        let (free, packet) = behind_last
            .split_at_checked(headroom)
            .context("no headroom")?;
        ensure!(
            free.iter().all(|byte| *byte == FILL),
            "headroom that was written"
        );
        packets.push(packet.to_vec(alloc)?)?;
        rest = further;
        start = *end;
    }
    ensure!(rest.is_empty(), "bytes behind the packets");
    Ok(packets)
}
