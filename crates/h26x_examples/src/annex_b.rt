//! A stream of Annex B, sent and received again unit by unit.

ghost use Rattle.std.specs.Prelude.{◌≡◌, ◌≢◌, Ok, Err};

use h26x_codec::Codec;
use h26x_core::{CodecExtra, Depacketizer, PacketError, Packetizer};
use h26x_cut::{ZeroRule, units};
use h26x_transmission::{CodecDepacketizer, CodecPacketizer};
use std::alloc::Global;
use std::fs;
use std::io::{self, Read};
use std::rt::Files;

/// The longest packet, in bytes.
const LIMIT: usize = 1200;

/// What a stream had, and what became of it.
#[derive(Debug, Clone, Copy, Default, PartialEq, Eq)]
pub struct Counts {
    /// The units of the stream.
    pub units: usize,
    /// The packets that they were sent in.
    pub packets: usize,
    /// The bytes of these packets.
    pub bytes: usize,
    /// The units of keyframes that were received.
    pub key_units: usize,
    /// The packets that the depacketizer refused.
    pub refused: usize,
}

impl Counts {
    /// Counts a packet that was sent.
    fn add_packet(&mut self, packet: &[u8]) {
        self.packets = self.packets.saturating_add(1);
        self.bytes = self.bytes.saturating_add(packet.len());
    }

    /// Counts what came of a packet. Want of memory ends the counting; any other refusal is one of
    /// this packet alone, and the depacketizer goes on behind it.
    fn add_outcome(
        &mut self,
        outcome: Result<(), PacketError>,
        extra: CodecExtra,
    ) -> Result<(), PacketError>
        ensures memory { outcome ≡ Err PacketError.OutOfMemory →
            (result ≡ Err PacketError.OutOfMemory) × (self.new ≡ self.old) }
        ensures goes_on { outcome ≢ Err PacketError.OutOfMemory → result ≡ Ok tt }
        ensures sent { (self.new.units ≡ self.old.units) × (self.new.packets ≡ self.old.packets)
            × (self.new.bytes ≡ self.old.bytes) }
    {
        match outcome {
            Ok(()) if is_key(extra) => self.key_units = self.key_units.saturating_add(1),
            Ok(()) => {}
            Err(PacketError::OutOfMemory) => return Err(PacketError::OutOfMemory),
            Err(_) => self.refused = self.refused.saturating_add(1),
        }
        Ok(())
    }
}

/// Whether a unit of a keyframe was told of.
fn is_key(extra: CodecExtra) -> bool {
    match extra {
        CodecExtra::None => false,
        CodecExtra::H264(told) => told.is_keyframe,
        CodecExtra::H265(told) => told.is_keyframe,
        CodecExtra::H266(told) => told.is_keyframe,
    }
}

/// Sends each unit of a stream, and receives its packets again.
pub fn count(alloc: Global, codec: Codec, stream: &[u8]) -> Result<Counts, PacketError> {
    let mut packetizer = CodecPacketizer::new(alloc, codec);
    let mut depacketizer = CodecDepacketizer::new(alloc, codec);
    let mut out = Vec::new(alloc);
    send(
        &mut packetizer,
        &mut depacketizer,
        &mut out,
        stream,
        codec.zero_rule(),
    )
}

/// Sends each unit of a stream from this packetizer to this depacketizer.
fn send<P: Packetizer, D: Depacketizer>(
    packetizer: &mut P,
    depacketizer: &mut D,
    out: &mut Vec<u8>,
    stream: &[u8],
    rule: ZeroRule,
) -> Result<Counts, PacketError> {
    let mut counts = Counts::default();
    for unit in units(stream, rule) {
        counts.units = counts.units.saturating_add(1);
        send_unit(packetizer, depacketizer, out, unit, &mut counts)?;
    }
    Ok(counts)
}

/// Sends a unit, and receives its packets.
fn send_unit<P: Packetizer, D: Depacketizer>(
    packetizer: &mut P,
    depacketizer: &mut D,
    out: &mut Vec<u8>,
    unit: &[u8],
    counts: &mut Counts,
) -> Result<(), PacketError> {
    let packets = packetizer.packetize(LIMIT, unit)?;
    receive(depacketizer, &packets, out, counts)
}

/// Receives the packets of a unit. What is written for each goes to `out`, in the place of what
/// stands there.
fn receive<D: Depacketizer>(
    depacketizer: &mut D,
    packets: &[Vec<u8>],
    out: &mut Vec<u8>,
    counts: &mut Counts,
) -> Result<(), PacketError> {
    for packet in packets {
        counts.add_packet(packet);
        out.clear();
        let mut extra = CodecExtra::None;
        let outcome = depacketizer.depacketize(packet, out, &mut extra);
        counts.add_outcome(outcome, extra)?;
    }
    Ok(())
}

/// The bytes of the file of this name, or of standard input where there is no name.
pub fn read_stream<R: Files + Input + AllocGlobal>(
    rt: &R,
    name: Option<String>,
) -> io::Result<Vec<u8>> {
    match name {
        Some(name) => fs::read(rt, name.as_str()),
        None => {
            let mut stream = Vec::new(rt.alloc());
            rt.reader().read_to_end(&mut stream)?;
            Ok(stream)
        }
    }
}

/// Prints what a stream had.
pub fn print(rt: &impl Print, counts: &Counts) -> io::Result<()> {
    println!(rt; "units {}", counts.units)?;
    println!(rt; "packets {}", counts.packets)?;
    println!(rt; "bytes {}", counts.bytes)?;
    println!(rt; "units of keyframes {}", counts.key_units)?;
    println!(rt; "refused packets {}", counts.refused)
}

#[cfg(test)]
mod tests;
