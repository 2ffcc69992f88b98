//! The examples of `h265_payload`'s and `h265_packets`' documents, and of the packets that a
//! depacketizer of H.265 shows.

use crate::stand_ins::{look_at, send};
use h26x_core::{CodecExtra, Depacketizer, PacketError, Packetizer};
use h265_payload::{
    H265Depacketizer, H265PACIPacket, H265Packetizer, H265Payload, set_lowest_header,
};
use std::alloc::Global;

/// Puts the units of packets together, and looks at the last packet where it is a PACI packet.
pub fn receive(
    depacketizer: &mut H265Depacketizer,
    packets: &[Vec<u8>],
    out: &mut Vec<u8>,
) -> Result<(), PacketError> {
    let mut extra = CodecExtra::None;
    for packet in packets {
        depacketizer.depacketize(packet, out, &mut extra)?;
    }
    if let H265Payload::H265PACIPacket(paci) = depacketizer.payload() {
        look_at(paci.tsci());
    }
    Ok(())
}

/// Cuts a frame into packets, and puts its units together again.
pub fn send_and_receive(
    packetizer: &mut H265Packetizer,
    depacketizer: &mut H265Depacketizer,
    frame: &[u8],
    out: &mut Vec<u8>,
) -> Result<(), PacketError> {
    let packets = packetizer.packetize(1200, frame)?;
    receive(depacketizer, &packets, out)
}

/// Sends a frame in packets of up to 1400 bytes.
pub fn send_frame(alloc: Global, frame: &[u8]) -> Result<(), PacketError> {
    let mut packetizer = H265Packetizer::new(alloc);
    packetizer.with_max_packet_size(1400);
    for packet in &packetizer.packetize(1400, frame)? {
        send(packet);
    }
    Ok(())
}

/// The packets of a frame by a packetizer that gives sets in one packet the header of these sets.
pub fn packets_of_frame(alloc: Global, frame: &[u8]) -> Result<Vec<Vec<u8>>, PacketError> {
    let mut packetizer = H265Packetizer::new(alloc);
    packetizer.with_lowest_header(true);
    packetizer.packetize(1200, frame)
}

/// The same where the packets are made already.
pub fn packets_made_before(alloc: Global, frame: &[u8]) -> Result<Vec<Vec<u8>>, PacketError> {
    let mut packets = H265Packetizer::new(alloc).packetize(1200, frame)?;
    for packet in packets.iter_mut() {
        set_lowest_header(false, packet);
    }
    Ok(packets)
}

/// The PACI packet of a slice of an IDR picture and an extension.
pub fn pack_paci(alloc: Global) -> Result<Vec<u8>, PacketError> {
    let unit = [0x26, 0x01, 0xaa];
    let phes = [0x11, 0x22, 0x33];
    let mut buf = Vec::new(alloc);
    let packet = H265PACIPacket::packetize(alloc, &unit, &phes, &mut buf)?;
    Ok(packet)
}

/// How many units stand in the packet that was accepted last; a fragment has none of its own.
pub fn units_shown(depacketizer: &H265Depacketizer) -> usize {
    match depacketizer.payload() {
        H265Payload::H265SingleNALUnitPacket(_) | H265Payload::H265PACIPacket(_) => 1,
        H265Payload::H265FragmentationUnitPacket(_) => 0,
        H265Payload::H265AggregationPacket(packet) => {
            let first = usize::from(packet.first_unit().is_some());
            first.saturating_add(packet.other_units().len())
        }
    }
}

/// The decoding order number of the unit that a packet begins, where it bears one.
pub fn number_shown(depacketizer: &H265Depacketizer) -> Option<u16> {
    match depacketizer.payload() {
        H265Payload::H265SingleNALUnitPacket(packet) => packet.donl(),
        H265Payload::H265FragmentationUnitPacket(packet) => packet.donl(),
        H265Payload::H265AggregationPacket(packet) => packet.first_unit()?.donl(),
        H265Payload::H265PACIPacket(_) => None,
    }
}

mod tests;
