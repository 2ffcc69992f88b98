//! Packets as the parts that they are made of, before they are copied anywhere.

ghost use Rattle.std.specs.Prelude.{◌≡◌, ◌≤◌, ◌+◌, ◌-◌, ◌^◌, ◌++◌, [], min, length};
ghost use Rattle.h26x_packetizer.specs.Sending.{packet_bytes};
ghost use Rattle.h26x_packetizer.specs.Placement.{IsPlacement};

use crate::body::Body;
use crate::placement::{PacketsSize, Placement, place_one};
use crate::sink::PacketSink;
use h26x_payload::copy_bytes;
use std::alloc::AllocError;
use std::marker::Model;

/// How many bytes a packet's header and number have at most: those of a fragment with both.
const LONGEST_HEADER: usize = 5;

/// How many packets a list of parts takes room for at first.
const FIRST_PARTS: usize = 8;

/// A packet as its parts: its header and number, and what stands behind these, which is borrowed.
#[derive(Drop)]
pub struct PacketParts<'a> {
    header: [u8; 5],
    header_len: usize,
    body: Body<'a>,
    // How many bytes it has: that is asked twice, and an aggregate has to count its units.
    len: usize,
}

impl<'a> Model for PacketParts<'a> {
    ghost use Rattle.std.specs.Prelude.{◌≡◌, ◌≤◌, ◌-◌, ◌^◌, ◌++◌, List, ℕ, length, min, take};
    ghost use Rattle.h26x_packetizer.specs.Sending.{body_bytes};

    ghost Value = { List ℕ };

    ghost view = { λ a. take a.header_len a.header ++ body_bytes a.body };

    ghost invariant = { λ a. (a.header_len ≤ 5)
        × (a.len ≡ min (length (take a.header_len a.header ++ body_bytes a.body)) (2 ^ 64 - 1)) };
}

impl<'a> PacketParts<'a> {
    /// A packet of these parts, one behind the other.
    #[inline(always)]
    fn new(header: &[u8], donl: &[u8], body: Body<'a>) -> Self
        requires { length header.now + length donl.now ≤ 5 }
        ensures { result ≡ packet_bytes header.now donl.now body.entry }
    {
        let mut bytes = [0; LONGEST_HEADER];
        let behind = copy_bytes(header, 0, &mut bytes);
        let header_len = copy_bytes(donl, behind, &mut bytes);
        PacketParts {
            header: bytes,
            header_len,
            len: body.len().saturating_add(header_len),
            body,
        }
    }

    /// How many bytes it has; the greatest number where they are more.
    pub(crate) fn len(&self) -> usize
        ensures { result ≡ min (length self.now) (2 ^ 64 - 1) }
    {
        self.len
    }

    /// Copies it to memory of its length.
    #[inline(always)]
    pub(crate) fn copy_to(&self, to: &mut [u8])
        requires { length to.old ≡ length self.now }
        ensures { to.new ≡ self.now }
    {
        if self.header_len > 0 {
            to[..self.header_len].copy_from_slice(&self.header[..self.header_len]);
        }
        self.body.copy_to(&mut to[self.header_len..]);
    }
}

/// Room for one packet alone, which takes no memory: a second one is refused.
#[derive(Drop)]
pub(crate) struct OnePacket<'a> {
    packet: Option<PacketParts<'a>>,
}

impl<'a> Model for OnePacket<'a> {
    ghost use Rattle.std.specs.Prelude.{List, ℕ};
    ghost use Rattle.std.specs.Option.{option_to_list};

    ghost Value = { List (List ℕ) };

    ghost view = { λ a. option_to_list a.packet };
}

impl<'a> OnePacket<'a> {
    /// None yet.
    #[inline(always)]
    pub(crate) fn new() -> Self
        ensures { result ≡ [] }
    {
        OnePacket { packet: None }
    }

    /// Copies it to the front of memory where it fits.
    #[inline(always)]
    pub(crate) fn place(&self, headroom: usize, to: &mut [u8], ends: &mut [usize]) -> Placement
        ensures { IsPlacement headroom self.now to.old to.new ends.old ends.new result }
    {
        match &self.packet {
            Some(packet) => place_one(packet, headroom, to, ends),
            None => Placement::Placed(PacketsSize {
                packets: 0,
                bytes: 0,
            }),
        }
    }
}

impl<'a> PacketSink<'a> for OnePacket<'a> {
    ghost use Rattle.h26x_packetizer.specs.Buffer.{no_buffer};

    ghost packets = { λ packet. packet };

    ghost before = { λ packet. no_buffer };

    #[inline(always)]
    fn push(&mut self, header: &[u8], donl: &[u8], body: Body<'a>) -> Result<(), AllocError> {
        if self.packet.is_some() {
            return Err(AllocError);
        }
        self.packet = Some(PacketParts::new(header, donl, body));
        Ok(())
    }

    /// None: it has room for its one.
    #[inline(always)]
    fn reserve(&mut self, _count: usize) -> Result<(), AllocError> {
        Ok(())
    }
}

impl<'a> PacketSink<'a> for Vec<PacketParts<'a>> {
    ghost use Rattle.h26x_packetizer.specs.Buffer.{no_buffer};

    ghost packets = { λ packets. packets.items };

    ghost before = { λ packets. no_buffer };

    #[inline(always)]
    fn push(&mut self, header: &[u8], donl: &[u8], body: Body<'a>) -> Result<(), AllocError> {
        Vec::push(self, PacketParts::new(header, donl, body))?;
        Ok(())
    }

    #[inline(always)]
    fn reserve(&mut self, count: usize) -> Result<(), AllocError> {
        let least = if self.is_empty() { FIRST_PARTS } else { 0 };
        Vec::reserve(self, count.max(least))
    }
}
