//! Where packets go.

ghost use Rattle.std.specs.Prelude.{◌≡◌, ◌≤◌, ◌+◌, ◌++◌, ◌∷◌, [], ℕ, List, length, OnOk};
ghost use Rattle.h26x_packetizer.specs.Buffer.{PacketBufferView};
ghost use Rattle.h26x_packetizer.specs.Sending.{packet_bytes};

use crate::body::{Body, put_packet};
use std::alloc::AllocError;

/// How many packets a list takes room for at first.
const FIRST_PACKETS: usize = 16;

/// What packets are appended to: a list of them, one buffer, or a list of their parts.
pub trait PacketSink<'a> {
    // The packets that were appended.
    ghost packets: { Self → List (List ℕ) };

    // What was there before, as from earlier calls, and stays.
    ghost before: { Self → PacketBufferView };

    /// Appends a packet of these parts, one behind the other.
    fn push(&mut self, header: &[u8], donl: &[u8], body: Body<'a>) -> Result<(), AllocError>
        requires { length header.now + length donl.now ≤ 5 }
        ensures pushed { OnOk result (packets self.new ≡ packets self.old
            ++ packet_bytes header.now donl.now body.entry ∷ []) }
        ensures before { before self.new ≡ before self.old };

    /// Reserves room for so many packets more, but none for their bytes.
    fn reserve(&mut self, count: usize) -> Result<(), AllocError>
        ensures same { packets self.new ≡ packets self.old }
        ensures before { before self.new ≡ before self.old };
}

impl<'a> PacketSink<'a> for Vec<Vec<u8>> {
    ghost use Rattle.h26x_packetizer.specs.Sending.{contents};
    ghost use Rattle.h26x_packetizer.specs.Buffer.{no_buffer};

    ghost packets = { λ packets. contents packets.items };

    ghost before = { λ packets. no_buffer };

    #[inline(always)]
    fn push(&mut self, header: &[u8], donl: &[u8], body: Body<'a>) -> Result<(), AllocError> {
        let len = header
            .len()
            .saturating_add(donl.len())
            .saturating_add(body.len());
        let mut packet = Vec::with_capacity(*self.allocator(), len)?;
        put_packet(0, header, donl, body, &mut packet);
        Vec::push(self, packet)?;
        Ok(())
    }

    #[inline(always)]
    fn reserve(&mut self, count: usize) -> Result<(), AllocError> {
        let least = if self.is_empty() { FIRST_PACKETS } else { 0 };
        Vec::reserve(self, count.max(least))
    }
}
