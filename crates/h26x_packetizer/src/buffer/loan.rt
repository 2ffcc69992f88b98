//! The loan of a buffer's bytes.

ghost use types.Logic.{sem};
ghost use Rattle.h26x_packetizer.specs.Buffer.{HoldPackets, HoldHeadrooms};
ghost use Rattle.h26x_packetizer.specs.BufferLoan.{LendsBytes};

use super::PacketBuffer;

impl PacketBuffer {
    /// All bytes as they lie, to be written in place, as the headers of the layers below into what is
    /// free before each packet. Where packets begin and end stays, and so what is written over a
    /// packet is the packet, and what is written before it its headroom.
    pub fn bytes_mut(&mut self) -> &mut [u8]
        ensures* writes_back { sem 𝓛 (LendsBytes self.entry result) }
        ensures bytes { HoldPackets self.old.headroom self.old.packets result.now }
        ensures headrooms { HoldHeadrooms self.old.headroom self.old.packets self.old.headrooms
            result.now }
    {
        &mut self.bytes
    }
}
