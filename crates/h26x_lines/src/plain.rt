//! Endpoints that send and take payloads as they are: a caller's own codec, for tests alone.

ghost use Rattle.std.specs.Prelude.{◌≡◌, ◌≢◌, [], ◌++◌, true, Some, Ok, Err, IfOk, OnOk, OnErr, IsOk};
ghost use Rattle.h26x_core.specs.Front.{IsFrontOf};
ghost use Rattle.h26x_packetizer.specs.Sending.{contents};
ghost use Rattle.h26x_lines.specs.Plain.{plain_packets};

use h26x_core::{CodecExtra, Depacketizer, PacketError, Packetizer};
use std::alloc::Global;

/// Sends a payload as one packet, whatever the limit, and an empty one not at all.
#[derive(Debug, Drop)]
pub struct PlainPacketizer {
    alloc: Global,
}

impl PlainPacketizer {
    /// A packetizer whose packets' memory comes from `alloc`. None is taken here.
    pub fn new(alloc: Global) -> Self {
        PlainPacketizer { alloc }
    }
}

impl Packetizer for PlainPacketizer {
    ghost meaning = { λ it. [] };

    /// The payload as it is, or no packet where it is empty. `OutOfMemory` is the only error; an
    /// empty payload takes no memory.
    fn packetize(&mut self, _mtu: usize, b: &[u8]) -> Result<Vec<Vec<u8>>, PacketError>
        ensures packets { IfOk result (λ made. contents made.items ≡ plain_packets b.now) }
        ensures memory { OnErr result (result ≡ Err PacketError.OutOfMemory) }
        ensures free { b.now ≡ [] → IsOk result }
        ensures kept { self.new ≡ self.old }
        ensures refused { OnErr result (⟦<PlainPacketizer as Packetizer>⟧.meaning self.new
            ≡ ⟦<PlainPacketizer as Packetizer>⟧.meaning self.old) }
    {
        let mut packets = Vec::new(self.alloc);
        if !b.is_empty() {
            packets.push(b.to_vec(self.alloc)?)?;
        }
        Ok(packets)
    }

    /// The last packet of an access unit bears the marker bit.
    fn is_marker(&mut self, _data: &[u8], _previous: Option<&[u8]>, last: bool) -> bool
        ensures is { result ≡ last }
        ensures kept { self.new ≡ self.old }
        ensures kept_meaning { ⟦<PlainPacketizer as Packetizer>⟧.meaning self.new
            ≡ ⟦<PlainPacketizer as Packetizer>⟧.meaning self.old }
    {
        last
    }
}

/// Appends packets as they are, and tells nothing of them.
#[derive(Debug, Drop)]
pub struct PlainDepacketizer;

impl PlainDepacketizer {
    /// A depacketizer. It takes no memory of its own.
    pub fn new(_alloc: Global) -> Self {
        PlainDepacketizer
    }
}

impl Depacketizer for PlainDepacketizer {
    ghost meaning = { λ it. [] };

    /// As many bytes as the packets have.
    fn out_size_hint(&self, packets_size: usize) -> Option<usize>
        ensures { result ≡ Some packets_size }
    {
        Some(packets_size)
    }

    /// Appends `packet` to `out`. An empty one is refused as `ErrShortPacket`; the only other error
    /// is `OutOfMemory`. A refusal leaves `out`.
    fn depacketize(
        &mut self,
        packet: &[u8],
        out: &mut Vec<u8>,
        _codec_extra: &mut CodecExtra,
    ) -> Result<(), PacketError>
        ensures written { OnOk result (out.new.items ≡ out.old.items ++ packet.now) }
        ensures taken { OnOk result (packet.now ≢ []) }
        ensures short { packet.now ≡ [] → result ≡ Err PacketError.ErrShortPacket }
        ensures memory { packet.now ≢ [] → OnErr result (result ≡ Err PacketError.OutOfMemory) }
        ensures untold { _codec_extra.new ≡ _codec_extra.old }
        ensures kept { self.new ≡ self.old }
        ensures accepted { OnOk result (IsFrontOf out.old.items out.new.items) }
        ensures kept_out { OnErr result (out.new.items ≡ out.old.items) }
        ensures kept_extra { OnErr result (_codec_extra.new ≡ _codec_extra.old) }
        ensures kept_meaning { OnErr result (⟦<PlainDepacketizer as Depacketizer>⟧.meaning self.new
            ≡ ⟦<PlainDepacketizer as Depacketizer>⟧.meaning self.old) }
    {
        if packet.is_empty() {
            return Err(PacketError::ErrShortPacket);
        }
        out.extend_from_slice(packet)?;
        Ok(())
    }

    /// Every packet may be the first of an access unit.
    fn is_partition_head(&self, _packet: &[u8]) -> bool
        ensures { result ≡ true }
    {
        true
    }

    /// The packet with the marker bit is the last of an access unit.
    fn is_partition_tail(&self, marker: bool, _packet: &[u8]) -> bool
        ensures { result ≡ marker }
    {
        marker
    }
}
