//! A packetizer of one of the codecs, chosen when it is made.

ghost use Rattle.std.specs.Prelude.{◌≡◌, ◌≤◌, [], true, false, Some, None, Err, IfOk, OnOk, OnErr, IsOk};
ghost use Rattle.h26x_model.specs.Send.PacketizerState.{next_packets, after_payload, payload_has_no_effect, one_unit_items, one_unit_packets, after_one_unit};
ghost use Rattle.h26x_packetizer.specs.Buffer.{with_packets, with_memory, IsMemoryWith};
ghost use Rattle.h26x_packetizer.specs.EveryView.{after_units};
ghost use Rattle.h26x_packetizer.specs.Group.{lent_units};
ghost use Rattle.h26x_packetizer.specs.Sending.{contents};
ghost use Rattle.h26x_packetizer.specs.Placement.{IsPlacement, IsSizeOf, is_placed};
ghost use Rattle.h26x_codec.specs.Codec.{codec_format, fresh_packetizer_state};
ghost use Rattle.h26x_codec.specs.AnyPacketizer.{any_packetizer_state, any_packetizer_codec, any_packetizer_with_donl, any_packetizer_with_lowest_header, any_packetizer_with_max_packet_size, IsBehindPlaced, any_every_packets, any_units_refusal};

use crate::codec::{Codec, with_held};
use h26x_core::PacketError;
use h26x_packetizer::{EveryUnitError, PacketBuffer, PacketsSize, Packing, Placement, RefusedUnit};
use h264_payload::H264Packetizer;
use h265_payload::H265Packetizer;
use h266_payload::H266Packetizer;
use std::alloc::Global;

/// A packetizer of one of the codecs, chosen when it is made, which may go from thread to thread.
/// Every call goes to the one that it holds.
#[derive(Drop)]
pub enum AnyPacketizer {
    /// Sends H.264 (RFC 6184).
    H264(H264Packetizer),
    /// Sends H.265 (RFC 7798).
    H265(H265Packetizer),
    /// Sends H.266 (RFC 9328).
    H266(H266Packetizer),
}

impl AnyPacketizer {
    /// A packetizer for which nothing waits, with numbers where its codec has them.
    pub fn new(alloc: Global, codec: Codec, has_donl: bool) -> Self
        ensures codec { any_packetizer_codec result ≡ codec }
        ensures fresh { any_packetizer_state result
            ≡ fresh_packetizer_state (codec_format codec has_donl) }
    {
        let mut it = match codec {
            Codec::H264 => AnyPacketizer::H264(H264Packetizer::new(alloc)),
            Codec::H265 => AnyPacketizer::H265(H265Packetizer::new(alloc)),
            Codec::H266 => AnyPacketizer::H266(H266Packetizer::new(alloc)),
        };
        it.with_donl(has_donl);
        it
    }

    /// The same packetizer again.
    pub fn clone(&self) -> Result<Self, PacketError>
        ensures same { IfOk result (λ it. it ≡ self.now) }
        ensures memory { OnErr result (result ≡ Err PacketError.OutOfMemory) }
    {
        match self {
            AnyPacketizer::H264(it) => Ok(AnyPacketizer::H264(it.clone()?)),
            AnyPacketizer::H265(it) => Ok(AnyPacketizer::H265(it.clone()?)),
            AnyPacketizer::H266(it) => Ok(AnyPacketizer::H266(it.clone()?)),
        }
    }

    /// Its codec.
    pub fn codec(&self) -> Codec
        ensures { result ≡ any_packetizer_codec self.now }
    {
        match self {
            AnyPacketizer::H264(_) => Codec::H264,
            AnyPacketizer::H265(_) => Codec::H265,
            AnyPacketizer::H266(_) => Codec::H266,
        }
    }

    /// Turns numbers on, from 0, or off; that of H.264 stays as it is.
    pub fn with_donl(&mut self, has_donl: bool)
        ensures { self.new ≡ any_packetizer_with_donl has_donl self.old }
    {
        match self {
            AnyPacketizer::H264(_) => {}
            AnyPacketizer::H265(it) => it.with_donl(has_donl),
            AnyPacketizer::H266(it) => it.with_donl(has_donl),
        }
    }

    /// Sets whether parameter sets that share a packet of H.265 have the header of their own, or that
    /// of the unit behind them (RFC 7798, 4.4.2); every other codec's stay as they are.
    pub fn with_lowest_header(&mut self, lowest_header: bool)
        ensures { self.new ≡ any_packetizer_with_lowest_header lowest_header self.old }
    {
        match self {
            AnyPacketizer::H265(it) => it.with_lowest_header(lowest_header),
            AnyPacketizer::H264(_) | AnyPacketizer::H266(_) => {}
        }
    }

    /// Sets the largest packet size, in bytes; that of H.264 stays as it is.
    pub fn with_max_packet_size(&mut self, bytes: u16)
        requires { 4 ≤ bytes }
        ensures { self.new ≡ any_packetizer_with_max_packet_size bytes self.old }
    {
        match self {
            AnyPacketizer::H264(_) => {}
            AnyPacketizer::H265(it) => it.with_max_packet_size(bytes),
            AnyPacketizer::H266(it) => it.with_max_packet_size(bytes),
        }
    }

    /// Appends the packets of a payload to a buffer; a refusal leaves those that stood there.
    pub fn packetize_into(
        &mut self,
        mtu: usize,
        payload: &[u8],
        into: &mut PacketBuffer,
    ) -> Result<(), PacketError>
        ensures packets { OnOk result (into.new ≡ with_packets into.old
            (next_packets (any_packetizer_state self.old) mtu payload.now) into.new.memory) }
        ensures bounded { OnOk result (IsMemoryWith into.old
            (next_packets (any_packetizer_state self.old) mtu payload.now) into.new.memory) }
        ensures after { OnOk result (any_packetizer_state self.new
            ≡ after_payload (any_packetizer_state self.old) mtu payload.now) }
        ensures codec { any_packetizer_codec self.new ≡ any_packetizer_codec self.old }
        ensures kept { OnErr result (self.new ≡ self.old) }
        ensures kept_packets { OnErr result (into.new ≡ with_memory into.old into.new.memory) }
        ensures memory { OnErr result (result ≡ Err PacketError.OutOfMemory) }
        ensures free { payload_has_no_effect (any_packetizer_state self.old) mtu payload.now
            ≡ true → IsOk result }
    {
        with_held!(self, |it| it.packetize_into(mtu, payload, into))
    }

    /// Appends the packets of one unit as it is; a refusal leaves those that stood in the buffer.
    pub fn packetize_unit_into(
        &mut self,
        mtu: usize,
        unit: &[u8],
        into: &mut PacketBuffer,
    ) -> Result<(), PacketError>
        ensures packets { OnOk result (into.new ≡ with_packets into.old
            (one_unit_packets (any_packetizer_state self.old) mtu unit.now) into.new.memory) }
        ensures bounded { OnOk result (IsMemoryWith into.old
            (one_unit_packets (any_packetizer_state self.old) mtu unit.now) into.new.memory) }
        ensures after { OnOk result (any_packetizer_state self.new
            ≡ after_one_unit (any_packetizer_state self.old) mtu unit.now) }
        ensures codec { any_packetizer_codec self.new ≡ any_packetizer_codec self.old }
        ensures kept { OnErr result (self.new ≡ self.old) }
        ensures kept_packets { OnErr result (into.new ≡ with_memory into.old into.new.memory) }
        ensures memory { OnErr result (result ≡ Err PacketError.OutOfMemory) }

        // Nothing is sent without memory.
        ensures free { one_unit_items (any_packetizer_state self.old) mtu unit.now ≡ [] →
            IsOk result }
    {
        with_held!(self, |it| it.packetize_unit_into(mtu, unit, into))
    }

    /// The packets of the units of one access unit, none of which is left out, in order and as they
    /// are. The first that can't go is named, and nothing is sent then.
    pub fn packetize_units<'a>(
        &mut self,
        packing: Packing,
        mtu: usize,
        units: &'a [&'a [u8]],
    ) -> Result<Vec<Vec<u8>>, EveryUnitError>
        ensures packets { IfOk result (λ made. contents made.items
            ≡ any_every_packets packing self.old mtu (lent_units units.now)) }
        ensures after { OnOk result (any_packetizer_state self.new
            ≡ after_units (any_packetizer_state self.old) (lent_units units.now)) }
        ensures codec { any_packetizer_codec self.new ≡ any_packetizer_codec self.old }
        ensures kept { OnErr result (self.new ≡ self.old) }
        ensures refused { (unit : RefusedUnit) →
            any_units_refusal packing self.old mtu (lent_units units.now) ≡ Some unit →
            result ≡ Err (EveryUnitError.Unit unit) }
        ensures memory { any_units_refusal packing self.old mtu (lent_units units.now) ≡ None →
            OnErr result (result ≡ Err EveryUnitError.OutOfMemory) }
    {
        with_held!(self, |it| it.packetize_units(packing, mtu, units))
    }

    /// Appends the packets of units to a buffer; a refusal leaves those that stood there.
    pub fn packetize_units_into<'a>(
        &mut self,
        packing: Packing,
        mtu: usize,
        units: &'a [&'a [u8]],
        into: &mut PacketBuffer,
    ) -> Result<(), EveryUnitError>
        ensures packets { OnOk result (into.new ≡ with_packets into.old
            (any_every_packets packing self.old mtu (lent_units units.now)) into.new.memory) }
        ensures bounded { OnOk result (IsMemoryWith into.old
            (any_every_packets packing self.old mtu (lent_units units.now)) into.new.memory) }
        ensures kept_packets { OnErr result (into.new ≡ with_memory into.old into.new.memory) }
        ensures after { OnOk result (any_packetizer_state self.new
            ≡ after_units (any_packetizer_state self.old) (lent_units units.now)) }
        ensures codec { any_packetizer_codec self.new ≡ any_packetizer_codec self.old }
        ensures kept { OnErr result (self.new ≡ self.old) }
        ensures refused { (unit : RefusedUnit) →
            any_units_refusal packing self.old mtu (lent_units units.now) ≡ Some unit →
            result ≡ Err (EveryUnitError.Unit unit) }
        ensures memory { any_units_refusal packing self.old mtu (lent_units units.now) ≡ None →
            OnErr result (result ≡ Err EveryUnitError.OutOfMemory) }
    {
        with_held!(
            self,
            |it| it.packetize_units_into(packing, mtu, units, into)
        )
    }

    /// How much memory the packets of a payload take, each behind so many bytes. Nothing changes.
    pub fn packets_size(
        &self,
        mtu: usize,
        payload: &[u8],
        headroom: usize,
    ) -> Result<PacketsSize, PacketError>
        ensures size { IfOk result (λ it. IsSizeOf headroom
            (next_packets (any_packetizer_state self.now) mtu payload.now) it) }
        ensures memory { OnErr result (result ≡ Err PacketError.OutOfMemory) }
        ensures free { payload_has_no_effect (any_packetizer_state self.now) mtu payload.now
            ≡ true → IsOk result }
    {
        with_held!(self, |it| it.packets_size(mtu, payload, headroom))
    }

    /// How much memory the packets of units take, each behind so many bytes. Nothing changes, and the
    /// first unit that can't go is named.
    pub fn units_size<'a>(
        &self,
        packing: Packing,
        mtu: usize,
        units: &'a [&'a [u8]],
        headroom: usize,
    ) -> Result<PacketsSize, EveryUnitError>
        ensures size { IfOk result (λ it. IsSizeOf headroom
            (any_every_packets packing self.now mtu (lent_units units.now)) it) }
        ensures refused { (unit : RefusedUnit) →
            any_units_refusal packing self.now mtu (lent_units units.now) ≡ Some unit →
            result ≡ Err (EveryUnitError.Unit unit) }
        ensures memory { any_units_refusal packing self.now mtu (lent_units units.now) ≡ None →
            OnErr result (result ≡ Err EveryUnitError.OutOfMemory) }
    {
        with_held!(self, |it| it.units_size(packing, mtu, units, headroom))
    }

    /// Copies the packets of a payload straight to memory where they fit; else nothing is done.
    pub fn packetize_to_memory(
        &mut self,
        mtu: usize,
        payload: &[u8],
        headroom: usize,
        to: &mut [u8],
        ends: &mut [usize],
    ) -> Result<Placement, PacketError>
        ensures packets { IfOk result (λ it. IsPlacement headroom
            (next_packets (any_packetizer_state self.old) mtu payload.now)
            to.old to.new ends.old ends.new it) }
        ensures after { IfOk result (λ it.
            IsBehindPlaced it (λ s. after_payload s mtu payload.now) self.old self.new) }
        ensures codec { any_packetizer_codec self.new ≡ any_packetizer_codec self.old }
        ensures kept_unplaced { IfOk result (λ it. is_placed it ≡ false → self.new ≡ self.old) }
        ensures kept { OnErr result (self.new ≡ self.old) }
        ensures kept_memory { OnErr result ((to.new ≡ to.old) × (ends.new ≡ ends.old)) }
        ensures memory { OnErr result (result ≡ Err PacketError.OutOfMemory) }
        ensures free { payload_has_no_effect (any_packetizer_state self.old) mtu payload.now
            ≡ true → IsOk result }
    {
        with_held!(
            self,
            |it| it.packetize_to_memory(mtu, payload, headroom, to, ends)
        )
    }

    /// Copies the packets of one unit as it is straight to memory where they fit; else nothing is
    /// done.
    pub fn packetize_unit_to_memory(
        &mut self,
        mtu: usize,
        unit: &[u8],
        headroom: usize,
        to: &mut [u8],
        ends: &mut [usize],
    ) -> Result<Placement, PacketError>
        ensures packets { IfOk result (λ it. IsPlacement headroom
            (one_unit_packets (any_packetizer_state self.old) mtu unit.now)
            to.old to.new ends.old ends.new it) }
        ensures after { IfOk result (λ it.
            IsBehindPlaced it (λ s. after_one_unit s mtu unit.now) self.old self.new) }
        ensures codec { any_packetizer_codec self.new ≡ any_packetizer_codec self.old }
        ensures kept_unplaced { IfOk result (λ it. is_placed it ≡ false → self.new ≡ self.old) }
        ensures kept { OnErr result (self.new ≡ self.old) }
        ensures kept_memory { OnErr result ((to.new ≡ to.old) × (ends.new ≡ ends.old)) }
        ensures memory { OnErr result (result ≡ Err PacketError.OutOfMemory) }

        // Nothing is sent without memory.
        ensures free { one_unit_items (any_packetizer_state self.old) mtu unit.now ≡ [] →
            IsOk result }
    {
        with_held!(
            self,
            |it| it.packetize_unit_to_memory(mtu, unit, headroom, to, ends)
        )
    }

    /// Copies the packets of units straight to memory where they fit; else nothing is done.
    pub fn packetize_units_to_memory<'a>(
        &mut self,
        packing: Packing,
        mtu: usize,
        units: &'a [&'a [u8]],
        headroom: usize,
        to: &mut [u8],
        ends: &mut [usize],
    ) -> Result<Placement, EveryUnitError>
        ensures packets { IfOk result (λ it. IsPlacement headroom
            (any_every_packets packing self.old mtu (lent_units units.now))
            to.old to.new ends.old ends.new it) }
        ensures after { IfOk result (λ it.
            IsBehindPlaced it (λ s. after_units s (lent_units units.now)) self.old self.new) }
        ensures codec { any_packetizer_codec self.new ≡ any_packetizer_codec self.old }
        ensures kept_unplaced { IfOk result (λ it. is_placed it ≡ false → self.new ≡ self.old) }
        ensures kept { OnErr result (self.new ≡ self.old) }
        ensures kept_memory { OnErr result ((to.new ≡ to.old) × (ends.new ≡ ends.old)) }
        ensures refused { (unit : RefusedUnit) →
            any_units_refusal packing self.old mtu (lent_units units.now) ≡ Some unit →
            result ≡ Err (EveryUnitError.Unit unit) }
        ensures memory { any_units_refusal packing self.old mtu (lent_units units.now) ≡ None →
            OnErr result (result ≡ Err EveryUnitError.OutOfMemory) }
    {
        with_held!(
            self,
            |it| it.packetize_units_to_memory(packing, mtu, units, headroom, to, ends)
        )
    }
}
