//! The packets of one unit as it is, for every codec.

ghost use Rattle.std.specs.Prelude.{◌≡◌, ◌++◌, [], OnOk, OnErr, IfOk, IsOk, Err};
ghost use Rattle.h26x_model.specs.Send.Limit.{AreWithinLimit};
ghost use Rattle.h26x_model.specs.Send.PacketizerState.{one_unit_items};
ghost use Rattle.h26x_packetizer.specs.Sending.{contents};
ghost use Rattle.h26x_packetizer.specs.Buffer.{with_packets, with_memory, IsMemoryWith};
ghost use Rattle.h26x_packetizer.specs.Placement.{IsPlacement, if_placed};
ghost use Rattle.h26x_packetizer.specs.PacketizerView.{IsPacketizerView, packetizer_of, limit_of, unit_packets, view_after_unit, view_with_update};

use crate::buffer::{Appending, PacketBuffer};
use crate::packet_parts::PacketParts;
use crate::packetizer::PayloadPacketizer;
use crate::placement::{Placement, place};
use crate::sink::PacketSink;
use crate::units::push_unit;
use crate::update::Update;
use h26x_core::PacketError;
use h26x_model::laws;
use h26x_payload::PayloadFormat;

impl<C: PayloadFormat> PayloadPacketizer<C> {
    /// A law of each unit that is sent as it is: its packets are within the limit of the call.
    fn one_unit_is_within(&self, mtu: usize, unit: &[u8])
        ensures { AreWithinLimit (limit_of C.format self.now mtu)
            (unit_packets C.format self.now mtu unit.now) }
    {
        laws::a_unit_sent_as_it_is();
        let _ = &self.codec;
    }

    /// Appends the packets of one unit as it is, and tells what the call changes.
    fn prepare_unit<'a, S: PacketSink<'a>>(
        &'a self,
        mtu: usize,
        unit: &'a [u8],
        made: &mut S,
    ) -> Result<Update, PacketError>
        ensures packets { OnOk result (S.packets made.new ≡ S.packets made.old
            ++ unit_packets C.format self.now mtu unit.now) }
        ensures after { IfOk result (λ it.
            view_with_update self.now it ≡ view_after_unit C.format self.now mtu unit.now) }
        ensures is { IfOk result (λ it. IsPacketizerView C.format (view_with_update self.now it)) }
        ensures before { S.before made.new ≡ S.before made.old }

        ensures memory { OnErr result (result ≡ Err PacketError.OutOfMemory) }

        // Nothing is sent without memory.
        ensures free { one_unit_items (packetizer_of C.format self.now) mtu unit.now ≡ [] →
            IsOk result }
    {
        laws::a_unit_sent_as_it_is();
        if mtu < self.codec.least_mtu() || unit.len() < self.codec.header_len() {
            return Ok(Update::number(self.next_don));
        }
        let next_don = push_unit(self.codec, self.limit(mtu), self.next_don, unit, made)?;
        let next_don = if self.codec.has_donl() {
            next_don
        } else {
            self.next_don
        };
        Ok(Update::number(next_don))
    }

    /// The packets of one NAL unit as it is, without a start code and whatever its kind: itself, or
    /// its fragments. Nothing is searched in it, and the sets that wait stay.
    ///
    /// So whoever has units sends each without copying it, and whoever has several parameter sets of
    /// a kind, or wants them again, sends these himself. There are no packets where the unit has no
    /// whole header, under the least `mtu`, and of a unit longer than a packet where no fragment
    /// has room for data. A unit whose type is one of packets, as an aggregate, is not read back as
    /// a unit.
    ///
    /// `OutOfMemory` is its only error, and leaves everything.
    pub fn packetize_unit(&mut self, mtu: usize, unit: &[u8]) -> Result<Vec<Vec<u8>>, PacketError>
        ensures packets { IfOk result (λ made.
            contents made.items ≡ unit_packets C.format self.old mtu unit.now) }
        ensures after { OnOk result (self.new ≡ view_after_unit C.format self.old mtu unit.now) }
        ensures within { IfOk result (λ made.
            AreWithinLimit (limit_of C.format self.old mtu) (contents made.items)) }

        ensures kept { OnErr result (self.new ≡ self.old) }
        ensures memory { OnErr result (result ≡ Err PacketError.OutOfMemory) }

        // Nothing is sent without memory.
        ensures free { one_unit_items (packetizer_of C.format self.old) mtu unit.now ≡ [] →
            IsOk result }
    {
        self.one_unit_is_within(mtu, unit);
        let mut made = Vec::new(self.alloc);
        let update = self.prepare_unit(mtu, unit, &mut made)?;
        self.commit(update);
        Ok(made)
    }

    /// Appends the packets of [`packetize_unit`](PayloadPacketizer::packetize_unit) to a buffer, each
    /// behind its headroom.
    ///
    /// `OutOfMemory` is its only error, and leaves everything.
    pub fn packetize_unit_into(
        &mut self,
        mtu: usize,
        unit: &[u8],
        into: &mut PacketBuffer,
    ) -> Result<(), PacketError>
        ensures packets { OnOk result (into.new ≡ with_packets into.old
            (unit_packets C.format self.old mtu unit.now) into.new.memory) }
        ensures after { OnOk result (self.new ≡ view_after_unit C.format self.old mtu unit.now) }
        ensures within { AreWithinLimit (limit_of C.format self.old mtu)
            (unit_packets C.format self.old mtu unit.now) }
        ensures bounded { OnOk result (IsMemoryWith into.old
            (unit_packets C.format self.old mtu unit.now) into.new.memory) }

        ensures kept { OnErr result (self.new ≡ self.old) }
        ensures kept_packets { OnErr result (into.new ≡ with_memory into.old into.new.memory) }
        ensures memory { OnErr result (result ≡ Err PacketError.OutOfMemory) }

        // Nothing is sent without memory.
        ensures free { one_unit_items (packetizer_of C.format self.old) mtu unit.now ≡ [] →
            IsOk result }
    {
        self.one_unit_is_within(mtu, unit);
        let mut made = Appending::from_buffer(self.alloc, into);
        match self.prepare_unit(mtu, unit, &mut made) {
            Ok(update) => {
                made.finish(into)?;
                self.commit(update);
                Ok(())
            }
            Err(e) => {
                made.give_up(into);
                Err(e)
            }
        }
    }

    /// Copies the packets of one unit as it is to memory where they fit, and tells what the call
    /// changes.
    fn prepare_unit_placed<'a>(
        &'a self,
        mtu: usize,
        unit: &'a [u8],
        headroom: usize,
        to: &mut [u8],
        ends: &mut [usize],
    ) -> Result<(Placement, Update), PacketError>
        ensures packets { IfOk result (λ it. IsPlacement headroom
            (unit_packets C.format self.now mtu unit.now) to.old to.new ends.old ends.new it.0) }
        ensures after { IfOk result (λ it.
            view_with_update self.now it.1 ≡ view_after_unit C.format self.now mtu unit.now) }
        ensures is { IfOk result (λ it.
            IsPacketizerView C.format (view_with_update self.now it.1)) }

        ensures kept_memory { OnErr result ((to.new ≡ to.old) × (ends.new ≡ ends.old)) }
        ensures memory { OnErr result (result ≡ Err PacketError.OutOfMemory) }

        // Nothing is sent without memory.
        ensures free { one_unit_items (packetizer_of C.format self.now) mtu unit.now ≡ [] →
            IsOk result }
    {
        let mut made: Vec<PacketParts<'a>> = Vec::new(self.alloc);
        let update = self.prepare_unit(mtu, unit, &mut made)?;
        Ok((place(&made, headroom, to, ends), update))
    }

    /// Copies the packets of [`packetize_unit`](PayloadPacketizer::packetize_unit) straight to memory
    /// of the caller, as [`packetize_to_memory`](PayloadPacketizer::packetize_to_memory) does those of
    /// a payload.
    pub fn packetize_unit_to_memory(
        &mut self,
        mtu: usize,
        unit: &[u8],
        headroom: usize,
        to: &mut [u8],
        ends: &mut [usize],
    ) -> Result<Placement, PacketError>
        ensures packets { IfOk result (λ it. IsPlacement headroom
            (unit_packets C.format self.old mtu unit.now) to.old to.new ends.old ends.new it) }
        ensures after { IfOk result (λ it. self.new
            ≡ if_placed it (view_after_unit C.format self.old mtu unit.now) self.old) }

        ensures kept { OnErr result (self.new ≡ self.old) }
        ensures kept_memory { OnErr result ((to.new ≡ to.old) × (ends.new ≡ ends.old)) }
        ensures memory { OnErr result (result ≡ Err PacketError.OutOfMemory) }

        // Nothing is sent without memory.
        ensures free { one_unit_items (packetizer_of C.format self.old) mtu unit.now ≡ [] →
            IsOk result }
    {
        let (placement, update) = self.prepare_unit_placed(mtu, unit, headroom, to, ends)?;
        if let Placement::Placed(_) = placement {
            self.commit(update);
        }
        Ok(placement)
    }
}
