//! Packets of units, none of which is left out.

ghost use Rattle.std.specs.Prelude.{◌≡◌, ◌++◌, [], true, Some, None, is_some, IfSome, OnOk, OnErr, IfOk, IsOk, Err};
ghost use Rattle.h26x_model.specs.Send.Limit.{AreWithinLimit};
ghost use Rattle.h26x_packetizer.specs.Sending.{contents};
ghost use Rattle.h26x_packetizer.specs.Buffer.{with_packets, with_memory, IsMemoryWith};
ghost use Rattle.h26x_packetizer.specs.Group.{lent_units, may_share};
ghost use Rattle.h26x_packetizer.specs.Placement.{IsPlacement, IsSizeOf, if_placed};
ghost use Rattle.h26x_packetizer.specs.Refusal.{units_refusal};
ghost use Rattle.h26x_packetizer.specs.PacketizerView.{IsPacketizerView, limit_of};
ghost use Rattle.h26x_packetizer.specs.EveryView.{every_packets, view_after_units};

use crate::buffer::{Appending, PacketBuffer};
use crate::every::{push_in_one, push_units};
use crate::every_format::EveryFormat;
use crate::group::go_in_one;
use crate::packet_parts::{OnePacket, PacketParts};
use crate::packetizer::PayloadPacketizer;
use crate::packing::Packing;
use crate::placement::{PacketsSize, Placement, place, size_of};
use crate::refusal::{RefusedUnit, units_refusal};
use crate::sink::PacketSink;
use crate::units::fits_one;
use std::alloc::AllocError;

/// Why units are refused. A refused call changes nothing.
#[derive(Debug, Clone, Copy, PartialEq, Eq)]
pub enum EveryUnitError {
    /// The first unit that can't go.
    Unit(RefusedUnit),
    /// The allocator had no memory.
    OutOfMemory,
}

impl<C: EveryFormat> PayloadPacketizer<C> {
    /// Appends the packets of units; the next number.
    fn prepare_units<'a, S: PacketSink<'a>>(
        &self,
        packing: Packing,
        mtu: usize,
        units: &'a [&'a [u8]],
        made: &mut S,
    ) -> Result<u16, EveryUnitError>
        ensures packets { OnOk result (S.packets made.new ≡ S.packets made.old
            ++ every_packets C.format C.aggregate (may_share packing (C.is_slice self.now.codec))
            self.now mtu (lent_units units.now)) }
        ensures after { IfOk result (λ it. (record self.now { next_don = it })
            ≡ view_after_units C.format self.now (lent_units units.now)) }
        ensures is { IfOk result (λ it.
            IsPacketizerView C.format (record self.now { next_don = it })) }
        ensures before { S.before made.new ≡ S.before made.old }
        ensures within { IfOk result (λ it. AreWithinLimit (limit_of C.format self.now mtu)
            (every_packets C.format C.aggregate (may_share packing (C.is_slice self.now.codec))
            self.now mtu (lent_units units.now))) }
        ensures refused { (unit : RefusedUnit) → units_refusal (C.format self.now.codec) packing
            (limit_of C.format self.now mtu) 0 (lent_units units.now) ≡ Some unit →
            result ≡ Err (EveryUnitError.Unit unit) }
        ensures memory { units_refusal (C.format self.now.codec) packing
            (limit_of C.format self.now mtu) 0 (lent_units units.now) ≡ None →
            OnErr result (result ≡ Err EveryUnitError.OutOfMemory) }
    {
        let limit = self.limit(mtu);
        if let Some(unit) = units_refusal(self.codec, packing, limit, units) {
            return Err(EveryUnitError::Unit(unit));
        }
        // (room for a few at once: a list that grows packet by packet moves more often)
        if units.len() > 1 {
            made.reserve(1)?;
        }
        match push_units(self.codec, packing, limit, self.next_don, units, made) {
            Ok(next_don) => {
                let next_don = if self.codec.has_donl() {
                    next_don
                } else {
                    self.next_don
                };
                Ok(next_don)
            }
            Err(_) => Err(EveryUnitError::OutOfMemory),
        }
    }

    /// Appends the packet of several units that all can go, and in one; the next number. `None` where
    /// they don't: then it isn't said what can't go.
    #[inline(always)]
    fn prepare_in_one<'a, S: PacketSink<'a>>(
        &self,
        packing: Packing,
        mtu: usize,
        units: &'a [&'a [u8]],
        made: &mut S,
    ) -> Option<u16>
        ensures packets { IfSome result (λ it. S.packets made.new ≡ S.packets made.old
            ++ every_packets C.format C.aggregate (may_share packing (C.is_slice self.now.codec))
            self.now mtu (lent_units units.now)) }
        ensures after { IfSome result (λ it. (record self.now { next_don = it })
            ≡ view_after_units C.format self.now (lent_units units.now)) }
        ensures is { IfSome result (λ it.
            IsPacketizerView C.format (record self.now { next_don = it })) }
        ensures go { is_some result ≡ true → units_refusal (C.format self.now.codec) packing
            (limit_of C.format self.now mtu) 0 (lent_units units.now) ≡ None }
    {
        let limit = self.limit(mtu);
        if !go_in_one(self.codec, packing, limit, units) {
            return None;
        }
        match push_in_one(self.codec, limit, self.next_don, units, made) {
            Ok(next_don) if self.codec.has_donl() => Some(next_don),
            Ok(_) => Some(self.next_don),
            Err(_) => None,
        }
    }

    /// The packets of the NAL units of one access unit, each without its start code, in order and as
    /// they are: a unit alone, those that fit one packet together (RFC 6184, 5.7.1; RFC 7798, 4.4.2;
    /// RFC 9328, 4.3.2), and one that is longer than a packet in fragments.
    ///
    /// Where all may share a packet no sender that brings these units needs fewer: a law of
    /// h26x_model. With decoding order numbers each unit takes one. Sets that wait stay, whatever
    /// kinds the units are of.
    ///
    /// The first unit that can't go is named, and nothing is sent then: one without a whole header,
    /// with F set, of a type that no unit has, or too long where no fragment has room for data. Else
    /// `OutOfMemory` is its only error. Both leave everything.
    pub fn packetize_units<'a>(
        &mut self,
        packing: Packing,
        mtu: usize,
        units: &'a [&'a [u8]],
    ) -> Result<Vec<Vec<u8>>, EveryUnitError>
        ensures packets { IfOk result (λ made. contents made.items
            ≡ every_packets C.format C.aggregate (may_share packing (C.is_slice self.old.codec))
            self.old mtu (lent_units units.now)) }
        ensures after { OnOk result (self.new
            ≡ view_after_units C.format self.old (lent_units units.now)) }
        ensures within { IfOk result (λ made.
            AreWithinLimit (limit_of C.format self.old mtu) (contents made.items)) }
        ensures kept { OnErr result (self.new ≡ self.old) }
        ensures refused { (unit : RefusedUnit) → units_refusal (C.format self.old.codec) packing
            (limit_of C.format self.old mtu) 0 (lent_units units.now) ≡ Some unit →
            result ≡ Err (EveryUnitError.Unit unit) }
        ensures memory { units_refusal (C.format self.old.codec) packing
            (limit_of C.format self.old mtu) 0 (lent_units units.now) ≡ None →
            OnErr result (result ≡ Err EveryUnitError.OutOfMemory) }
    {
        let mut made = Vec::new(self.alloc);
        let next_don = self.prepare_units(packing, mtu, units, &mut made)?;
        self.next_don = next_don;
        Ok(made)
    }

    /// Appends the packets of [`packetize_units`](PayloadPacketizer::packetize_units) to a buffer, each
    /// behind its headroom.
    pub fn packetize_units_into<'a>(
        &mut self,
        packing: Packing,
        mtu: usize,
        units: &'a [&'a [u8]],
        into: &mut PacketBuffer,
    ) -> Result<(), EveryUnitError>
        ensures packets { OnOk result (into.new ≡ with_packets into.old
            (every_packets C.format C.aggregate (may_share packing (C.is_slice self.old.codec))
            self.old mtu (lent_units units.now)) into.new.memory) }
        ensures after { OnOk result (self.new
            ≡ view_after_units C.format self.old (lent_units units.now)) }
        ensures within { OnOk result (AreWithinLimit (limit_of C.format self.old mtu)
            (every_packets C.format C.aggregate (may_share packing (C.is_slice self.old.codec))
            self.old mtu (lent_units units.now))) }
        ensures bounded { OnOk result (IsMemoryWith into.old
            (every_packets C.format C.aggregate (may_share packing (C.is_slice self.old.codec))
            self.old mtu (lent_units units.now)) into.new.memory) }
        ensures kept { OnErr result (self.new ≡ self.old) }
        ensures kept_packets { OnErr result (into.new ≡ with_memory into.old into.new.memory) }
        ensures refused { (unit : RefusedUnit) → units_refusal (C.format self.old.codec) packing
            (limit_of C.format self.old mtu) 0 (lent_units units.now) ≡ Some unit →
            result ≡ Err (EveryUnitError.Unit unit) }
        ensures memory { units_refusal (C.format self.old.codec) packing
            (limit_of C.format self.old mtu) 0 (lent_units units.now) ≡ None →
            OnErr result (result ≡ Err EveryUnitError.OutOfMemory) }
    {
        let mut made = Appending::from_buffer(self.alloc, into);
        match self.prepare_units(packing, mtu, units, &mut made) {
            Ok(next_don) => {
                made.finish(into)?;
                self.next_don = next_don;
                Ok(())
            }
            Err(e) => {
                made.give_up(into);
                Err(e)
            }
        }
    }

    /// How much memory the packets of units take, each behind `headroom` bytes, as
    /// [`packetize_units_to_memory`](PayloadPacketizer::packetize_units_to_memory) would place them
    /// now. Nothing changes, and units are refused as there.
    pub fn units_size<'a>(
        &self,
        packing: Packing,
        mtu: usize,
        units: &'a [&'a [u8]],
        headroom: usize,
    ) -> Result<PacketsSize, EveryUnitError>
        ensures size { IfOk result (λ it. IsSizeOf headroom
            (every_packets C.format C.aggregate (may_share packing (C.is_slice self.now.codec))
            self.now mtu (lent_units units.now)) it) }
        ensures refused { (unit : RefusedUnit) → units_refusal (C.format self.now.codec) packing
            (limit_of C.format self.now mtu) 0 (lent_units units.now) ≡ Some unit →
            result ≡ Err (EveryUnitError.Unit unit) }
        ensures memory { units_refusal (C.format self.now.codec) packing
            (limit_of C.format self.now mtu) 0 (lent_units units.now) ≡ None →
            OnErr result (result ≡ Err EveryUnitError.OutOfMemory) }
    {
        let mut made: Vec<PacketParts<'a>> = Vec::new(self.alloc);
        self.prepare_units(packing, mtu, units, &mut made)?;
        Ok(size_of(&made, headroom))
    }

    /// Copies the packets of units to memory where they fit; the next number. One packet is placed
    /// without a list of packets.
    fn prepare_units_placed<'a>(
        &self,
        packing: Packing,
        mtu: usize,
        units: &'a [&'a [u8]],
        headroom: usize,
        to: &mut [u8],
        ends: &mut [usize],
    ) -> Result<(Placement, u16), EveryUnitError>
        ensures packets { IfOk result (λ it. IsPlacement headroom
            (every_packets C.format C.aggregate (may_share packing (C.is_slice self.now.codec))
            self.now mtu (lent_units units.now)) to.old to.new ends.old ends.new it.0) }
        ensures after { IfOk result (λ it. (record self.now { next_don = it.1 })
            ≡ view_after_units C.format self.now (lent_units units.now)) }
        ensures is { IfOk result (λ it.
            IsPacketizerView C.format (record self.now { next_don = it.1 })) }
        ensures kept_memory { OnErr result ((to.new ≡ to.old) × (ends.new ≡ ends.old)) }
        ensures refused { (unit : RefusedUnit) → units_refusal (C.format self.now.codec) packing
            (limit_of C.format self.now mtu) 0 (lent_units units.now) ≡ Some unit →
            result ≡ Err (EveryUnitError.Unit unit) }
        ensures memory { units_refusal (C.format self.now.codec) packing
            (limit_of C.format self.now mtu) 0 (lent_units units.now) ≡ None →
            OnErr result (result ≡ Err EveryUnitError.OutOfMemory) }
    {
        let mut aggregate = OnePacket::new();
        if let Some(next_don) = self.prepare_in_one(packing, mtu, units, &mut aggregate) {
            return Ok((aggregate.place(headroom, to, ends), next_don));
        }
        if units.len() == 1 && fits_one(self.codec, self.limit(mtu), units[0]) {
            let mut single = OnePacket::new();
            if let Ok(next_don) = self.prepare_units(packing, mtu, units, &mut single) {
                return Ok((single.place(headroom, to, ends), next_don));
            }
        }
        let mut made: Vec<PacketParts<'a>> = Vec::new(self.alloc);
        let next_don = self.prepare_units(packing, mtu, units, &mut made)?;
        Ok((place(&made, headroom, to, ends), next_don))
    }

    /// Copies the packets of [`packetize_units`](PayloadPacketizer::packetize_units) straight to memory
    /// of the caller, as [`packetize_to_memory`](PayloadPacketizer::packetize_to_memory) does those of
    /// a payload.
    pub fn packetize_units_to_memory<'a>(
        &mut self,
        packing: Packing,
        mtu: usize,
        units: &'a [&'a [u8]],
        headroom: usize,
        to: &mut [u8],
        ends: &mut [usize],
    ) -> Result<Placement, EveryUnitError>
        ensures packets { IfOk result (λ it. IsPlacement headroom
            (every_packets C.format C.aggregate (may_share packing (C.is_slice self.old.codec))
            self.old mtu (lent_units units.now)) to.old to.new ends.old ends.new it) }
        ensures after { IfOk result (λ it. self.new ≡ if_placed it
            (view_after_units C.format self.old (lent_units units.now)) self.old) }
        ensures kept { OnErr result (self.new ≡ self.old) }
        ensures kept_memory { OnErr result ((to.new ≡ to.old) × (ends.new ≡ ends.old)) }
        ensures refused { (unit : RefusedUnit) → units_refusal (C.format self.old.codec) packing
            (limit_of C.format self.old mtu) 0 (lent_units units.now) ≡ Some unit →
            result ≡ Err (EveryUnitError.Unit unit) }
        ensures memory { units_refusal (C.format self.old.codec) packing
            (limit_of C.format self.old mtu) 0 (lent_units units.now) ≡ None →
            OnErr result (result ≡ Err EveryUnitError.OutOfMemory) }
    {
        let (placement, next_don) = self.prepare_units_placed(
            packing, mtu, units, headroom, to, ends,
        )?;
        if let Placement::Placed(_) = placement {
            self.next_don = next_don;
        }
        Ok(placement)
    }
}

impl From<AllocError> for EveryUnitError {
    ghost use Rattle.std.specs.Prelude.{◌≡◌};
    ghost use Rattle.h26x_packetizer.specs.declared.every_unit.EveryUnitError.TheVariants.{OutOfMemory};

    ghost from_gives = { λ _ e. e ≡ OutOfMemory };

    fn from(_e: AllocError) -> EveryUnitError {
        EveryUnitError::OutOfMemory
    }
}
