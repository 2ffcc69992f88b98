//! Packets of the units of an access unit, where every unit goes.

ghost use Rattle.std.specs.Prelude.{◌≡◌, ◌++◌, ◌⊎◌, false, Some, None, Err, IfOk, OnOk, OnErr};
ghost use Rattle.h26x_packetizer.specs.EveryView.{after_units};
ghost use Rattle.h26x_packetizer.specs.Group.{lent_units};
ghost use Rattle.h26x_packetizer.specs.Placement.{IsPlacement, IsSizeOf, is_placed};
ghost use Rattle.h26x_codec.specs.AnyPacketizer.{any_packetizer_codec, IsBehindPlaced};
ghost use Rattle.h26x_handles.specs.States.{sending_state, sending_units, sending_every_packets, sending_refused, sending_refusal};

use crate::sending::SendingEndpoint;
use crate::unit_list::{UnitList, list_sent};
use h26x_codec::refused_among_all;
use h26x_packetizer::{EveryUnitError, PacketsSize, Placement, RefusedUnit};
use std::alloc::{AllocError, Global};
use std::mem;

impl SendingEndpoint {
    /// Appends the units of an access unit in Annex B form that are sent to a list, as slices of it.
    #[inline(always)]
    fn list_sent<'a>(
        &self,
        access_unit: &'a [u8],
        list: &mut UnitList<'a>,
    ) -> Result<(), AllocError>
        ensures { OnOk result (list.new ≡ list.old ++ sending_units self.now access_unit.now) }
    {
        let codec = self.packetizer.codec();
        list_sent(codec, self.settings.delimiters, access_unit, list)
    }

    /// An error of sending them, a refused unit by its place among all units of the access unit.
    fn refused_among_all(
        &self,
        alloc: Global,
        access_unit: &[u8],
        error: EveryUnitError,
    ) -> EveryUnitError
        ensures unit { (unit : RefusedUnit) → error ≡ EveryUnitError.Unit unit →
            (result ≡ EveryUnitError.Unit (sending_refused self.now access_unit.now unit))
            ⊎ (result ≡ EveryUnitError.OutOfMemory) }
        ensures memory { error ≡ EveryUnitError.OutOfMemory →
            result ≡ EveryUnitError.OutOfMemory }
    {
        let codec = self.packetizer.codec();
        refused_among_all(alloc, codec, self.settings.delimiters, access_unit, error)
    }

    /// Makes the packets of the units of an access unit in Annex B form, of which none is left out but
    /// delimiters and filler where the settings say so; they take the place of the last call's. The
    /// first unit that can't go is named, and nothing is sent then.
    pub fn packetize_units(
        &mut self,
        alloc: Global,
        mtu: usize,
        access_unit: &[u8],
    ) -> Result<(), EveryUnitError>
        ensures packets { OnOk result (self.new.packets
            ≡ sending_every_packets self.old mtu access_unit.now) }
        ensures after { OnOk result (sending_state self.new
            ≡ after_units (sending_state self.old) (sending_units self.old access_unit.now)) }
        ensures codec { any_packetizer_codec self.new.packetizer
            ≡ any_packetizer_codec self.old.packetizer }
        ensures settings { self.new.settings ≡ self.old.settings }
        ensures kept { OnErr result (self.new ≡ self.old) }
        ensures refused { (unit : RefusedUnit) →
            sending_refusal self.old mtu access_unit.now ≡ Some unit →
            (result ≡ Err (EveryUnitError.Unit unit)) ⊎ (result ≡ Err EveryUnitError.OutOfMemory) }
        ensures memory { sending_refusal self.old mtu access_unit.now ≡ None →
            OnErr result (result ≡ Err EveryUnitError.OutOfMemory) }
    {
        let mut list = UnitList::new(alloc, access_unit);
        self.list_sent(access_unit, &mut list)?;
        let packing = self.settings.packing;
        self.spare.clear();
        match self
            .packetizer
            .packetize_units_into(packing, mtu, list.as_slice(), &mut self.spare)
        {
            Ok(()) => {
                mem::swap(&mut self.packets, &mut self.spare);
                Ok(())
            }
            Err(error) => Err(self.refused_among_all(alloc, access_unit, error)),
        }
    }

    /// How much memory the packets of the units of an access unit take, each behind so many bytes.
    /// Nothing changes, and units are refused as where the packets are made.
    pub fn units_size(
        &self,
        alloc: Global,
        mtu: usize,
        access_unit: &[u8],
        headroom: usize,
    ) -> Result<PacketsSize, EveryUnitError>
        ensures size { IfOk result (λ it. IsSizeOf headroom
            (sending_every_packets self.now mtu access_unit.now) it) }
        ensures refused { (unit : RefusedUnit) →
            sending_refusal self.now mtu access_unit.now ≡ Some unit →
            (result ≡ Err (EveryUnitError.Unit unit)) ⊎ (result ≡ Err EveryUnitError.OutOfMemory) }
        ensures memory { sending_refusal self.now mtu access_unit.now ≡ None →
            OnErr result (result ≡ Err EveryUnitError.OutOfMemory) }
    {
        let mut list = UnitList::new(alloc, access_unit);
        self.list_sent(access_unit, &mut list)?;
        let packing = self.settings.packing;
        match self
            .packetizer
            .units_size(packing, mtu, list.as_slice(), headroom)
        {
            Ok(size) => Ok(size),
            Err(error) => Err(self.refused_among_all(alloc, access_unit, error)),
        }
    }

    /// Copies the packets of the units of an access unit straight to memory where they fit; else
    /// nothing is done. Units are refused as where the packets stay here.
    pub fn packetize_units_to_memory(
        &mut self,
        alloc: Global,
        mtu: usize,
        access_unit: &[u8],
        headroom: usize,
        to: &mut [u8],
        ends: &mut [usize],
    ) -> Result<Placement, EveryUnitError>
        ensures packets { IfOk result (λ it. IsPlacement headroom
            (sending_every_packets self.old mtu access_unit.now)
            to.old to.new ends.old ends.new it) }
        ensures after { IfOk result (λ it. IsBehindPlaced it
            (λ s. after_units s (sending_units self.old access_unit.now))
            self.old.packetizer self.new.packetizer) }
        ensures codec { any_packetizer_codec self.new.packetizer
            ≡ any_packetizer_codec self.old.packetizer }
        ensures kept_packets { self.new.packets ≡ self.old.packets }
        ensures settings { self.new.settings ≡ self.old.settings }
        ensures kept_unplaced { IfOk result (λ it. is_placed it ≡ false → self.new ≡ self.old) }
        ensures kept { OnErr result (self.new ≡ self.old) }
        ensures kept_memory { OnErr result ((to.new ≡ to.old) × (ends.new ≡ ends.old)) }
        ensures refused { (unit : RefusedUnit) →
            sending_refusal self.old mtu access_unit.now ≡ Some unit →
            (result ≡ Err (EveryUnitError.Unit unit)) ⊎ (result ≡ Err EveryUnitError.OutOfMemory) }
        ensures memory { sending_refusal self.old mtu access_unit.now ≡ None →
            OnErr result (result ≡ Err EveryUnitError.OutOfMemory) }
    {
        let mut list = UnitList::new(alloc, access_unit);
        self.list_sent(access_unit, &mut list)?;
        let packing = self.settings.packing;
        let made = self
            .packetizer
            .packetize_units_to_memory(packing, mtu, list.as_slice(), headroom, to, ends);
        match made {
            Ok(placement) => Ok(placement),
            Err(error) => Err(self.refused_among_all(alloc, access_unit, error)),
        }
    }
}
