//! Aggregation packets (RFC 7798, 4.4.2).

ghost use Rattle.std.specs.Prelude.{◌≡◌, ◌<◌, length, map, [], Some, IfOk, OnErr, Err};
ghost use Rattle.std.specs.Option.{option_map, option_map_or};
ghost use Rattle.h265_packets.specs.Payload.{empty_aggregation, units_shown};

use crate::first_unit::H265AggregationUnitFirst;
use crate::other_unit::H265AggregationUnit;
use h26x_core::PacketError;
use std::alloc::Global;
use std::marker::Model;
use std::mem;

/// These units again.
fn clone_units(
    alloc: Global,
    units: &[H265AggregationUnit],
) -> Result<Vec<H265AggregationUnit>, PacketError>
    ensures same { IfOk result (λ clones. clones.items ≡ units.now) }
    ensures memory { OnErr result (result ≡ Err PacketError.OutOfMemory) }
{
    let mut clones = Vec::with_capacity(alloc, units.len())?;
    for unit in units {
        clones.push(unit.clone(alloc)?).unwrap();
    }
    Ok(clones)
}

/// An aggregation packet (RFC 7798, 4.4.2): its first unit, and the others in order.
#[derive(Debug, Drop)]
pub struct H265AggregationPacket {
    first: Option<H265AggregationUnitFirst>,
    others: Vec<H265AggregationUnit>,
    has_donl: bool,
}

impl Model for H265AggregationPacket {
    ghost use Rattle.h265_packets.specs.Payload.{AggregationPacket};

    ghost Value = { AggregationPacket };

    ghost view = { λ a. record {
      first = a.first;
      others = a.others.items;
      has_donl = a.has_donl;
    } };
}

impl H265AggregationPacket {
    /// The packet of these units (RFC 7798, 4.4.2). `has_donl` is the mark that `with_donl` sets.
    pub fn of(
        first: Option<H265AggregationUnitFirst>,
        others: Vec<H265AggregationUnit>,
        has_donl: bool,
    ) -> Self
        ensures { result ≡ record { first = first; others = others.items; has_donl = has_donl } }
    {
        H265AggregationPacket {
            first,
            others,
            has_donl,
        }
    }

    /// A packet of no unit, not marked. It takes no memory.
    pub fn empty(alloc: Global) -> Self
        ensures { result ≡ empty_aggregation }
    {
        H265AggregationPacket {
            first: None,
            others: Vec::new(alloc),
            has_donl: false,
        }
    }

    /// Marks the packet as one with DONL and DOND (RFC 7798, 4.4.2), or as one without. Equality
    /// alone tells the mark; the units stay as they are.
    pub fn with_donl(&mut self, value: bool)
        ensures { self.new ≡ record self.old { has_donl = value } }
    {
        self.has_donl = value;
    }

    /// The first unit; there is one in every packet that was read (RFC 7798, 4.4.2).
    pub fn first_unit(&self) -> Option<&H265AggregationUnitFirst>
        ensures { option_map (λ unit. unit.now) result ≡ self.now.first }
    {
        self.first.as_ref()
    }

    /// The units behind the first, in order (RFC 7798, 4.4.2).
    pub fn other_units(&self) -> &[H265AggregationUnit]
        ensures { result.now ≡ self.now.others }
    {
        self.others.as_slice()
    }

    /// All units with their headers, the first and then the others (RFC 7798, 4.4.2). `OutOfMemory`
    /// is its only error.
    pub fn nal_units(&self, alloc: Global) -> Result<Vec<&[u8]>, PacketError>
        ensures units { IfOk result (λ units. map (λ unit. unit.now) units.items
            ≡ units_shown self.now) }
        ensures memory { OnErr result (result ≡ Err PacketError.OutOfMemory) }
    {
        let mut units = Vec::with_capacity(alloc, self.others.len().saturating_add(1))?;
        if let Some(first) = &self.first {
            units.push(first.nal_unit())?;
        }
        for unit in &self.others {
            units.push(unit.nal_unit())?;
        }
        Ok(units)
    }

    /// The same packet again. `OutOfMemory` is its only error.
    pub fn clone(&self, alloc: Global) -> Result<Self, PacketError>
        ensures same { IfOk result (λ it. it ≡ self.now) }
        ensures memory { OnErr result (result ≡ Err PacketError.OutOfMemory) }
    {
        let first = match &self.first {
            Some(unit) => Some(unit.clone(alloc)?),
            None => None,
        };
        Ok(H265AggregationPacket {
            first,
            others: clone_units(alloc, &self.others)?,
            has_donl: self.has_donl,
        })
    }

    /// The packet of these units in the place of this one; the buffers of the first units are
    /// exchanged, and the others.
    pub fn set(
        &mut self,
        donl: Option<u16>,
        first: &mut Vec<u8>,
        others: &mut Vec<H265AggregationUnit>,
        has_donl: bool,
    )
        requires { length first.old.items < 65536 }
        ensures packet { self.new ≡ record {
          first = Some (record { donl = donl; nal_unit = first.old.items });
          others = others.old.items;
          has_donl = has_donl;
        } }
        ensures first { first.new.items
            ≡ option_map_or (λ unit. unit.nal_unit) self.old.first [] }
        ensures others { others.new.items ≡ self.old.others }
    {
        let alloc = *first.allocator();
        let unit = H265AggregationUnitFirst::of(donl, mem::replace(first, Vec::new(alloc)));
        if let Some(before) = mem::replace(&mut self.first, Some(unit)) {
            *first = before.into_buffer();
        }
        mem::swap(&mut self.others, others);
        self.has_donl = has_donl;
    }

    /// The units, the first and then the others, to be used again.
    pub fn into_units(self) -> (Option<H265AggregationUnitFirst>, Vec<H265AggregationUnit>)
        ensures first { result.0 ≡ self.first }
        ensures others { result.1.items ≡ self.others }
    {
        (self.first, self.others)
    }

    /// The buffer of the first unit, to be used again.
    pub fn into_buffer(self) -> Option<Vec<u8>> {
        self.first.map(H265AggregationUnitFirst::into_buffer)
    }
}

impl PartialEq for H265AggregationPacket {
    ghost use Rattle.h265_packets.specs.Payload.{aggregation_eq};
    ghost use Rattle.std.specs.Cmp.{partial_equiv_from_equiv};
    ghost use Rattle.std.specs.Cmp.Rules.{comparing};
    ghost use Rattle.std.proofs.Common.{rules};

    ghost eq = { aggregation_eq };

    ghost laws = { partial_equiv_from_equiv (Prim.search (comparing, rules) depth 9) };

    fn eq(&self, other: &Self) -> bool {
        self.first == other.first && self.others == other.others && self.has_donl == other.has_donl
    }
}

impl Eq for H265AggregationPacket {
    ghost use Rattle.std.specs.Cmp.Rules.{comparing};
    ghost use Rattle.std.proofs.Common.{rules};

    ghost laws = { Prim.search (comparing, rules) depth 9 };
}
