//! The first unit of an aggregation packet (RFC 7798, 4.4.2).

ghost use Rattle.std.specs.Prelude.{◌≡◌, ◌<◌, length, IfOk, OnErr, Err};
ghost use Rattle.h265_packets.specs.Payload.{empty_first};

use h26x_core::PacketError;
use std::alloc::Global;
use std::marker::Model;

/// The first unit of an aggregation packet (RFC 7798, 4.4.2), and DONL where it was read.
#[derive(Debug, Drop)]
pub struct H265AggregationUnitFirst {
    donl: Option<u16>,
    nal_unit: Vec<u8>,
}

impl Model for H265AggregationUnitFirst {
    ghost use Rattle.std.specs.Prelude.{◌<◌, length};
    ghost use Rattle.h265_packets.specs.Payload.{FirstUnit};

    ghost Value = { FirstUnit };

    ghost view = { λ a. record { donl = a.donl; nal_unit = a.nal_unit.items } };

    ghost invariant = { λ a. length a.nal_unit.items < 65536 };
}

impl H265AggregationUnitFirst {
    /// The unit of these parts (RFC 7798, 4.4.2).
    pub fn of(donl: Option<u16>, nal_unit: Vec<u8>) -> Self
        requires { length nal_unit.items < 65536 }
        ensures { result ≡ record { donl = donl; nal_unit = nal_unit.items } }
    {
        H265AggregationUnitFirst { donl, nal_unit }
    }

    /// A unit of no byte, without DONL. It takes no memory.
    pub fn empty(alloc: Global) -> Self
        ensures { result ≡ empty_first }
    {
        H265AggregationUnitFirst {
            donl: None,
            nal_unit: Vec::new(alloc),
        }
    }

    /// DONL, the low 16 bits of the unit's decoding order number, where it was read (RFC 7798,
    /// 4.4.2).
    pub fn donl(&self) -> Option<u16>
        ensures { result ≡ self.now.donl }
    {
        self.donl
    }

    /// How many bytes the unit has, its header among them (RFC 7798, 4.4.2).
    pub fn nalu_size(&self) -> u16
        ensures { result ≡ length self.now.nal_unit }
    {
        self.nal_unit.len() as u16
    }

    /// The unit with its header (RFC 7798, 4.4.2).
    pub fn nal_unit(&self) -> &[u8]
        ensures { result.now ≡ self.now.nal_unit }
    {
        self.nal_unit.as_slice()
    }

    /// The same unit again. `OutOfMemory` is its only error.
    pub fn clone(&self, alloc: Global) -> Result<Self, PacketError>
        ensures same { IfOk result (λ it. it ≡ self.now) }
        ensures memory { OnErr result (result ≡ Err PacketError.OutOfMemory) }
    {
        Ok(H265AggregationUnitFirst {
            donl: self.donl,
            nal_unit: self.nal_unit.to_vec(alloc)?,
        })
    }

    /// The buffer of the unit, to be used again.
    pub fn into_buffer(self) -> Vec<u8>
        ensures { result.items ≡ self.nal_unit }
    {
        self.nal_unit
    }
}

impl PartialEq for H265AggregationUnitFirst {
    ghost use Rattle.h265_packets.specs.Payload.{first_eq};
    ghost use Rattle.std.specs.Cmp.{partial_equiv_from_equiv};
    ghost use Rattle.std.specs.Cmp.Rules.{comparing};
    ghost use Rattle.std.proofs.Common.{rules};

    ghost eq = { first_eq };

    ghost laws = { partial_equiv_from_equiv (Prim.search (comparing, rules)) };

    fn eq(&self, other: &Self) -> bool {
        self.donl == other.donl && self.nal_unit == other.nal_unit
    }
}

impl Eq for H265AggregationUnitFirst {
    ghost use Rattle.std.specs.Cmp.Rules.{comparing};
    ghost use Rattle.std.proofs.Common.{rules};

    ghost laws = { Prim.search (comparing, rules) };
}
