//! A unit of an aggregation packet behind the first (RFC 7798, 4.4.2).

ghost use Rattle.std.specs.Prelude.{◌≡◌, ◌<◌, length, IfOk, OnOk, OnErr, Err};
ghost use Rattle.h265_packets.specs.Payload.{empty_other};

use h26x_core::PacketError;
use std::alloc::{AllocError, Global};
use std::marker::Model;

/// A unit of an aggregation packet behind the first (RFC 7798, 4.4.2), and DOND where it was read.
#[derive(Debug, Drop)]
pub struct H265AggregationUnit {
    dond: Option<u8>,
    nal_unit: Vec<u8>,
}

impl Model for H265AggregationUnit {
    ghost use Rattle.std.specs.Prelude.{◌<◌, length};
    ghost use Rattle.h265_packets.specs.Payload.{OtherUnit};

    ghost Value = { OtherUnit };

    ghost view = { λ a. record { dond = a.dond; nal_unit = a.nal_unit.items } };

    ghost invariant = { λ a. length a.nal_unit.items < 65536 };
}

impl H265AggregationUnit {
    /// The unit of these parts (RFC 7798, 4.4.2).
    pub fn of(dond: Option<u8>, nal_unit: Vec<u8>) -> Self
        requires { length nal_unit.items < 65536 }
        ensures { result ≡ record { dond = dond; nal_unit = nal_unit.items } }
    {
        H265AggregationUnit { dond, nal_unit }
    }

    /// A unit of no byte, without DOND. It takes no memory.
    pub fn empty(alloc: Global) -> Self
        ensures { result ≡ empty_other }
    {
        H265AggregationUnit {
            dond: None,
            nal_unit: Vec::new(alloc),
        }
    }

    /// DOND, the difference of the unit's decoding order number from that of the unit before, less
    /// 1, where it was read (RFC 7798, 4.4.2).
    pub fn dond(&self) -> Option<u8>
        ensures { result ≡ self.now.dond }
    {
        self.dond
    }

    /// How many bytes the unit has, its header among them (RFC 7798, 4.4.2).
    pub fn nalu_size(&self) -> u16
        ensures { result ≡ length self.now.nal_unit }
    {
        self.nal_unit.len() as u16
    }

    /// The unit with its header (RFC 7798, 4.4.2).
    pub fn nal_unit(&self) -> &[u8]
        ensures { result.now ≡ self.now.nal_unit }
    {
        self.nal_unit.as_slice()
    }

    /// The same unit again. `OutOfMemory` is its only error.
    pub fn clone(&self, alloc: Global) -> Result<Self, PacketError>
        ensures same { IfOk result (λ it. it ≡ self.now) }
        ensures memory { OnErr result (result ≡ Err PacketError.OutOfMemory) }
    {
        Ok(H265AggregationUnit {
            dond: self.dond,
            nal_unit: self.nal_unit.to_vec(alloc)?,
        })
    }

    /// The unit of these parts in the place of this one, and in its buffer. A refusal leaves this
    /// one.
    pub fn set(&mut self, dond: Option<u8>, nal_unit: &[u8]) -> Result<(), AllocError>
        requires { length nal_unit.now < 65536 }
        ensures parts { OnOk result (self.new ≡ record { dond = dond; nal_unit = nal_unit.now }) }
        ensures kept { OnErr result (self.new ≡ self.old) }
    {
        let more = nal_unit.len().saturating_sub(self.nal_unit.len());
        self.nal_unit.reserve(more)?;
        self.nal_unit.clear();
        self.nal_unit.extend_from_slice(nal_unit).unwrap();
        self.dond = dond;
        Ok(())
    }
}

impl PartialEq for H265AggregationUnit {
    ghost use Rattle.h265_packets.specs.Payload.{other_eq};
    ghost use Rattle.std.specs.Cmp.{partial_equiv_from_equiv};
    ghost use Rattle.std.specs.Cmp.Rules.{comparing};
    ghost use Rattle.std.proofs.Common.{rules};

    ghost eq = { other_eq };

    ghost laws = { partial_equiv_from_equiv (Prim.search (comparing, rules)) };

    fn eq(&self, other: &Self) -> bool {
        self.dond == other.dond && self.nal_unit == other.nal_unit
    }
}

impl Eq for H265AggregationUnit {
    ghost use Rattle.std.specs.Cmp.Rules.{comparing};
    ghost use Rattle.std.proofs.Common.{rules};

    ghost laws = { Prim.search (comparing, rules) };
}
