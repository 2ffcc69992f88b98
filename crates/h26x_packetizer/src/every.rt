//! Every unit of a list in packets, in order.

ghost use Rattle.std.specs.Prelude.{◌≡◌, ◌≤◌, ◌++◌, ◌∷◌, [], length, IfOk, OnOk, OnErr, Err};
ghost use Rattle.std.specs.List.{AllByRecursion};
ghost use Rattle.h26x_model.specs.Payload.Format.{IsLimit};
ghost use Rattle.h26x_model.specs.Send.Every.{AreSendable, every_unit, units_items, with_own_aggregates};
ghost use Rattle.h26x_packetizer.specs.Sending.{ArePushed};
ghost use Rattle.h26x_packetizer.specs.Group.{lent_units, may_share, HaveHeaders};
ghost use Rattle.h26x_packetizer.specs.InOne.{GoInOne};
ghost use Rattle.h26x_packetizer.specs.declared.packing.Packing.{Packing};

use crate::body::Body;
use crate::every_format::EveryFormat;
use crate::fragmentation::donl_bytes;
use crate::group::first_group;
use crate::packing::Packing;
use crate::sink::PacketSink;
use crate::units::push_unit;
use h26x_core::PacketError;
use h26x_model::laws;
use std::alloc::AllocError;

/// Appends an aggregate of units.
#[inline(always)]
fn push_together<'a, C: EveryFormat, S: PacketSink<'a>>(
    codec: C,
    don: u16,
    units: &'a [&'a [u8]],
    made: &mut S,
) -> Result<(), AllocError>
    requires some { 1 ≤ length units.now }
    requires whole { HaveHeaders (C.format codec) (lent_units units.now) }
    ensures pushed { OnOk result (S.packets made.new ≡ S.packets made.old
        ++ C.aggregate codec don (lent_units units.now) ∷ []) }
    ensures before { S.before made.new ≡ S.before made.old }
{
    let header = codec.own_header(units);
    let mut bytes = [0; 2];
    let donl = donl_bytes(codec.has_donl(), don, &mut bytes);
    let gap: &'a [u8] = if codec.has_dond() { &[0] } else { &[] };
    made.push(
        &header[..codec.header_len()],
        donl,
        Body::Units { units, gap },
    )
}

/// Appends the packets of a group of units; the next number.
#[inline(always)]
fn push_group<'a, C: EveryFormat, S: PacketSink<'a>>(
    codec: C,
    limit: usize,
    don: u16,
    units: &'a [&'a [u8]],
    made: &mut S,
) -> Result<u16, PacketError>
    requires some { 1 ≤ length units.now }
    requires whole { HaveHeaders (C.format codec) (lent_units units.now) }
    requires sendable { AreSendable (C.format codec) limit (lent_units units.now) }
    ensures sent { IfOk result (λ next.
        ArePushed (with_own_aggregates (C.format codec) (C.aggregate codec)) don
        (units_items limit (lent_units units.now)) (S.packets made.old) (S.packets made.new) next) }
    ensures before { S.before made.new ≡ S.before made.old }
    ensures memory { OnErr result (result ≡ Err PacketError.OutOfMemory) }
{
    if units.len() == 1 {
        return push_unit(codec, limit, don, units[0], made);
    }
    push_together(codec, don, units, made)?;
    Ok(don.wrapping_add((units.len() % 65536) as u16))
}

/// Appends the packet of units that are known to go in one, as [`push_units`] does: none is looked at
/// again to tell how many go.
#[inline(always)]
pub(crate) fn push_in_one<'a, C: EveryFormat, S: PacketSink<'a>>(
    codec: C,
    limit: usize,
    don: u16,
    units: &'a [&'a [u8]],
    made: &mut S,
) -> Result<u16, PacketError>
    requires limit { IsLimit (C.format codec) limit }
    requires some { 1 ≤ length units.now }
    requires whole { HaveHeaders (C.format codec) (lent_units units.now) }
    requires sendable { AreSendable (C.format codec) limit (lent_units units.now) }
    ensures sent { (packing : Packing) → GoInOne (C.format codec) packing (C.is_slice codec)
        (C.start codec) (C.each codec) limit (lent_units units.now) → IfOk result (λ next.
        ArePushed (with_own_aggregates (C.format codec) (C.aggregate codec)) don
        (every_unit (with_own_aggregates (C.format codec) (C.aggregate codec))
        (may_share packing (C.is_slice codec)) limit (lent_units units.now))
        (S.packets made.old) (S.packets made.new) next) }
    ensures before { S.before made.new ≡ S.before made.old }
    ensures memory { OnErr result (result ≡ Err PacketError.OutOfMemory) }
{
    laws::donl_has_two_bytes();
    push_group(codec, limit, don, units, made)
}

/// Appends the packets of units, in order, none of them left out; the next number.
pub(crate) fn push_units<'a, C: EveryFormat, S: PacketSink<'a>>(
    codec: C,
    packing: Packing,
    limit: usize,
    don: u16,
    units: &'a [&'a [u8]],
    made: &mut S,
) -> Result<u16, PacketError>
    requires limit { IsLimit (C.format codec) limit }
    requires whole { HaveHeaders (C.format codec) (lent_units units.now) }
    requires sendable { AreSendable (C.format codec) limit (lent_units units.now) }
    ensures sent { IfOk result (λ next.
        ArePushed (with_own_aggregates (C.format codec) (C.aggregate codec)) don
        (every_unit (with_own_aggregates (C.format codec) (C.aggregate codec))
        (may_share packing (C.is_slice codec)) limit (lent_units units.now))
        (S.packets made.old) (S.packets made.new) next) }
    ensures before { S.before made.new ≡ S.before made.old }
    ensures memory { OnErr result (result ≡ Err PacketError.OutOfMemory) }
{
    laws::donl_has_two_bytes();
    if units.len() == 1 {
        return push_unit(codec, limit, don, units[0], made);
    }
    let mut don = don;
    let mut at = 0;
    while at < units.len() {
        let count = first_group(codec, packing, limit, &units[at..]);
        don = push_group(codec, limit, don, &units[at..at + count], made)?;
        at += count;
    }
    Ok(don)
}
