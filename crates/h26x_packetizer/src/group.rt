//! How many units go in one packet.

ghost use Rattle.std.specs.Prelude.{◌≡◌, ◌≤◌, ◌∷◌, true, length, take, drop};
ghost use Rattle.h26x_model.specs.Payload.Format.{IsLimit};
ghost use Rattle.h26x_model.specs.Send.Every.{groups_of, go_together};
ghost use Rattle.h26x_packetizer.specs.Group.{lent_units, may_share, fits_room, fitting};
ghost use Rattle.h26x_packetizer.specs.InOne.{GoInOne};

use crate::every_format::EveryFormat;
use crate::packing::Packing;
use crate::refusal::unit_refusal;

/// Whether a unit may share a packet.
fn may_share<C: EveryFormat>(codec: C, packing: Packing, unit: &[u8]) -> bool
    ensures { result ≡ may_share packing (C.is_slice codec) unit.now }
{
    match packing {
        Packing::Together => true,
        Packing::BeforeSlices => !codec.is_slice(unit),
        Packing::Apart | Packing::Single => false,
    }
}

/// Whether a unit with so many bytes before it fits the room that is left.
#[inline]
fn fits_room(each: usize, room: usize, unit: &[u8]) -> bool
    requires { each ≤ 3 }
    ensures { result ≡ fits_room each room unit.now }
{
    each + unit.len() <= room && unit.len() < 65536
}

/// How many units, from the first on, go in the room that is left.
fn fitting<C: EveryFormat>(codec: C, packing: Packing, room: usize, units: &[&[u8]]) -> usize
    ensures { result ≡ fitting (may_share packing (C.is_slice codec)) (C.each codec) room
        (lent_units units.now) }
{
    let each = codec.unit_start();
    let mut left = room;
    let mut count = 0;
    for unit in units {
        let goes = may_share(codec, packing, unit) && fits_room(each, left, unit);
        if !goes {
            return count;
        }
        left -= each + unit.len();
        count += 1;
    }
    count
}

/// How many of the units, from the first on, go in one packet within the limit: 1 where the first
/// goes alone, whole or in fragments.
pub(crate) fn first_group<C: EveryFormat>(
    codec: C,
    packing: Packing,
    limit: usize,
    units: &[&[u8]],
) -> usize
    requires some { 1 ≤ length units.now }
    requires limit { IsLimit (C.format codec) limit }
    ensures some { 1 ≤ result }
    ensures within { result ≤ length units.now }
    ensures group { groups_of (go_together (C.format codec) (may_share packing (C.is_slice codec))
        limit) (lent_units units.now)
        ≡ take result (lent_units units.now)
        ∷ groups_of (go_together (C.format codec) (may_share packing (C.is_slice codec)) limit)
        (drop result (lent_units units.now)) }
{
    let room = limit.saturating_sub(codec.units_start());
    let count = fitting(codec, packing, room, units);
    if count == 0 { 1 } else { count }
}

/// Whether several units go in one packet, and all of them can go: both are told by one look at each.
#[inline(always)]
pub(crate) fn go_in_one<C: EveryFormat>(
    codec: C,
    packing: Packing,
    limit: usize,
    units: &[&[u8]],
) -> bool
    ensures go { result ≡ true → GoInOne (C.format codec) packing (C.is_slice codec) (C.start codec)
        (C.each codec) limit (lent_units units.now) }
    ensures all { GoInOne (C.format codec) packing (C.is_slice codec) (C.start codec)
        (C.each codec) limit (lent_units units.now) → result ≡ true }
{
    if units.len() < 2 {
        return false;
    }
    let each = codec.unit_start();
    let mut left = limit.saturating_sub(codec.units_start());
    for unit in units {
        let goes = may_share(codec, packing, unit) && fits_room(each, left, unit);
        if !goes || unit_refusal(codec, packing, limit, unit).is_some() {
            return false;
        }
        left -= each + unit.len();
    }
    true
}
