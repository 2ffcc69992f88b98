//! The header of an aggregation packet by its units (RFC 7798, 4.4.2).

ghost use Rattle.std.specs.Prelude.{◌≡◌, ◌+◌, ◌*◌, ◌<◌, ◌≤◌, ◌∷◌, ◌||◌, ◌/◌, ◌%◌, false, nat_le, min, drop, length, slice_index, None, IfSome};
ghost use Rattle.std.specs.List.{list_any};
ghost use Rattle.h26x_core.specs.Word.{flag};
ghost use Rattle.h26x_core.specs.H265Unit.{type_of};
ghost use Rattle.h265_payload.specs.Shown.{units_in};
ghost use Rattle.h265_payload.specs.LowestHeader as spec;

mod cases;

use crate::codec::{H265, header_of};
use h26x_core::h265_types::AGGREGATION_PACKET;
use h26x_depacketizer::Aggregate;

/// What units have in common with the header of their aggregate: F where one has it, and the lowest
/// layer and temporal id.
#[derive(Clone, Copy)]
pub struct Lowest {
    pub forbidden: bool,
    pub layer: u8,
    pub temporal: u8,
}

/// Whether F is set.
fn is_forbidden(unit: &[u8]) -> bool
    ensures { result ≡ spec.has_forbidden_bit unit.now }
{
    !unit.is_empty() && unit[0] >> 7 == 1
}

/// The layer of a unit.
fn layer(unit: &[u8]) -> u8
    ensures is { result ≡ spec.layer_of unit.now }
    ensures few { result ≤ 63 }
{
    if unit.len() < 2 {
        return 0;
    }
    (unit[0] & 1) * 32 + (unit[1] >> 3)
}

/// The temporal id of a unit.
fn temporal(unit: &[u8]) -> u8
    ensures is { result ≡ spec.temporal_of unit.now }
    ensures few { result ≤ 7 }
{
    if unit.len() < 2 { 0 } else { unit[1] & 7 }
}

impl Lowest {
    /// What no unit has: nothing is lower with one more.
    pub(crate) fn of_none() -> Lowest
        ensures forbidden { result.forbidden ≡ false }
        ensures layer { result.layer ≡ 63 }
        ensures temporal { result.temporal ≡ 7 }
    {
        Lowest {
            forbidden: false,
            layer: 63,
            temporal: 7,
        }
    }

    /// The header of an aggregate of units that have it.
    pub(crate) fn header(self) -> (u8, u8)
        requires layer { self.layer ≤ 63 }
        requires temporal { self.temporal ≤ 7 }
        ensures high { result.0 ≡ flag self.forbidden 0x80 + 48 * 2 + self.layer / 32 }
        ensures low { result.1 ≡ self.layer % 32 * 8 + self.temporal }
    {
        let forbidden = if self.forbidden { 0x80 } else { 0 };
        let high = forbidden + AGGREGATION_PACKET * 2 + self.layer / 32;
        (high, self.layer % 32 * 8 + self.temporal)
    }

    /// The same with one unit more.
    pub(crate) fn with(self, unit: &[u8]) -> Lowest
        ensures forbidden { result.forbidden
            ≡ (self.forbidden || spec.has_forbidden_bit unit.now) }
        ensures layer { result.layer ≡ min self.layer (spec.layer_of unit.now) }
        ensures temporal { result.temporal ≡ min self.temporal (spec.temporal_of unit.now) }
    {
        Lowest {
            forbidden: self.forbidden || is_forbidden(unit),
            layer: self.layer.min(layer(unit)),
            temporal: self.temporal.min(temporal(unit)),
        }
    }
}

/// What all units of an aggregate's bytes have.
fn lowest_of(codec: H265, bytes: &[u8]) -> Lowest
    ensures forbidden { result.forbidden
        ≡ list_any spec.has_forbidden_bit (units_in codec.has_donl bytes.now) }
    ensures layer { result.layer ≡ spec.lowest_layer (units_in codec.has_donl bytes.now) }
    ensures temporal { result.temporal ≡ spec.lowest_temporal (units_in codec.has_donl bytes.now) }
    ensures few { result.layer ≤ 63 }
    ensures few_temporal { result.temporal ≤ 7 }
{
    let mut lowest = Lowest::of_none();
    let mut rest = bytes;
    while let Some((unit, behind)) = codec.first_unit(rest) {
        lowest = lowest.with(unit);
        rest = behind;
    }
    lowest
}

/// Whether two units or more stand whole in an aggregate's bytes.
fn has_two_units(codec: H265, bytes: &[u8]) -> bool
    ensures { result ≡ nat_le 2 (length (units_in codec.has_donl bytes.now)) }
{
    match codec.first_unit(bytes) {
        Some((_, behind)) => codec.first_unit(behind).is_some(),
        None => false,
    }
}

/// The header by the units, of a packet that is an aggregate of two or more.
fn lowest_header(has_donl: bool, packet: &[u8]) -> Option<(u8, u8)>
    ensures header { IfSome result (λ it. spec.with_lowest_header has_donl packet.now
        ≡ it.0 ∷ it.1 ∷ drop 2 packet.now) }
    ensures long { IfSome result (λ it. 2 ≤ length packet.now) }
    ensures none { result ≡ None → spec.with_lowest_header has_donl packet.now ≡ packet.now }
{
    let start = if has_donl { 3 } else { 2 };
    if packet.len() < start || !header_of(packet).is_aggregation_packet() {
        return None;
    }
    let codec = H265 { has_donl };
    let bytes = &packet[start..];
    if !has_two_units(codec, bytes) {
        return None;
    }
    Some(lowest_of(codec, bytes).header())
}

/// Gives an aggregation packet the header that RFC 7798, 4.4.2 asks for: F where a unit in it has it,
/// the lowest layer and the lowest temporal id of its units. Every other packet, and an aggregate of
/// fewer than two whole units, stays as it is; so do all bytes behind the header.
///
/// A packetizer gives the sets that it sends in one packet the layer and the temporal id of the unit
/// behind them, as str0m does. So where a forwarder drops packets by their temporal id, sets before a
/// slice of a high one are dropped with it, unless each packet is handed to this call before it is
/// sent. `has_donl` is the packetizer's: whether packets bear decoding order numbers (4.6).
///
/// ```rust
/// for packet in packets.iter_mut() {
///     set_lowest_header(false, packet);
/// }
/// ```
pub fn set_lowest_header(has_donl: bool, packet: &mut [u8])
    ensures { packet.new ≡ spec.with_lowest_header has_donl packet.old }
{
    if let Some((high, low)) = lowest_header(has_donl, packet) {
        packet[..2].copy_from_slice(&[high, low]);
    }
}
