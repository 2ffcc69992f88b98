//! H.265 where every unit goes: an aggregate has the header of its units (RFC 7798, 4.4.2).

ghost use Rattle.std.specs.Prelude.{◌≡◌, ◌≤◌, ◌∷◌, []};
ghost use Rattle.std.specs.List.{list_any};
ghost use Rattle.h26x_packetizer.specs.Group.{lent_units};
ghost use Rattle.h265_payload.specs.LowestHeader.{has_forbidden_bit, lowest_layer, lowest_temporal, lowest_high, lowest_low};

use crate::codec::{H265Sending, header_of};
use crate::lowest_header::Lowest;
use h26x_core::h265_types::{AGGREGATION_PACKET, PACI_PACKET, VPS_NUT};
use h26x_packetizer::EveryFormat;

/// What all of the units have.
fn lowest_of(units: &[&[u8]]) -> Lowest
    ensures forbidden { result.forbidden ≡ list_any has_forbidden_bit (lent_units units.now) }
    ensures layer { result.layer ≡ lowest_layer (lent_units units.now) }
    ensures temporal { result.temporal ≡ lowest_temporal (lent_units units.now) }
    ensures few { result.layer ≤ 63 }
    ensures few_temporal { result.temporal ≤ 7 }
{
    let mut lowest = Lowest::of_none();
    for unit in units {
        lowest = lowest.with(unit);
    }
    lowest
}

/// The header of an aggregate of units, by them.
pub(crate) fn lowest_header_of(units: &[&[u8]]) -> [u8; 2]
    ensures { result
        ≡ lowest_high (lent_units units.now) ∷ lowest_low (lent_units units.now) ∷ [] }
{
    let (high, low) = lowest_of(units).header();
    [high, low]
}

impl EveryFormat for H265Sending {
    ghost use Rattle.h265_payload.specs.EveryUnit.{own_aggregate, units_start, is_slice};
    ghost use Rattle.h265_payload.specs.EveryFacts.{fits_every, every_numbers, every_by_sum};
    ghost use Rattle.h26x_payload.specs.Sets.{sets_gap};
    ghost use Rattle.std.specs.Prelude.{◌+◌, length};
    ghost use Rattle.std.proofs.Common.{arith};

    ghost aggregate = { λ it. own_aggregate it.codec.has_donl };

    ghost start = { λ it. units_start it.codec.has_donl };

    ghost each = { λ it. 2 + length (sets_gap it.codec.has_donl) };

    ghost is_slice = { λ it. is_slice };

    fn units_start(self) -> usize {
        if self.codec.has_donl { 3 } else { 2 }
    }

    fn unit_start(self) -> usize {
        if self.codec.has_donl { 3 } else { 2 }
    }

    fn is_slice(self, unit: &[u8]) -> bool {
        match unit.first() {
            Some(high) => *high >> 1 & 0x3f < VPS_NUT,
            None => false,
        }
    }

    fn own_header(self, units: &[&[u8]]) -> [u8; 2] {
        lowest_header_of(units)
    }

    fn has_own_header(self, unit: &[u8]) -> bool {
        if unit.len() < 2 || unit[0] >= 0x80 {
            return false;
        }
        let nalu_type = header_of(unit).nalu_type();
        nalu_type < AGGREGATION_PACKET || nalu_type > PACI_PACKET
    }

    ghost fits_every = { λ it. fits_every it.codec.has_donl };

    ghost dons_every = { λ it. every_numbers it.codec.has_donl };

    ghost by_sum = { λ it. every_by_sum it.codec.has_donl };

    ghost some_each = { λ it. omega arith };
}
