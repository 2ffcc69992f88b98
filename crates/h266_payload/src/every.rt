//! H.266 where every unit goes: an aggregate has the header of its units (RFC 9328, 4.3.2).

ghost use Rattle.std.specs.Prelude.{◌≡◌, ◌≤◌, length};
ghost use Rattle.std.specs.List.{list_any};
ghost use Rattle.h26x_packetizer.specs.Group.{lent_units};
ghost use Rattle.h266_payload.specs.H266.{has_forbidden_bit, layer_of, temporal_of, least};

use crate::codec::{H266, header_of};
use crate::packetizer::{is_forbidden, layer, temporal};
use h26x_core::h266_types::{AGGREGATION_PACKET, FRAGMENTATION_UNIT};
use h26x_packetizer::EveryFormat;

/// What units have in common with the header of their aggregate: F where one has it, and the lowest
/// layer and temporal id.
#[derive(Clone, Copy)]
pub struct Lowest {
    forbidden: bool,
    layer: u8,
    temporal: u8,
}

/// What all of the units have.
fn lowest_of(units: &[&[u8]]) -> Lowest
    requires { 1 ≤ length units.now }
    ensures forbidden { result.forbidden ≡ list_any has_forbidden_bit (lent_units units.now) }
    ensures layer { result.layer ≡ least layer_of (lent_units units.now) }
    ensures temporal { result.temporal ≡ least temporal_of (lent_units units.now) }
    ensures few { result.layer ≤ 63 }
    ensures few_temporal { result.temporal ≤ 7 }
{
    let mut forbidden = false;
    let mut lowest = 63;
    let mut lowest_temporal = 7;
    for unit in units {
        forbidden = forbidden || is_forbidden(unit);
        lowest = layer(unit).min(lowest);
        lowest_temporal = temporal(unit).min(lowest_temporal);
    }
    Lowest {
        forbidden,
        layer: lowest,
        temporal: lowest_temporal,
    }
}

impl EveryFormat for H266 {
    ghost use Rattle.h266_payload.specs.EveryUnit.{own_aggregate, units_start, is_slice};
    ghost use Rattle.h266_payload.specs.EveryFacts.{fits_every, every_numbers, every_by_sum};
    ghost use Rattle.std.proofs.Common.{arith};

    ghost aggregate = { λ codec. own_aggregate codec.has_donl };

    ghost start = { λ codec. units_start codec.has_donl };

    ghost each = { λ codec. 2 };

    ghost is_slice = { λ codec. is_slice };

    fn units_start(self) -> usize {
        if self.has_donl { 4 } else { 2 }
    }

    fn unit_start(self) -> usize {
        2
    }

    fn is_slice(self, unit: &[u8]) -> bool {
        unit.len() >= 2 && header_of(unit).nalu_type() < 12
    }

    fn own_header(self, units: &[&[u8]]) -> [u8; 2] {
        let of_units = lowest_of(units);
        let forbidden_bit = if of_units.forbidden { 0x80 } else { 0 };
        [
            forbidden_bit + of_units.layer,
            AGGREGATION_PACKET * 8 + of_units.temporal.max(1),
        ]
    }

    fn has_own_header(self, unit: &[u8]) -> bool {
        if unit.len() < 2 || unit[0] >= 0x80 {
            return false;
        }
        let nalu_type = header_of(unit).nalu_type();
        nalu_type != AGGREGATION_PACKET && nalu_type != FRAGMENTATION_UNIT
    }

    ghost fits_every = { λ codec. fits_every codec.has_donl };

    ghost dons_every = { λ codec. every_numbers codec.has_donl };

    ghost by_sum = { λ codec. every_by_sum codec.has_donl };

    ghost some_each = { λ codec. omega arith };
}
