//! H.264 where every unit goes: a STAP-A has the header of its units (RFC 6184, 5.7 and 5.7.1).

ghost use Rattle.std.specs.Prelude.{◌≡◌, ◌≤◌, ◌*◌, max, nat_le, ◌&&◌};
ghost use Rattle.std.specs.List.{list_any};
ghost use Rattle.h26x_model.specs.Send.Every.{has_f_bit};
ghost use Rattle.h26x_packetizer.specs.Group.{lent_units};
ghost use Rattle.h264_payload.specs.EveryUnit.{highest_nri, nri_of};

use crate::codec::H264;
use h26x_core::{NALU_TYPE_BITMASK, STAPA_HEADER_SIZE, STAPA_NALU_LENGTH_SIZE};
use h26x_packetizer::EveryFormat;

/// The NRI of a unit.
fn nri_of(unit: &[u8]) -> u8
    ensures is { result ≡ nri_of unit.now }
    ensures few { result ≤ 3 }
{
    match unit.first() {
        Some(first) => *first >> 5 & 3,
        None => 0,
    }
}

/// Whether F is set.
fn is_forbidden(unit: &[u8]) -> bool
    ensures { result ≡ has_f_bit unit.now }
{
    match unit.first() {
        Some(first) => *first & 0x80 != 0,
        None => false,
    }
}

/// The greatest NRI of units, and whether F of one of them is set.
fn highest_of(units: &[&[u8]]) -> (u8, bool)
    ensures highest { result.0 ≡ highest_nri (lent_units units.now) }
    ensures few { result.0 ≤ 3 }
    ensures forbidden { result.1 ≡ list_any has_f_bit (lent_units units.now) }
{
    let mut highest = 0;
    let mut forbidden = false;
    for unit in units {
        highest = nri_of(unit).max(highest);
        forbidden = forbidden || is_forbidden(unit);
    }
    (highest, forbidden)
}

impl EveryFormat for H264 {
    ghost use Rattle.h264_payload.specs.EveryUnit.{own_aggregate, is_slice};
    ghost use Rattle.h264_payload.specs.EveryFacts.{fits_every, every_numbers, every_by_sum};
    ghost use Rattle.std.proofs.Common.{arith};

    ghost aggregate = { λ codec. own_aggregate };

    ghost start = { λ codec. 1 };

    ghost each = { λ codec. 2 };

    ghost is_slice = { λ codec. is_slice };

    fn units_start(self) -> usize {
        STAPA_HEADER_SIZE
    }

    fn unit_start(self) -> usize {
        STAPA_NALU_LENGTH_SIZE
    }

    fn is_slice(self, unit: &[u8]) -> bool {
        match unit.first() {
            Some(first) => matches!(*first & NALU_TYPE_BITMASK, 1..=5),
            None => false,
        }
    }

    fn own_header(self, units: &[&[u8]]) -> [u8; 2] {
        let (highest, forbidden) = highest_of(units);
        let forbidden = if forbidden { 0x80 } else { 0 };
        [forbidden + highest * 32 + 24, 0]
    }

    fn has_own_header(self, unit: &[u8]) -> bool {
        match unit.first() {
            Some(first) => *first < 0x80 && matches!(*first & NALU_TYPE_BITMASK, 1..=23),
            None => false,
        }
    }

    ghost fits_every = { λ codec. fits_every };

    ghost dons_every = { λ codec. every_numbers };

    ghost by_sum = { λ codec. every_by_sum };

    ghost some_each = { λ codec. omega arith };
}
