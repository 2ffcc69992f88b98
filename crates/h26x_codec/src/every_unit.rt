//! Which units of an access unit are sent where every unit goes.

ghost use Rattle.std.specs.Prelude.{◌≡◌, ◌⊎◌, IfOk};
ghost use Rattle.h26x_packetizer.specs.Group.{lent_units};
ghost use Rattle.h26x_codec.specs.SentUnits.{is_delimiter, is_sent, place_among};
ghost use Rattle.h26x_codec.specs.SentUnits as spec;

use crate::codec::Codec;
use h26x_cut::{laws, units};
use h26x_packetizer::{EveryUnitError, RefusedUnit};
use std::alloc::{AllocError, Global};

/// For how many units there is room at first: so many that few access units need more.
const FIRST_UNITS: usize = 16;

impl Codec {
    /// Whether a unit is an access unit delimiter or filler data, of which a decoder needs nothing
    /// (H.264, table 7-1; H.265, table 7-1; H.266, table 5).
    pub fn is_delimiter(self, unit: &[u8]) -> bool
        ensures { result ≡ is_delimiter self unit.now }
    {
        let place = if self == Codec::H266 { 1 } else { 0 };
        if unit.len() <= place {
            return false;
        }
        let byte = unit[place];
        match self {
            Codec::H264 => matches!(byte & 0x1f, 9 | 12),
            Codec::H265 => matches!(byte >> 1 & 0x3f, 35 | 38),
            Codec::H266 => matches!(byte >> 3, 20 | 25),
        }
    }

    /// Whether a unit is sent, where delimiters and filler are, or are left out.
    fn sends(self, delimiters: bool, unit: &[u8]) -> bool
        ensures { result ≡ is_sent delimiters self unit.now }
    {
        delimiters || !self.is_delimiter(unit)
    }
}

/// The units of an access unit in Annex B form that are sent, as slices of it: all, or all but
/// delimiters and filler data.
pub fn sent_units<'a>(
    alloc: Global,
    codec: Codec,
    delimiters: bool,
    access_unit: &'a [u8],
) -> Result<Vec<&'a [u8]>, AllocError>
    ensures { IfOk result (λ it. lent_units it.items
        ≡ spec.sent_units delimiters codec access_unit.now) }
{
    laws::one_cutting();
    let mut found = Vec::with_capacity(alloc, FIRST_UNITS)?;
    for unit in units(access_unit, codec.zero_rule()) {
        if codec.sends(delimiters, unit) {
            found.push(unit)?;
        }
    }
    Ok(found)
}

/// The place among units of the one at this place among those of them that are sent; as many as there
/// are where none is at that place.
fn place_among(codec: Codec, delimiters: bool, units: &[&[u8]], place: usize) -> usize
    ensures { result ≡ place_among (is_sent delimiters codec) (lent_units units.now) place }
{
    let mut left = place;
    let mut at = 0;
    for unit in units {
        if codec.sends(delimiters, unit) {
            if left == 0 {
                return at;
            }
            left -= 1;
        }
        at += 1;
    }
    at
}

/// An error of sending the [`sent_units`] of an access unit, a refused unit by its place among all.
/// It is `OutOfMemory` too where memory lacks to find that.
pub fn refused_among_all(
    alloc: Global,
    codec: Codec,
    delimiters: bool,
    access_unit: &[u8],
    error: EveryUnitError,
) -> EveryUnitError
    ensures unit { (unit : RefusedUnit) → error ≡ EveryUnitError.Unit unit →
        (result ≡ EveryUnitError.Unit (spec.refused_among_all delimiters codec access_unit.now unit))
        ⊎ (result ≡ EveryUnitError.OutOfMemory) }
    ensures memory { error ≡ EveryUnitError.OutOfMemory → result ≡ EveryUnitError.OutOfMemory }
{
    let EveryUnitError::Unit(unit) = error else {
        return error;
    };
    match sent_units(alloc, codec, true, access_unit) {
        Ok(all) => EveryUnitError::Unit(RefusedUnit {
            place: place_among(codec, delimiters, &all, unit.place),
            ..unit
        }),
        Err(_) => EveryUnitError::OutOfMemory,
    }
}
