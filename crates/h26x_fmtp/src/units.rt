//! NAL units in base64: the values of the `sprop` parameters.

ghost use Rattle.std.specs.Prelude.{◌≡◌, ◌++◌, ◌∷◌, ◌<◌, [], IfOk, IfSome, OnOk, length, map};
ghost use Rattle.std.specs.Option.{option_map_or};
ghost use Rattle.std.specs.String.{string_bytes};
ghost use Rattle.base64.specs.Engines.{standard};
ghost use Rattle.base64.specs.GeneralPurpose.{encode_of};
ghost use Rattle.h26x_fmtp.specs.Units as spec;
ghost use Rattle.h26x_fmtp.specs.UnitsViews.{units_view, SaysUnit, SaysUnits};

use crate::error::UnitsError;
use base64::DecodeAllocError;
use base64::engine::general_purpose::STANDARD;
use memchr::memchr;
use std::alloc::{AllocError, Global};

/// The unit of a text at a place of a list.
fn unit_of(alloc: Global, text: &[u8], place: usize) -> Result<Vec<u8>, UnitsError>
    ensures { SaysUnit result (spec.unit_in place text.now) }
{
    match STANDARD.decode(alloc, text) {
        Ok(unit) if unit.is_empty() => Err(UnitsError::Empty { place }),
        Ok(unit) => Ok(unit),
        Err(DecodeAllocError::DecodeError(_)) => Err(UnitsError::NotBase64 { place }),
        Err(DecodeAllocError::OutOfMemory) => Err(UnitsError::OutOfMemory),
    }
}

/// What stands before the first byte of a value in a text, and behind it, if it has one.
pub fn split_piece(text: &[u8], mark: u8) -> (&[u8], Option<&[u8]>)
    ensures pieces { spec.pieces_at mark text.now
        ≡ result.0.now ∷ option_map_or (λ rest. spec.pieces_at mark rest.now) result.1 [] }
    ensures shorter { IfSome result.1 (λ rest. length rest.now < length text.now) }
{
    match memchr(mark, text) {
        Some(place) => (&text[..place], Some(&text[place + 1..])),
        None => (text, None),
    }
}

/// Reads NAL units: base64 with its padding (RFC 4648, section 4), and `,` between them, as in
/// `sprop-parameter-sets` (RFC 6184, section 8.1) and `sprop-vps` (RFC 7798, section 7.1).
///
/// What is refused first is told, with its place: a text that is no base64, or one without a byte.
/// They are written again as the same text.
pub fn read_units(alloc: Global, text: &[u8]) -> Result<Vec<Vec<u8>>, UnitsError>
    ensures { SaysUnits result (spec.sprop_units text.now) }
{
    let mut units = Vec::new(alloc);
    let mut rest = Some(text);
    while let Some(text) = rest {
        let (piece, behind) = split_piece(text, b',');
        let unit = unit_of(alloc, piece, units.len())?;
        units.push(unit)?;
        rest = behind;
    }
    Ok(units)
}

/// Writes one more unit.
fn push_unit(text: &mut String, unit: &[u8]) -> Result<(), AllocError>
    ensures { OnOk result (string_bytes text.new
        ≡ string_bytes text.old ++ 44 ∷ encode_of standard unit.now) }
{
    text.push_str(",")?;
    STANDARD.encode_string(unit, text)
}

/// Writes NAL units: base64, with `,` between them. They are read as the same units.
pub fn write_units(alloc: Global, units: &[Vec<u8>]) -> Result<Vec<u8>, AllocError>
    ensures { IfOk result (λ text. text.items ≡ spec.units_text (units_view units.now)) }
{
    let mut text = String::new(alloc);
    let Some((first, others)) = units.split_first() else {
        return Ok(text.into_bytes());
    };
    STANDARD.encode_string(first.as_slice(), &mut text)?;
    for unit in others {
        push_unit(&mut text, unit.as_slice())?;
    }
    Ok(text.into_bytes())
}
