//! Parameter sets of levels: the value of `sprop-level-parameter-sets`.

ghost use Rattle.std.specs.Prelude.{◌≡◌, ◌++◌, IfOk, OnOk, map};
ghost use Rattle.h26x_sdp.specs.LevelSets as spec;
ghost use Rattle.h26x_sdp.specs.LevelSetsViews.{level_view, levels_view, SaysLevel, SaysLevels};
ghost use Rattle.h26x_fmtp.specs.Units.{sprop_units};
ghost use Rattle.h26x_fmtp.specs.UnitTypes.{of_types, h264_sets};
ghost use Rattle.h26x_fmtp.specs.UnitsViews.{SaysUnits};

use crate::error::LevelSetsError;
use h26x_fmtp::unit_types::H264_SETS;
use h26x_fmtp::{UnitsError, read_units, split_piece, write_units};
use hex::FromHex;
use std::alloc::{AllocError, Global};

/// The parameter sets of a level (RFC 6184, section 8.1).
#[derive(Debug, Drop)]
pub struct LevelSets {
    /// profile_idc, profile_iop and level_idc, as in `profile-level-id`.
    pub profile_level_id: [u8; 3],
    /// Its SPS and PPS.
    pub sets: Vec<Vec<u8>>,
}

/// The sets of a text.
fn sets_of(alloc: Global, text: &[u8]) -> Result<Vec<Vec<u8>>, UnitsError>
    ensures { SaysUnits result (of_types h264_sets (sprop_units text.now)) }
{
    let units = read_units(alloc, text)?;
    match H264_SETS.fault_in(units.as_slice()) {
        Some(error) => Err(error),
        None => Ok(units),
    }
}

/// The level at a place, of its two texts.
fn level_of(
    alloc: Global,
    place: usize,
    id: &[u8],
    sets: &[u8],
) -> Result<LevelSets, LevelSetsError>
    ensures { SaysLevel result (spec.level_in place id.now sets.now) }
{
    let Ok(profile_level_id) = <[u8; 3] as FromHex>::from_hex(id) else {
        return Err(LevelSetsError::NotHexadecimal { place });
    };
    match sets_of(alloc, sets) {
        Ok(sets) => Ok(LevelSets {
            profile_level_id,
            sets,
        }),
        Err(UnitsError::OutOfMemory) => Err(LevelSetsError::OutOfMemory),
        Err(fault) => Err(LevelSetsError::Sets { place, fault }),
    }
}

/// Reads parameter sets of levels: of each six digits as in `profile-level-id`, `:`, its sets as in
/// `sprop-parameter-sets`, and `:` between levels (RFC 6184, section 8.1).
///
/// What is refused first is told, with its place among the levels: digits that are none, a level
/// without sets, or sets that are none.
pub fn read_level_sets(alloc: Global, text: &[u8]) -> Result<Vec<LevelSets>, LevelSetsError>
    ensures { SaysLevels result (spec.level_sets_in text.now) }
{
    let mut levels = Vec::new(alloc);
    let mut rest = Some(text);
    while let Some(text) = rest {
        let (id, behind) = split_piece(text, b':');
        let Some(behind) = behind else {
            return Err(LevelSetsError::NoSets {
                place: levels.len(),
            });
        };
        let (sets, behind) = split_piece(behind, b':');
        let level = level_of(alloc, levels.len(), id, sets)?;
        levels.push(level)?;
        rest = behind;
    }
    Ok(levels)
}

/// Writes a level at the end of a text.
fn push_level(alloc: Global, text: &mut Vec<u8>, level: &LevelSets) -> Result<(), AllocError>
    ensures { OnOk result (text.new.items ≡ text.old.items
        ++ spec.level_text (level_view level.now)) }
{
    let id = hex::encode(alloc, level.profile_level_id)?.into_bytes();
    let sets = write_units(alloc, level.sets.as_slice())?;
    text.extend_from_slice(id.as_slice())?;
    text.push(b':')?;
    text.extend_from_slice(sets.as_slice())
}

/// Writes parameter sets of levels, the digits in lower case. They are read as the same.
pub fn write_level_sets(alloc: Global, levels: &[LevelSets]) -> Result<Vec<u8>, AllocError>
    ensures { IfOk result (λ text. text.items ≡ spec.level_sets_text (levels_view levels.now)) }
{
    let mut text = Vec::new(alloc);
    let Some((first, others)) = levels.split_first() else {
        return Ok(text);
    };
    push_level(alloc, &mut text, first)?;
    for level in others {
        text.push(b':')?;
        push_level(alloc, &mut text, level)?;
    }
    Ok(text)
}
