//! The units of `sprop-level-parameter-sets` of H.264, by their level.

ghost use Rattle.std.specs.Prelude.{◌≡◌, ◌⊎◌, Ok, Err, MatchResult};
ghost use Rattle.std.specs.List.{slice_get};
ghost use Rattle.h26x_fmtp.specs.ParametersViews.{SaysValue};
ghost use Rattle.h26x_fmtp.specs.UnitsViews.{units_view};
ghost use Rattle.h26x_sdp.specs.LevelSetsViews.{levels_view};
ghost use Rattle.h26x_codes.specs.Codes as codes;
ghost use Rattle.h26x_sdp_handles.specs.SdpCodes as code;
ghost use Rattle.h26x_sdp_handles.specs.LevelUnits as spec;

use crate::sdp::SdpEndpoint;
use crate::sdp_code::{ABSENT, Refused, of_level_sets, refused_with};
use h26x_answers::sets_of_level;
use h26x_codes::code::{NOT_OF_THIS_CODEC, OUT_OF_MEMORY};
use h26x_sdp::LevelSets;
use std::alloc::Global;

/// One of units, counted from 0.
fn unit_at(units: &[Vec<u8>], i: usize) -> Option<&[u8]>
    ensures { SaysValue result (slice_get (units_view units.now) i) }
{
    match units.get(i) {
        Some(unit) => Some(unit.as_slice()),
        None => None,
    }
}

/// A unit, counted from 0, of the first sets that are of a level.
fn unit_of_level(levels: &[LevelSets], level: u64, i: usize) -> Option<&[u8]>
    ensures { SaysValue result (spec.unit_of_level level i (levels_view levels.now)) }
{
    match sets_of_level(levels, level) {
        Some(it) => unit_at(it.sets.as_slice(), i),
        None => None,
    }
}

impl SdpEndpoint {
    /// The sets of all levels.
    fn level_sets(&self, alloc: Global) -> Result<Vec<LevelSets>, Refused>
        ensures { MatchResult result
            (λ levels. spec.sdp_level_sets self.now ≡ Ok (levels_view levels.items))
            (λ it. (it ≡ code.refused_with codes.out_of_memory)
            ⊎ (spec.sdp_level_sets self.now ≡ Err it)) }
    {
        let SdpEndpoint::H264(it) = self else {
            return Err(refused_with(NOT_OF_THIS_CODEC));
        };
        match it.parameters().level_sets(alloc) {
            Ok(Some(levels)) => Ok(levels),
            Ok(None) => Err(refused_with(ABSENT)),
            Err(error) => Err(of_level_sets(error)),
        }
    }

    /// A unit, counted from 0, of those that `sprop-level-parameter-sets` of H.264 has for a level: of
    /// the first there that is of that level.
    pub fn level_unit(&self, alloc: Global, level: u64, i: usize) -> Result<Vec<u8>, Refused>
        ensures { MatchResult result
            (λ unit. spec.sdp_level_unit self.now level i ≡ Ok unit.items)
            (λ it. (it ≡ code.refused_with codes.out_of_memory)
            ⊎ (spec.sdp_level_unit self.now level i ≡ Err it)) }
    {
        let levels = self.level_sets(alloc)?;
        let Some(unit) = unit_of_level(levels.as_slice(), level, i) else {
            return Err(refused_with(ABSENT));
        };
        match unit.to_vec(alloc) {
            Ok(unit) => Ok(unit),
            Err(_) => Err(refused_with(OUT_OF_MEMORY)),
        }
    }
}
