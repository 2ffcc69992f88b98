//! Laws of the tables and of the orders. Each is the contract of a function without a result.

ghost use Rattle.std.specs.Prelude.{◌≡◌, ℕ, ◌<◌, ◌≤◌, Some, count_by};
ghost use Rattle.std.specs.Ordering.{nat_cmp};
ghost use Rattle.h26x_profile.specs.H264 as h264_spec;
ghost use Rattle.h26x_profile.specs.H265 as h265_spec;
ghost use Rattle.h26x_profile.specs.H266 as h266_spec;
ghost use Rattle.h26x_profile.specs.declared.h264.H264ProfileIdc.{H264ProfileIdc};
ghost use Rattle.h26x_profile.specs.declared.h265.H265Profile.{H265Profile};
ghost use Rattle.h26x_profile.specs.declared.h265.H265Tier.{H265Tier};
ghost use Rattle.h26x_profile.specs.declared.h266.H266Profile.{H266Profile};
ghost use Rattle.h26x_profile.specs.declared.h266.H266Tier.{H266Tier};

use crate::h264::H264LevelIdc;
use crate::h265::H265Level;
use crate::h266::H266Level;

/// At most one row of the table of H.264 profiles has a profile_idc and a byte of flags.
pub fn one_profile_at_most()
    ensures { (idc : H264ProfileIdc) (flags : ℕ) → flags < 256 →
        count_by (h264_spec.names idc flags) h264_spec.rows ≤ 1 }
{}

/// Each value of H.264 is the one with its number.
pub fn numbers_of_h264_name_values()
    ensures idc { (it : H264ProfileIdc) → h264_spec.idc_of (h264_spec.idc_number it) ≡ Some it }
    ensures level { (it : H264LevelIdc) → h264_spec.level_of (h264_spec.level_id it) ≡ Some it }
{}

/// Each value of H.265 is the one with its number.
pub fn numbers_of_h265_name_values()
    ensures profile { (it : H265Profile) → h265_spec.profile_of (h265_spec.profile_id it)
        ≡ Some it }
    ensures tier { (it : H265Tier) → h265_spec.tier_of (h265_spec.tier_flag it) ≡ Some it }
    ensures level { (it : H265Level) → h265_spec.level_of (h265_spec.level_id it) ≡ Some it }
{}

/// Each value of H.266 is the one with its number.
pub fn numbers_of_h266_name_values()
    ensures profile { (it : H266Profile) → h266_spec.profile_of (h266_spec.profile_id it)
        ≡ Some it }
    ensures tier { (it : H266Tier) → h266_spec.tier_of (h266_spec.tier_flag it) ≡ Some it }
    ensures level { (it : H266Level) → h266_spec.level_of (h266_spec.level_id it) ≡ Some it }
{}

/// No id names a level of H.265 and one of H.266.
pub fn no_level_id_in_both()
    ensures { (a : H265Level) (b : H266Level) → h265_spec.level_id a ≡ h266_spec.level_id b → ⊥ }
{}

/// Levels of H.264 are ordered by their places, and those at one place are equal.
pub fn order_of_h264_levels()
    ensures order { (a b : H264LevelIdc) →
        ⟦<H264LevelIdc as Ord>⟧.cmp a b ≡ nat_cmp (h264_spec.ordinal a) (h264_spec.ordinal b) }
    ensures equal { (a b : H264LevelIdc) → h264_spec.ordinal a ≡ h264_spec.ordinal b → a ≡ b }
{}

/// Levels of H.265 are ordered by their places and by their ids, and those at one place are equal.
pub fn order_of_h265_levels()
    ensures order { (a b : H265Level) → ⟦<H265Level as Ord>⟧.cmp a b ≡ nat_cmp (h265_spec.ordinal a)
        (h265_spec.ordinal b) }
    ensures ids { (a b : H265Level) → nat_cmp (h265_spec.ordinal a) (h265_spec.ordinal b) ≡ nat_cmp
        (h265_spec.level_id a) (h265_spec.level_id b) }
    ensures equal { (a b : H265Level) → h265_spec.ordinal a ≡ h265_spec.ordinal b → a ≡ b }
{}

/// Levels of H.266 are ordered by their places and by their ids, and those at one place are equal.
pub fn order_of_h266_levels()
    ensures order { (a b : H266Level) → ⟦<H266Level as Ord>⟧.cmp a b ≡ nat_cmp (h266_spec.ordinal a)
        (h266_spec.ordinal b) }
    ensures ids { (a b : H266Level) → nat_cmp (h266_spec.ordinal a) (h266_spec.ordinal b) ≡ nat_cmp
        (h266_spec.level_id a) (h266_spec.level_id b) }
    ensures equal { (a b : H266Level) → h266_spec.ordinal a ≡ h266_spec.ordinal b → a ≡ b }
{}
