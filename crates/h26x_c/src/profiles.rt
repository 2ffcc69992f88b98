//! The calls on profiles and levels out of SDP.

ghost use Rattle.std.specs.Prelude.{◌≡◌, true, false, None};
ghost use Rattle.std.specs.Option.{is_some};
ghost use Rattle.h26x_profile.specs.H264.{ordinal, profile_level};
ghost use Rattle.h26x_profile.specs.H265 as h265;
ghost use Rattle.h26x_profile.specs.H266 as h266;
ghost use Rattle.h26x_model.specs.Where.{Where};
ghost use Rattle.h26x_c.specs.Profiles.{profile_number};

use h26x_profile::{H264Profile, H264ProfileLevel, H265ProfileTierLevel, H266ProfileTierLevel};

/// Whether the three bytes of a `profile-level-id` name a profile and a level (RFC 6184, section
/// 8.1), and the numbers of both.
#[unsafe(no_mangle)]
pub extern "C" fn h26x_h264_profile_level(
    profile_level_id: u32,
    profile: &mut u8,
    level: &mut u8,
) -> bool
    ensures unknown { profile_level profile_level_id ≡ None → result ≡ false }
    ensures known { Where (profile_level profile_level_id) (λ it. result ≡ true) }
    ensures profile { Where (profile_level profile_level_id)
        (λ it. profile.new ≡ profile_number it.profile) }
    ensures level { Where (profile_level profile_level_id) (λ it. level.new ≡ ordinal it.level) }
    ensures kept { result ≡ false → (profile.new ≡ profile.old) × (level.new ≡ level.old) }
{
    match H264ProfileLevel::try_from(profile_level_id) {
        Ok(it) => {
            *profile = number_of(it.profile());
            *level = it.level().ordinal() as u8;
            true
        }
        Err(()) => false,
    }
}

/// Whether a profile, a tier and a level of H.265 have these numbers (RFC 7798, section 7.1).
#[unsafe(no_mangle)]
pub extern "C" fn h26x_h265_is_known(profile_id: u8, tier_flag: u8, level_id: u8) -> bool
    ensures { result ≡ is_some (h265.known profile_id tier_flag level_id) }
{
    H265ProfileTierLevel::new(profile_id, tier_flag, level_id).is_some()
}

/// Whether a profile, a tier and a level of H.266 have these numbers (RFC 9328, section 7.2).
#[unsafe(no_mangle)]
pub extern "C" fn h26x_h266_is_known(profile_id: u8, tier_flag: u8, level_id: u8) -> bool
    ensures { result ≡ is_some (h266.known profile_id tier_flag level_id) }
{
    H266ProfileTierLevel::new(profile_id, tier_flag, level_id).is_some()
}

/// The number of a profile.
fn number_of(profile: H264Profile) -> u8
    ensures { result ≡ profile_number profile }
{
    profile as u8
}
