//! What a `profile-level-id` of H.264 says.

ghost use Rattle.std.specs.Prelude.{◌≡◌};
ghost use Rattle.std.specs.Option.{ok_or};
ghost use Rattle.h26x_profile.specs.H264.{known};

use crate::h264::{H264LevelIdc, H264Profile, H264ProfileIdc};
use crate::table;
use std::marker::Model;

/// The profile and level of an H.264 format in SDP (RFC 6184, section 8.1).
///
/// ```rust
/// let high = H264ProfileLevel::try_from(0x64001f)?;
/// assert_eq!(rt; (high.profile(), high.level()), (H264Profile::High, H264LevelIdc::Level3_1));
/// ```
#[derive(Debug, Clone, Copy, PartialEq, Eq, Hash)]
pub struct H264ProfileLevel {
    profile: H264Profile,
    level: H264LevelIdc,
}

impl Model for H264ProfileLevel {
    ghost use Rattle.h26x_profile.specs.ProfileLevel.{ProfileLevel};
    ghost use Rattle.h26x_profile.specs.declared.h264.H264Profile.{H264Profile};
    ghost use Rattle.h26x_profile.specs.declared.h264.H264LevelIdc.{H264LevelIdc};

    ghost Value = { ProfileLevel H264Profile H264LevelIdc };

    ghost view = { λ it. record { profile = it.profile; level = it.level } };

    ghost inverse = { λ it. record { profile = it.profile; level = it.level } };
}

impl H264ProfileLevel {
    ghost use Rattle.h26x_profile.specs.H264.{at_level};

    /// What stands where a format says nothing: Baseline at level 3.1, as str0m has it (RFC 6184,
    /// section 8.1, has level 1).
    pub const FALLBACK: Self = H264ProfileLevel {
        profile: H264Profile::Baseline,
        level: H264LevelIdc::Level3_1,
    };

    /// The profile that a profile_idc and the byte of constraint flags (profile_iop) name, at this
    /// level; `None` where no profile has them (RFC 6184, section 8.1, table 5).
    pub fn new(
        profile_idc: H264ProfileIdc,
        profile_iop: u8,
        level_idc: H264LevelIdc,
    ) -> Option<Self>
        ensures { result ≡ at_level profile_idc profile_iop level_idc }
    {
        let profile = table::profile_of(profile_idc, profile_iop)?;
        Some(H264ProfileLevel {
            profile,
            level: level_idc,
        })
    }

    /// The profile.
    pub fn profile(&self) -> H264Profile
        ensures { result ≡ self.now.profile }
    {
        self.profile
    }

    /// The level.
    pub fn level(&self) -> H264LevelIdc
        ensures { result ≡ self.now.level }
    {
        self.level
    }
}

/// The three bytes of a `profile-level-id`: profile_idc, profile_iop and level_idc. The top byte of
/// the value is ignored (RFC 6184, section 8.1).
impl TryFrom<u32> for H264ProfileLevel {
    type Error = ();

    ghost use Rattle.h26x_profile.specs.H264.{profile_level};

    ghost try_from_gives = { λ value r. r ≡ ok_or (profile_level value) tt };

    fn try_from(value: u32) -> Result<Self, ()> {
        let profile_idc = (value >> 16 & 0xff) as u8;
        let profile_iop = (value >> 8 & 0xff) as u8;
        let level_id = (value & 0xff) as u8;
        from_bytes(profile_idc, profile_iop, level_id).ok_or(())
    }
}

/// `FALLBACK`: what stands where a format says nothing.
impl Default for H264ProfileLevel {
    ghost use Rattle.h26x_profile.specs.H264.{fallback};

    ghost is_default = { λ it. it ≡ fallback };

    fn default() -> Self {
        Self::FALLBACK
    }
}

/// What the three bytes of a `profile-level-id` say.
fn from_bytes(profile_idc: u8, profile_iop: u8, level_id: u8) -> Option<H264ProfileLevel>
    ensures { result ≡ known profile_idc profile_iop level_id }
{
    let level = table::level_with(profile_idc, profile_iop, level_id)?;
    let idc = H264ProfileIdc::try_from(profile_idc).ok()?;
    H264ProfileLevel::new(idc, profile_iop, level)
}
