//! A profile, a tier and a level of one codec.

ghost use Rattle.std.specs.Prelude.{◌≡◌};
ghost use Rattle.h26x_profile.specs.Parameters.{read_with};
ghost use Rattle.h26x_profile.specs.ProfileTierLevel.{all_known};

use crate::fmtp::byte_of;
use crate::numbered::Numbered;
use serde::{Deserialize, Serialize};
use std::collections::HashMap;
use std::marker::Model;

/// The profile, tier and level of a format in SDP (RFC 7798, section 7.1; RFC 9328, section 7.2).
///
/// ```rust
/// let main = H265ProfileTierLevel::new(1, 0, 93).unwrap_or(H265ProfileTierLevel::FALLBACK);
/// assert_eq!(rt; main.level(), H265Level::Level3_1);
/// ```
#[derive(Debug, Clone, Copy, PartialEq, Eq, Hash, Serialize, Deserialize)]
pub struct ProfileTierLevel<P, T, L> {
    pub(crate) profile: P,
    pub(crate) tier: T,
    pub(crate) level: L,
}

impl<P, T, L> Model for ProfileTierLevel<P, T, L> {
    ghost use Rattle.h26x_profile.specs.ProfileTierLevel.{ProfileTierLevel};

    ghost Value = { ProfileTierLevel P T L };

    ghost view = { λ it. record { profile = it.profile; tier = it.tier; level = it.level } };

    ghost inverse = { λ it. record { profile = it.profile; tier = it.tier; level = it.level } };
}

impl<P: Numbered, T: Numbered, L: Numbered> ProfileTierLevel<P, T, L> {
    /// The profile, tier and level with these numbers, if all three are known.
    pub fn new(profile_id: u8, tier_flag: u8, level_id: u8) -> Option<Self>
        ensures { result ≡ all_known (P.named profile_id) (T.named tier_flag) (L.named level_id) }
    {
        let profile = P::from_number(profile_id)?;
        let tier = T::from_number(tier_flag)?;
        let level = L::from_number(level_id)?;
        Some(ProfileTierLevel {
            profile,
            tier,
            level,
        })
    }

    /// What the parameters `profile-id`, `tier-flag` and `level-id` of a format say (RFC 7798,
    /// section 7.1; RFC 9328, section 7.2). `None` where one of them is not there, is no text that
    /// std reads as a `u8`, or has an unknown value.
    pub fn from_fmtp(params: &HashMap<String, String>) -> Option<Self>
        ensures { result ≡ read_with (λ profile_id tier_flag level_id. all_known
            (P.named profile_id) (T.named tier_flag) (L.named level_id)) params.now }
    {
        let profile_id = byte_of(params, "profile-id")?;
        let tier_flag = byte_of(params, "tier-flag")?;
        let level_id = byte_of(params, "level-id")?;
        Self::new(profile_id, tier_flag, level_id)
    }

    /// The profile.
    pub fn profile(&self) -> P
        ensures { result ≡ self.now.profile }
    {
        self.profile
    }

    /// The tier.
    pub fn tier(&self) -> T
        ensures { result ≡ self.now.tier }
    {
        self.tier
    }

    /// The level.
    pub fn level(&self) -> L
        ensures { result ≡ self.now.level }
    {
        self.level
    }

    /// The same profile and tier at another level.
    pub fn with_level(self, level: L) -> Self
        ensures { result ≡ record self { level = level } }
    {
        ProfileTierLevel { level, ..self }
    }

    /// The id of the profile.
    pub fn profile_id(&self) -> u8
        ensures { result ≡ P.number_of self.now.profile }
    {
        self.profile.to_number()
    }

    /// The flag of the tier.
    pub fn tier_flag(&self) -> u8
        ensures { result ≡ T.number_of self.now.tier }
    {
        self.tier.to_number()
    }

    /// The id of the level.
    pub fn level_id(&self) -> u8
        ensures { result ≡ L.number_of self.now.level }
    {
        self.level.to_number()
    }
}
