//! The profiles and levels of H.264, H.265 and H.266 that SDP negotiates.
//!
//! An H.264 format names both in the three bytes of its `profile-level-id`: a profile_idc, flags
//! of constraints and a level_idc (RFC 6184, section 8.1). An H.265 and an H.266 format has the
//! parameters `profile-id`, `tier-flag` and `level-id` (RFC 7798, section 7.1, and RFC 9328,
//! section 7.2).
//!
//! The tables and the definitions that contracts cite stand in `specs/`.
#![tactic(auto)]

mod bit_pattern;
mod cases;
mod fmtp;
mod h264;
mod h264_profile_level;
mod h265;
mod h266;
pub mod laws;
mod numbered;
mod profile_tier_level;
mod table;

pub use bit_pattern::BitPattern;
pub use h264::{H264LevelIdc, H264Profile, H264ProfileIdc};
pub use h264_profile_level::H264ProfileLevel;
pub use h265::{H265Level, H265Profile, H265ProfileTierLevel, H265Tier};
pub use h266::{H266Level, H266Profile, H266ProfileTierLevel, H266Tier};
pub use numbered::Numbered;
pub use profile_tier_level::ProfileTierLevel;
