//! Profiles and levels out of a session description.

use h26x_profile::H265ProfileTierLevel;
use std::alloc::{AllocError, Global};
use std::collections::HashMap;

/// The parameters of a format line, as in `profile-id=1; tier-flag=0; level-id=93`.
pub fn params_of(alloc: Global, fmtp: &str) -> Result<HashMap<String, String>, AllocError> {
    let mut params = HashMap::new(alloc);
    for pair in fmtp.split(';') {
        if let Some((name, value)) = pair.trim().split_once('=') {
            params.insert(
                String::from_str(alloc, name)?,
                String::from_str(alloc, value)?,
            )?;
        }
    }
    Ok(params)
}

/// The profile, tier and level of an H.265 format line; what it leaves out or doesn't name stands
/// for Main, Main and level 3.1.
pub fn h265_format(alloc: Global, fmtp: &str) -> Result<H265ProfileTierLevel, AllocError> {
    let params = params_of(alloc, fmtp)?;
    Ok(H265ProfileTierLevel::from_fmtp(&params).unwrap_or(H265ProfileTierLevel::FALLBACK))
}

mod tests {
    use super::*;
    use h26x_profile::{
        H264LevelIdc, H264Profile, H264ProfileLevel, H265Level, H265Profile, H265Tier,
    };
    use std::test::Fail;

    #[test]
    fn a_profile_level_id_of_h264(rt: HostRuntime) -> Result<(), Fail> {
        let high = H264ProfileLevel::try_from(0x64001f)?;
        assert!(rt; (high.profile(), high.level()) == (H264Profile::High, H264LevelIdc::Level3_1));
        Ok(())
    }

    #[test]
    fn numbers_of_h265(rt: HostRuntime) {
        let main = H265ProfileTierLevel::new(1, 0, 93).unwrap_or(H265ProfileTierLevel::FALLBACK);
        assert!(rt; main.level() == H265Level::Level3_1);
    }

    #[test]
    fn a_format_line(rt: HostRuntime) -> Result<(), Fail> {
        let format = h265_format(rt.alloc(), "profile-id=2; tier-flag=1; level-id=120")?;
        assert!(rt;
            (format.profile(), format.tier(), format.level())
                == (H265Profile::Main10, H265Tier::High, H265Level::Level4)
        );
        Ok(())
    }

    #[test]
    fn a_line_without_a_level(rt: HostRuntime) -> Result<(), Fail> {
        let format = h265_format(rt.alloc(), "profile-id=2;tier-flag=1")?;
        assert!(rt; format == H265ProfileTierLevel::FALLBACK);
        Ok(())
    }
}
