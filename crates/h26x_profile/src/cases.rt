//! Worked cases of the tables, which the checker computes: each row a second time, and how many there
//! are. Each is the contract of a function without a result.

ghost use Rattle.std.specs.Prelude.{◌≡◌, None, Some, codes, length, map, [], ◌∷◌};
ghost use Rattle.h26x_profile.specs.H264 as h264;
ghost use Rattle.h26x_profile.specs.H265 as h265;
ghost use Rattle.h26x_profile.specs.H266 as h266;
ghost use Rattle.h26x_profile.specs.declared.h264.H264Profile.TheVariants as h264_profile;
ghost use Rattle.h26x_profile.specs.declared.h264.H264LevelIdc.TheVariants as h264_level;
ghost use Rattle.h26x_profile.specs.declared.h265.H265Profile.TheVariants as h265_profile;
ghost use Rattle.h26x_profile.specs.declared.h265.H265Level.TheVariants as h265_level;
ghost use Rattle.h26x_profile.specs.declared.h266.H266Profile.TheVariants as h266_profile;
ghost use Rattle.h26x_profile.specs.declared.h266.H266Level.TheVariants as h266_level;

/// The 16 rows of RFC 6184, section 8.1, table 5, with Constrained High (Rec. ITU-T H.264, A.2.4.2):
/// the profile_idc of each and the flags beside it.
pub fn rows_of_h264_profiles()
    ensures count { length h264.rows ≡ 16 }
    ensures idcs { map (λ it. h264.idc_number it.idc) h264.rows ≡
        0x42 ∷ 0x4d ∷ 0x58 ∷ 0x42 ∷ 0x58 ∷ 0x4d ∷ 0x58 ∷ 0x64 ∷ 0x64 ∷ 0x6e ∷ 0x7a ∷ 0xf4 ∷
        0x6e ∷ 0x7a ∷ 0xf4 ∷ 0x2c ∷ [] }
    ensures flags { map (λ it. it.flags) h264.rows ≡
        codes "x1xx0000" ∷ codes "1xxx0000" ∷ codes "11xx0000" ∷ codes "x0xx0000" ∷
        codes "10xx0000" ∷ codes "0x0x0000" ∷ codes "00xx0000" ∷ codes "00000000" ∷
        codes "00001100" ∷ codes "00000000" ∷ codes "00000000" ∷ codes "00000000" ∷
        codes "00010000" ∷ codes "00010000" ∷ codes "00010000" ∷ codes "00010000" ∷ [] }
    ensures profiles { map (λ it. it.profile) h264.rows ≡
        h264_profile.ConstrainedBaseline ∷ h264_profile.ConstrainedBaseline ∷
        h264_profile.ConstrainedBaseline ∷ h264_profile.Baseline ∷ h264_profile.Baseline ∷
        h264_profile.Main ∷ h264_profile.Extended ∷ h264_profile.High ∷
        h264_profile.ConstrainedHigh ∷ h264_profile.High10 ∷ h264_profile.High422 ∷
        h264_profile.High444Predictive ∷ h264_profile.High10Intra ∷ h264_profile.High422Intra ∷
        h264_profile.High444Intra ∷ h264_profile.CAVLC444Intra ∷ [] }
{}

/// The 17 levels of H.264 (Rec. ITU-T H.264, table A-1) and their level_idc; level 1b, which has none
/// of its own, is behind level 1.
pub fn levels_of_h264()
    ensures count { length h264.levels ≡ 17 }
    ensures ids { map h264.level_id h264.levels ≡
        10 ∷ 0 ∷ 11 ∷ 12 ∷ 13 ∷ 20 ∷ 21 ∷ 22 ∷ 30 ∷ 31 ∷ 32 ∷ 40 ∷ 41 ∷ 42 ∷ 50 ∷ 51 ∷ 52 ∷ [] }
    ensures named { h264.level_of 30 ≡ Some h264_level.Level3 }
    ensures first { h264.level_of 10 ≡ Some h264_level.Level1 }
    ensures last { h264.level_of 52 ≡ Some h264_level.Level5_2 }
{}

/// The 11 profiles of H.265 and their numbers (Rec. ITU-T H.265, A.3), and the numbers beside them.
pub fn profiles_of_h265()
    ensures count { length h265.profiles ≡ 11 }
    ensures ids { map h265.profile_id h265.profiles ≡
        1 ∷ 2 ∷ 3 ∷ 4 ∷ 5 ∷ 6 ∷ 7 ∷ 8 ∷ 9 ∷ 10 ∷ 11 ∷ [] }
    ensures main { h265.profile_of 1 ≡ Some h265_profile.Main }
    ensures main_10 { h265.profile_of 2 ≡ Some h265_profile.Main10 }
    ensures still { h265.profile_of 3 ≡ Some h265_profile.MainStillPicture }
    ensures none { h265.profile_of 0 ≡ None }
    ensures behind { h265.profile_of 12 ≡ None }
{}

/// The 13 levels of H.265, 30 times their numbers (Rec. ITU-T H.265, table A.8).
pub fn levels_of_h265()
    ensures count { length h265.levels ≡ 13 }
    ensures ids { map h265.level_id h265.levels ≡
        30 ∷ 60 ∷ 63 ∷ 90 ∷ 93 ∷ 120 ∷ 123 ∷ 150 ∷ 153 ∷ 156 ∷ 180 ∷ 183 ∷ 186 ∷ [] }
    ensures level_3 { h265.level_of 90 ≡ Some h265_level.Level3 }
    ensures level_3_1 { h265.level_of 93 ≡ Some h265_level.Level3_1 }
    ensures last { h265.level_of 186 ≡ Some h265_level.Level6_2 }
    ensures beside { h265.level_of 91 ≡ None }
{}

/// The 8 profiles of H.266 and their numbers (Rec. ITU-T H.266, A.3).
pub fn profiles_of_h266()
    ensures count { length h266.profiles ≡ 8 }
    ensures ids { map h266.profile_id h266.profiles ≡
        1 ∷ 17 ∷ 33 ∷ 49 ∷ 65 ∷ 81 ∷ 97 ∷ 113 ∷ [] }
    ensures main_10 { h266.profile_of 1 ≡ Some h266_profile.Main10 }
    ensures multilayer { h266.profile_of 17 ≡ Some h266_profile.MultilayerMain10 }
    ensures main_10_444 { h266.profile_of 33 ≡ Some h266_profile.Main10_444 }
    ensures still { h266.profile_of 65 ≡ Some h266_profile.Main10StillPicture }
    ensures none { h266.profile_of 2 ≡ None }
{}

/// The 15 levels of H.266, 16 times the first number and 3 times the second (Rec. ITU-T H.266, table
/// A.1).
pub fn levels_of_h266()
    ensures count { length h266.levels ≡ 15 }
    ensures ids { map h266.level_id h266.levels ≡
        16 ∷ 32 ∷ 35 ∷ 48 ∷ 51 ∷ 64 ∷ 67 ∷ 80 ∷ 83 ∷ 86 ∷ 96 ∷ 99 ∷ 102 ∷ 105 ∷ 255 ∷ [] }
    ensures level_3 { h266.level_of 48 ≡ Some h266_level.Level3 }
    ensures level_3_1 { h266.level_of 51 ≡ Some h266_level.Level3_1 }
    ensures last { h266.level_of 255 ≡ Some h266_level.Level15_5 }
    ensures beside { h266.level_of 52 ≡ None }
{}
