//! Worked cases of the definitions, which the checker computes. Each is the contract of a function
//! without a result.

ghost use Rattle.std.specs.Prelude.{◌≡◌, None, Some, Ok, true, false, codes, length, map, [], ◌∷◌};
ghost use Rattle.h26x_answers.specs.Answers.{same_value};
ghost use Rattle.h26x_answers.specs.declared.answer.AnswerRules.TheVariants as rules;
ghost use Rattle.h26x_answers.specs.declared.answer.Role.TheVariants as role;
ghost use Rattle.h26x_answers.specs.AnswersH264 as h264;
ghost use Rattle.h26x_answers.specs.AnswersH265 as h265;
ghost use Rattle.h26x_answers.specs.AnswersH266 as h266;
ghost use Rattle.h26x_answers.specs.OwnH265 as h265_own;
ghost use Rattle.h26x_answers.specs.OwnH266 as h266_own;
ghost use Rattle.h26x_answers.specs.declared.fault.FormatFault.TheVariants as faults;
ghost use Rattle.h26x_fmtp.specs.declared.kind.Kind.TheVariants as kind;
ghost use Rattle.h26x_profile.specs.declared.h264.H264Profile.TheVariants as profile;

/// What each parameter of H.264 is (RFC 6184, section 8.2.2, table 6), of 23.
pub fn h264_roles()
    ensures count { length h264.roles ≡ 23 }
    ensures each { h264.roles ≡ role.Level ∷ role.Own ∷ role.Own ∷ role.Own ∷ role.Own ∷ role.Own
        ∷ role.Own ∷ role.Own ∷ role.Own ∷ role.Sets ∷ role.LevelSets ∷ role.Own ∷ role.Own
        ∷ role.Asymmetry ∷ role.Configuration ∷ role.Reordering ∷ role.Reordering ∷ role.Own
        ∷ role.Reordering
        ∷ role.Reordering ∷ role.Own ∷ role.Own ∷ role.Own ∷ [] }
{}

/// What each parameter of H.265 is (RFC 7798, section 7.2.2, table 1), of 30.
pub fn h265_roles()
    ensures count { length h265.roles ≡ 30 }
    ensures each { h265.roles ≡ role.Configuration ∷ role.Configuration ∷ role.Configuration
        ∷ role.Level ∷ role.Compared ∷ role.Compared ∷ role.Own ∷ role.OperationPoint
        ∷ role.HighestLevel ∷ role.Configuration ∷ role.Sets ∷ role.Sets ∷ role.Sets ∷ role.Own
        ∷ role.Own ∷ role.Own
        ∷ role.Own ∷ role.Own ∷ role.Own ∷ role.Own ∷ role.Own ∷ role.Own ∷ role.Own ∷ role.Own
        ∷ role.Own ∷ role.Own ∷ role.Own ∷ role.Own ∷ role.Own ∷ role.Own ∷ [] }
{}

/// What each parameter of H.266 is (RFC 9328, section 7.3.2.3, figure 11), of 20.
pub fn h266_roles()
    ensures count { length h266.roles ≡ 20 }
    ensures each { h266.roles ≡ role.Configuration ∷ role.Configuration ∷ role.Configuration
        ∷ role.Configuration ∷ role.Level ∷ role.Own ∷ role.Own ∷ role.OperationPoint
        ∷ role.OperationPoint ∷ role.HighestLevel ∷ role.Sets ∷ role.Sets ∷ role.Sets ∷ role.Sets
        ∷ role.Own ∷ role.Own ∷ role.Own ∷ role.Own ∷ role.Own ∷ role.Own ∷ [] }
{}

/// Sub-profiles of table 5 of RFC 6184, whatever the flag of the level says: Constrained Baseline by
/// each of its three rows, Baseline, Main, Extended and High, and bytes that no row has.
pub fn sub_profiles()
    ensures constrained_baseline { h264.sub_profile (record {
      profile_idc = 66;
      profile_iop = 0xe0;
      level_idc = 31;
    }) ≡ Some profile.ConstrainedBaseline }
    ensures of_main { h264.sub_profile (record {
      profile_idc = 77;
      profile_iop = 0x80;
      level_idc = 31;
    }) ≡ Some profile.ConstrainedBaseline }
    ensures of_extended { h264.sub_profile (record {
      profile_idc = 88;
      profile_iop = 0xc0;
      level_idc = 31;
    }) ≡ Some profile.ConstrainedBaseline }
    ensures at_level_1b { h264.sub_profile (record {
      profile_idc = 66;
      profile_iop = 0xf0;
      level_idc = 11;
    }) ≡ Some profile.ConstrainedBaseline }
    ensures baseline { h264.sub_profile (record {
      profile_idc = 66;
      profile_iop = 0x00;
      level_idc = 31;
    }) ≡ Some profile.Baseline }
    ensures main { h264.sub_profile (record {
      profile_idc = 77;
      profile_iop = 0x40;
      level_idc = 31;
    }) ≡ Some profile.Main }
    ensures extended { h264.sub_profile (record {
      profile_idc = 88;
      profile_iop = 0x00;
      level_idc = 31;
    }) ≡ Some profile.Extended }
    ensures high { h264.sub_profile (record {
      profile_idc = 100;
      profile_iop = 0x00;
      level_idc = 31;
    }) ≡ Some profile.High }
    ensures intra { h264.sub_profile (record {
      profile_idc = 110;
      profile_iop = 0x10;
      level_idc = 31;
    }) ≡ Some profile.High10Intra }
    ensures none { h264.sub_profile (record {
      profile_idc = 100;
      profile_iop = 0xe0;
      level_idc = 31;
    }) ≡ None }
{}

/// What is said where no `profile-level-id` is: Baseline at level 1 (RFC 6184, section 8.1), and as
/// WebRTC's peers do it Constrained Baseline at level 3.1 (libwebrtc, `kDefaultProfileLevelId`).
pub fn unsaid_profiles()
    ensures rfc { h264.unsaid_id rules.Rfc ≡ Some (codes "42000a") }
    ensures webrtc { h264.unsaid_id rules.Webrtc ≡ Some (codes "42e01f") }
{}

/// Which offered profiles an end takes: by the RFC its own alone; as WebRTC's peers do it the
/// constrained one of its own too, and never one that is wider than its own.
pub fn taken_profiles()
    ensures rfc_high { h264.takes_profile rules.Rfc (record {
      profile_idc = 100;
      profile_iop = 0x0c;
      level_idc = 31;
    }) (record {
      profile_idc = 100;
      profile_iop = 0;
      level_idc = 31;
    }) ≡ false }
    ensures high { h264.takes_profile rules.Webrtc (record {
      profile_idc = 100;
      profile_iop = 0x0c;
      level_idc = 31;
    }) (record {
      profile_idc = 100;
      profile_iop = 0;
      level_idc = 31;
    }) ≡ true }
    ensures baseline { h264.takes_profile rules.Webrtc (record {
      profile_idc = 66;
      profile_iop = 0xe0;
      level_idc = 31;
    }) (record {
      profile_idc = 66;
      profile_iop = 0;
      level_idc = 31;
    }) ≡ true }
    ensures wider_high { h264.takes_profile rules.Webrtc (record {
      profile_idc = 100;
      profile_iop = 0;
      level_idc = 31;
    }) (record {
      profile_idc = 100;
      profile_iop = 0x0c;
      level_idc = 31;
    }) ≡ false }
    ensures wider_baseline { h264.takes_profile rules.Webrtc (record {
      profile_idc = 66;
      profile_iop = 0;
      level_idc = 31;
    }) (record {
      profile_idc = 66;
      profile_iop = 0xe0;
      level_idc = 31;
    }) ≡ false }
    ensures main { h264.takes_profile rules.Webrtc (record {
      profile_idc = 66;
      profile_iop = 0xe0;
      level_idc = 31;
    }) (record {
      profile_idc = 77;
      profile_iop = 0;
      level_idc = 31;
    }) ≡ false }
    ensures same { h264.takes_profile rules.Webrtc (record {
      profile_idc = 66;
      profile_iop = 0xe0;
      level_idc = 31;
    }) (record {
      profile_idc = 77;
      profile_iop = 0x80;
      level_idc = 40;
    }) ≡ true }
{}

/// Levels by their order: level 1b stands between 1 and 1.1, by its flag where the profile has one and
/// else by 9; a flag that High has is none of the level.
pub fn levels()
    ensures level_1 { h264.level_rank (record {
      profile_idc = 66;
      profile_iop = 0xe0;
      level_idc = 10;
    }) ≡ 20 }
    ensures level_1b { h264.level_rank (record {
      profile_idc = 66;
      profile_iop = 0xf0;
      level_idc = 11;
    }) ≡ 21 }
    ensures level_1b_of_high { h264.level_rank (record {
      profile_idc = 100;
      profile_iop = 0x00;
      level_idc = 9;
    }) ≡ 21 }
    ensures level_1_1 { h264.level_rank (record {
      profile_idc = 66;
      profile_iop = 0xe0;
      level_idc = 11;
    }) ≡ 22 }
    ensures level_1_1_of_high { h264.level_rank (record {
      profile_idc = 100;
      profile_iop = 0x10;
      level_idc = 11;
    }) ≡ 22 }
    ensures level_3_1 { h264.level_rank (record {
      profile_idc = 66;
      profile_iop = 0xe0;
      level_idc = 31;
    }) ≡ 62 }
    ensures received_1b { h264.flagged_rank 1 11 ≡ 21 }
    ensures received_1b_of_high { h264.flagged_rank 0 9 ≡ 21 }
    ensures received_1_1 { h264.flagged_rank 0 11 ≡ 22 }
    ensures received_4 { h264.flagged_rank 0 40 ≡ 80 }
{}

/// Profiles of H.266 with layers (Rec. ITU-T H.266, Annex A): 17, 49, 81 and 113, and not those beside
/// them that decode one layer, 1, 33, 65 and 97.
pub fn layers()
    ensures main_10 { h266.has_layers (record { values = Some (codes "1") ∷ []; others = [] })
        ≡ false }
    ensures multilayer_main_10 { h266.has_layers (record {
      values = Some (codes "17") ∷ [];
      others = [];
    }) ≡ true }
    ensures main_10_444 { h266.has_layers (record { values = Some (codes "33") ∷ []; others = [] })
        ≡ false }
    ensures multilayer_main_10_444 { h266.has_layers (record {
      values = Some (codes "49") ∷ [];
      others = [];
    }) ≡ true }
    ensures main_10_still { h266.has_layers (record {
      values = Some (codes "65") ∷ [];
      others = [];
    }) ≡ false }
    ensures multilayer_main_10_still { h266.has_layers (record {
      values = Some (codes "81") ∷ [];
      others = [];
    }) ≡ true }
    ensures main_10_444_still { h266.has_layers (record {
      values = Some (codes "97") ∷ [];
      others = [];
    }) ≡ false }
    ensures multilayer_main_10_444_still { h266.has_layers (record {
      values = Some (codes "113") ∷ [];
      others = [];
    }) ≡ true }
{}

/// The flags of compatible profiles: that of profile 1 alone where they are absent, those of Main and
/// Main 10 as x265 writes them, and each byte at its place.
pub fn flags()
    ensures absent { h265.flags_or_profile (Some 1) None ≡ Some 0x40000000 }
    ensures given { h265.four_bytes (Ok (0x60 ∷ 0x00 ∷ 0x00 ∷ 0x00 ∷ [])) ≡ Some 0x60000000 }
    ensures each_byte { h265.four_bytes (Ok (0x01 ∷ 0x02 ∷ 0x03 ∷ 0x04 ∷ [])) ≡ Some 0x01020304 }
{}

/// Formats of one profile that are its constraints apart: what x265 says of them against what isn't
/// said, by the RFC and as WebRTC's peers do it.
pub fn agreed_constraints()
    ensures rfc { h265.agree rules.Rfc (record { values = []; others = [] }) (record {
      values = None ∷ None ∷ None ∷ None ∷ Some (codes "900000000000") ∷ [];
      others = [];
    }) ≡ false }
    ensures webrtc { h265.agree rules.Webrtc (record { values = []; others = [] }) (record {
      values = None ∷ None ∷ None ∷ None ∷ Some (codes "900000000000") ∷ [];
      others = [];
    }) ≡ true }
    ensures unsaid { h265.agree rules.Rfc (record { values = []; others = [] }) (record {
      values = None ∷ None ∷ None ∷ None ∷ Some (codes "b00000000000") ∷ [];
      others = [];
    }) ≡ true }
{}

/// Values that are one: numbers with zeros before them, digits and modes in either case; texts in one.
pub fn same_values()
    ensures numbers { same_value (kind.Number 0 31) (codes "01") (codes "1") ≡ true }
    ensures digits { same_value (kind.Hexadecimal 3) (codes "42E01F") (codes "42e01f") ≡ true }
    ensures modes { same_value kind.TxMode (codes "srst") (codes "SRST") ≡ true }
    ensures texts { same_value kind.Text (codes "A") (codes "a") ≡ false }
{}

/// What each of the 20 levels of H.264 asks for, by column (Rec. ITU-T H.264, table A-1): MaxMBPS,
/// MaxFS, MaxDpbMbs times 3/8, rounded up, MaxBR and MaxCPB.
pub fn h264_limits()
    ensures count { length h264.levels ≡ 20 }
    ensures order { map (λ it. it.rank) h264.levels ≡
        20 ∷ 21 ∷ 22 ∷ 24 ∷ 26 ∷ 40 ∷ 42 ∷ 44 ∷ 60 ∷ 62 ∷ 64 ∷ 80 ∷ 82 ∷ 84 ∷ 100 ∷ 102 ∷
        104 ∷ 120 ∷ 122 ∷ 124 ∷ [] }
    ensures mbps { map (λ it. it.mbps) h264.levels ≡
        1485 ∷ 1485 ∷ 3000 ∷ 6000 ∷ 11880 ∷ 11880 ∷ 19800 ∷ 20250 ∷ 40500 ∷ 108000 ∷
        216000 ∷ 245760 ∷ 245760 ∷ 522240 ∷ 589824 ∷ 983040 ∷ 2073600 ∷ 4177920 ∷ 8355840 ∷
        16711680 ∷ [] }
    ensures fs { map (λ it. it.fs) h264.levels ≡
        99 ∷ 99 ∷ 396 ∷ 396 ∷ 396 ∷ 396 ∷ 792 ∷ 1620 ∷ 1620 ∷ 3600 ∷ 5120 ∷ 8192 ∷ 8192 ∷
        8704 ∷ 22080 ∷ 36864 ∷ 36864 ∷ 139264 ∷ 139264 ∷ 139264 ∷ [] }
    ensures dpb { map (λ it. it.dpb) h264.levels ≡
        149 ∷ 149 ∷ 338 ∷ 891 ∷ 891 ∷ 891 ∷ 1782 ∷ 3038 ∷ 3038 ∷ 6750 ∷ 7680 ∷ 12288 ∷
        12288 ∷ 13056 ∷ 41400 ∷ 69120 ∷ 69120 ∷ 261120 ∷ 261120 ∷ 261120 ∷ [] }
    ensures br { map (λ it. it.br) h264.levels ≡
        64 ∷ 128 ∷ 192 ∷ 384 ∷ 768 ∷ 2000 ∷ 4000 ∷ 4000 ∷ 10000 ∷ 14000 ∷ 20000 ∷ 20000 ∷
        50000 ∷ 50000 ∷ 135000 ∷ 240000 ∷ 240000 ∷ 240000 ∷ 480000 ∷ 800000 ∷ [] }
    ensures cpb { map (λ it. it.cpb) h264.levels ≡
        175 ∷ 350 ∷ 500 ∷ 1000 ∷ 2000 ∷ 2000 ∷ 4000 ∷ 4000 ∷ 10000 ∷ 14000 ∷ 20000 ∷
        25000 ∷ 62500 ∷ 62500 ∷ 135000 ∷ 240000 ∷ 240000 ∷ 240000 ∷ 480000 ∷ 800000 ∷ [] }
{}

/// What each of the 13 levels of H.265 asks for, by column (Rec. ITU-T H.265, tables A.8 and A.9).
pub fn h265_limits()
    ensures count { length h265_own.levels ≡ 13 }
    ensures order { map (λ it. it.level) h265_own.levels ≡
        30 ∷ 60 ∷ 63 ∷ 90 ∷ 93 ∷ 120 ∷ 123 ∷ 150 ∷ 153 ∷ 156 ∷ 180 ∷ 183 ∷ 186 ∷ [] }
    ensures lps { map (λ it. it.lps) h265_own.levels ≡
        36864 ∷ 122880 ∷ 245760 ∷ 552960 ∷ 983040 ∷ 2228224 ∷ 2228224 ∷ 8912896 ∷ 8912896 ∷
        8912896 ∷ 35651584 ∷ 35651584 ∷ 35651584 ∷ [] }
    ensures lsr { map (λ it. it.lsr) h265_own.levels ≡
        552960 ∷ 3686400 ∷ 7372800 ∷ 16588800 ∷ 33177600 ∷ 66846720 ∷ 133693440 ∷
        267386880 ∷ 534773760 ∷ 1069547520 ∷ 1069547520 ∷ 2139095040 ∷ 4278190080 ∷ [] }
    ensures rows { map (λ it. it.tiles.0) h265_own.levels ≡
        1 ∷ 1 ∷ 1 ∷ 2 ∷ 3 ∷ 5 ∷ 5 ∷ 11 ∷ 11 ∷ 11 ∷ 22 ∷ 22 ∷ 22 ∷ [] }
    ensures columns { map (λ it. it.tiles.1) h265_own.levels ≡
        1 ∷ 1 ∷ 1 ∷ 2 ∷ 3 ∷ 5 ∷ 5 ∷ 10 ∷ 10 ∷ 10 ∷ 20 ∷ 20 ∷ 20 ∷ [] }
    ensures main_cpb { map (λ it. it.main.0) h265_own.levels ≡
        350 ∷ 1500 ∷ 3000 ∷ 6000 ∷ 10000 ∷ 12000 ∷ 20000 ∷ 25000 ∷ 40000 ∷ 60000 ∷ 60000 ∷
        120000 ∷ 240000 ∷ [] }
    ensures main_br { map (λ it. it.main.1) h265_own.levels ≡
        128 ∷ 1500 ∷ 3000 ∷ 6000 ∷ 10000 ∷ 12000 ∷ 20000 ∷ 25000 ∷ 40000 ∷ 60000 ∷ 60000 ∷
        120000 ∷ 240000 ∷ [] }
    ensures high_cpb { map (λ it. it.high.0) h265_own.levels ≡
        350 ∷ 1500 ∷ 3000 ∷ 6000 ∷ 10000 ∷ 30000 ∷ 50000 ∷ 100000 ∷ 160000 ∷ 240000 ∷
        240000 ∷ 480000 ∷ 800000 ∷ [] }
    ensures high_br { map (λ it. it.high.1) h265_own.levels ≡
        128 ∷ 1500 ∷ 3000 ∷ 6000 ∷ 10000 ∷ 30000 ∷ 50000 ∷ 100000 ∷ 160000 ∷ 240000 ∷
        240000 ∷ 480000 ∷ 800000 ∷ [] }
{}

/// Formats of H.265 and H.266 at the edges of the rules: what says nothing, levels and profiles that
/// the standards haven't, and a highest level that is the level.
pub fn faults()
    ensures h265_nothing { h265_own.fault (record { values = []; others = [] }) ≡ None }
    ensures h265_level { h265_own.fault (record {
      values = None ∷ None ∷ None ∷ Some (codes "7") ∷ [];
      others = [];
    }) ≡ Some faults.Level }
    ensures h265_profile { h265_own.fault (record {
      values = None ∷ Some (codes "12") ∷ [];
      others = [];
    }) ≡ Some faults.Profile }
    ensures h265_last_profile { h265_own.fault (record {
      values = None ∷ Some (codes "11") ∷ [];
      others = [];
    }) ≡ None }
    ensures h265_space { h265_own.fault (record { values = Some (codes "1") ∷ []; others = [] })
        ≡ Some faults.Profile }
    ensures h265_received { h265_own.fault (record {
      values = None ∷ None ∷ None ∷ None ∷ None ∷ None ∷ None ∷ None ∷ Some (codes "93") ∷ [];
      others = [];
    }) ≡ Some faults.HighestLevel }
    ensures h266_nothing { h266_own.fault (record { values = []; others = [] }) ≡ None }
    ensures h266_profile { h266_own.fault (record { values = Some (codes "2") ∷ []; others = [] })
        ≡ Some faults.Profile }
    ensures h266_level { h266_own.fault (record {
      values = None ∷ None ∷ None ∷ None ∷ Some (codes "52") ∷ [];
      others = [];
    }) ≡ Some faults.Level }
{}
