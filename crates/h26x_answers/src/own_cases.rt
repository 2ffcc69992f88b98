//! Worked cases of what an end may say of itself, which the checker computes. Each is the contract of a
//! function without a result.

ghost use Rattle.std.specs.Prelude.{◌≡◌, None, Some, true, false, codes, length, map, [], ◌∷◌};
ghost use Rattle.h26x_answers.specs.declared.answer.AnswerRules.TheVariants as rules;
ghost use Rattle.h26x_answers.specs.declared.fault.FormatFault.TheVariants as faults;
ghost use Rattle.h26x_answers.specs.AnswersH264 as h264;
ghost use Rattle.h26x_answers.specs.Faults.{below_at, outside_at};
ghost use Rattle.h26x_answers.specs.OwnH265 as h265;
ghost use Rattle.h26x_answers.specs.OwnH266 as h266;

/// A limit at the edges of what a level asks for: MaxLumaSr of level 3.1 of H.265 and 16 times that, by
/// the place of `max-lsr`; and of H.264, where no most is said.
pub fn limits_at_their_edges()
    ensures absent { outside_at 14 33177600 None ≡ None }
    ensures below { outside_at 14 33177600 (Some 33177599) ≡ Some (faults.BelowLevel 14) }
    ensures least { outside_at 14 33177600 (Some 33177600) ≡ None }
    ensures most { outside_at 14 33177600 (Some 530841600) ≡ None }
    ensures above { outside_at 14 33177600 (Some 530841601) ≡ Some (faults.AboveLevel 14) }
    ensures h264_below { below_at 4 3600 (Some 3599) ≡ Some (faults.BelowLevel 4) }
    ensures h264_least { below_at 4 3600 (Some 3600) ≡ None }
    ensures h264_any { below_at 4 3600 (Some 18446744073709551615) ≡ None }
    ensures h264_absent { below_at 4 3600 None ≡ None }
{}

/// The 16 numbers of profiles of H.264 (Rec. ITU-T H.264, Annexes A and G to J; section 7.3.2.1.1 has
/// all but Baseline, Main and Extended), some at level 3.1, and what the standard hasn't. Level 1b
/// is 9 of High, and of Baseline 11 with constraint_set3_flag alone (A.3.1).
pub fn profiles_of_h264()
    ensures count { length h264.profile_numbers ≡ 16 }
    ensures each { h264.profile_numbers ≡ 66 ∷ 77 ∷ 88 ∷ 100 ∷ 110 ∷ 122 ∷ 244 ∷ 44 ∷ 83 ∷ 86 ∷ 118 ∷
        128 ∷ 134 ∷ 135 ∷ 138 ∷ 139 ∷ [] }
    ensures cavlc_444 { h264.known_id (Some (record {
      profile_idc = 44;
      profile_iop = 0;
      level_idc = 31;
    })) ≡ true }
    ensures multiview_high { h264.known_id (Some (record {
      profile_idc = 118;
      profile_iop = 0;
      level_idc = 31;
    })) ≡ true }
    ensures none { h264.known_id (Some (record {
      profile_idc = 67;
      profile_iop = 0;
      level_idc = 31;
    })) ≡ false }
    ensures level { h264.known_id (Some (record {
      profile_idc = 66;
      profile_iop = 0;
      level_idc = 33;
    })) ≡ false }
    ensures level_1b { h264.known_id (Some (record {
      profile_idc = 66;
      profile_iop = 0xf0;
      level_idc = 11;
    })) ≡ true }
    ensures level_1b_of_high { h264.known_id (Some (record {
      profile_idc = 100;
      profile_iop = 0;
      level_idc = 9;
    })) ≡ true }
    ensures level_1b_without_flag { h264.known_id (Some (record {
      profile_idc = 66;
      profile_iop = 0xe0;
      level_idc = 9;
    })) ≡ false }
    ensures profile_fault { h264.fault_of_id (record { values = []; others = [] }) (Some (record {
      profile_idc = 67;
      profile_iop = 0;
      level_idc = 31;
    })) ≡ Some faults.Profile }
    ensures level_fault { h264.fault_of_id (record { values = []; others = [] }) (Some (record {
      profile_idc = 66;
      profile_iop = 0;
      level_idc = 33;
    })) ≡ Some faults.Level }
{}

/// A format of H.264 that says nothing, by the RFC and as WebRTC's peers read it.
#[tactic(auto, unfolding(hex::specs::Hex::decode_pairs))]
pub fn formats_of_h264_that_say_nothing()
    ensures rfc { h264.fault rules.Rfc (record { values = []; others = [] }) ≡ None }
    ensures webrtc { h264.fault rules.Webrtc (record { values = []; others = [] }) ≡ None }
{}

/// Highest levels of H.264 (RFC 6184, section 8.1): below, at and above level 3.1, and one that the
/// standard hasn't.
#[tactic(auto, unfolding(hex::specs::Hex::decode_pairs))]
pub fn highest_levels_of_h264()
    ensures absent { h264.fault_with (record { values = []; others = [] }) 62 None ≡ None }
    ensures below { h264.fault_with (record { values = []; others = [] }) 62 (Some (codes "e01e"))
        ≡ Some faults.HighestLevel }
    ensures same { h264.fault_with (record { values = []; others = [] }) 62 (Some (codes "e01f"))
        ≡ Some faults.HighestLevel }
    ensures above { h264.fault_with (record { values = []; others = [] }) 62 (Some (codes "e020"))
        ≡ None }
    ensures none { h264.fault_with (record { values = []; others = [] }) 62 (Some (codes "e021"))
        ≡ Some faults.HighestLevel }
{}

/// Aspect ratios (RFC 6184, section 8.1): supported up to the last that is understood, 13 where that
/// isn't said, or, by 255, all.
pub fn aspect_ratios()
    ensures absent { h264.ratios_fit (Some 16) None ≡ true }
    ensures last { h264.ratios_fit (Some 16) (Some 16) ≡ true }
    ensures behind { h264.ratios_fit (Some 16) (Some 17) ≡ false }
    ensures highest { h264.ratios_fit (Some 254) (Some 254) ≡ true }
    ensures one_below_all { h264.ratios_fit (Some 13) (Some 254) ≡ false }
    ensures all { h264.ratios_fit (Some 13) (Some 255) ≡ true }
    ensures unsaid { h264.receiver_fault (record {
      values = None ∷ None ∷ None ∷ None ∷ None ∷ None ∷ None ∷ None ∷ None ∷ None ∷ None ∷ None
          ∷ None ∷ None ∷ None ∷ None ∷ None ∷ None ∷ None ∷ None ∷ None ∷ None
          ∷ Some (codes "14") ∷ [];
      others = [];
    }) ≡ Some faults.AspectRatios }
    ensures of_13 { h264.receiver_fault (record {
      values = None ∷ None ∷ None ∷ None ∷ None ∷ None ∷ None ∷ None ∷ None ∷ None ∷ None ∷ None
          ∷ None ∷ None ∷ None ∷ None ∷ None ∷ None ∷ None ∷ None ∷ None ∷ None
          ∷ Some (codes "13") ∷ [];
      others = [];
    }) ≡ None }
{}

/// Parameter sets in band (RFC 6184, section 8.1, in-band-parameter-sets), with and without those of
/// other levels.
pub fn sets_in_band()
    ensures both { h264.in_band_fits (record {
      values = None ∷ None ∷ None ∷ None ∷ None ∷ None ∷ None ∷ None ∷ None ∷ None ∷ None
          ∷ Some (codes "1") ∷ Some (codes "1") ∷ [];
      others = [];
    }) ≡ false }
    ensures in_band { h264.in_band_fits (record {
      values = None ∷ None ∷ None ∷ None ∷ None ∷ None ∷ None ∷ None ∷ None ∷ None ∷ None
          ∷ Some (codes "0") ∷ Some (codes "1") ∷ [];
      others = [];
    }) ≡ true }
    ensures of_levels { h264.in_band_fits (record {
      values = None ∷ None ∷ None ∷ None ∷ None ∷ None ∷ None ∷ None ∷ None ∷ None ∷ None
          ∷ Some (codes "1") ∷ Some (codes "0") ∷ [];
      others = [];
    }) ≡ true }
    ensures neither { h264.in_band_fits (record { values = []; others = [] }) ≡ true }
{}

/// Lists of types of hashes (RFC 7798, section 7.1, include-dph): its example, none, the last type, and
/// such that are none.
pub fn hash_types()
    ensures example { h265.are_hash_types (codes "0,2") ≡ true }
    ensures empty { h265.are_hash_types [] ≡ true }
    ensures last { h265.are_hash_types (codes "255") ≡ true }
    ensures behind { h265.are_hash_types (codes "0,256") ≡ false }
    ensures gap { h265.are_hash_types (codes "0,,2") ≡ false }
    ensures end { h265.are_hash_types (codes "0,") ≡ false }
    ensures name { h265.are_hash_types (codes "MD5") ≡ false }
    ensures fault { h265.hash_types_fault (Some (codes "256")) ≡ Some faults.HashTypes }
    ensures fits { h265.hash_types_fault (Some (codes "1")) ≡ None }
    ensures unsaid { h265.hash_types_fault None ≡ None }
{}

/// How many luma samples each of 14 levels of H.266 takes in a second (Rec. ITU-T H.266, table A.2),
/// and level 15.5, which has no most.
pub fn luma_rates_of_h266()
    ensures count { length h266.luma_rates ≡ 14 }
    ensures order { map (λ it. it.0) h266.luma_rates ≡
        16 ∷ 32 ∷ 35 ∷ 48 ∷ 51 ∷ 64 ∷ 67 ∷ 80 ∷ 83 ∷ 86 ∷ 96 ∷ 99 ∷ 102 ∷ 105 ∷ [] }
    ensures rates { map (λ it. it.1) h266.luma_rates ≡
        552960 ∷ 3686400 ∷ 7372800 ∷ 16588800 ∷ 33177600 ∷ 66846720 ∷ 133693440 ∷ 267386880 ∷
        534773760 ∷ 1069547520 ∷ 1069547520 ∷ 2139095040 ∷ 4278190080 ∷ 4812963840 ∷ [] }
    ensures no_most { h266.luma_rate_of 255 ≡ None }
{}

/// Formats of H.266 at the edges of the rate of level 3.1, and highest levels beside it.
pub fn faults_of_h266()
    ensures below { h266.rate_fault (record {
      values = None ∷ None ∷ None ∷ None ∷ None ∷ None ∷ None ∷ None ∷ None ∷ None ∷ None ∷ None
          ∷ None ∷ None ∷ None ∷ Some (codes "33177599") ∷ [];
      others = [];
    }) (Some 51) ≡ Some (faults.BelowLevel 15) }
    ensures most { h266.rate_fault (record {
      values = None ∷ None ∷ None ∷ None ∷ None ∷ None ∷ None ∷ None ∷ None ∷ None ∷ None ∷ None
          ∷ None ∷ None ∷ None ∷ Some (codes "530841600") ∷ [];
      others = [];
    }) (Some 51) ≡ None }
    ensures above { h266.rate_fault (record {
      values = None ∷ None ∷ None ∷ None ∷ None ∷ None ∷ None ∷ None ∷ None ∷ None ∷ None ∷ None
          ∷ None ∷ None ∷ None ∷ Some (codes "530841601") ∷ [];
      others = [];
    }) (Some 51) ≡ Some (faults.AboveLevel 15) }
    ensures highest { h266.highest_level (record {
      values = None ∷ None ∷ None ∷ None ∷ None ∷ None ∷ None ∷ None ∷ None ∷ Some (codes "64") ∷ [];
      others = [];
    }) ≡ Some 64 }
    ensures level { h266.highest_level (record { values = []; others = [] }) ≡ Some 51 }
    ensures same { h266.is_above (Some 51) (Some 51) ≡ false }
    ensures received { h266.is_above (Some 51) (Some 64) ≡ true }
    ensures none { h266.is_above (Some 51) (Some 65) ≡ false }
    ensures unsaid { h266.is_above (Some 51) None ≡ true }
{}
