//! Worked cases of what two formats agree on, which the checker computes. Each is the contract of a
//! function without a result.

ghost use Rattle.std.specs.Prelude.{◌≡◌, None, Some, true, false, codes, [], ◌∷◌};
ghost use Rattle.h26x_answers.specs.Answers.{Terms, answered_value, holds, is_symmetric_at, same_if_given, same_number};
ghost use Rattle.h26x_answers.specs.AnswersByLevel.{is_positive, levels_by};
ghost use Rattle.h26x_answers.specs.declared.answer.Role.TheVariants as role;
ghost use Rattle.h26x_answers.specs.AnswersH264 as h264;
ghost use Rattle.h26x_answers.specs.AnswersH265 as h265;
ghost use Rattle.h26x_answers.specs.AnswersH266 as h266;
ghost use Rattle.h26x_fmtp.specs.declared.kind.Kind.TheVariants as kind;

/// What an answer has of a value `1` that is offered and of our own, `2` (RFC 3264, section 6.1): of
/// configuration the offer's, of an end and its stream our own, of sets our own or none, of levels what
/// both agreed on, and no choice of an operation point.
pub fn values_of_an_answer()
    ensures configuration { (terms : Terms) → answered_value role.Configuration terms
        (Some (codes "1")) (Some (codes "2")) ≡ Some (codes "1") }
    ensures compared { (terms : Terms) → answered_value role.Compared terms
        (Some (codes "1")) (Some (codes "2")) ≡ Some (codes "1") }
    ensures own { (terms : Terms) → answered_value role.Own terms
        (Some (codes "1")) (Some (codes "2")) ≡ Some (codes "2") }
    ensures own_alone { (terms : Terms) → answered_value role.Own terms (Some (codes "1")) None
        ≡ None }
    ensures choice { (terms : Terms) → answered_value role.OperationPoint terms
        (Some (codes "1")) (Some (codes "2")) ≡ None }
    ensures level { answered_value role.Level (record {
      level = Some (codes "3");
      highest = Some (codes "4");
      asymmetric = true;
      reorders = true;
      sets = true;
      level_sets = true;
    }) (Some (codes "1")) (Some (codes "2")) ≡ Some (codes "3") }
    ensures highest { answered_value role.HighestLevel (record {
      level = Some (codes "3");
      highest = Some (codes "4");
      asymmetric = true;
      reorders = true;
      sets = true;
      level_sets = true;
    }) (Some (codes "1")) (Some (codes "2")) ≡ Some (codes "4") }
    ensures sets { answered_value role.Sets (record {
      level = None;
      highest = None;
      asymmetric = false;
      reorders = false;
      sets = true;
      level_sets = false;
    }) (Some (codes "1")) (Some (codes "2")) ≡ Some (codes "2") }
    ensures no_sets { answered_value role.Sets (record {
      level = None;
      highest = None;
      asymmetric = true;
      reorders = true;
      sets = false;
      level_sets = true;
    }) (Some (codes "1")) (Some (codes "2")) ≡ None }
    ensures level_sets { answered_value role.LevelSets (record {
      level = None;
      highest = None;
      asymmetric = false;
      reorders = false;
      sets = false;
      level_sets = true;
    }) (Some (codes "1")) (Some (codes "2")) ≡ Some (codes "2") }
    ensures asymmetry { answered_value role.Asymmetry (record {
      level = None;
      highest = None;
      asymmetric = true;
      reorders = false;
      sets = false;
      level_sets = false;
    }) (Some (codes "1")) (Some (codes "2")) ≡ Some (codes "2") }
    ensures reordering { answered_value role.Reordering (record {
      level = None;
      highest = None;
      asymmetric = true;
      reorders = false;
      sets = true;
      level_sets = true;
    }) (Some (codes "1")) (Some (codes "2")) ≡ None }
{}

/// The mode that interleaves packets, 2, and not 0, 1 or what is absent (RFC 6184, section 8.1).
pub fn interleaved_modes()
    ensures single { h264.is_interleaved (record {
      values = None ∷ None ∷ None ∷ None ∷ None ∷ None ∷ None ∷ None ∷ None ∷ None ∷ None ∷ None
          ∷ None ∷ None ∷ Some (codes "0") ∷ [];
      others = [];
    }) ≡ false }
    ensures non_interleaved { h264.is_interleaved (record {
      values = None ∷ None ∷ None ∷ None ∷ None ∷ None ∷ None ∷ None ∷ None ∷ None ∷ None ∷ None
          ∷ None ∷ None ∷ Some (codes "1") ∷ [];
      others = [];
    }) ≡ false }
    ensures interleaved { h264.is_interleaved (record {
      values = None ∷ None ∷ None ∷ None ∷ None ∷ None ∷ None ∷ None ∷ None ∷ None ∷ None ∷ None
          ∷ None ∷ None ∷ Some (codes "2") ∷ [];
      others = [];
    }) ≡ true }
    ensures absent { h264.is_interleaved (record { values = []; others = [] }) ≡ false }
{}

/// A level for each direction, where both ends allow it and nowhere else (RFC 6184, section 8.1,
/// level-asymmetry-allowed).
pub fn levels_of_each_direction()
    ensures both { h264.both_asymmetric (record {
      values = None ∷ None ∷ None ∷ None ∷ None ∷ None ∷ None ∷ None ∷ None ∷ None ∷ None ∷ None
          ∷ None ∷ Some (codes "1") ∷ [];
      others = [];
    }) (record {
      values = None ∷ None ∷ None ∷ None ∷ None ∷ None ∷ None ∷ None ∷ None ∷ None ∷ None ∷ None
          ∷ None ∷ Some (codes "1") ∷ [];
      others = [];
    }) ≡ true }
    ensures theirs { h264.both_asymmetric (record {
      values = None ∷ None ∷ None ∷ None ∷ None ∷ None ∷ None ∷ None ∷ None ∷ None ∷ None ∷ None
          ∷ None ∷ Some (codes "1") ∷ [];
      others = [];
    }) (record { values = []; others = [] }) ≡ false }
    ensures ours { h264.both_asymmetric (record { values = []; others = [] }) (record {
      values = None ∷ None ∷ None ∷ None ∷ None ∷ None ∷ None ∷ None ∷ None ∷ None ∷ None ∷ None
          ∷ None ∷ Some (codes "1") ∷ [];
      others = [];
    }) ≡ false }
    ensures refused { h264.both_asymmetric (record {
      values = None ∷ None ∷ None ∷ None ∷ None ∷ None ∷ None ∷ None ∷ None ∷ None ∷ None ∷ None
          ∷ None ∷ Some (codes "1") ∷ [];
      others = [];
    }) (record {
      values = None ∷ None ∷ None ∷ None ∷ None ∷ None ∷ None ∷ None ∷ None ∷ None ∷ None ∷ None
          ∷ None ∷ Some (codes "0") ∷ [];
      others = [];
    }) ≡ false }
    ensures own_level { h264.answer_level true (record {
      profile_idc = 66;
      profile_iop = 0xe0;
      level_idc = 31;
    }) (record {
      profile_idc = 66;
      profile_iop = 0xe0;
      level_idc = 52;
    }) ≡ record {
      profile_idc = 66;
      profile_iop = 0xe0;
      level_idc = 52;
    } }
    ensures lower_level { h264.answer_level false (record {
      profile_idc = 66;
      profile_iop = 0xe0;
      level_idc = 31;
    }) (record {
      profile_idc = 66;
      profile_iop = 0xe0;
      level_idc = 52;
    }) ≡ record {
      profile_idc = 66;
      profile_iop = 0xe0;
      level_idc = 31;
    } }
    ensures own_lower_level { h264.answer_level false (record {
      profile_idc = 66;
      profile_iop = 0xe0;
      level_idc = 31;
    }) (record {
      profile_idc = 66;
      profile_iop = 0xe0;
      level_idc = 30;
    }) ≡ record {
      profile_idc = 66;
      profile_iop = 0xe0;
      level_idc = 30;
    } }
{}

/// One profile of H.264: of one number and other flags where table 5 has one sub-profile of both, of
/// two numbers in the same case, and of other profiles.
pub fn one_profile()
    ensures other_flags { h264.same_profile (record {
      profile_idc = 77;
      profile_iop = 0x40;
      level_idc = 31;
    }) (record {
      profile_idc = 77;
      profile_iop = 0;
      level_idc = 40;
    }) ≡ true }
    ensures other_number { h264.same_profile (record {
      profile_idc = 66;
      profile_iop = 0xe0;
      level_idc = 31;
    }) (record {
      profile_idc = 77;
      profile_iop = 0x80;
      level_idc = 31;
    }) ≡ true }
    ensures same_bytes { h264.same_profile (record {
      profile_idc = 118;
      profile_iop = 0;
      level_idc = 31;
    }) (record {
      profile_idc = 118;
      profile_iop = 0;
      level_idc = 31;
    }) ≡ true }
    ensures baseline { h264.same_profile (record {
      profile_idc = 66;
      profile_iop = 0xe0;
      level_idc = 31;
    }) (record {
      profile_idc = 66;
      profile_iop = 0;
      level_idc = 31;
    }) ≡ false }
    ensures high { h264.same_profile (record {
      profile_idc = 66;
      profile_iop = 0;
      level_idc = 31;
    }) (record {
      profile_idc = 100;
      profile_iop = 0;
      level_idc = 31;
    }) ≡ false }
{}

/// The highest levels of formats: of H.264 level 3.1 without max-recv-level, with level 4 and with a
/// lower one; of H.265 and H.266 the same by their numbers.
#[tactic(auto, unfolding(hex::specs::Hex::decode_pairs))]
pub fn highest_levels()
    ensures h264_unsaid { h264.highest_of (record {
      profile_idc = 66;
      profile_iop = 0xe0;
      level_idc = 31;
    }) None ≡ 62 }
    ensures h264_above { h264.highest_of (record {
      profile_idc = 66;
      profile_iop = 0xe0;
      level_idc = 31;
    }) (Some (codes "e028")) ≡ 80 }
    ensures h264_below { h264.highest_of (record {
      profile_idc = 66;
      profile_iop = 0xe0;
      level_idc = 31;
    }) (Some (codes "e00a")) ≡ 62 }
    ensures unsaid { levels_by 93 None ≡ record { level = 93; highest = 93 } }
    ensures above { levels_by 93 (Some 120) ≡ record { level = 93; highest = 120 } }
    ensures below { levels_by 93 (Some 90) ≡ record { level = 93; highest = 93 } }
{}

/// Numbers and buffers at their edges: two that are one, what is needed and the room for it, and a
/// number that is positive.
pub fn numbers_and_buffers()
    ensures same { same_number (Some 1) (Some 1) ≡ true }
    ensures other { same_number (Some 1) (Some 2) ≡ false }
    ensures neither { same_number None None ≡ false }
    ensures given_none { same_if_given kind.Text None None ≡ true }
    ensures given_one { same_if_given kind.Text (Some (codes "a")) None ≡ false }
    ensures given_other { same_if_given kind.Text None (Some (codes "a")) ≡ false }
    ensures just_room { holds (Some 900) (Some 900) ≡ true }
    ensures no_room { holds (Some 901) (Some 900) ≡ false }
    ensures untold { holds (Some 0) None ≡ false }
    ensures none { is_positive (Some 0) ≡ false }
    ensures one { is_positive (Some 1) ≡ true }
    ensures absent { is_positive None ≡ false }
    ensures h265_order { h265.reorders (record { values = []; others = [] }) ≡ false }
    ensures h266_order { h266.reorders (record { values = []; others = [] }) ≡ false }
    ensures h266_reorders { h266.reorders (record {
      values = None ∷ None ∷ None ∷ None ∷ None ∷ None ∷ None ∷ None ∷ None ∷ None ∷ None ∷ None
          ∷ None ∷ None ∷ None ∷ None ∷ None ∷ Some (codes "1") ∷ [];
      others = [];
    }) ≡ true }
{}

/// Values that both ends have to say: the same, whichever of them leaves out what stands for an absent
/// one, and others; a level may differ.
pub fn symmetric_values()
    ensures same { is_symmetric_at role.Configuration (record {
      name = codes "profile-id";
      kind = kind.Number 0 31;
      default = Some (codes "1");
    }) (Some (codes "2")) (Some (codes "02")) ≡ true }
    ensures unsaid { is_symmetric_at role.Configuration (record {
      name = codes "profile-id";
      kind = kind.Number 0 31;
      default = Some (codes "1");
    }) None (Some (codes "1")) ≡ true }
    ensures own_unsaid { is_symmetric_at role.Configuration (record {
      name = codes "profile-id";
      kind = kind.Number 0 31;
      default = Some (codes "1");
    }) (Some (codes "1")) None ≡ true }
    ensures other { is_symmetric_at role.Configuration (record {
      name = codes "profile-id";
      kind = kind.Number 0 31;
      default = Some (codes "1");
    }) (Some (codes "2")) None ≡ false }
    ensures level { is_symmetric_at role.Level (record {
      name = codes "level-id";
      kind = kind.Number 0 255;
      default = Some (codes "93");
    }) (Some (codes "93")) (Some (codes "120")) ≡ true }
{}
