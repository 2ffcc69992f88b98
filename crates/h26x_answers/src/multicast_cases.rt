//! Worked cases of multicast, which the checker computes. Each is the contract of a function without a
//! result.

ghost use Rattle.std.specs.Prelude.{◌≡◌, Option, None, Some, true, false, codes, [], ◌∷◌};
ghost use Rattle.std.specs.Option.{option_map};
ghost use Rattle.h26x_answers.specs.Answers.{Rules, Terms, in_cast};
ghost use Rattle.h26x_answers.specs.AnswersByLevel.{keeps_level, keeps_levels};
ghost use Rattle.h26x_answers.specs.AnswersH264 as h264;
ghost use Rattle.h26x_answers.specs.AnswersH265 as h265;
ghost use Rattle.h26x_answers.specs.AnswersH266 as h266;
ghost use Rattle.h26x_answers.specs.declared.answer.AnswerRules.TheVariants.{Rfc};
ghost use Rattle.h26x_answers.specs.declared.direction.Direction.TheVariants.{SendRecv};
ghost use Rattle.h26x_fmtp.specs.Reading.{FormatParameters};
ghost use Rattle.h26x_sdp.specs.H265Rows as h265_rows;

/// The terms are those of multicast where it's asked for, and nowhere else.
pub fn terms_by_cast()
    ensures multicast { (rules : Rules)
        (multicast : FormatParameters → FormatParameters → Option Terms) → (in_cast (record {
          any_order = false;
          rules = Rfc;
          direction = SendRecv;
          multicast = true;
        }) multicast rules).terms ≡ multicast }
    ensures unicast { (rules : Rules)
        (multicast : FormatParameters → FormatParameters → Option Terms) → (in_cast (record {
          any_order = false;
          rules = Rfc;
          direction = SendRecv;
          multicast = false;
        }) multicast rules).terms ≡ rules.terms }
{}

/// The level of H.264 in multicast, of an offer of level 3.1: with ours of 3.1 and 4 it's 3.1, and with
/// ours of 3 there is none, whatever we receive at most; 1b is below 1.1. That both ends allow a level
/// for each direction doesn't count.
pub fn h264_levels_in_multicast()
    ensures same { option_map (λ it. it.level) (h264.multicast_terms_of_ids Rfc
        (record { values = Some (codes "42e01f") ∷ []; others = [] })
        (record { values = Some (codes "42e01f") ∷ []; others = [] })
        (Some (record { profile_idc = 66; profile_iop = 0xe0; level_idc = 31 }))
        (Some (record { profile_idc = 66; profile_iop = 0xe0; level_idc = 31 })))
        ≡ Some (Some (codes "42e01f")) }
    ensures above { option_map (λ it. it.level) (h264.multicast_terms_of_ids Rfc
        (record { values = Some (codes "42e01f") ∷ []; others = [] })
        (record { values = Some (codes "42e028") ∷ []; others = [] })
        (Some (record { profile_idc = 66; profile_iop = 0xe0; level_idc = 31 }))
        (Some (record { profile_idc = 66; profile_iop = 0xe0; level_idc = 40 })))
        ≡ Some (Some (codes "42e01f")) }
    ensures below { h264.multicast_terms_of_ids Rfc
        (record { values = Some (codes "42e01f") ∷ []; others = [] })
        (record { values = Some (codes "42e01e") ∷ []; others = [] })
        (Some (record { profile_idc = 66; profile_iop = 0xe0; level_idc = 31 }))
        (Some (record { profile_idc = 66; profile_iop = 0xe0; level_idc = 30 })) ≡ None }
    ensures highest { h264.multicast_terms_of_ids Rfc
        (record { values = Some (codes "42e01f") ∷ []; others = [] })
        (record { values = Some (codes "42e01e") ∷ Some (codes "e028") ∷ []; others = [] })
        (Some (record { profile_idc = 66; profile_iop = 0xe0; level_idc = 31 }))
        (Some (record { profile_idc = 66; profile_iop = 0xe0; level_idc = 30 })) ≡ None }
    ensures below_1_1 { h264.multicast_terms_of_ids Rfc
        (record { values = Some (codes "42e00b") ∷ []; others = [] })
        (record { values = Some (codes "42f00b") ∷ []; others = [] })
        (Some (record { profile_idc = 66; profile_iop = 0xe0; level_idc = 11 }))
        (Some (record { profile_idc = 66; profile_iop = 0xf0; level_idc = 11 })) ≡ None }
    ensures one_level { option_map (λ it. it.level) (h264.multicast_terms_of_ids Rfc (record {
      values = Some (codes "42e01f") ∷ None ∷ None ∷ None ∷ None ∷ None ∷ None ∷ None ∷ None
          ∷ None ∷ None ∷ None ∷ None ∷ Some (codes "1") ∷ [];
      others = [];
    }) (record {
      values = Some (codes "42e028") ∷ None ∷ None ∷ None ∷ None ∷ None ∷ None ∷ None ∷ None
          ∷ None ∷ None ∷ None ∷ None ∷ Some (codes "1") ∷ [];
      others = [];
    }) (Some (record { profile_idc = 66; profile_iop = 0xe0; level_idc = 31 }))
        (Some (record { profile_idc = 66; profile_iop = 0xe0; level_idc = 40 })))
        ≡ Some (Some (codes "42e01f")) }
{}

/// Whether a level that is a number may stand: at ours or below it, whatever we receive at most.
pub fn levels_in_multicast()
    ensures same { keeps_levels (Some (record { level = 93; highest = 93 }))
        (Some (record { level = 93; highest = 93 })) ≡ true }
    ensures above { keeps_levels (Some (record { level = 93; highest = 93 }))
        (Some (record { level = 94; highest = 94 })) ≡ true }
    ensures below { keeps_levels (Some (record { level = 93; highest = 93 }))
        (Some (record { level = 92; highest = 120 })) ≡ false }
    ensures unsaid { keeps_level h265_rows.rows h265.by (record { values = []; others = [] })
        (record { values = None ∷ None ∷ None ∷ Some (codes "90") ∷ []; others = [] }) ≡ false }
    ensures h265_none { h265.multicast_terms Rfc (record { values = []; others = [] })
        (record { values = None ∷ None ∷ None ∷ Some (codes "90") ∷ []; others = [] }) ≡ None }
    ensures h266_none { h266.multicast_terms (record {
      values = None ∷ None ∷ None ∷ None ∷ Some (codes "67") ∷ [];
      others = [];
    }) (record {
      values = None ∷ None ∷ None ∷ None ∷ Some (codes "64") ∷ [];
      others = [];
    }) ≡ None }
{}
