//! Worked cases of directions, which the checker computes. Each is the contract of a function without a
//! result.

ghost use Rattle.std.specs.Prelude.{◌≡◌, None, Some, true, false, codes, length, [], ◌∷◌};
ghost use Rattle.std.specs.List.{filter};
ghost use Rattle.h26x_answers.specs.Directions.{opposite, is_usable, usable_value, usable_values};
ghost use Rattle.h26x_answers.specs.declared.answer.Role.TheVariants as role;
ghost use Rattle.h26x_answers.specs.declared.direction.Direction.TheVariants as direction;
ghost use Rattle.h26x_answers.specs.declared.direction.Usage.TheVariants as usage;
ghost use Rattle.h26x_answers.specs.AnswersH264 as h264;
ghost use Rattle.h26x_answers.specs.AnswersH265 as h265;
ghost use Rattle.h26x_answers.specs.AnswersH266 as h266;

/// Who sends alone answers who receives alone.
pub fn opposites()
    ensures both { opposite direction.SendRecv ≡ direction.SendRecv }
    ensures sends { opposite direction.SendOnly ≡ direction.RecvOnly }
    ensures receives { opposite direction.RecvOnly ≡ direction.SendOnly }
{}

/// Where each parameter of H.264 is usable (RFC 6184, section 8.2.2, table 6): all 23 both ways,
/// 8 of who sends alone and 16 of who receives alone.
pub fn h264_usages()
    ensures each { h264.usages ≡ usage.Always ∷ usage.Receiving ∷ usage.Receiving ∷
        usage.Receiving ∷ usage.Receiving ∷ usage.Receiving ∷ usage.Receiving ∷ usage.Receiving ∷
        usage.Receiving ∷ usage.Sending ∷ usage.Sending ∷ usage.Receiving ∷ usage.Receiving ∷
        usage.Both ∷ usage.Always ∷ usage.Sending ∷ usage.Sending ∷ usage.Receiving ∷
        usage.Sending ∷ usage.Sending ∷ usage.Receiving ∷ usage.Receiving ∷ usage.Receiving ∷ [] }
    ensures both_ways { length (filter (is_usable direction.SendRecv) h264.usages) ≡ 23 }
    ensures sends { length (filter (is_usable direction.SendOnly) h264.usages) ≡ 8 }
    ensures receives { length (filter (is_usable direction.RecvOnly) h264.usages) ≡ 16 }
{}

/// Where each parameter of H.265 is usable (RFC 7798, section 7.2.2, table 1): all 30 both ways,
/// 17 of who sends alone and 20 of who receives alone.
pub fn h265_usages()
    ensures each { h265.usages ≡ usage.Always ∷ usage.Always ∷ usage.Always ∷ usage.Always ∷
        usage.Always ∷ usage.Always ∷ usage.Sending ∷ usage.Receiving ∷ usage.Receiving ∷
        usage.Always ∷ usage.Sending ∷ usage.Sending ∷ usage.Sending ∷ usage.Sending ∷
        usage.Receiving ∷ usage.Receiving ∷ usage.Receiving ∷ usage.Receiving ∷ usage.Receiving ∷
        usage.Receiving ∷ usage.Receiving ∷ usage.Receiving ∷ usage.Sending ∷ usage.Sending ∷
        usage.Sending ∷ usage.Receiving ∷ usage.Sending ∷ usage.Sending ∷ usage.Receiving ∷
        usage.Receiving ∷ [] }
    ensures both_ways { length (filter (is_usable direction.SendRecv) h265.usages) ≡ 30 }
    ensures sends { length (filter (is_usable direction.SendOnly) h265.usages) ≡ 17 }
    ensures receives { length (filter (is_usable direction.RecvOnly) h265.usages) ≡ 20 }
{}

/// Where each parameter of H.266 is usable (RFC 9328, section 7.3.2.3, figure 11): all 20 both ways,
/// 14 of who sends alone and 11 of who receives alone.
pub fn h266_usages()
    ensures each { h266.usages ≡ usage.Always ∷ usage.Always ∷ usage.Always ∷ usage.Always ∷
        usage.Always ∷ usage.Sending ∷ usage.Sending ∷ usage.Receiving ∷ usage.Receiving ∷
        usage.Receiving ∷ usage.Sending ∷ usage.Sending ∷ usage.Sending ∷ usage.Sending ∷
        usage.Sending ∷ usage.Receiving ∷ usage.Receiving ∷ usage.Sending ∷ usage.Sending ∷
        usage.Receiving ∷ [] }
    ensures both_ways { length (filter (is_usable direction.SendRecv) h266.usages) ≡ 20 }
    ensures sends { length (filter (is_usable direction.SendOnly) h266.usages) ≡ 14 }
    ensures receives { length (filter (is_usable direction.RecvOnly) h266.usages) ≡ 11 }
{}

/// What is heard of a value: of who receives alone no parameter sets, and in interleaved mode that
/// nothing is sent out of order; of who sends alone no limits; of each alone no word of levels of their
/// own.
pub fn heard_values()
    ensures sets { usable_value direction.RecvOnly false role.Sets usage.Sending (Some (codes "Z0I="))
        ≡ None }
    ensures own_sets { usable_value direction.SendOnly false role.Sets usage.Sending
        (Some (codes "Z0I=")) ≡ Some (codes "Z0I=") }
    ensures limit { usable_value direction.SendOnly false role.Own usage.Receiving
        (Some (codes "3600")) ≡ None }
    ensures own_limit { usable_value direction.RecvOnly false role.Own usage.Receiving
        (Some (codes "3600")) ≡ Some (codes "3600") }
    ensures depth { usable_value direction.RecvOnly true role.Reordering usage.Sending
        (Some (codes "45")) ≡ Some (codes "0") }
    ensures untold_depth { usable_value direction.RecvOnly true role.Reordering usage.Sending None
        ≡ Some (codes "0") }
    ensures in_order { usable_value direction.RecvOnly false role.Reordering usage.Sending
        (Some (codes "45")) ≡ None }
    ensures own_depth { usable_value direction.SendOnly true role.Reordering usage.Sending
        (Some (codes "45")) ≡ Some (codes "45") }
    ensures asymmetry { usable_value direction.SendOnly false role.Asymmetry usage.Both
        (Some (codes "1")) ≡ None }
    ensures no_asymmetry { usable_value direction.RecvOnly false role.Asymmetry usage.Both
        (Some (codes "1")) ≡ None }
    ensures both_ways { usable_value direction.SendRecv false role.Asymmetry usage.Both
        (Some (codes "1")) ≡ Some (codes "1") }
{}

/// The first three rows of H.264 of an offer whose end sends alone, and of one that receives alone:
/// profile-level-id, max-recv-level and max-mbps.
pub fn heard_rows()
    ensures sends { usable_values direction.SendOnly false (role.Level ∷ role.Own ∷ role.Own ∷ [])
        (usage.Always ∷ usage.Receiving ∷ usage.Receiving ∷ [])
        (Some (codes "42e01f") ∷ Some (codes "e028") ∷ Some (codes "245760") ∷ [])
        ≡ Some (codes "42e01f") ∷ None ∷ None ∷ [] }
    ensures receives { usable_values direction.RecvOnly false
        (role.Level ∷ role.Own ∷ role.Own ∷ [])
        (usage.Always ∷ usage.Receiving ∷ usage.Receiving ∷ [])
        (Some (codes "42e01f") ∷ Some (codes "e028") ∷ Some (codes "245760") ∷ [])
        ≡ Some (codes "42e01f") ∷ Some (codes "e028") ∷ Some (codes "245760") ∷ [] }
{}
