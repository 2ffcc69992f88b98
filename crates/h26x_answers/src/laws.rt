//! Laws of answers. Each is the contract of a function without a result.

ghost use Rattle.std.specs.Prelude.{◌≡◌, true, false};
ghost use Rattle.h26x_fmtp.specs.Parameters.{AreParameters, IsReadAgain};
ghost use Rattle.h26x_fmtp.specs.Reading.{FormatParameters};
ghost use Rattle.h26x_answers.specs.declared.answer.AnswerRules.{AnswerRules};
ghost use Rattle.h26x_answers.specs.AnswerLaws.{IsCommonAnswered, IsAnswerCommon, OfEachAnswer, SaysOrder};
ghost use Rattle.h26x_answers.specs.Agreed as agreed;
ghost use Rattle.h26x_answers.specs.Agreed.{IsSeenByBoth, AreWithinReceived};
ghost use Rattle.h26x_answers.specs.DeclaredFormats as declared;
ghost use Rattle.h26x_answers.specs.DeclaredFormats.{OfEachAccepted, IsReceivedH264, IsReceivedH265, IsReceivedH266};
ghost use Rattle.h26x_answers.specs.Answers.{Rules};
ghost use Rattle.h26x_answers.specs.DirectionLaws.{IsByUsable, OfEachAnswerIn, OfEachDirected, IsWholeBothWays};
ghost use Rattle.h26x_answers.specs.AnswersH264 as h264_answers;
ghost use Rattle.h26x_answers.specs.AllowedH264.{IsH264Answer, MaySend, CanDeinterleaveOwn, is_sets_row};
ghost use Rattle.h26x_answers.specs.AnsweredAgain.{AreAnsweredAgain};
ghost use Rattle.h26x_answers.specs.AllowedByLevel.{IsAnswerByLevel, OfEachAllowed, MaySendByLevel};
ghost use Rattle.h26x_answers.specs.AnswersByLevel.{can_hold};
ghost use Rattle.h26x_answers.specs.Multicast.{h264_in_multicast, h265_in_multicast, h266_in_multicast, KeepsLevel, IsOfUnicast};
ghost use Rattle.h26x_answers.specs.ConfigurationsH264 as h264_said;
ghost use Rattle.h26x_answers.specs.ConfigurationsH265 as h265_said;
ghost use Rattle.h26x_answers.specs.ConfigurationsH266 as h266_said;
ghost use Rattle.h26x_answers.specs.AnswersH265 as h265_answers;
ghost use Rattle.h26x_answers.specs.AnswersH266 as h266_answers;
ghost use Rattle.h26x_sdp.specs.H264Rows as h264;
ghost use Rattle.h26x_sdp.specs.H265Rows as h265;
ghost use Rattle.h26x_sdp.specs.H266Rows as h266;

/// An offer has an answer exactly where one of its formats and one of ours have a configuration in
/// common, by what both say, by the RFCs (RFC 6184, section 8.2.2; RFC 7798, section 7.2.2; RFC 9328,
/// section 7.3.2) and as WebRTC's peers do it, in an order of units that the answerer takes; each
/// answer is of such a pair, and keeps the payload type.
pub fn whom_both_understand_is_found()
    ensures h264_found { (by : AnswerRules) →
        IsCommonAnswered (h264_answers.rules by) (h264_said.IsCommon by) }
    ensures h264_none { (by : AnswerRules) →
        IsAnswerCommon (h264_answers.rules by) (h264_said.IsCommon by) }
    ensures h265_found { (by : AnswerRules) →
        IsCommonAnswered (h265_answers.rules by) (h265_said.IsCommon by) }
    ensures h265_none { (by : AnswerRules) →
        IsAnswerCommon (h265_answers.rules by) (h265_said.IsCommon by) }
    ensures h266_found { IsCommonAnswered h266_answers.rules h266_said.IsCommon }
    ensures h266_none { IsAnswerCommon h266_answers.rules h266_said.IsCommon }
{}

/// Which formats' units may be sent in another order than decoded (RFC 6184, section 6.4; RFC 7798,
/// section 7.1; RFC 9328, section 7.2).
pub fn formats_say_their_order()
    ensures h264 { (by : AnswerRules) → SaysOrder (h264_answers.rules by) h264_said.Reorders }
    ensures h265 { (by : AnswerRules) → SaysOrder (h265_answers.rules by) h265_said.Reorders }
    ensures h266 { SaysOrder h266_answers.rules h266_said.Reorders }
{}

/// An answer says what the offer says and what we can do, the most of it; what it says of our stream
/// and of us as a receiver is our own.
pub fn answers_are_by_offer_and_ours()
    ensures h264 { (by : AnswerRules) →
        OfEachAnswer (h264_answers.rules by) (h264_said.IsOurAnswer by) }
    ensures h265 { (by : AnswerRules) →
        OfEachAnswer (h265_answers.rules by) (h265_said.IsOurAnswer by) }
    ensures h266 { OfEachAnswer h266_answers.rules h266_said.IsOurAnswer }
{}

/// An answer of H.264 is one that RFC 6184, section 8.2.2, allows of the offered format, and of an
/// allowed answer what each end sends is what the other said that it receives.
pub fn h264_answers_are_allowed()
    ensures allowed { (by : AnswerRules) → OfEachAnswer (h264_answers.rules by)
        (λ offered own answer. IsH264Answer by offered answer) }
    ensures forth { (by : AnswerRules) (offered answer : FormatParameters)
        (it : IsH264Answer by offered answer) → MaySend offered answer it.theirs it.ours }
    ensures back { (by : AnswerRules) (offered answer : FormatParameters)
        (it : IsH264Answer by offered answer) → MaySend answer offered it.ours it.theirs }
{}

/// An answer of H.264 is parameters of H.264, and once it's written it is read as the same.
pub fn h264_answers_are_read()
    ensures parameters { (by : AnswerRules) → OfEachAnswer (h264_answers.rules by)
        (λ offered own answer. AreParameters h264.rows answer) }
    ensures read { (by : AnswerRules) → OfEachAnswer (h264_answers.rules by)
        (λ offered own answer. IsReadAgain h264.rows answer) }
{}

/// An answer of H.264 is answered with itself, but for parameter sets, which depend on what the other
/// end says of them; in interleaved mode where we could put in order what we send.
pub fn h264_answers_are_answered_with_themselves()
    ensures { (by : AnswerRules) → AreAnsweredAgain (h264_answers.rules by) is_sets_row
        (λ own answer. CanDeinterleaveOwn own answer) }
{}

/// An answer of H.265 is one that RFC 7798, section 7.2.2, allows of the offered format, and one of
/// H.266 one that RFC 9328, section 7.3.2, allows; and of an allowed answer what each end sends is what
/// the other said that it receives.
pub fn answers_by_level_are_allowed()
    ensures h265 { (by : AnswerRules) → OfEachAnswer (h265_answers.rules by)
        (λ offered _ answer. IsAnswerByLevel (h265_answers.rules by) h265_answers.by offered
        answer) }
    ensures h266 { OfEachAnswer h266_answers.rules
        (λ offered _ answer. IsAnswerByLevel h266_answers.rules h266_answers.by offered answer) }
    ensures forth { OfEachAllowed (λ rules by offered answer it.
        MaySendByLevel rules by offered answer it.ours.level it.ours) }
    ensures back { OfEachAllowed (λ rules by offered answer it.
        MaySendByLevel rules by answer offered it.ours.highest it.theirs) }
{}

/// An answer of H.265 or of H.266 is parameters of that codec, and once it's written it is read as the
/// same.
pub fn answers_by_level_are_read()
    ensures h265 { (by : AnswerRules) → OfEachAnswer (h265_answers.rules by)
        (λ offered own answer. IsReadAgain h265.rows answer) }
    ensures h266 { OfEachAnswer h266_answers.rules
        (λ offered own answer. IsReadAgain h266.rows answer) }
{}

/// An answer of H.265 or of H.266 is answered with itself, where we could put in order what we send.
pub fn answers_by_level_are_answered_with_themselves()
    ensures h265 { (by : AnswerRules) → AreAnsweredAgain (h265_answers.rules by) (λ _. false)
        (λ own _. can_hold h265.rows h265_answers.by own own ≡ true) }
    ensures h266 { AreAnsweredAgain h266_answers.rules (λ _. false)
        (λ own _. can_hold h266.rows h266_answers.by own own ≡ true) }
{}

/// An answer in a direction is that to what both ends are heard to say in theirs: what isn't usable of
/// an offer changes nothing, and nothing stands in an answer that isn't usable in its direction (RFC
/// 6184, section 8.2.2, table 6; RFC 7798, section 7.2.2, table 1; RFC 9328, section 7.3.2.3, figure
/// 11). So it is by offer and ours, by what is usable of them; both ways all of it is.
pub fn answers_by_direction()
    ensures h264_usable { (by : AnswerRules) → IsByUsable (h264_answers.rules by) }
    ensures h265_usable { (by : AnswerRules) → IsByUsable (h265_answers.rules by) }
    ensures h266_usable { IsByUsable h266_answers.rules }
    ensures h264 { (by : AnswerRules) →
        OfEachDirected (h264_answers.rules by) (h264_said.IsOurAnswer by) }
    ensures h265 { (by : AnswerRules) →
        OfEachDirected (h265_answers.rules by) (h265_said.IsOurAnswer by) }
    ensures h266 { OfEachDirected h266_answers.rules h266_said.IsOurAnswer }
    ensures both_ways { (rules : Rules) → IsWholeBothWays rules }
{}

/// An answer in a direction is one that the RFC allows of what is heard of the offer there.
pub fn directed_answers_are_allowed()
    ensures h264 { (by : AnswerRules) → OfEachDirected (h264_answers.rules by)
        (λ offered _ answer. IsH264Answer by offered answer) }
    ensures h265 { (by : AnswerRules) → OfEachDirected (h265_answers.rules by)
        (λ offered _ answer. IsAnswerByLevel (h265_answers.rules by) h265_answers.by offered
        answer) }
    ensures h266 { OfEachDirected h266_answers.rules
        (λ offered _ answer. IsAnswerByLevel h266_answers.rules h266_answers.by offered answer) }
{}

/// An answer in a direction is parameters of its codec, and once it's written it is read as the same.
pub fn directed_answers_are_read()
    ensures h264 { (by : AnswerRules) → OfEachAnswerIn (h264_answers.rules by)
        (λ _ _ _ answer. IsReadAgain h264.rows answer) }
    ensures h265 { (by : AnswerRules) → OfEachAnswerIn (h265_answers.rules by)
        (λ _ _ _ answer. IsReadAgain h265.rows answer) }
    ensures h266 { OfEachAnswerIn h266_answers.rules
        (λ _ _ _ answer. IsReadAgain h266.rows answer) }
{}

/// An answer of multicast keeps the offered level (RFC 6184, section 8.2.2; RFC 7798, section 7.2.2;
/// RFC 9328, section 7.3.2), in each direction, and is that of unicast, of H.264 where not both ends
/// allow each direction its own level.
pub fn multicast_answers_keep_the_level()
    ensures h264 { (by : AnswerRules) → OfEachDirected (h264_in_multicast by)
        (λ offered _ answer. KeepsLevel 0 offered answer) }
    ensures h265 { (by : AnswerRules) → OfEachDirected (h265_in_multicast by)
        (λ offered _ answer. KeepsLevel h265_answers.by.level offered answer) }
    ensures h266 { OfEachDirected h266_in_multicast
        (λ offered _ answer. KeepsLevel h266_answers.by.level offered answer) }
    ensures h264_unicast { (by : AnswerRules) → OfEachAnswer (h264_in_multicast by)
        (λ offered own answer. h264_answers.both_asymmetric offered own ≡ false →
        IsOfUnicast (h264_answers.rules by) offered own answer) }
    ensures h265_unicast { (by : AnswerRules) → OfEachAnswer (h265_in_multicast by)
        (IsOfUnicast (h265_answers.rules by)) }
    ensures h266_unicast { OfEachAnswer h266_in_multicast (IsOfUnicast h266_answers.rules) }
{}

/// What one end sends is what the other receives, by what both wrote, and of H.264 it's of a level that
/// the receiver says that it receives.
pub fn agreed_streams_are_seen_by_both()
    ensures h264 { (by : AnswerRules) → IsSeenByBoth (agreed.h264_stream by) }
    ensures h265 { IsSeenByBoth (λ _. agreed.h265_stream) }
    ensures h266 { IsSeenByBoth (λ _. agreed.h266_stream) }
    ensures within { (by : AnswerRules) → AreWithinReceived by }
{}

/// Of a declared format that one of ours receives, this one receives whatever it says, and in the order
/// in which its units come (RFC 6184, section 8.2.3; RFC 7798, section 7.2.3; RFC 9328, section 7.3.3).
pub fn declared_formats_are_received()
    ensures h264 { (by : AnswerRules) → OfEachAccepted (h264_answers.rules by)
        (declared.h264_takes by) (IsReceivedH264 by) }
    ensures h265 { (by : AnswerRules) → OfEachAccepted (h265_answers.rules by)
        (declared.h265_takes by) (IsReceivedH265 by) }
    ensures h266 { OfEachAccepted h266_answers.rules declared.h266_takes IsReceivedH266 }
{}
