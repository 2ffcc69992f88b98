//! Laws of what an end may say of itself. Each is the contract of a function without a result.

ghost use Rattle.std.specs.Prelude.{◌≡◌, None};
ghost use Rattle.h26x_answers.specs.declared.answer.AnswerRules.{AnswerRules};
ghost use Rattle.h26x_answers.specs.AnswersH264 as h264;
ghost use Rattle.h26x_answers.specs.OwnH265 as h265;
ghost use Rattle.h26x_answers.specs.OwnH266 as h266;
ghost use Rattle.h26x_answers.specs.OwnLaws.{MaySayH264, MaySayH265, MaySayH266};
ghost use Rattle.h26x_fmtp.specs.Reading.{FormatParameters};

/// A format that breaks no rule says of levels, limits and a receiver what its RFC lets it say (RFC
/// 6184, section 8.1; RFC 7798, section 7.1; RFC 9328, section 7.2).
pub fn unbroken_formats_say_what_they_may()
    ensures h264 { (by : AnswerRules) (it : FormatParameters) → h264.fault by it ≡ None →
        MaySayH264 by it }
    ensures h265 { (it : FormatParameters) → h265.fault it ≡ None → MaySayH265 it }
    ensures h266 { (it : FormatParameters) → h266.fault it ≡ None → MaySayH266 it }
{}
