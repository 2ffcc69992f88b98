//! Formats that a description declares and doesn't offer, as of RTSP and SAP (RFC 6184, section 8.2.3;
//! RFC 7798, section 7.2.3; RFC 9328, section 7.3.3).

ghost use Rattle.std.specs.Prelude.{◌≡◌, Bool};
ghost use Rattle.h26x_fmtp.specs.Reading as reading;
ghost use Rattle.h26x_answers.specs.Answers.{rules_of};
ghost use Rattle.h26x_answers.specs.AnswersByLevel.{level_rows};
ghost use Rattle.h26x_answers.specs.DeclaredFormats as spec;

use crate::answer::by_level::{LevelParameters, can_hold, levels_of};
use crate::answer::h264::{can_deinterleave, highest_rank, id_of, is_interleaved};
use crate::answer::{AnswerConfig, AnswerRules, CodecRules, are_symmetric, h265, h266, own_fault};
use h26x_sdp::{
    CodecParameter, CodecParameters, H264Parameter, H264Parameters, H265Parameter, H265Parameters,
    H266Parameter, H266Parameters,
};

/// Which declared formats of a codec an end receives.
pub trait CodecDeclared: CodecRules {
    ghost use Rattle.h26x_answers.specs.declared.answer.AnswerRules.{AnswerRules};

    ghost takes: { AnswerRules → reading.FormatParameters → reading.FormatParameters → Bool };

    /// Whether a format of ours receives a declared one of the same configuration: its profile, its
    /// level, and its units in our buffer.
    fn takes(
        rules: AnswerRules,
        declared: &CodecParameters<Self>,
        own: &CodecParameters<Self>,
    ) -> bool
        ensures { result ≡ takes rules declared.now own.now };
}

/// Whether one of our formats receives a declared one as it is: it's of a profile and a level that the
/// standard has, its order of units is taken, and one of ours that breaks no rule has its
/// configuration, receives its level, and has the buffer that it asks for. What a declared format says
/// is of its stream. No memory is taken.
pub fn accepts_declared<P: CodecDeclared>(
    config: AnswerConfig,
    declared: &CodecParameters<P>,
    ours: &[CodecParameters<P>],
) -> bool
    ensures { result ≡ spec.accepts_declared (rules_of config.rules P.rows P.roles P.terms P.known
        P.fault P.reorders P.usages) (P.takes config.rules) config declared.now ours.now }
{
    for own in ours {
        if is_accepted(config, declared, own) {
            return true;
        }
    }
    false
}

/// The same of one of ours.
fn is_accepted<P: CodecDeclared>(
    config: AnswerConfig,
    declared: &CodecParameters<P>,
    own: &CodecParameters<P>,
) -> bool
    ensures { result ≡ spec.is_accepted (rules_of config.rules P.rows P.roles P.terms P.known P.fault
        P.reorders P.usages) (P.takes config.rules) config declared.now own.now }
{
    let is_ordered = config.any_order || !P::reorders(declared);
    if !P::is_known(config.rules, declared) || !is_ordered || own_fault(config, own).is_some() {
        return false;
    }
    are_symmetric(
        P::roles(),
        P::rows(),
        declared.parameters(),
        own.parameters(),
    ) && P::takes(config.rules, declared, own)
}

impl CodecDeclared for H264Parameter {
    ghost use Rattle.h26x_answers.specs.DeclaredFormats as spec;

    ghost takes = { spec.h264_takes };

    fn takes(rules: AnswerRules, declared: &H264Parameters, own: &H264Parameters) -> bool {
        let (Some(a), Some(b)) = (id_of(rules, declared), id_of(rules, own)) else {
            return false;
        };
        a.is_taken(rules, b)
            && (a.level_rank() <= highest_rank(own, b)
                && (!is_interleaved(declared) || can_deinterleave(declared, own)))
    }
}

/// Whether a level that is a number, and an order of units, are received.
fn takes_level<P: CodecParameter>(
    by: &LevelParameters<P>,
    declared: &CodecParameters<P>,
    own: &CodecParameters<P>,
) -> bool
    ensures { result
        ≡ spec.takes_level P.rows (level_rows P.place by.now) declared.now own.now }
{
    match (levels_of(by, declared), levels_of(by, own)) {
        (Some(a), Some(b)) => a.level <= b.highest && can_hold(by, declared, own),
        _ => false,
    }
}

impl CodecDeclared for H265Parameter {
    ghost use Rattle.h26x_answers.specs.DeclaredFormats as spec;

    ghost takes = { spec.h265_takes };

    fn takes(rules: AnswerRules, declared: &H265Parameters, own: &H265Parameters) -> bool {
        h265::agree(rules, declared, own) && takes_level(&h265::BY, declared, own)
    }
}

impl CodecDeclared for H266Parameter {
    ghost use Rattle.h26x_answers.specs.DeclaredFormats as spec;

    ghost takes = { λ _. spec.h266_takes };

    fn takes(_rules: AnswerRules, declared: &H266Parameters, own: &H266Parameters) -> bool {
        takes_level(&h266::BY, declared, own)
    }
}
