//! Answers to offers of H.266 (RFC 9328, section 7.3.2).

ghost use Rattle.std.specs.Prelude.{◌≡◌, IfOk};
ghost use Rattle.std.specs.Option.{option_map};
ghost use Rattle.h26x_answers.specs.AnswersH266 as spec;
ghost use Rattle.h26x_answers.specs.AnswersViews.{terms_view};

use crate::answer::by_level::{LevelParameters, is_positive, keeps_level, terms_by_level};
use crate::answer::{AnswerRules, CodecRules, Role, Terms, own_h266, same_if_given, same_number};
use crate::direction::Usage;
use crate::fault::FormatFault;
use h26x_fmtp::Kind;
use h26x_fmtp::unit_types::H266_VPS;
use h26x_sdp::{H266Parameter, H266Parameters};
use std::alloc::{AllocError, Global};

/// What each parameter is, in the order of the table.
static ROLES: [Role; 20] = [
    // profile-id, tier-flag, sub-profile-id and interop-constraints
    Role::Configuration,
    Role::Configuration,
    Role::Configuration,
    Role::Configuration,
    // level-id
    Role::Level,
    // sprop-sublayer-id, sprop-ols-id, recv-sublayer-id and recv-ols-id
    Role::Own,
    Role::Own,
    Role::OperationPoint,
    Role::OperationPoint,
    // max-recv-level-id
    Role::HighestLevel,
    // sprop-dci, sprop-vps, sprop-sps, sprop-pps and sprop-sei
    Role::Sets,
    Role::Sets,
    Role::Sets,
    Role::Sets,
    Role::Own,
    // max-lsr and max-fps
    Role::Own,
    Role::Own,
    // sprop-max-don-diff, sprop-depack-buf-bytes and depack-buf-cap
    Role::Own,
    Role::Own,
    Role::Own,
];

/// In which directions each parameter is usable, in the order of the table.
static USAGES: [Usage; 20] = [
    // profile-id, tier-flag, sub-profile-id and interop-constraints
    Usage::Always,
    Usage::Always,
    Usage::Always,
    Usage::Always,
    // level-id
    Usage::Always,
    // sprop-sublayer-id, sprop-ols-id, recv-sublayer-id and recv-ols-id
    Usage::Sending,
    Usage::Sending,
    Usage::Receiving,
    Usage::Receiving,
    // max-recv-level-id
    Usage::Receiving,
    // sprop-dci, sprop-vps, sprop-sps, sprop-pps and sprop-sei
    Usage::Sending,
    Usage::Sending,
    Usage::Sending,
    Usage::Sending,
    Usage::Sending,
    // max-lsr and max-fps
    Usage::Receiving,
    Usage::Receiving,
    // sprop-max-don-diff, sprop-depack-buf-bytes and depack-buf-cap
    Usage::Sending,
    Usage::Sending,
    Usage::Receiving,
];

/// By which parameters levels and buffers are told: no parameter says how many units are to be held, so
/// that of the bytes stands for it.
pub(crate) const BY: LevelParameters<H266Parameter> = LevelParameters {
    level: H266Parameter::LevelId,
    highest: H266Parameter::MaxRecvLevelId,
    difference: H266Parameter::SpropMaxDonDiff,
    units: H266Parameter::SpropDepackBufBytes,
    need: H266Parameter::SpropDepackBufBytes,
    room: H266Parameter::DepackBufCap,
};

/// Whether the profile has layers.
fn has_layers(it: &H266Parameters) -> bool
    ensures { result ≡ spec.has_layers it.now }
{
    let profile = it.number_or_default(H266Parameter::ProfileId);
    (same_number(profile, Some(17)) || same_number(profile, Some(49)))
        || (same_number(profile, Some(81)) || same_number(profile, Some(113)))
}

/// Whether the answer has the offer's `sprop-vps`, where it's configuration too: of a profile with
/// layers.
fn keeps_vps(offered: &H266Parameters, own: &H266Parameters, terms: &Terms) -> bool
    ensures { result ≡ spec.keeps_vps offered.now own.now (terms_view terms.now) }
{
    let ours = if terms.sets {
        own.value(H266Parameter::SpropVps)
    } else {
        None
    };
    !has_layers(offered)
        || same_if_given(
            Kind::Units(H266_VPS),
            offered.value(H266Parameter::SpropVps),
            ours,
        )
}

/// The terms of two formats of one configuration.
fn terms(
    alloc: Global,
    offered: &H266Parameters,
    own: &H266Parameters,
) -> Result<Option<Terms>, AllocError>
    ensures { IfOk result (λ it. option_map terms_view it ≡ spec.terms offered.now own.now) }
{
    match terms_by_level(alloc, &BY, offered, own)? {
        Some(terms) if keeps_vps(offered, own, &terms) => Ok(Some(terms)),
        _ => Ok(None),
    }
}

/// The same in multicast, at the offered level, which ours isn't below.
fn multicast_terms(
    alloc: Global,
    offered: &H266Parameters,
    own: &H266Parameters,
) -> Result<Option<Terms>, AllocError>
    ensures { IfOk result (λ it. option_map terms_view it
        ≡ spec.multicast_terms offered.now own.now) }
{
    if !keeps_level(&BY, offered, own) {
        return Ok(None);
    }
    terms(alloc, offered, own)
}

impl CodecRules for H266Parameter {
    ghost use Rattle.h26x_answers.specs.AnswersH266 as spec;
    ghost use Rattle.h26x_answers.specs.OwnH266 as own;

    ghost roles = { spec.roles };

    ghost terms = { λ _. spec.terms };

    ghost multicast_terms = { λ _. spec.multicast_terms };

    ghost known = { λ _. own.known };

    ghost fault = { λ _. own.fault };

    ghost reorders = { spec.reorders };

    ghost usages = { spec.usages };

    fn roles() -> &'static [Role] {
        &ROLES
    }

    fn usages() -> &'static [Usage] {
        &USAGES
    }

    fn terms(
        alloc: Global,
        _rules: AnswerRules,
        offered: &H266Parameters,
        own: &H266Parameters,
    ) -> Result<Option<Terms>, AllocError> {
        terms(alloc, offered, own)
    }

    fn multicast_terms(
        alloc: Global,
        _rules: AnswerRules,
        offered: &H266Parameters,
        own: &H266Parameters,
    ) -> Result<Option<Terms>, AllocError> {
        multicast_terms(alloc, offered, own)
    }

    fn is_known(_rules: AnswerRules, it: &H266Parameters) -> bool {
        own_h266::is_known(it)
    }

    fn fault(_rules: AnswerRules, own: &H266Parameters) -> Option<FormatFault> {
        own_h266::fault(own)
    }

    fn reorders(it: &H266Parameters) -> bool {
        is_positive(it.number_or_default(H266Parameter::SpropMaxDonDiff))
    }
}
