//! Answers to offers of H.265 (RFC 7798, section 7.2.2).

ghost use Rattle.std.specs.Prelude.{◌≡◌, IfOk, None};
ghost use Rattle.std.specs.Option.{option_map};
ghost use Rattle.hex.specs.Hex.{decode_sized};
ghost use Rattle.h26x_answers.specs.AnswersH265 as spec;
ghost use Rattle.h26x_answers.specs.AnswersViews.{terms_view};

use crate::answer::by_level::{LevelParameters, is_positive, keeps_level, terms_by_level};
use crate::answer::{AnswerRules, CodecRules, Role, Terms, own_h265, same_if_given, same_number};
use crate::direction::Usage;
use crate::fault::FormatFault;
use h26x_fmtp::Kind;
use h26x_sdp::{H265Parameter, H265Parameters};
use hex::FromHex;
use std::alloc::{AllocError, Global};

/// What each parameter is, in the order of the table.
static ROLES: [Role; 30] = [
    // profile-space, profile-id and tier-flag
    Role::Configuration,
    Role::Configuration,
    Role::Configuration,
    // level-id
    Role::Level,
    // interop-constraints and profile-compatibility-indicator
    Role::Compared,
    Role::Compared,
    // sprop-sub-layer-id and recv-sub-layer-id
    Role::Own,
    Role::OperationPoint,
    // max-recv-level-id and tx-mode
    Role::HighestLevel,
    Role::Configuration,
    // sprop-vps, sprop-sps, sprop-pps and sprop-sei
    Role::Sets,
    Role::Sets,
    Role::Sets,
    Role::Own,
    // max-lsr, max-lps, max-cpb, max-dpb, max-br, max-tr, max-tc and max-fps
    Role::Own,
    Role::Own,
    Role::Own,
    Role::Own,
    Role::Own,
    Role::Own,
    Role::Own,
    Role::Own,
    // sprop-max-don-diff, sprop-depack-buf-nalus, sprop-depack-buf-bytes and depack-buf-cap
    Role::Own,
    Role::Own,
    Role::Own,
    Role::Own,
    // sprop-segmentation-id, sprop-spatial-segmentation-idc, dec-parallel-cap and include-dph
    Role::Own,
    Role::Own,
    Role::Own,
    Role::Own,
];

/// In which directions each parameter is usable, in the order of the table.
static USAGES: [Usage; 30] = [
    // profile-space, profile-id and tier-flag
    Usage::Always,
    Usage::Always,
    Usage::Always,
    // level-id
    Usage::Always,
    // interop-constraints and profile-compatibility-indicator
    Usage::Always,
    Usage::Always,
    // sprop-sub-layer-id and recv-sub-layer-id
    Usage::Sending,
    Usage::Receiving,
    // max-recv-level-id and tx-mode
    Usage::Receiving,
    Usage::Always,
    // sprop-vps, sprop-sps, sprop-pps and sprop-sei
    Usage::Sending,
    Usage::Sending,
    Usage::Sending,
    Usage::Sending,
    // max-lsr, max-lps, max-cpb, max-dpb, max-br, max-tr, max-tc and max-fps
    Usage::Receiving,
    Usage::Receiving,
    Usage::Receiving,
    Usage::Receiving,
    Usage::Receiving,
    Usage::Receiving,
    Usage::Receiving,
    Usage::Receiving,
    // sprop-max-don-diff, sprop-depack-buf-nalus, sprop-depack-buf-bytes and depack-buf-cap
    Usage::Sending,
    Usage::Sending,
    Usage::Sending,
    Usage::Receiving,
    // sprop-segmentation-id, sprop-spatial-segmentation-idc, dec-parallel-cap and include-dph
    Usage::Sending,
    Usage::Sending,
    Usage::Receiving,
    Usage::Receiving,
];

/// By which parameters levels and buffers are told.
pub(crate) const BY: LevelParameters<H265Parameter> = LevelParameters {
    level: H265Parameter::LevelId,
    highest: H265Parameter::MaxRecvLevelId,
    difference: H265Parameter::SpropMaxDonDiff,
    units: H265Parameter::SpropDepackBufNalus,
    need: H265Parameter::SpropDepackBufBytes,
    room: H265Parameter::DepackBufCap,
};

/// The number that eight digits say.
fn four_bytes(text: &[u8]) -> Option<u64>
    ensures { result ≡ spec.four_bytes (decode_sized text.now 4) }
{
    let bytes = <[u8; 4] as FromHex>::from_hex(text).ok()?;
    let high = u64::from(bytes[0]) * 256 + u64::from(bytes[1]);
    Some((high * 256 + u64::from(bytes[2])) * 256 + u64::from(bytes[3]))
}

/// The flags of compatible profiles; where they are absent, that of the profile alone.
fn compatible_profiles(it: &H265Parameters) -> Option<u64>
    ensures { result ≡ spec.compatible_profiles it.now }
{
    match it.value(H265Parameter::ProfileCompatibilityIndicator) {
        Some(text) => four_bytes(text),
        None => flag_of(it.number_or_default(H265Parameter::ProfileId)),
    }
}

/// The flag of a profile, if there's one.
fn flag_of(profile: Option<u64>) -> Option<u64>
    ensures { result ≡ spec.flags_or_profile profile None }
{
    match profile {
        Some(id) => Some(1 << 31u64.saturating_sub(id)),
        None => None,
    }
}

/// Whether two formats have the same constraints.
fn same_constraints(offered: &H265Parameters, own: &H265Parameters) -> bool
    ensures { result ≡ spec.same_constraints offered.now own.now }
{
    same_if_given(
        Kind::Hexadecimal { bytes: 6 },
        offered.value_or_default(H265Parameter::InteropConstraints),
        own.value_or_default(H265Parameter::InteropConstraints),
    )
}

/// Whether two formats are of one profile beside its number.
pub(crate) fn agree(rules: AnswerRules, offered: &H265Parameters, own: &H265Parameters) -> bool
    ensures { result ≡ spec.agree rules offered.now own.now }
{
    match rules {
        AnswerRules::Rfc => {
            same_constraints(offered, own)
                && same_number(compatible_profiles(offered), compatible_profiles(own))
        }
        AnswerRules::Webrtc => true,
    }
}

/// The terms of two formats of one configuration.
fn terms(
    alloc: Global,
    rules: AnswerRules,
    offered: &H265Parameters,
    own: &H265Parameters,
) -> Result<Option<Terms>, AllocError>
    ensures { IfOk result (λ it. option_map terms_view it
        ≡ spec.terms rules offered.now own.now) }
{
    if !agree(rules, offered, own) {
        return Ok(None);
    }
    terms_by_level(alloc, &BY, offered, own)
}

/// The same in multicast, at the offered level, which ours isn't below.
fn multicast_terms(
    alloc: Global,
    rules: AnswerRules,
    offered: &H265Parameters,
    own: &H265Parameters,
) -> Result<Option<Terms>, AllocError>
    ensures { IfOk result (λ it. option_map terms_view it
        ≡ spec.multicast_terms rules offered.now own.now) }
{
    if !keeps_level(&BY, offered, own) {
        return Ok(None);
    }
    terms(alloc, rules, offered, own)
}

impl CodecRules for H265Parameter {
    ghost use Rattle.h26x_answers.specs.AnswersH265 as spec;
    ghost use Rattle.h26x_answers.specs.OwnH265 as own;

    ghost roles = { spec.roles };

    ghost terms = { spec.terms };

    ghost multicast_terms = { spec.multicast_terms };

    ghost known = { λ _. own.known };

    ghost fault = { λ _. own.fault };

    ghost reorders = { spec.reorders };

    ghost usages = { spec.usages };

    fn roles() -> &'static [Role] {
        &ROLES
    }

    fn usages() -> &'static [Usage] {
        &USAGES
    }

    fn terms(
        alloc: Global,
        rules: AnswerRules,
        offered: &H265Parameters,
        own: &H265Parameters,
    ) -> Result<Option<Terms>, AllocError> {
        terms(alloc, rules, offered, own)
    }

    fn multicast_terms(
        alloc: Global,
        rules: AnswerRules,
        offered: &H265Parameters,
        own: &H265Parameters,
    ) -> Result<Option<Terms>, AllocError> {
        multicast_terms(alloc, rules, offered, own)
    }

    fn is_known(_rules: AnswerRules, it: &H265Parameters) -> bool {
        own_h265::is_known(it)
    }

    fn fault(_rules: AnswerRules, own: &H265Parameters) -> Option<FormatFault> {
        own_h265::fault(own)
    }

    fn reorders(it: &H265Parameters) -> bool {
        is_positive(it.number_or_default(H265Parameter::SpropMaxDonDiff))
    }
}
