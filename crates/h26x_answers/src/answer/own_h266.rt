//! Formats of H.266 that RFC 9328, section 7.2, lets an end say of itself.

ghost use Rattle.std.specs.Prelude.{◌≡◌};
ghost use Rattle.h26x_answers.specs.OwnH266 as spec;

use crate::answer::by_level::is_positive;
use crate::fault::{FormatFault, fault_outside};
use h26x_profile::{H266Level, H266Profile};
use h26x_sdp::{H266Parameter, H266Parameters};

/// Whether a number is the id of a profile of the standard.
fn is_profile(id: Option<u64>) -> bool
    ensures { result ≡ spec.is_profile id }
{
    match id {
        Some(id) if id < 256 => H266Profile::from_id(id as u8).is_some(),
        _ => false,
    }
}

/// Whether a number is the id of a level of the standard.
fn is_level(id: Option<u64>) -> bool
    ensures { result ≡ spec.is_level id }
{
    match id {
        Some(id) if id < 256 => H266Level::from_id(id as u8).is_some(),
        _ => false,
    }
}

/// Whether a format's profile and level are the standard's.
pub(crate) fn is_known(it: &H266Parameters) -> bool
    ensures { result ≡ spec.known it.now }
{
    is_profile(it.number_or_default(H266Parameter::ProfileId))
        && is_level(it.number_or_default(H266Parameter::LevelId))
}

/// Whether the highest level that is received is one of the standard's and above the level, where it's
/// given.
fn is_received_above(it: &H266Parameters) -> bool
    ensures { result ≡ spec.is_received_above it.now }
{
    match (
        it.number_or_default(H266Parameter::LevelId),
        it.number(H266Parameter::MaxRecvLevelId),
    ) {
        (Some(level), Some(received)) => level < received && is_level(Some(received)),
        _ => true,
    }
}

/// Whether what is said of packets out of order fits: where they bear decoding order numbers, the bytes
/// that are to be held are told.
fn reordering_fits(it: &H266Parameters) -> bool
    ensures { result ≡ spec.reordering_fits it.now }
{
    !is_positive(it.number_or_default(H266Parameter::SpropMaxDonDiff))
        || is_positive(it.number_or_default(H266Parameter::SpropDepackBufBytes))
}

/// What is wrong with what is said of packets out of order.
fn reordering_fault(it: &H266Parameters) -> Option<FormatFault>
    ensures { result ≡ spec.reordering_fault it.now }
{
    if reordering_fits(it) {
        None
    } else {
        Some(FormatFault::Reordering)
    }
}

/// MaxLumaSr of a level, luma samples in a second, if the standard gives one (Rec. ITU-T H.266, table
/// A.2).
fn luma_rate_of(level: u64) -> Option<u64>
    ensures { result ≡ spec.luma_rate_of level }
{
    match level {
        16 => Some(552960),
        32 => Some(3686400),
        35 => Some(7372800),
        48 => Some(16588800),
        51 => Some(33177600),
        64 => Some(66846720),
        67 => Some(133693440),
        80 => Some(267386880),
        83 => Some(534773760),
        86 | 96 => Some(1069547520),
        99 => Some(2139095040),
        102 => Some(4278190080),
        105 => Some(4812963840),
        _ => None,
    }
}

/// The highest level that is received.
fn highest_level(it: &H266Parameters) -> Option<u64>
    ensures { result ≡ spec.highest_level it.now }
{
    it.number(H266Parameter::MaxRecvLevelId)
        .or(it.number_or_default(H266Parameter::LevelId))
}

/// What is wrong with the rate of luma samples, at the highest level that is received.
fn rate_fault(it: &H266Parameters) -> Option<FormatFault>
    ensures { result ≡ spec.rate_fault it.now (spec.highest_level it.now) }
{
    let rate = luma_rate_of(highest_level(it)?)?;
    fault_outside(it, H266Parameter::MaxLsr, rate)
}

/// The first rule that a format of one's own breaks.
pub(crate) fn fault(it: &H266Parameters) -> Option<FormatFault>
    ensures { result ≡ spec.fault it.now }
{
    if !is_profile(it.number_or_default(H266Parameter::ProfileId)) {
        return Some(FormatFault::Profile);
    }
    if !is_level(it.number_or_default(H266Parameter::LevelId)) {
        return Some(FormatFault::Level);
    }
    if !is_received_above(it) {
        return Some(FormatFault::HighestLevel);
    }
    rate_fault(it).or(reordering_fault(it))
}
