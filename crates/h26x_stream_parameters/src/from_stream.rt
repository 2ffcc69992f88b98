//! What a stream says of itself: the parameters of a sender's offer, out of the sets before the first
//! slice.

ghost use Rattle.std.specs.Prelude.{◌≡◌, ◌<◌, ◌≤◌, ℕ, List, Ok, IfOk, OnOk, length, drop, decimal};
ghost use Rattle.h26x_cut.specs.Cutting.{AreUnits};
ghost use Rattle.h26x_cut.specs.declared.ZeroRule.TheVariants.{All, AtMostThree};
ghost use Rattle.hex.specs.Hex.{encode_lower};
ghost use Rattle.h26x_stream_parameters.specs.FromStream as spec;
ghost use Rattle.h26x_stream_parameters.specs.FromStreamViews.{slices_view, SaysOfStream, SaysOfSet};
ghost use Rattle.h26x_fmtp.specs.ParametersViews.{slice_view};
ghost use Rattle.h26x_fmtp.specs.UnitsViews.{units_view};

use crate::error::StreamError;
use crate::unescaped::first_unescaped;
use base64::engine::general_purpose::STANDARD;
use h26x_cut::{ZeroRule, units};
use h26x_fmtp::unit_types::{
    H264_SETS, H264_SPS, H265_PPS, H265_SPS, H265_VPS, H266_PPS, H266_SPS, H266_VPS,
};
use h26x_fmtp::{Encoding, UnitTypes, write_units};
use h26x_sdp::{
    CodecParameter, CodecParameters, H264Parameter, H264Parameters, H265Parameter, H265Parameters,
    H266Parameter, H266Parameters, constraints_len, has_general,
};
use std::alloc::{AllocError, Global};

/// The slices of an encoding, by which the first picture begins.
fn slices(encoding: Encoding) -> UnitTypes
    ensures { result ≡ spec.slices encoding }
{
    let (first, last) = match encoding {
        Encoding::H264 => (1, 5),
        Encoding::H265 => (0, 31),
        Encoding::H266 => (0, 11),
    };
    UnitTypes {
        encoding,
        first,
        last,
    }
}

/// A unit's layer, which H.264 doesn't have.
fn unit_layer(encoding: Encoding, unit: &[u8]) -> u8
    ensures { result ≡ spec.unit_layer encoding unit.now }
{
    match (encoding, unit) {
        (Encoding::H265, [high, low, ..]) => (high & 0x01) * 32 + (low >> 3 & 0x1f),
        (Encoding::H266, [high, ..]) => high & 0x3f,
        _ => 0,
    }
}

/// Whether a unit is of one of these types, and of the lowest layer.
fn is_base(types: UnitTypes, unit: &[u8]) -> bool
    ensures { result ≡ spec.is_base types unit.now }
{
    types.has(unit) && unit_layer(types.encoding, unit) == 0
}

/// The first set of a type and of the lowest layer, before the first slice.
fn first_set<'a>(types: UnitTypes, units: &[&'a [u8]]) -> Option<&'a [u8]>
    ensures { slice_view result ≡ spec.first_set types (slices_view units.now) }
{
    let slices = slices(types.encoding);
    for unit in units {
        if slices.has(unit) {
            return None;
        }
        if is_base(types, unit) {
            return Some(unit);
        }
    }
    None
}

/// The sets of a type before the first slice.
fn first_sets(alloc: Global, types: UnitTypes, units: &[&[u8]]) -> Result<Vec<Vec<u8>>, AllocError>
    ensures { IfOk result (λ sets. units_view sets.items
        ≡ spec.first_sets types (slices_view units.now)) }
{
    let slices = slices(types.encoding);
    let mut sets = Vec::new(alloc);
    for unit in units {
        if slices.has(unit) {
            return Ok(sets);
        }
        if types.has(unit) {
            sets.push(Vec::from_slice(alloc, unit)?)?;
        }
    }
    Ok(sets)
}

/// What stands behind a unit's header.
fn behind_header(unit: &[u8], header: usize) -> &[u8]
    ensures { result.now ≡ drop header unit.now }
{
    if header < unit.len() {
        &unit[header..]
    } else {
        &[]
    }
}

/// The first bytes of a set behind its header, without those that keep start codes out.
#[tactic(auto, using(crate::proofs::StreamLemmas::too_short, crate::proofs::StreamLemmas::long_enough))]
fn set_bytes(
    alloc: Global,
    header: usize,
    many: usize,
    set: Option<&[u8]>,
) -> Result<Vec<u8>, StreamError>
    ensures bytes { SaysOfSet result (spec.set_bytes header many (slice_view set.entry)) }
    ensures many { IfOk result (λ bytes. length bytes.items ≡ many) }
{
    let Some(unit) = set else {
        return Err(StreamError::NoParameterSet);
    };
    let bytes = first_unescaped(alloc, behind_header(unit, header), many)?;
    if bytes.len() < many {
        return Err(StreamError::ShortParameterSet);
    }
    Ok(bytes)
}

/// Bytes by two hexadecimal digits each, in lower case, as peers write them.
fn base16(alloc: Global, bytes: &[u8]) -> Result<Vec<u8>, AllocError>
    ensures { IfOk result (λ text. text.items ≡ encode_lower bytes.now) }
{
    Ok(hex::encode(alloc, bytes)?.into_bytes())
}

/// A number by its decimal digits.
fn number_text(alloc: Global, number: u8) -> Result<Vec<u8>, AllocError>
    ensures { IfOk result (λ text. text.items ≡ decimal number) }
{
    Ok(format!(in alloc; "{number}")?.into_bytes())
}

/// Gives a parameter the sets of a type before the first slice, if there are some.
fn put_sets<P: CodecParameter>(
    alloc: Global,
    it: &mut CodecParameters<P>,
    parameter: P,
    types: UnitTypes,
    units: &[&[u8]],
) -> Result<(), AllocError>
    requires { P.place parameter < length P.rows }
    ensures { OnOk result (it.new ≡ spec.with_sets (P.place parameter)
        (spec.first_sets types (slices_view units.now)) it.old) }
{
    let sets = first_sets(alloc, types, units)?;
    if !sets.is_empty() {
        it.put(parameter, write_units(alloc, sets.as_slice())?);
    }
    Ok(())
}

/// The three bytes of profile and level of the first SPS of H.264 (Rec. ITU-T H.264, section
/// 7.3.2.1.1).
fn h264_profile(alloc: Global, units: &[&[u8]]) -> Result<Vec<u8>, StreamError>
    ensures { SaysOfSet result (spec.h264_profile (slices_view units.now)) }
{
    set_bytes(alloc, 1, 3, first_set(H264_SPS, units))
}

/// Gives parameters what those three bytes say, and the mode of packets as packetizers send them: they
/// have fragments and aggregates.
fn h264_put_profile(
    alloc: Global,
    it: &mut H264Parameters,
    profile: &[u8],
) -> Result<(), AllocError>
    ensures { OnOk result (it.new ≡ spec.h264_with_profile profile.now it.old) }
{
    it.put(H264Parameter::ProfileLevelId, base16(alloc, profile)?);
    it.put(
        H264Parameter::PacketizationMode,
        Vec::from_slice(alloc, b"1")?,
    );
    Ok(())
}

/// The parameters of H.264 that a sender says of its stream, out of the units that it begins with:
/// `profile-level-id`, `sprop-parameter-sets` and `packetization-mode=1`, which packetizers need (RFC
/// 6184, sections 6.3 and 8.1).
///
/// The sets are those before the first slice, and the first SPS says profile and level: that the
/// others say the same is for the caller to see. Where no SPS is there or it's too short for its
/// profile and level, that is told.
///
/// ```rust
/// let format = h264_of_units(alloc, &[sps, pps, slice])?;
/// send_offer(format.write(alloc)?);
/// ```
pub fn h264_of_units(alloc: Global, units: &[&[u8]]) -> Result<H264Parameters, StreamError>
    ensures { SaysOfStream result (spec.h264_of_units (slices_view units.now)) }
{
    let profile = h264_profile(alloc, units)?;
    let mut it = H264Parameters::none(alloc)?;
    h264_put_profile(alloc, &mut it, profile.as_slice())?;
    put_sets(
        alloc,
        &mut it,
        H264Parameter::SpropParameterSets,
        H264_SETS,
        units,
    )?;
    Ok(it)
}

/// The twelve bytes of profile, tier and level of H.265: of the first SPS, or where none is there of
/// the first VPS (Rec. ITU-T H.265, section 7.3.3).
fn h265_profile(alloc: Global, units: &[&[u8]]) -> Result<Vec<u8>, StreamError>
    ensures bytes { SaysOfSet result (spec.h265_profile (slices_view units.now)) }
    ensures many { IfOk result (λ bytes. length bytes.items ≡ 12) }
{
    let sps = first_set(H265_SPS, units);
    let (front, set) = match sps {
        Some(_) => (1, sps),
        None => (4, first_set(H265_VPS, units)),
    };
    let bytes = set_bytes(alloc, 2, front + 12, set)?;
    Ok(Vec::from_slice(alloc, &bytes[front..])?)
}

/// Gives parameters what those twelve bytes say.
fn h265_put_profile(
    alloc: Global,
    it: &mut H265Parameters,
    profile: &[u8],
) -> Result<(), AllocError>
    requires { length profile.now ≡ 12 }
    ensures { OnOk result (it.new ≡ spec.h265_with_profile profile.now it.old) }
{
    let first = profile[0];
    it.put(
        H265Parameter::ProfileSpace,
        number_text(alloc, first >> 6 & 0x03)?,
    );
    it.put(H265Parameter::ProfileId, number_text(alloc, first & 0x1f)?);
    it.put(
        H265Parameter::TierFlag,
        number_text(alloc, first >> 5 & 0x01)?,
    );
    it.put(H265Parameter::LevelId, number_text(alloc, profile[11])?);
    it.put(
        H265Parameter::InteropConstraints,
        base16(alloc, &profile[5..11])?,
    );
    it.put(
        H265Parameter::ProfileCompatibilityIndicator,
        base16(alloc, &profile[1..5])?,
    );
    Ok(())
}

/// The parameters of H.265 that a sender says of its stream, out of the units that it begins with: its
/// profile, tier and level, with their constraints, and `sprop-vps`, `sprop-sps` and `sprop-pps` (RFC
/// 7798, section 7.1).
///
/// The sets are those before the first slice. The first SPS of the lowest layer says profile, tier
/// and level, or where none is there the first VPS. Where neither is there or it's too short, that is
/// told.
pub fn h265_of_units(alloc: Global, units: &[&[u8]]) -> Result<H265Parameters, StreamError>
    ensures { SaysOfStream result (spec.h265_of_units (slices_view units.now)) }
{
    let profile = h265_profile(alloc, units)?;
    let mut it = H265Parameters::none(alloc)?;
    h265_put_profile(alloc, &mut it, profile.as_slice())?;
    put_sets(alloc, &mut it, H265Parameter::SpropVps, H265_VPS, units)?;
    put_sets(alloc, &mut it, H265Parameter::SpropSps, H265_SPS, units)?;
    put_sets(alloc, &mut it, H265Parameter::SpropPps, H265_PPS, units)?;
    Ok(it)
}

/// The bytes of the first SPS of H.266 as far as its constraints: behind two of them profile, tier and
/// level stand, and behind four the constraints (Rec. ITU-T H.266, sections 7.3.2.4 and 7.3.3.1).
fn h266_profile(alloc: Global, units: &[&[u8]]) -> Result<Vec<u8>, StreamError>
    ensures bytes { SaysOfSet result (spec.h266_profile (slices_view units.now)) }
    ensures many { IfOk result (λ bytes. 5 ≤ length bytes.items) }
{
    h266_profile_in(alloc, first_set(H266_SPS, units))
}

/// The same of an SPS with general constraints, which say how long they are.
fn with_general(alloc: Global, sps: Option<&[u8]>) -> Result<Vec<u8>, StreamError>
    ensures bytes { SaysOfSet result (spec.with_general (slice_view sps.entry)
        (spec.set_bytes 2 15 (slice_view sps.entry))) }
    ensures many { IfOk result (λ bytes. 5 ≤ length bytes.items) }
{
    let bytes = set_bytes(alloc, 2, 15, sps)?;
    let len = constraints_len(&bytes[4..]);
    set_bytes(alloc, 2, 4 + len, sps)
}

/// Those bytes of an SPS.
fn h266_profile_in(alloc: Global, sps: Option<&[u8]>) -> Result<Vec<u8>, StreamError>
    ensures bytes { SaysOfSet result (spec.h266_profile_in (slice_view sps.entry)) }
    ensures many { IfOk result (λ bytes. 5 ≤ length bytes.items) }
{
    let bytes = set_bytes(alloc, 2, 5, sps)?;
    if bytes[1] & 0x01 == 0 {
        return Err(StreamError::NoProfile);
    }
    if has_general(&bytes[4..]) {
        with_general(alloc, sps)
    } else {
        Ok(bytes)
    }
}

/// Gives parameters what those bytes say.
fn h266_put_profile(
    alloc: Global,
    it: &mut H266Parameters,
    profile: &[u8],
) -> Result<(), AllocError>
    requires { 5 ≤ length profile.now }
    ensures { OnOk result (it.new ≡ spec.h266_with_profile profile.now it.old) }
{
    let first = profile[2];
    it.put(
        H266Parameter::ProfileId,
        number_text(alloc, first >> 1 & 0x7f)?,
    );
    it.put(H266Parameter::TierFlag, number_text(alloc, first & 0x01)?);
    it.put(H266Parameter::LevelId, number_text(alloc, profile[3])?);
    let constraints = STANDARD.encode(alloc, &profile[4..])?.into_bytes();
    it.put(H266Parameter::InteropConstraints, constraints);
    Ok(())
}

/// The parameters of H.266 that a sender says of its stream, out of the units that it begins with: its
/// profile, tier and level, with their constraints, and `sprop-vps`, `sprop-sps` and `sprop-pps` (RFC
/// 9328, section 7.2).
///
/// The sets are those before the first slice. The first SPS of the lowest layer says profile, tier
/// and level. Where none is there, it's too short or it doesn't say them, that is told.
pub fn h266_of_units(alloc: Global, units: &[&[u8]]) -> Result<H266Parameters, StreamError>
    ensures { SaysOfStream result (spec.h266_of_units (slices_view units.now)) }
{
    let profile = h266_profile(alloc, units)?;
    let mut it = H266Parameters::none(alloc)?;
    h266_put_profile(alloc, &mut it, profile.as_slice())?;
    put_sets(alloc, &mut it, H266Parameter::SpropVps, H266_VPS, units)?;
    put_sets(alloc, &mut it, H266Parameter::SpropSps, H266_SPS, units)?;
    put_sets(alloc, &mut it, H266Parameter::SpropPps, H266_PPS, units)?;
    Ok(it)
}

/// The units of a payload.
fn units_of<'a>(
    alloc: Global,
    payload: &'a [u8],
    rule: ZeroRule,
) -> Result<Vec<&'a [u8]>, AllocError>
    ensures { (all : List (List ℕ)) × AreUnits rule payload.now all
        × IfOk result (λ list. slices_view list.items ≡ all) }
{
    let mut list = Vec::new(alloc);
    for unit in units(payload, rule) {
        list.push(unit)?;
    }
    Ok(list)
}

/// The parameters of H.264 that a sender says of its stream, out of the bytes that it begins with
/// (Annex B), as [`h264_of_units`] gives them.
pub fn h264_of_payload(alloc: Global, payload: &[u8]) -> Result<H264Parameters, StreamError>
    ensures { (list : List (List ℕ)) × AreUnits All payload.now list
        × SaysOfStream result (spec.h264_of_units list) }
{
    let list = units_of(alloc, payload, ZeroRule::All)?;
    h264_of_units(alloc, list.as_slice())
}

/// The parameters of H.265 that a sender says of its stream, out of the bytes that it begins with
/// (Annex B), as [`h265_of_units`] gives them.
pub fn h265_of_payload(alloc: Global, payload: &[u8]) -> Result<H265Parameters, StreamError>
    ensures { (list : List (List ℕ)) × AreUnits All payload.now list
        × SaysOfStream result (spec.h265_of_units list) }
{
    let list = units_of(alloc, payload, ZeroRule::All)?;
    h265_of_units(alloc, list.as_slice())
}

/// The parameters of H.266 that a sender says of its stream, out of the bytes that it begins with
/// (Annex B), as [`h266_of_units`] gives them.
pub fn h266_of_payload(alloc: Global, payload: &[u8]) -> Result<H266Parameters, StreamError>
    ensures { (list : List (List ℕ)) × AreUnits AtMostThree payload.now list
        × SaysOfStream result (spec.h266_of_units list) }
{
    let list = units_of(alloc, payload, ZeroRule::AtMostThree)?;
    h266_of_units(alloc, list.as_slice())
}
