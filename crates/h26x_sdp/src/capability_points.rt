//! What a decoder of H.265 can do where pictures are coded for parallel decoding: the value of
//! `dec-parallel-cap`.

ghost use Rattle.std.specs.Prelude.{◌≡◌, ◌++◌, ◌∷◌, Ok, IfOk, OnOk, decimal};
ghost use Rattle.std.specs.Option.{option_map};
ghost use Rattle.h26x_sdp.specs.CapabilityPoints as spec;
ghost use Rattle.h26x_sdp.specs.CapabilityPointsViews.{SaysPoint, SaysPoints};
ghost use Rattle.h26x_fmtp.specs.ParametersViews.{value_view};
ghost use Rattle.h26x_fmtp.specs.Reading.{read_of, all_of};
ghost use Rattle.h26x_fmtp.specs.Written.{written};
ghost use Rattle.h26x_fmtp.specs.Units.{pieces};

use crate::codec::{CodecParameter, CodecParameters};
use crate::error::CapabilityPointsError;
use h26x_fmtp::kind::{BITS_8, BITS_32, BITS_64, FLAG};
use h26x_fmtp::{
    Fault, FormatParameters, ParameterRow, ParametersError, cut, number_in, parameters, same_name,
    split_piece, trimmed,
};
use std::alloc::{AllocError, Global};

/// How pictures are coded for parallel decoding: whether wavefronts are used
/// (entropy_coding_sync_enabled_flag).
#[derive(Debug, Clone, Copy, PartialEq, Eq)]
pub enum ParallelTool {
    /// `w`: they are.
    Wavefronts,
    /// `t`: they aren't; tiles or slices are.
    NoWavefronts,
}

/// What a decoder can do where a stream is coded for parallel decoding, beyond what it can do with any
/// (RFC 7798, section 7.1). At least one limit is given; one that isn't is as it is said of any stream.
#[derive(Debug, Clone, Copy, PartialEq, Eq)]
pub struct CapabilityPoint {
    /// The tool that the stream uses.
    pub tool: ParallelTool,
    /// The least min_spatial_segmentation_idc that it has, from 1 to 4095.
    pub spatial_segmentation: u64,
    /// The tier: 0 Main tier, 1 High tier.
    pub tier_flag: Option<u64>,
    /// The highest level, 30 times the level, up to 255.
    pub level_id: Option<u64>,
    /// The most luma samples in a second.
    pub max_lsr: Option<u64>,
    /// The most luma samples of a picture, up to 4294967295.
    pub max_lps: Option<u64>,
    /// The highest bit rate, in units of CpbBrVclFactor or CpbBrNalFactor bits a second.
    pub max_br: Option<u64>,
}

/// A limit of a point, in the order in which they are written.
#[derive(Debug, Clone, Copy, PartialEq, Eq)]
pub(crate) enum Limit {
    TierFlag,
    LevelId,
    MaxLsr,
    MaxLps,
    MaxBr,
}

/// The limits of the table.
static ROWS: [ParameterRow; 5] = [
    ParameterRow {
        name: b"tier-flag",
        kind: FLAG,
        default: None,
    },
    ParameterRow {
        name: b"level-id",
        kind: BITS_8,
        default: None,
    },
    ParameterRow {
        name: b"max-lsr",
        kind: BITS_64,
        default: None,
    },
    ParameterRow {
        name: b"max-lps",
        kind: BITS_32,
        default: None,
    },
    ParameterRow {
        name: b"max-br",
        kind: BITS_64,
        default: None,
    },
];

impl CodecParameter for Limit {
    ghost rows = { spec.limit_rows };

    ghost place = { spec.limit_place };

    fn rows() -> &'static [ParameterRow] {
        &ROWS
    }

    fn place(self) -> usize {
        self as usize
    }
}

impl ParallelTool {
    /// The tool of a name, without regard to case.
    pub fn of_name(name: &[u8]) -> Option<ParallelTool>
        ensures { result ≡ spec.tool_of name.now }
    {
        if same_name(b"w", name) {
            Some(ParallelTool::Wavefronts)
        } else if same_name(b"t", name) {
            Some(ParallelTool::NoWavefronts)
        } else {
            None
        }
    }

    /// Its name.
    pub fn name(self) -> &'static str
        ensures { result.now ≡ spec.tool_name self }
    {
        match self {
            ParallelTool::Wavefronts => "w",
            ParallelTool::NoWavefronts => "t",
        }
    }
}

/// What stands between the braces that a text begins and ends with.
fn in_braces(text: &[u8]) -> Option<&[u8]>
    ensures { option_map (λ it. it.now) result ≡ spec.in_braces text.now }
{
    let len = text.len();
    if len < 2 || text[0] != b'{' || text[len - 1] != b'}' {
        return None;
    }
    Some(&text[1..len - 1])
}

/// spatial-seg-idc: a number from 1 to 4095.
fn segmentation_in(text: &[u8]) -> Result<u64, Fault>
    ensures { result ≡ spec.segmentation_in text.now }
{
    match number_in(text) {
        Ok(number) if 1 <= number && number <= 4095 => Ok(number),
        Ok(_) => Err(Fault::OutOfRange),
        Err(fault) => Err(fault),
    }
}

/// A point at a place that has a limit.
fn limited(place: usize, point: CapabilityPoint) -> Result<CapabilityPoint, CapabilityPointsError>
    ensures { result ≡ spec.limited place point }
{
    if point.tier_flag.is_some()
        || point.level_id.is_some()
        || point.max_lsr.is_some()
        || point.max_lps.is_some()
        || point.max_br.is_some()
    {
        Ok(point)
    } else {
        Err(CapabilityPointsError::NoLimit { place })
    }
}

/// The point of a tool and a segmentation, with the limits of a text.
fn with_limits(
    alloc: Global,
    place: usize,
    tool: ParallelTool,
    spatial_segmentation: u64,
    text: &[u8],
) -> Result<CapabilityPoint, CapabilityPointsError>
    ensures { SaysPoint result
        (spec.with_limits place tool spatial_segmentation (read_of spec.limit_rows text.now)) }
{
    match CodecParameters::<Limit>::read(alloc, text) {
        Ok(limits) => limited(
            place,
            CapabilityPoint {
                tool,
                spatial_segmentation,
                tier_flag: limits.number(Limit::TierFlag),
                level_id: limits.number(Limit::LevelId),
                max_lsr: limits.number(Limit::MaxLsr),
                max_lps: limits.number(Limit::MaxLps),
                max_br: limits.number(Limit::MaxBr),
            },
        ),
        Err(ParametersError::OutOfMemory) => Err(CapabilityPointsError::OutOfMemory),
        Err(fault) => Err(CapabilityPointsError::Limits { place, fault }),
    }
}

/// The point at a place, of its text.
fn point_in(
    alloc: Global,
    place: usize,
    text: &[u8],
) -> Result<CapabilityPoint, CapabilityPointsError>
    ensures { SaysPoint result (spec.point_in place text.now) }
{
    let (head, limits) = cut(text, b';');
    let (tool, segmentation) = cut(head, b':');
    let Some(tool) = ParallelTool::of_name(trimmed(tool)) else {
        return Err(CapabilityPointsError::NoTool { place });
    };
    match segmentation_in(trimmed(segmentation)) {
        Ok(segmentation) => with_limits(alloc, place, tool, segmentation, limits),
        Err(fault) => Err(CapabilityPointsError::Segmentation { place, fault }),
    }
}

/// The points of a text without its braces.
fn points_in(alloc: Global, text: &[u8]) -> Result<Vec<CapabilityPoint>, CapabilityPointsError>
    ensures { SaysPoints result (spec.points_from 0 (pieces text.now)) }
{
    let mut points = Vec::new(alloc);
    let mut rest = Some(text);
    while let Some(text) = rest {
        let (piece, behind) = split_piece(text, b',');
        let point = point_in(alloc, points.len(), piece)?;
        points.push(point)?;
        rest = behind;
    }
    Ok(points)
}

/// Reads capability points: in braces, with `,` between them, each `w:` or `t:`, a number, and limits
/// that are read as format parameters are, `;` before each (RFC 7798, section 7.1).
///
/// What is refused first is told, with its place among the points: one of no tool, a number that is
/// none or out of its range, limits that are none, or no limit. A parameter that is none of the five
/// limits is left out (section 7.2).
pub fn read_capability_points(
    alloc: Global,
    text: &[u8],
) -> Result<Vec<CapabilityPoint>, CapabilityPointsError>
    ensures { SaysPoints result (spec.capability_points_in text.now) }
{
    match in_braces(text) {
        Some(text) => points_in(alloc, text),
        None => Err(CapabilityPointsError::NoBraces),
    }
}

/// The text of a number, if it's given.
pub(crate) fn number_text(alloc: Global, number: Option<u64>) -> Result<Option<Vec<u8>>, AllocError>
    ensures { IfOk result (λ text. value_view text ≡ option_map decimal number) }
{
    match number {
        Some(number) => Ok(Some(format!(in alloc; "{number}")?.into_bytes())),
        None => Ok(None),
    }
}

/// The text of a point's limits.
fn limits_text(alloc: Global, point: &CapabilityPoint) -> Result<Vec<u8>, AllocError>
    ensures { IfOk result (λ text. text.items ≡ spec.limits_text point.now) }
{
    let mut values = Vec::with_capacity(alloc, 5)?;
    values.push(number_text(alloc, point.tier_flag)?)?;
    values.push(number_text(alloc, point.level_id)?)?;
    values.push(number_text(alloc, point.max_lsr)?)?;
    values.push(number_text(alloc, point.max_lps)?)?;
    values.push(number_text(alloc, point.max_br)?)?;
    let others = Vec::new(alloc);
    parameters::write(alloc, &ROWS, &FormatParameters { values, others })
}

/// Writes a point at the end of a text.
fn push_point(alloc: Global, text: &mut Vec<u8>, point: &CapabilityPoint) -> Result<(), AllocError>
    ensures { OnOk result (text.new.items ≡ text.old.items ++ spec.point_text point.now) }
{
    let (tool, segmentation) = (point.tool.name(), point.spatial_segmentation);
    let head = format!(in alloc; "{tool}:{segmentation};")?.into_bytes();
    let limits = limits_text(alloc, point)?;
    text.extend_from_slice(head.as_slice())?;
    text.extend_from_slice(limits.as_slice())
}

/// The points of a text without its braces.
fn points_text(alloc: Global, points: &[CapabilityPoint]) -> Result<Vec<u8>, AllocError>
    ensures { IfOk result (λ text. text.items ≡ spec.points_text points.now) }
{
    let mut text = Vec::new(alloc);
    let Some((first, others)) = points.split_first() else {
        return Ok(text);
    };
    push_point(alloc, &mut text, first)?;
    for point in others {
        text.push(b',')?;
        push_point(alloc, &mut text, point)?;
    }
    Ok(text)
}

/// Writes capability points, the limits in the RFC's order. They are read as the same.
pub fn write_capability_points(
    alloc: Global,
    points: &[CapabilityPoint],
) -> Result<Vec<u8>, AllocError>
    ensures { IfOk result (λ text. text.items ≡ spec.capability_points_text points.now) }
{
    let points = points_text(alloc, points)?;
    let mut text = Vec::from_slice(alloc, b"{")?;
    text.extend_from_slice(points.as_slice())?;
    text.push(b'}')?;
    Ok(text)
}
