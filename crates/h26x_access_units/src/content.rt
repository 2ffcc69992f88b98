//! What the NAL units of an access unit tell of it, from the first up to its first slice.

ghost use Rattle.std.specs.Prelude.{◌≡◌, ◌≤◌, false, length, get_or, IfSome};
ghost use Rattle.std.specs.Option.{option_map};
ghost use Rattle.h26x_cut.specs.Cutting.{behind_first_code};
ghost use Rattle.h26x_access_units.specs.Framing.{is_slice_kind};
ghost use Rattle.h26x_access_units.specs.Content.{joined_sets, h264_kind, h265_kind, h266_kind, content_kind, with_kind, slice_head, telling_frames, with_frames, content_with_unit, slice_content, told_head, first_unit, content_of};

use crate::frame_number::{Numbering, sps_numbering};
use h26x_core::CodecExtra;
use h26x_cut::behind_code;

/// How many NAL units are looked at before the first slice.
const MOST_UNITS: usize = 64;

/// Which parameter sets there are.
#[derive(Debug, Clone, Copy, PartialEq, Eq)]
pub struct ParameterSets {
    /// A video parameter set, of H.265 and H.266.
    pub vps: bool,
    /// A sequence parameter set.
    pub sps: bool,
    /// A picture parameter set.
    pub pps: bool,
}

impl ParameterSets {
    /// None.
    pub(crate) const NONE: Self = ParameterSets {
        vps: false,
        sps: false,
        pps: false,
    };

    /// These and others.
    #[inline]
    pub(crate) fn joined(self, others: Self) -> Self
        ensures { result ≡ joined_sets self others }
    {
        ParameterSets {
            vps: self.vps || others.vps,
            sps: self.sps || others.sps,
            pps: self.pps || others.pps,
        }
    }
}

/// The first slice of an access unit.
#[derive(Debug, Clone, Copy, PartialEq, Eq)]
pub struct Slice {
    /// Whether it is the first of its picture.
    pub is_first: bool,
    /// Whether its type is that of a keyframe.
    pub is_key: bool,
    /// Whether no picture of its temporal layer refers to its picture.
    pub is_unreferenced: bool,
    /// Its temporal layer, the lowest 1; 0 where one that is unreferenced is so of every layer.
    pub layer: u8,
}

/// What kind of NAL unit begins.
#[derive(Debug, Clone, Copy, PartialEq, Eq)]
pub enum UnitKind {
    /// An access unit delimiter.
    Delimiter,
    /// A video parameter set.
    Vps,
    /// A sequence parameter set, with the highest temporal layer that it tells, or 0.
    Sps(u8),
    /// A picture parameter set.
    Pps,
    /// A picture header of H.266, and whether no picture refers to its picture.
    PictureHeader(bool),
    /// A slice.
    Slice(Slice),
    /// Another that stands before the slices of an access unit, as supplemental enhancement
    /// information does.
    Prefix,
    /// Any other.
    Other,
}

/// What the NAL units of an access unit tell of it, up to its first slice.
#[derive(Debug, Clone, Copy, PartialEq, Eq)]
pub struct Content {
    /// The kind of the first one.
    pub first: Option<UnitKind>,
    /// Which parameter sets are among them.
    pub sets: ParameterSets,
    /// The highest temporal layer that a sequence parameter set tells, or 0.
    pub highest_layer: u8,
    /// Whether no picture refers to the picture, where a picture header tells so.
    pub picture_header: Option<bool>,
    /// The first slice.
    pub slice: Option<Slice>,
    /// What sequence parameter sets of H.264 tell of frame numbers.
    pub numbering: Numbering,
    /// Of H.264 the eight bytes behind the header of the first slice, 0 behind the end.
    pub head: Option<[u8; 8]>,
}

/// The byte at a place, 0 behind the end.
#[inline]
pub(crate) fn byte_at(unit: &[u8], place: usize) -> u8
    ensures { result ≡ get_or unit.now place 0 }
{
    if place < unit.len() { unit[place] } else { 0 }
}

/// The eight bytes behind the header of an H.264 slice, 0 behind the end. Where all are there they are
/// copied as one.
#[inline]
pub(crate) fn slice_head(unit: &[u8]) -> [u8; 8]
    ensures { result ≡ slice_head unit.now }
{
    if unit.len() <= 8 {
        return short_head(unit);
    }
    let mut head = [0; 8];
    head.copy_from_slice(&unit[1..9]);
    head
}

/// So of a slice that has fewer.
#[cold]
#[inline(never)]
fn short_head(unit: &[u8]) -> [u8; 8]
    requires { length unit.now ≤ 8 }
    ensures { result ≡ slice_head unit.now }
{
    [
        byte_at(unit, 1),
        byte_at(unit, 2),
        byte_at(unit, 3),
        byte_at(unit, 4),
        byte_at(unit, 5),
        byte_at(unit, 6),
        byte_at(unit, 7),
        0,
    ]
}

/// The kind of an H.264 unit (Recommendation H.264, 7.3.1, 7.3.3, table 7-1).
#[inline]
fn h264_kind(unit: &[u8]) -> UnitKind
    ensures { result ≡ h264_kind unit.now }
{
    let header = byte_at(unit, 0);
    match header & 0x1f {
        7 => UnitKind::Sps(0),
        8 => UnitKind::Pps,
        9 => UnitKind::Delimiter,
        1 | 2 | 5 => UnitKind::Slice(Slice {
            is_first: byte_at(unit, 1) >> 7 != 0,
            is_key: header & 0x1f == 5,
            is_unreferenced: header >> 5 & 3 == 0,
            layer: 0,
        }),
        6 | 14..=18 => UnitKind::Prefix,
        _ => UnitKind::Other,
    }
}

/// The kind of an H.265 unit; no header has a temporal layer of 0 (Recommendation H.265, 7.3.1.2,
/// 7.3.2.2, 7.3.6.1, table 7-1).
#[inline]
fn h265_kind(unit: &[u8]) -> UnitKind
    ensures { result ≡ h265_kind unit.now }
{
    let (header, second, third) = (byte_at(unit, 0), byte_at(unit, 1), byte_at(unit, 2));
    if header & 1 != 0 || second >> 3 != 0 || second & 7 == 0 {
        return UnitKind::Other;
    }
    let kind = header >> 1 & 0x3f;
    match kind {
        32 => UnitKind::Vps,
        33 => UnitKind::Sps((third >> 1 & 7) + 1),
        34 => UnitKind::Pps,
        35 => UnitKind::Delimiter,
        0..=9 | 16..=21 => UnitKind::Slice(Slice {
            is_first: third >> 7 != 0,
            is_key: kind >= 16,
            is_unreferenced: kind < 16 && kind & 1 == 0,
            layer: second & 7,
        }),
        39 | 41..=44 => UnitKind::Prefix,
        _ => UnitKind::Other,
    }
}

/// The kind of an H.266 unit; no header has a temporal layer of 0 (Recommendation H.266, 7.3.1.2,
/// 7.3.2.8, 7.3.7, table 5).
#[inline]
fn h266_kind(unit: &[u8]) -> UnitKind
    ensures { result ≡ h266_kind unit.now }
{
    let (header, second, third) = (byte_at(unit, 0), byte_at(unit, 1), byte_at(unit, 2));
    if header & 0x3f != 0 || second & 7 == 0 {
        return UnitKind::Other;
    }
    let kind = second >> 3;
    match kind {
        14 => UnitKind::Vps,
        15 => UnitKind::Sps(0),
        16 => UnitKind::Pps,
        19 => UnitKind::PictureHeader(third >> 6 & 1 != 0),
        20 => UnitKind::Delimiter,
        0..=3 | 7..=10 => UnitKind::Slice(Slice {
            is_first: third >> 7 != 0,
            is_key: kind >= 7 && kind <= 9,
            is_unreferenced: third >> 7 != 0 && third >> 5 & 1 != 0,
            layer: 0,
        }),
        12 | 13 | 17 | 23 | 26 => UnitKind::Prefix,
        _ => UnitKind::Other,
    }
}

/// The kind of a unit, by what is told of its codec; where nothing is told any other.
#[inline]
pub(crate) fn content_kind(extra: CodecExtra, unit: &[u8]) -> UnitKind
    ensures { result ≡ content_kind extra unit.now }
{
    match extra {
        CodecExtra::None => UnitKind::Other,
        CodecExtra::H264(_) => h264_kind(unit),
        CodecExtra::H265(_) => h265_kind(unit),
        CodecExtra::H266(_) => h266_kind(unit),
    }
}

/// Whether a unit that begins with these bytes is a slice, by what is told of its codec: what
/// [`content_kind`] tells, with less work.
#[inline(always)]
pub(crate) fn is_slice(extra: CodecExtra, first: [u8; 3]) -> bool
    ensures { result ≡ is_slice_kind (content_kind extra first) }
{
    let [header, second, _] = first;
    match extra {
        CodecExtra::None => false,
        CodecExtra::H264(_) => matches!(header & 0x1f, 1 | 2 | 5),
        CodecExtra::H265(_) => {
            let is_base = header & 1 == 0 && second >> 3 == 0 && second & 7 != 0;
            is_base && matches!(header >> 1 & 0x3f, 0..=9 | 16..=21)
        }
        CodecExtra::H266(_) => {
            let is_base = header & 0x3f == 0 && second & 7 != 0;
            is_base && matches!(second >> 3, 0..=3 | 7..=10)
        }
    }
}

/// What stands behind the first start code of a text. That of four bytes, with which texts are written,
/// is looked for at the front first, which takes no search.
#[inline]
fn behind_first_code(text: &[u8]) -> Option<&[u8]>
    ensures { option_map (λ rest. rest.now) result ≡ behind_first_code text.now }
{
    if text.len() < 4 {
        return behind_code(text);
    }
    if u32::from_be_bytes([text[0], text[1], text[2], text[3]]) == 1 {
        return Some(&text[4..]);
    }
    behind_code(text)
}

/// What stands of a text from its first unit on, and behind what precedes the next one.
#[inline]
fn first_unit(is_avc: bool, text: &[u8]) -> Option<(&[u8], &[u8])>
    ensures { option_map (λ it. (it.0.now, it.1.now)) result ≡ first_unit is_avc text.now }
{
    if !is_avc {
        let unit = behind_first_code(text)?;
        return Some((unit, unit));
    }
    if text.len() < 4 {
        return None;
    }
    let len = u32::from_be_bytes([text[0], text[1], text[2], text[3]]) as usize;
    let unit = &text[4..];
    Some((unit, if len < unit.len() { &unit[len..] } else { &[] }))
}

impl Content {
    /// That of no units.
    const NONE: Self = Content {
        first: None,
        sets: ParameterSets::NONE,
        highest_layer: 0,
        picture_header: None,
        slice: None,
        numbering: Numbering::NotTold,
        head: None,
    };

    /// The same with the kind of a unit more.
    #[inline]
    fn with(mut self, kind: UnitKind) -> Self
        ensures { result ≡ with_kind self kind }
    {
        if self.first.is_none() {
            self.first = Some(kind);
        }
        match kind {
            UnitKind::Vps => self.sets.vps = true,
            UnitKind::Sps(highest) => {
                self.sets.sps = true;
                self.highest_layer = self.highest_layer.max(highest);
            }
            UnitKind::Pps => self.sets.pps = true,
            UnitKind::PictureHeader(is_unreferenced) => self.picture_header = Some(is_unreferenced),
            UnitKind::Slice(slice) => {
                self.slice = Some(match self.picture_header {
                    Some(is_unreferenced) => Slice {
                        is_first: true,
                        is_unreferenced,
                        ..slice
                    },
                    None => slice,
                });
            }
            UnitKind::Delimiter | UnitKind::Prefix | UnitKind::Other => {}
        }
        self
    }

    /// The same with what an H.264 unit of a kind tells of frame numbers.
    #[inline]
    fn telling_frames(mut self, kind: UnitKind, unit: &[u8]) -> Self
        ensures { result ≡ telling_frames kind unit.now self }
    {
        match kind {
            UnitKind::Sps(_) => self.numbering = self.numbering.joined(sps_numbering(unit)),
            UnitKind::Slice(_) => self.head = Some(slice_head(unit)),
            _ => {}
        }
        self
    }

    /// The same with a unit more.
    #[inline]
    fn with_unit(self, extra: CodecExtra, unit: &[u8]) -> Self
        ensures { result ≡ content_with_unit extra self unit.now }
    {
        let kind = content_kind(extra, unit);
        let content = self.with(kind);
        match extra {
            CodecExtra::H264(_) => content.telling_frames(kind, unit),
            _ => content,
        }
    }
}

/// What the units of a text tell, up to the first slice; behind 64 units none is looked at.
#[inline]
pub(crate) fn content_of(is_avc: bool, extra: CodecExtra, text: &[u8]) -> Content
    ensures { result ≡ content_of is_avc extra text.now }
{
    let mut content = Content::NONE;
    let mut rest = text;
    for _ in 0..MOST_UNITS {
        let Some((unit, behind)) = first_unit(is_avc, rest) else {
            return content;
        };
        content = content.with_unit(extra, unit);
        if content.slice.is_some() {
            return content;
        }
        rest = behind;
    }
    content
}

/// An H.264 unit, of which the bytes behind the header tell a frame number.
#[inline]
fn framed(extra: CodecExtra, unit: &[u8]) -> Option<&[u8]>
    ensures { option_map (λ it. slice_head it.now) result ≡ told_head extra unit.now }
{
    match extra {
        CodecExtra::H264(_) => Some(unit),
        _ => None,
    }
}

/// The first unit of a text where that is a slice of no keyframe, and its bytes where they tell a frame
/// number; none where it isn't.
#[inline]
pub(crate) fn plain_slice(
    is_avc: bool,
    extra: CodecExtra,
    text: &[u8],
) -> Option<(Slice, Option<&[u8]>)>
    ensures told { IfSome result (λ it. content_of is_avc extra text.now
        ≡ slice_content it.0 (option_map (λ unit. slice_head unit.now) it.1)) }
    ensures plain { IfSome result (λ it. it.0.is_key ≡ false) }
{
    let (unit, _) = first_unit(is_avc, text)?;
    match content_kind(extra, unit) {
        UnitKind::Slice(slice) if !slice.is_key => Some((slice, framed(extra, unit))),
        _ => None,
    }
}
