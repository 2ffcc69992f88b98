//! Frame numbers of H.264: how sequence parameter sets tell that they are written, and where they stand
//! in slice headers. H.265 and H.266 have none: their order counts tell the order of output alone.

ghost use Rattle.std.specs.Prelude.{◌≡◌, ◌≤◌, ◌<◌, ◌==◌, ◌^◌, ◌&&◌, Bool, List};
ghost use Rattle.h26x_access_units.specs.Bits.{first_bit};
ghost use Rattle.h26x_access_units.specs.FrameNumber.{is_same_numbering, joined_numbering, tells_chroma, next_scale, behind_list, behind_list_if, behind_lists, behind_matrix, behind_bit_if, has_chroma_plane, long_lists, behind_chroma, behind_cycle, behind_order_count, numbering_by, numbering_behind, numbering_from, sps_numbering, plane_bits, frame_number, key_packets, tells_no_loss, tells_none_lost};

use crate::bits::Bits;

/// How frame numbers are written in slice headers (Recommendation H.264, 7.4.2.1.1).
#[derive(Debug, Clone, Copy, PartialEq, Eq)]
pub struct FrameNumbering {
    /// In how many bits: at these, numbers go round.
    pub bits: u8,
    /// Whether the number of a colour plane stands before them.
    pub has_plane: bool,
}

/// What sequence parameter sets tell of frame numbers.
#[derive(Debug, Clone, Copy, PartialEq, Eq)]
pub enum Numbering {
    /// There was no set.
    NotTold,
    /// All that came tell the same.
    Told(FrameNumbering),
    /// They differ, or tell of fields or of gaps between numbers.
    Unusable,
}

impl Numbering {
    /// What these and others tell.
    #[inline]
    pub(crate) fn joined(self, other: Self) -> Self
        ensures { result ≡ joined_numbering self other }
    {
        match (self, other) {
            (Numbering::NotTold, it) | (it, Numbering::NotTold) => it,
            (Numbering::Told(a), Numbering::Told(b))
                if a.bits == b.bits && a.has_plane == b.has_plane => { self }
            _ => Numbering::Unusable,
        }
    }
}

/// Whether a set of a profile tells of chroma and scaling.
fn tells_chroma(profile: u32) -> bool
    ensures { result ≡ tells_chroma profile }
{
    matches!(
        profile,
        44 | 83 | 86 | 100 | 110 | 118 | 122 | 128 | 134 | 135 | 138 | 139 | 244
    )
}

/// The next value of a scaling list, by the code of the difference.
fn next_scale(last: u32, code: u32) -> u32
    requires { last < 256 }
    ensures next { result ≡ next_scale last code }
    ensures below { result < 256 }
{
    if code % 2 == 1 {
        return (last + code / 2 + 257) % 256;
    }
    (last + 256).saturating_sub(code / 2) % 256
}

/// Passes a scaling list of so many values.
fn pass_list(bits: &mut Bits<'_>, size: u32)
    ensures { bits.new ≡ behind_list size 8 bits.old }
{
    let mut last = 8;
    for _ in 0..size {
        last = next_scale(last, bits.code());
        if last == 0 {
            return;
        }
    }
}

/// Passes a scaling list, if there is one.
fn pass_list_if(bits: &mut Bits<'_>, size: u32)
    ensures { bits.new ≡ behind_list_if size bits.old }
{
    if bits.bit() {
        pass_list(bits, size);
    }
}

/// Passes so many.
fn pass_lists(bits: &mut Bits<'_>, count: u32, size: u32)
    ensures { bits.new ≡ behind_lists count size bits.old }
{
    for _ in 0..count {
        pass_list_if(bits, size);
    }
}

/// Passes six scaling lists of 16 values and so many of 64, if there are any.
fn pass_matrix(bits: &mut Bits<'_>, count: u32)
    ensures { bits.new ≡ behind_matrix count bits.old }
{
    if bits.bit() {
        pass_lists(bits, 6, 16);
        pass_lists(bits, count, 64);
    }
}

/// How many scaling lists of 64 values there are.
fn long_lists(format: u32) -> u32
    ensures { result ≡ long_lists format }
{
    if format == 3 { 6 } else { 2 }
}

/// A bit, if there is one.
fn bit_if(bits: &mut Bits<'_>, is_there: bool) -> bool
    ensures bit { result ≡ (is_there && first_bit bits.old) }
    ensures behind { bits.new ≡ behind_bit_if is_there bits.old }
{
    is_there && bits.bit()
}

/// Passes chroma, depths and scaling; the answer is whether colour planes are coded apart.
fn read_chroma(bits: &mut Bits<'_>) -> bool
    ensures plane { result ≡ has_chroma_plane bits.old }
    ensures behind { bits.new ≡ behind_chroma bits.old }
{
    let format = bits.code();
    let has_plane = bit_if(bits, format == 3);
    bits.pass(2);
    let _ = bits.bit();
    pass_matrix(bits, long_lists(format));
    has_plane
}

/// Passes the cycle of differences of the order count.
fn pass_cycle(bits: &mut Bits<'_>)
    ensures { bits.new ≡ behind_cycle bits.old }
{
    let count = bits.code();
    bits.pass(count.min(255));
}

/// Passes the order count.
fn pass_order_count(bits: &mut Bits<'_>)
    ensures { bits.new ≡ behind_order_count bits.old }
{
    match bits.code() {
        0 => bits.pass(1),
        1 => {
            let _ = bits.bit();
            bits.pass(2);
            pass_cycle(bits);
        }
        _ => {}
    }
}

/// What a set tells by these.
fn numbering_by(width: u32, has_plane: bool, has_gaps: bool, is_frames: bool) -> Numbering
    ensures { result ≡ numbering_by width has_plane has_gaps is_frames }
{
    if width <= 12 && !has_gaps && is_frames {
        return Numbering::Told(FrameNumbering {
            bits: width as u8 + 4,
            has_plane,
        });
    }
    Numbering::Unusable
}

/// What a set tells by its bits from log2_max_frame_num_minus4 on.
fn numbering_from(bits: &mut Bits<'_>, has_plane: bool) -> Numbering
    ensures { result ≡ numbering_from has_plane bits.old }
{
    let width = bits.code();
    pass_order_count(bits);
    bits.pass(1);
    let has_gaps = bits.bit();
    bits.pass(2);
    numbering_by(width, has_plane, has_gaps, bits.bit())
}

/// What a sequence parameter set tells.
#[cold]
#[inline(never)]
pub(crate) fn sps_numbering(unit: &[u8]) -> Numbering
    ensures { result ≡ sps_numbering unit.now }
{
    let mut bits = Bits::of(unit);
    let _ = bits.number(8);
    let profile = bits.number(8);
    let _ = bits.number(16);
    let _ = bits.code();
    if tells_chroma(profile) {
        let has_plane = read_chroma(&mut bits);
        return numbering_from(&mut bits, has_plane);
    }
    numbering_from(&mut bits, false)
}

/// How many bits stand before a frame number that tell of a colour plane.
fn plane_bits(it: FrameNumbering) -> u8
    ensures { result ≡ plane_bits it }
{
    if it.has_plane { 2 } else { 0 }
}

/// The frame number, by the bytes behind the header of a slice.
fn frame_number(it: FrameNumbering, head: [u8; 8]) -> u32
    requires { it.bits ≤ 16 }
    ensures number { result ≡ frame_number it head }
    ensures below { result < 2 ^ it.bits }
{
    let mut bits = Bits::of(&head);
    bits.pass(3);
    let _ = bits.number(plane_bits(it));
    bits.number(it.bits)
}

/// How many packets a keyframe takes at least.
fn key_packets(is_long: bool) -> u32
    ensures packets { result ≡ key_packets is_long }
    ensures few { result ≤ 2 }
{
    if is_long { 2 } else { 1 }
}

/// Whether no reference picture is among so many missing packets, by frame numbers.
fn tells_no_loss(most: u32, key: u32, last: u32, missing: u32, number: u32) -> bool
    requires some { 1 ≤ most }
    requires fits { last < 2 ^ 16 }
    requires few { key ≤ 2 }
    ensures { result ≡ tells_no_loss most key last missing number }
{
    number == (last + 1) % most && missing < most && missing < last + key
}

/// So by the bytes behind the headers of the first slices of the last reference picture that came and
/// of a picture.
pub(crate) fn tells_none_lost(
    numbering: Numbering,
    is_long: bool,
    last: Option<[u8; 8]>,
    head: Option<[u8; 8]>,
    missing: u32,
) -> bool
    ensures { result ≡ tells_none_lost numbering is_long last head missing }
{
    match (numbering, last, head) {
        (Numbering::Told(it), Some(last), Some(head)) if it.bits <= 16 => tells_no_loss(
            1 << it.bits,
            key_packets(is_long),
            frame_number(it, last),
            missing,
            frame_number(it, head),
        ),
        _ => false,
    }
}
