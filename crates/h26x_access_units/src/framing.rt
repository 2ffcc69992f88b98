//! Where access units begin and end, where timestamps and markers don't tell it.

ghost use Rattle.std.specs.Prelude.{◌≡◌, ℕ, Bool, List, false};
ghost use Rattle.h26x_access_units.specs.Framing.{is_slice_kind, begins_behind_slice, goes_on_with, shown_by, fresh_framing, trusts_markers, ends_by_content, framing_with, believes, framing_marked, is_end_unit, bears_no_unit};

use crate::content::{UnitKind, byte_at, content_kind, is_slice};
use h26x_core::{CodecExtra, PacketError};
use h26x_depacketizer::{RunDepacketizer, UnitTest};

/// What a packet shows of its NAL units, before it is taken.
#[derive(Debug, Clone, Copy, PartialEq, Eq)]
pub(crate) struct Shown {
    /// Whether it bears something of a slice.
    pub has_slice: bool,
    /// The kind of the first unit that it begins.
    pub first: Option<UnitKind>,
}

/// What is known of where a sender's access units end.
#[derive(Debug, Clone, Copy, PartialEq, Eq)]
pub(crate) struct Framing {
    /// Whether a slice came of the access unit that is open.
    pub has_slice: bool,
    /// Whether a marker has ended an access unit since the beginning.
    pub is_marked: bool,
    /// Whether the sender sets the marker on each slice, so that none is believed.
    pub marks_slices: bool,
    /// Whether the last access unit that began has the timestamp of the one before it.
    pub stands_still: bool,
}

/// Whether a unit of a codec is a slice.
#[derive(Clone, Copy)]
struct IsSlice {
    extra: CodecExtra,
}

impl UnitTest for IsSlice {
    ghost use Rattle.h26x_access_units.specs.Content.{content_kind};
    ghost use Rattle.h26x_access_units.specs.Framing.{is_slice_kind};

    ghost holds = { λ it first. is_slice_kind (content_kind it.extra first) };

    #[inline(always)]
    fn holds(&self, first: [u8; 3]) -> bool {
        is_slice(self.extra, first)
    }
}

/// Whether a unit begins an access unit where it stands behind a slice.
#[inline]
fn begins_behind_slice(first: Option<UnitKind>) -> bool
    ensures { result ≡ begins_behind_slice first }
{
    match first {
        None | Some(UnitKind::Other) => false,
        Some(UnitKind::Slice(slice)) => slice.is_first,
        Some(_) => true,
    }
}

/// Whether a unit goes on with a picture.
#[inline]
fn goes_on_with(first: Option<UnitKind>) -> bool
    ensures { result ≡ goes_on_with first }
{
    match first {
        Some(UnitKind::Slice(slice)) => !slice.is_first,
        _ => false,
    }
}

/// Whether a packet bears something of a slice.
#[inline]
pub(crate) fn bears_slice<D: RunDepacketizer>(depacketizer: &D, packet: &[u8]) -> bool
    ensures { result ≡ (shown_by (D.state depacketizer.now).format packet.now).has_slice }
{
    let extra = depacketizer.extra(false);
    depacketizer.bears_unit(packet, &IsSlice { extra })
}

/// What a packet shows.
#[inline(never)]
pub(crate) fn shown_by<D: RunDepacketizer>(depacketizer: &D, packet: &[u8]) -> Shown
    ensures { result ≡ shown_by (D.state depacketizer.now).format packet.now }
{
    let extra = depacketizer.extra(false);
    Shown {
        has_slice: bears_slice(depacketizer, packet),
        first: match depacketizer.first_unit_begun(packet) {
            Some(first) => Some(content_kind(extra, &first)),
            None => None,
        },
    }
}

impl Framing {
    /// Before any packet.
    pub(crate) fn fresh() -> Self
        ensures { result ≡ fresh_framing }
    {
        Framing {
            has_slice: false,
            is_marked: false,
            marks_slices: false,
            stands_still: false,
        }
    }

    /// Whether markers tell where access units end, so that nothing else is asked.
    #[inline]
    pub(crate) fn trusts_markers(self) -> bool
        ensures { result ≡ trusts_markers self }
    {
        self.is_marked && !self.marks_slices && !self.stands_still
    }

    /// Whether the access unit that is open ends before a packet of its timestamp.
    pub(crate) fn ends_by_content(self, shown: Shown) -> bool
        ensures { result ≡ ends_by_content self shown }
    {
        !self.trusts_markers() && self.has_slice && begins_behind_slice(shown.first)
    }

    /// With a packet that is taken: whether the access unit that is open has its timestamp, and whether
    /// the one that ended right before has it.
    #[inline]
    pub(crate) fn with(self, is_open: bool, is_closed: bool, shown: Shown) -> Self
        ensures { result ≡ framing_with self is_open is_closed shown }
    {
        Framing {
            has_slice: is_open && self.has_slice || shown.has_slice,
            is_marked: self.is_marked,
            marks_slices: self.marks_slices || is_closed && goes_on_with(shown.first),
            stands_still: if is_open {
                self.stands_still
            } else {
                is_closed && begins_behind_slice(shown.first)
            },
        }
    }

    /// Whether a marker is believed.
    #[inline]
    pub(crate) fn believes(self, marker: bool) -> bool
        ensures { result ≡ believes self marker }
    {
        marker && self.has_slice && !self.marks_slices
    }

    /// Once a packet was taken, whose marker is believed or isn't.
    #[inline]
    pub(crate) fn marked(self, marker: bool) -> Self
        ensures { result ≡ framing_marked self marker }
    {
        Framing {
            is_marked: self.is_marked || marker,
            ..self
        }
    }
}

/// Whether a unit is an end of sequence or of the bitstream, of H.265 or H.266.
fn is_end_unit(extra: CodecExtra, unit: &[u8]) -> bool
    ensures { result ≡ is_end_unit extra unit.now }
{
    match extra {
        CodecExtra::None | CodecExtra::H264(_) => false,
        CodecExtra::H265(_) => (36..=37).contains(&(byte_at(unit, 0) >> 1 & 0x3f)),
        CodecExtra::H266(_) => (21..=22).contains(&(byte_at(unit, 1) >> 3)),
    }
}

/// Whether a packet that is refused bears nothing that is to be written.
pub(crate) fn bears_no_unit(extra: CodecExtra, error: PacketError, packet: &[u8]) -> bool
    ensures { result ≡ bears_no_unit extra error packet.now }
{
    match error {
        PacketError::NaluTypeIsNotHandled(_) => true,
        PacketError::ErrShortPacket => is_end_unit(extra, packet),
        _ => false,
    }
}
