//! Access units as a receiver gives them out.

ghost use Rattle.std.specs.Prelude.{◌≡◌, ◌<◌, vec_len, slice_index_or, remove};
ghost use Rattle.h26x_assembler.specs.AccessUnit.{access_unit_value};
ghost use Rattle.h26x_access_units.specs.ReceivedAccessUnit.{received_unit_value, unit_with, decoder_with, told_of};

use crate::content::{content_of, plain_slice};
use crate::decoder::DecoderState;
use crate::numbers::AccessUnitNumbers;
use h26x_assembler::AccessUnit;
use h26x_core::CodecExtra;

/// An access unit, and what is told of it.
#[derive(Debug, Drop)]
pub struct ReceivedAccessUnit {
    /// The timestamp of its packets (RFC 3550, 5.1).
    pub timestamp: u32,
    /// The text of its NAL units, as the depacketizer writes it: nothing of a NAL unit of which a
    /// packet is missing.
    pub bytes: Vec<u8>,
    /// What is told of these; `CodecExtra::None` where there is none.
    pub extra: CodecExtra,
    /// Whether nothing of it is missing: all of it came from the packet on that follows the one before,
    /// or from a delimiter on. The first since the receiver was made or restarted is taken for whole
    /// from a VPS on, of H.264 and H.266 from an SPS on: whether something came before isn't known.
    pub is_whole: bool,
    /// Whether a decoder can show it: nothing of it is missing, nor was since a keyframe with which a
    /// decoder can begin, or it is one, which came from its first slice on, with its parameter sets in
    /// it or before it in order. Pictures that are disposable may be missing in part, and packets that
    /// by frame numbers of H.264 bore no reference picture, as of FEC. Parameter sets that are lost so
    /// aren't noticed, nor is a keyframe of one packet right behind one of several. RASL pictures
    /// behind a CRA with which a decoder begins, which it passes over, are clean too.
    pub is_clean: bool,
    /// Whether no other picture refers to its own: where something is missing in it, those after it
    /// can be clean.
    pub is_disposable: bool,
    /// Whether a marker ended one of its timestamp right before it, as where a peer sets the marker on
    /// each slice. It isn't known to be whole then.
    pub continues: bool,
    /// The number of the first packet that came of it.
    pub first: u16,
    /// The number of the last one.
    pub last: u16,
    /// How many numbers are missing between the access unit before and the end of this one.
    pub missing: u32,
}

/// Removes the first of access units: where it is the only one nothing moves.
#[inline]
pub(crate) fn remove_first(units: &mut Vec<AccessUnit>) -> AccessUnit
    requires { 0 < vec_len units.old }
    ensures value { result ≡ slice_index_or units.old.items 0 result }
    ensures items { units.new.items ≡ remove units.old.items 0 }
{
    if units.len() == 1 {
        return units.pop().unwrap();
    }
    units.remove(0)
}

/// What is known of a decoder with an access unit that isn't given out, since it has no bytes.
pub(crate) fn pass(
    decoder: &mut DecoderState,
    has_sets: bool,
    is_avc: bool,
    unit: &AccessUnit,
    numbers: AccessUnitNumbers,
)
    ensures { decoder.new
        ≡ decoder_with decoder.old has_sets is_avc (access_unit_value unit.now) numbers }
{
    let content = content_of(is_avc, unit.extra, &unit.bytes);
    *decoder = decoder.after(has_sets, unit.is_whole, unit.extra, numbers, content);
}

/// What is told of an access unit by what is known of a decoder.
#[derive(Clone, Copy)]
pub(crate) struct Told {
    pub is_whole: bool,
    is_clean: bool,
    is_disposable: bool,
}

/// What is told of an access unit, and what is known of a decoder with it.
#[inline(never)]
fn told_of_any(
    decoder: &mut DecoderState,
    has_sets: bool,
    is_avc: bool,
    unit: &AccessUnit,
    numbers: AccessUnitNumbers,
) -> Told
    ensures told { result ≡ told_of decoder.old has_sets is_avc (access_unit_value unit.now) numbers }
    ensures decoder { decoder.new
        ≡ decoder_with decoder.old has_sets is_avc (access_unit_value unit.now) numbers }
{
    let content = content_of(is_avc, unit.extra, &unit.bytes);
    let before = *decoder;
    let after = before.after(has_sets, unit.is_whole, unit.extra, numbers, content);
    *decoder = after;
    Told {
        is_whole: before.tells_whole(unit.is_whole, unit.extra, numbers, content),
        is_clean: after.shows(unit.is_whole),
        is_disposable: before.is_disposable(numbers, content),
    }
}

/// So, with less work where it follows the one before and begins with a slice of no keyframe.
#[inline]
pub(crate) fn told_of(
    decoder: &mut DecoderState,
    has_sets: bool,
    is_avc: bool,
    unit: &AccessUnit,
    numbers: AccessUnitNumbers,
) -> Told
    ensures told { result ≡ told_of decoder.old has_sets is_avc (access_unit_value unit.now) numbers }
    ensures decoder { decoder.new
        ≡ decoder_with decoder.old has_sets is_avc (access_unit_value unit.now) numbers }
{
    if unit.is_whole && numbers.follows {
        if let Some((slice, framed)) = plain_slice(is_avc, unit.extra, &unit.bytes) {
            return Told {
                is_whole: !numbers.continues,
                is_clean: decoder.is_clean,
                is_disposable: decoder.go_on(numbers, slice, framed),
            };
        }
    }
    told_of_any(decoder, has_sets, is_avc, unit, numbers)
}

impl ReceivedAccessUnit {
    /// An access unit with what is told of it and its numbers.
    #[inline]
    pub(crate) fn with(told: Told, unit: AccessUnit, numbers: AccessUnitNumbers) -> Self
        ensures { received_unit_value result ≡ unit_with told (access_unit_value unit) numbers }
    {
        ReceivedAccessUnit {
            timestamp: unit.timestamp,
            bytes: unit.bytes,
            extra: unit.extra,
            is_whole: told.is_whole,
            is_clean: told.is_clean,
            is_disposable: told.is_disposable,
            continues: numbers.continues,
            first: numbers.first,
            last: numbers.last,
            missing: numbers.missing,
        }
    }

    /// The access unit alone.
    pub(crate) fn into_access_unit(self) -> AccessUnit {
        AccessUnit {
            timestamp: self.timestamp,
            bytes: self.bytes,
            extra: self.extra,
            is_whole: self.is_whole,
        }
    }
}
