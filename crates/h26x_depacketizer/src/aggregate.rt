//! The units of an aggregate, as slices of it (RFC 6184, 5.7.1; RFC 7798, 4.4.2; RFC 9328, 4.3.2).

ghost use Rattle.std.specs.Prelude.{◌≡◌, ◌⊎◌, ◌++◌, ◌-◌, ◌^◌, ◌<◌, ◌&&◌, nat_le, min, true, false, ℕ, List, [], ◌∷◌, length, None, Ok, Err, OnOk, OnErr, IfSome};
ghost use Rattle.std.specs.List.{list_any};
ghost use Rattle.h26x_core.specs.ByteStream.{byte_stream};
ghost use Rattle.h26x_model.specs.Payload.Extra.{extra_after};
ghost use Rattle.h26x_model.specs.Receive.Outcome.{is_too_long};
ghost use Rattle.h26x_depacketizer.specs.Run.{AreOfSize, headed_pieces};
ghost use Rattle.h26x_depacketizer.specs.UnitSink.{IsWritten, TellsRoom};

use crate::byte_stream::{PREFIX_SIZE, put_unit};
use crate::extra::told;
use crate::sink::UnitSink;
use h26x_core::{CodecExtra, PacketError, first_piece};
use h26x_payload::PayloadFormat;

/// A codec's aggregates: how units stand behind each other (RFC 6184, 5.7.1; RFC 7798, 4.4.2; RFC
/// 9328, 4.3.2).
pub trait Aggregate: PayloadFormat {
    ghost units: { Self → List ℕ → List (List ℕ) };

    /// The first unit of bytes, and what stands behind it.
    fn first_unit(self, bytes: &[u8]) -> Option<(&[u8], &[u8])>
        ensures first { IfSome result (λ it. units self bytes.now ≡ it.0.now ∷
            units self it.1.now) }
        ensures short { IfSome result (λ it. is_too_long it.0.now ≡ false) }
        ensures less { IfSome result (λ it. length it.1.now < length bytes.now) }
        ensures none { result ≡ None → units self bytes.now ≡ [] };
}

/// How many bytes the units of an aggregate take where they are written, at most `usize::MAX` (RFC
/// 6184, 5.7.1; RFC 7798, 4.4.2; RFC 9328, 4.3.2). None of them is too long for an AVC length.
pub fn written_size<A: Aggregate>(codec: A, bytes: &[u8]) -> usize
    ensures { AreOfSize (A.units codec bytes.now) result }
{
    let mut size: usize = 0;
    let mut rest = bytes;
    while let Some((unit, behind)) = codec.first_unit(rest) {
        size = size.saturating_add(unit.len().saturating_add(PREFIX_SIZE));
        rest = behind;
    }
    size
}

/// Writes the units of an aggregate, which take `size` bytes, and tells of them (RFC 6184, 5.7.1;
/// RFC 7798, 4.4.2; RFC 9328, 4.3.2).
#[inline(always)]
pub fn write_units<A: Aggregate, W: UnitSink>(
    codec: A,
    is_avc: bool,
    bytes: &[u8],
    size: usize,
    out: &mut W,
    codec_extra: &mut CodecExtra,
) -> Result<(), PacketError>
    requires { AreOfSize (A.units codec bytes.now) size }
    ensures outcome { (result ≡ Ok tt) ⊎ (result ≡ Err PacketError.OutOfMemory) }
    ensures written { OnOk result
        (IsWritten W.sink out.old out.new (byte_stream is_avc (A.units codec bytes.now))) }
    ensures told { OnOk result (codec_extra.new ≡ extra_after (A.format codec) codec_extra.old
        (A.units codec bytes.now)) }
    ensures kept { OnErr result (W.sink out.new ≡ W.sink out.old) }
    ensures kept_extra { OnErr result (codec_extra.new ≡ codec_extra.old) }
    ensures told_room { TellsRoom W.room W.lacks out.old out.new result
        (byte_stream is_avc (A.units codec bytes.now)) }
    ensures lacks { result ≡ Err PacketError.OutOfMemory → W.lacks out.new ≡ true }
{
    out.reserve(size)?;
    let mut counts = false;
    let mut key = false;
    let mut rest = bytes;
    while let Some((unit, behind)) = codec.first_unit(rest) {
        put_unit(is_avc, unit, out);
        counts |= unit.len() >= codec.header_len();
        key |= codec.is_key(unit);
        rest = behind;
    }
    if counts {
        *codec_extra = told(codec, *codec_extra, key);
    }
    Ok(())
}

/// Whether a key unit stands in bytes behind its length, before the first unit that is not whole or
/// that has no whole header (str0m's rule for RFC 7798, 4.4.2, and RFC 9328, 4.3.2).
pub fn holds_key<C: PayloadFormat>(codec: C, bytes: &[u8]) -> bool
    ensures { result
        ≡ list_any (C.format codec).is_key (headed_pieces (C.format codec) bytes.now) }
{
    let mut rest = bytes;
    while rest.len() >= 2 {
        match first_piece(rest) {
            Ok((unit, behind)) if unit.len() >= codec.header_len() => {
                if codec.is_key(unit) {
                    return true;
                }
                rest = behind;
            }
            _ => return false,
        }
    }
    false
}
