//! What a packet brings to a depacketizer, for every codec (RFC 6184, 7; RFC 7798, 6; RFC 9328, 6).

ghost use Rattle.std.specs.Prelude.{◌≡◌, ◌&&◌, ◌^◌, nat_le, true, length, Err, OnOk, OnErr, IsOk};
ghost use Rattle.h26x_model.specs.Receive.Received.{reading_units, run_after};
ghost use Rattle.h26x_model.specs.Receive.Outcome.{IsReadingOutcome, is_startless};
ghost use Rattle.h26x_depacketizer.specs.Run.{header_bytes, fragment_reading, reading_text, extra_with, brings_long_unit, IsTakeOutcome, ForEachRun, TellsLongUnit};
ghost use Rattle.h26x_depacketizer.specs.DepacketizerView.{reading_of, AreChecked, IsReadAs};
ghost use Rattle.h26x_depacketizer.specs.UnitSink.{IsWritten, TellsRoom, WantsRoom};

use crate::aggregate::write_units;
use crate::byte_stream::{is_too_long, write_headed, write_unit};
use crate::extra::told;
use crate::parts::Parts;
use crate::reader::PacketReader;
use crate::reassembly::{Fragment, take_fragment};
use crate::run::OpenRun;
use crate::sink::UnitSink;
use h26x_core::{CodecExtra, PacketError};
use h26x_payload::PayloadFormat;

/// The bytes of the unit that a fragment completes, at most `usize::MAX`; 0 where it completes none.
fn fragment_completes<C: PayloadFormat>(
    codec: C,
    fragment: Fragment<'_>,
    run_len: Option<usize>,
) -> usize
    requires { length (header_bytes (C.format codec) fragment.head) ≡ (C.format codec).header_len }
    ensures { TellsLongUnit run_len (fragment_reading (C.format codec) fragment.entry)
        (nat_le (2 ^ 32) result) }
{
    if !fragment.end {
        return 0;
    }
    let data = match run_len {
        _ if fragment.start => 0,
        Some(len) => len,
        None => return 0,
    };
    data.saturating_add(fragment.body.len())
        .saturating_add(codec.header_len())
}

/// The bytes of the unit that a packet completes, at most `usize::MAX`; 0 where it completes none,
/// and for an aggregate, whose lengths have two bytes.
fn completed_len<C: PacketReader>(
    codec: C,
    packet: &[u8],
    parts: Parts<'_>,
    run_len: Option<usize>,
) -> usize
    requires { AreChecked (C.format codec) (C.units codec) packet.now parts }
    ensures { TellsLongUnit run_len (reading_of C.format C.units codec packet.now parts.entry)
        (nat_le (2 ^ 32) result) }
{
    match parts {
        Parts::Whole => packet.len(),
        Parts::Unit { body, .. } => body.len().saturating_add(codec.header_len()),
        Parts::Aggregate { .. } => 0,
        Parts::Fragment(fragment) => fragment_completes(codec, fragment, run_len),
    }
}

/// Whether a packet completes a unit of over `u32::MAX` bytes, where units are written behind
/// lengths. The open run, if there is one, holds so many bytes.
#[inline]
pub(crate) fn completes_long_unit<C: PacketReader>(
    codec: C,
    is_avc: bool,
    packet: &[u8],
    parts: Parts<'_>,
    run_len: Option<usize>,
) -> bool
    requires { AreChecked (C.format codec) (C.units codec) packet.now parts }
    ensures { ForEachRun run_len (λ run. result ≡ (is_avc && brings_long_unit run
        (reading_of C.format C.units codec packet.now parts.entry))) }
{
    is_avc && is_too_long(completed_len(codec, packet, parts, run_len))
}

/// Refuses a packet that completes a unit of over `u32::MAX` bytes, where units are written behind
/// lengths of four bytes (ISO/IEC 14496-15). The open run, if there is one, holds so many bytes. It
/// takes no memory.
#[inline]
pub fn check_lengths<C: PacketReader>(
    codec: C,
    is_avc: bool,
    packet: &[u8],
    parts: Parts<'_>,
    run_len: Option<usize>,
) -> Result<(), PacketError>
    requires { IsReadAs (C.format codec) (C.units codec) packet.now parts }
    ensures refused { ForEachRun run_len (λ run.
        OnErr result (IsReadingOutcome is_avc run ((C.format codec).read packet.now) result)) }

    // Behind lengths that fit, want of memory is an outcome; a fragment that doesn't start while no
    // run is open completes nothing.
    ensures memory { ForEachRun run_len (λ run. OnOk result
        (IsReadingOutcome is_avc run ((C.format codec).read packet.now)
        (Err PacketError.OutOfMemory))) }
    ensures startless { ForEachRun run_len (λ run.
        is_startless run ((C.format codec).read packet.now) ≡ true → IsOk result) }
{
    if completes_long_unit(codec, is_avc, packet, parts, run_len) {
        return Err(PacketError::AvcUnitTooLong);
    }
    Ok(())
}

/// Takes the parts of a packet: writes the units that it completes, tells of them, and keeps its
/// run.
///
/// Its clauses speak of the parts, which the match takes apart; those of `take_packet` of the
/// packet that was read as them.
#[inline(always)]
pub(crate) fn take_parts<C: PacketReader, W: UnitSink>(
    codec: C,
    is_avc: bool,
    packet: &[u8],
    parts: Parts<'_>,
    run: &mut OpenRun,
    out: &mut W,
    codec_extra: &mut CodecExtra,
) -> Result<(), PacketError>
    requires { AreChecked (C.format codec) (C.units codec) packet.now parts }
    ensures outcome { IsTakeOutcome is_avc run.old
        (reading_of C.format C.units codec packet.now parts.entry) result }
    ensures written { OnOk result (IsWritten W.sink out.old out.new
        (reading_text is_avc run.old (reading_of C.format C.units codec packet.now parts.entry))) }
    ensures told { OnOk result (codec_extra.new ≡ extra_with (C.format codec) codec_extra.old
        run.old (reading_of C.format C.units codec packet.now parts.entry)) }
    ensures run { OnOk result (run.new
        ≡ run_after run.old (reading_of C.format C.units codec packet.now parts.entry)) }
    ensures kept { OnErr result (W.sink out.new ≡ W.sink out.old) }
    ensures kept_extra { OnErr result (codec_extra.new ≡ codec_extra.old) }
    ensures kept_run { OnErr result (run.new ≡ run.old) }
    ensures startless { is_startless run.old
        (reading_of C.format C.units codec packet.now parts.entry) ≡ true → IsOk result }
    ensures told_room { TellsRoom W.room W.lacks out.old out.new result
        (reading_text is_avc run.old (reading_of C.format C.units codec packet.now parts.entry)) }
    ensures lacks { WantsRoom result (reading_units run.old
        (reading_of C.format C.units codec packet.now parts.entry)) (W.lacks out.new) }
{
    match parts {
        Parts::Whole => {
            write_unit(is_avc, packet, out)?;
            *codec_extra = told(codec, *codec_extra, codec.is_key(packet));
            Ok(())
        }
        Parts::Unit { head, body } => {
            let head_len = codec.header_len();
            write_headed(is_avc, head, head_len, body, out)?;
            *codec_extra = told(codec, *codec_extra, codec.is_key(&head[..head_len]));
            Ok(())
        }
        Parts::Aggregate { bytes, size } => {
            write_units(codec, is_avc, bytes, size, out, codec_extra)
        }
        Parts::Fragment(fragment) => {
            take_fragment(codec, is_avc, fragment, run, out, codec_extra)
        }
    }
}

/// Takes a packet that was read: writes the units that it completes, behind start codes or behind
/// their lengths, tells of them, and keeps its run.
///
/// Behind lengths a unit over `u32::MAX` bytes is refused; else memory may lack. A fragment that
/// doesn't start while no run is open takes none. A refusal leaves everything.
#[inline(always)]
pub fn take_packet<C: PacketReader, W: UnitSink>(
    codec: C,
    is_avc: bool,
    packet: &[u8],
    parts: Parts<'_>,
    run: &mut OpenRun,
    out: &mut W,
    codec_extra: &mut CodecExtra,
) -> Result<(), PacketError>
    requires { IsReadAs (C.format codec) (C.units codec) packet.now parts }
    ensures outcome { IsReadingOutcome is_avc run.old ((C.format codec).read packet.now) result }
    ensures written { OnOk result (IsWritten W.sink out.old out.new
        (reading_text is_avc run.old ((C.format codec).read packet.now))) }
    ensures told { OnOk result (codec_extra.new
        ≡ extra_with (C.format codec) codec_extra.old run.old ((C.format codec).read packet.now)) }
    ensures run { OnOk result (run.new ≡ run_after run.old ((C.format codec).read packet.now)) }
    ensures kept { OnErr result (W.sink out.new ≡ W.sink out.old) }
    ensures kept_extra { OnErr result (codec_extra.new ≡ codec_extra.old) }
    ensures kept_run { OnErr result (run.new ≡ run.old) }
    ensures startless { is_startless run.old ((C.format codec).read packet.now) ≡ true →
        IsOk result }
    ensures told_room { TellsRoom W.room W.lacks out.old out.new result
        (reading_text is_avc run.old ((C.format codec).read packet.now)) }
    ensures lacks { WantsRoom result (reading_units run.old ((C.format codec).read packet.now))
        (W.lacks out.new) }
{
    take_parts(codec, is_avc, packet, parts, run, out, codec_extra)
}
