//! Fragments as a depacketizer takes them (RFC 6184, 5.8; RFC 7798, 4.4.3; RFC 9328, 4.3.3).

ghost use Rattle.std.specs.Prelude.{◌≡◌, length, false, None, OnOk, OnErr, IsOk};
ghost use Rattle.h26x_model.specs.Receive.Received.{reading_units, run_after};
ghost use Rattle.h26x_depacketizer.specs.Run.{header_bytes, fragment_reading, reading_text, extra_with, IsTakeOutcome};
ghost use Rattle.h26x_depacketizer.specs.UnitSink.{IsWritten, TellsRoom, WantsRoom};

use crate::byte_stream::write_parts;
use crate::extra::told;
use crate::run::OpenRun;
use crate::sink::UnitSink;
use h26x_core::{CodecExtra, PacketError};
use h26x_payload::PayloadFormat;

/// A fragment of a unit (RFC 6184, 5.8; RFC 7798, 4.4.3; RFC 9328, 4.3.3).
#[derive(Clone, Copy)]
pub struct Fragment<'a> {
    /// Whether it is the first of its unit.
    pub start: bool,
    /// Whether it is the last.
    pub end: bool,
    /// The header that its unit has: as many of these bytes as the codec's headers have.
    pub head: [u8; 2],
    /// Its data.
    pub body: &'a [u8],
}

/// Takes a fragment: a start begins a run anew, another is added to the open run, an end closes it
/// and writes its unit (RFC 6184, 5.8; RFC 7798, 4.4.3; RFC 9328, 4.3.3). One that doesn't start
/// while no run is open does nothing, and takes no memory.
#[inline(always)]
pub fn take_fragment<C: PayloadFormat, W: UnitSink>(
    codec: C,
    is_avc: bool,
    fragment: Fragment<'_>,
    run: &mut OpenRun,
    out: &mut W,
    codec_extra: &mut CodecExtra,
) -> Result<(), PacketError>
    requires { length (header_bytes (C.format codec) fragment.head)
        ≡ (C.format codec).header_len }
    ensures outcome { IsTakeOutcome is_avc run.old
        (fragment_reading (C.format codec) fragment.entry) result }
    ensures written { OnOk result (IsWritten W.sink out.old out.new
        (reading_text is_avc run.old (fragment_reading (C.format codec) fragment.entry))) }
    ensures told { OnOk result (codec_extra.new ≡ extra_with (C.format codec) codec_extra.old
        run.old (fragment_reading (C.format codec) fragment.entry)) }
    ensures run { OnOk result (run.new
        ≡ run_after run.old (fragment_reading (C.format codec) fragment.entry)) }
    ensures kept { OnErr result (W.sink out.new ≡ W.sink out.old) }
    ensures kept_extra { OnErr result (codec_extra.new ≡ codec_extra.old) }
    ensures kept_run { OnErr result (run.new ≡ run.old) }
    ensures startless { fragment.entry.start ≡ false → run.old ≡ None → IsOk result }
    ensures told_room { TellsRoom W.room W.lacks out.old out.new result
        (reading_text is_avc run.old (fragment_reading (C.format codec) fragment.entry)) }
    ensures lacks { WantsRoom result (reading_units run.old
        (fragment_reading (C.format codec) fragment.entry)) (W.lacks out.new) }
{
    if !fragment.start && !run.is_open() {
        return Ok(());
    }
    if fragment.end {
        let head_len = codec.header_len();
        let data = if fragment.start { &[] } else { run.bytes() };
        write_parts(is_avc, fragment.head, head_len, data, fragment.body, out)?;
        *codec_extra = told(
            codec,
            *codec_extra,
            codec.is_key(&fragment.head[..head_len]),
        );
        run.close();
    } else if fragment.start {
        run.begin(fragment.body)?;
    } else {
        run.extend(fragment.body)?;
    }
    Ok(())
}
