//! Units as they are written: behind start codes (Annex B of H.264, H.265 and H.266), or behind their
//! lengths (ISO/IEC 14496-15).

ghost use Rattle.std.specs.Prelude.{◌≡◌, ◌≤◌, ◌<◌, ◌+◌, ◌^◌, nat_le, true, false, ◌&&◌, if◌then◌else◌, ◌⊎◌, [], ◌∷◌, ◌++◌, length, take, Ok, Err, OnOk, OnErr};
ghost use Rattle.h26x_core.specs.ByteStream.{byte_stream};
ghost use Rattle.h26x_core.specs.Word.{long_word};
ghost use Rattle.h26x_model.specs.Receive.Outcome.{is_too_long};
ghost use Rattle.h26x_depacketizer.specs.Run.{IsWriteOutcome, unit_text};
ghost use Rattle.h26x_depacketizer.specs.UnitSink.{IsWritten, TellsRoom};

use crate::sink::UnitSink;
use h26x_core::{ANNEXB_NALUSTART_CODE, PacketError};

/// The bytes before a unit that is written: a start code (Annex B of H.264, H.265 and H.266), or its
/// length (ISO/IEC 14496-15).
pub const PREFIX_SIZE: usize = 4;

/// What stands before a unit of this length.
#[inline(always)]
pub(crate) fn prefix_of(is_avc: bool, len: usize) -> [u8; 4]
    requires { (is_avc && nat_le (2 ^ 32) len) ≡ false }
    ensures { result ≡ (if is_avc then long_word len else 0 ∷ 0 ∷ 0 ∷ 1 ∷ []) }
{
    if is_avc {
        (len as u32).to_be_bytes()
    } else {
        ANNEXB_NALUSTART_CODE
    }
}

/// Whether four bytes don't hold a unit's length.
#[inline]
pub(crate) fn is_too_long(len: usize) -> bool
    ensures { result ≡ nat_le (2 ^ 32) len }
{
    len > u32::MAX as usize
}

/// Writes a whole unit, where there is room for it. Each form is a call of its own, so that the loop
/// over an aggregate's units is compiled once for each.
#[inline(always)]
pub(crate) fn put_unit<W: UnitSink>(is_avc: bool, unit: &[u8], out: &mut W)
    requires room { 4 + length unit.now ≤ W.room out.old }
    requires fits { (is_avc && is_too_long unit.now) ≡ false }
    ensures written { IsWritten W.sink out.old out.new (unit_text is_avc unit.now) }
    ensures room { W.room out.old ≤ W.room out.new + (4 + length unit.now) }
    ensures kept_lacks { W.lacks out.new ≡ W.lacks out.old }
{
    if is_avc {
        out.put_behind(prefix_of(true, unit.len()), unit);
    } else {
        out.put_behind(prefix_of(false, unit.len()), unit);
    }
}

/// Writes a whole unit behind its length (ISO/IEC 14496-15).
#[inline(always)]
fn write_behind_length<W: UnitSink>(unit: &[u8], out: &mut W) -> Result<(), PacketError>
    ensures outcome { IsWriteOutcome (is_too_long unit.now) result }
    ensures written { OnOk result
        (IsWritten W.sink out.old out.new (byte_stream true (unit.now ∷ []))) }
    ensures kept { OnErr result (W.sink out.new ≡ W.sink out.old) }
    ensures told_room { TellsRoom W.room W.lacks out.old out.new result
        (byte_stream true (unit.now ∷ [])) }
    ensures lacks { result ≡ Err PacketError.OutOfMemory → W.lacks out.new ≡ true }
{
    if is_too_long(unit.len()) {
        return Err(PacketError::AvcUnitTooLong);
    }
    out.reserve(unit.len().saturating_add(PREFIX_SIZE))?;
    put_unit(true, unit, out);
    Ok(())
}

/// Writes a whole unit behind a start code (Annex B of H.264, H.265 and H.266).
#[inline(always)]
fn write_behind_start_code<W: UnitSink>(unit: &[u8], out: &mut W) -> Result<(), PacketError>
    ensures outcome { IsWriteOutcome false result }
    ensures written { OnOk result
        (IsWritten W.sink out.old out.new (byte_stream false (unit.now ∷ []))) }
    ensures kept { OnErr result (W.sink out.new ≡ W.sink out.old) }
    ensures told_room { TellsRoom W.room W.lacks out.old out.new result
        (byte_stream false (unit.now ∷ [])) }
    ensures lacks { result ≡ Err PacketError.OutOfMemory → W.lacks out.new ≡ true }
{
    out.reserve(unit.len().saturating_add(PREFIX_SIZE))?;
    put_unit(false, unit, out);
    Ok(())
}

/// Writes a whole unit, behind a start code or behind its length. A unit over `u32::MAX` bytes has no
/// length of four bytes; else memory may lack.
///
/// Each form is a copy of its own, so that small units are written without a branch in between.
#[inline(always)]
pub fn write_unit<W: UnitSink>(is_avc: bool, unit: &[u8], out: &mut W) -> Result<(), PacketError>
    ensures outcome { IsWriteOutcome (is_avc && is_too_long unit.now) result }
    ensures written { OnOk result
        (IsWritten W.sink out.old out.new (byte_stream is_avc (unit.now ∷ []))) }
    ensures kept { OnErr result (W.sink out.new ≡ W.sink out.old) }
    ensures told_room { TellsRoom W.room W.lacks out.old out.new result
        (byte_stream is_avc (unit.now ∷ [])) }
    ensures lacks { result ≡ Err PacketError.OutOfMemory → W.lacks out.new ≡ true }
{
    if is_avc {
        write_behind_length(unit, out)
    } else {
        write_behind_start_code(unit, out)
    }
}

/// What stands before a unit's data: the start code or the length, and its header behind that.
#[inline(always)]
fn lead_of(prefix: [u8; 4], head: [u8; 2]) -> [u8; 6]
    ensures { result ≡ prefix ++ head }
{
    [prefix[0], prefix[1], prefix[2], prefix[3], head[0], head[1]]
}

/// Writes what stands before the data of a unit of this length, with a header of so many of these
/// bytes, where there is room for it. It is one copy of few bytes, whose number the compiler knows,
/// which takes no call.
#[inline(always)]
fn put_lead<W: UnitSink>(is_avc: bool, len: usize, head: [u8; 2], head_len: usize, out: &mut W)
    requires header { head_len ≤ 2 }
    requires room { 4 + head_len ≤ W.room out.old }
    requires fits { (is_avc && nat_le (2 ^ 32) len) ≡ false }
    ensures written { IsWritten W.sink out.old out.new
        ((if is_avc then long_word len else 0 ∷ 0 ∷ 0 ∷ 1 ∷ []) ++ take head_len head) }
    ensures room { W.room out.old ≤ W.room out.new + (4 + head_len) }
    ensures kept_lacks { W.lacks out.new ≡ W.lacks out.old }
{
    let lead = lead_of(prefix_of(is_avc, len), head);
    out.put(&lead[..PREFIX_SIZE + head_len]);
}

/// Writes a unit of these parts, where there is room for it.
#[inline(always)]
fn put_parts<W: UnitSink>(
    is_avc: bool,
    head: [u8; 2],
    head_len: usize,
    run: &[u8],
    body: &[u8],
    out: &mut W,
)
    requires header { head_len ≤ 2 }
    requires room { 4 + (head_len + (length run.now + length body.now)) ≤ W.room out.old }
    requires small { head_len + (length run.now + length body.now) < 2 ^ 64 }
    requires fits { (is_avc && is_too_long (take head_len head ++ (run.now ++ body.now))) ≡ false }
    ensures written { IsWritten W.sink out.old out.new
        (unit_text is_avc (take head_len head ++ (run.now ++ body.now))) }
    ensures kept_lacks { W.lacks out.new ≡ W.lacks out.old }
{
    put_lead(
        is_avc,
        head_len + run.len() + body.len(),
        head,
        head_len,
        out,
    );
    if !run.is_empty() {
        out.put(run);
    }
    out.put(body);
}

/// Writes a unit of these parts, as `write_unit` does: its header, which has so many of these bytes,
/// the data of its run, and the last of its data (RFC 6184, 5.8; RFC 7798, 4.4.3; RFC 9328, 4.3.3).
#[inline(always)]
pub fn write_parts<W: UnitSink>(
    is_avc: bool,
    head: [u8; 2],
    head_len: usize,
    run: &[u8],
    body: &[u8],
    out: &mut W,
) -> Result<(), PacketError>
    requires header { head_len ≤ 2 }
    ensures outcome { IsWriteOutcome (is_avc && is_too_long (take head_len head
        ++ (run.now ++ body.now))) result }
    ensures written { OnOk result (IsWritten W.sink out.old out.new
        (byte_stream is_avc ((take head_len head ++ (run.now ++ body.now)) ∷ []))) }
    ensures kept { OnErr result (W.sink out.new ≡ W.sink out.old) }
    ensures told_room { TellsRoom W.room W.lacks out.old out.new result
        (byte_stream is_avc ((take head_len head ++ (run.now ++ body.now)) ∷ [])) }
    ensures lacks { result ≡ Err PacketError.OutOfMemory → W.lacks out.new ≡ true }
{
    let len = head_len
        .saturating_add(run.len())
        .saturating_add(body.len());
    if is_avc && is_too_long(len) {
        return Err(PacketError::AvcUnitTooLong);
    }
    out.reserve(len.saturating_add(PREFIX_SIZE))?;
    put_parts(is_avc, head, head_len, run, body, out);
    Ok(())
}

/// Writes a unit of a header, which has so many of these bytes, and of what stands behind it, as
/// `write_unit` does. Each form is a copy of its own here too.
#[inline(always)]
pub fn write_headed<W: UnitSink>(
    is_avc: bool,
    head: [u8; 2],
    head_len: usize,
    body: &[u8],
    out: &mut W,
) -> Result<(), PacketError>
    requires header { head_len ≤ 2 }
    ensures outcome { IsWriteOutcome (is_avc && is_too_long (take head_len head ++ body.now)) result }
    ensures written { OnOk result (IsWritten W.sink out.old out.new
        (byte_stream is_avc ((take head_len head ++ body.now) ∷ []))) }
    ensures kept { OnErr result (W.sink out.new ≡ W.sink out.old) }
    ensures told_room { TellsRoom W.room W.lacks out.old out.new result
        (byte_stream is_avc ((take head_len head ++ body.now) ∷ [])) }
    ensures lacks { result ≡ Err PacketError.OutOfMemory → W.lacks out.new ≡ true }
{
    if is_avc {
        write_parts(true, head, head_len, &[], body, out)
    } else {
        write_parts(false, head, head_len, &[], body, out)
    }
}
