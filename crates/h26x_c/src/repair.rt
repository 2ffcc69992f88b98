//! The calls on what goes beside video in a session: payload types, and the format of retransmission.

ghost use Rattle.std.specs.Prelude.{◌≡◌, ◌≢◌, ◌⊎◌, ℕ, Ok, Err};
ghost use Rattle.h26x_fmtp.specs.RepairMaps.{repair_map_of};
ghost use Rattle.h26x_sdp_handles.specs.declared.repair.RtxNumbers.{RtxNumbers};
ghost use Rattle.h26x_sdp_handles.specs.declared.sdp_code.Refused.{Refused};
ghost use Rattle.h26x_sdp_handles.specs.Repair.{repair_map_or_code, rtx_read, rtx_written};
ghost use Rattle.h26x_codes.specs.Codes.{ok, out_of_memory};
ghost use Rattle.h26x_c.specs.Endpoints.{GivesOrOutOfMemory};
ghost use Rattle.h26x_c.specs.Sdp.{IsRefused, copy_answer, repair_map_answer, repair_map_text_or_code};

use crate::copied::copy_out;
use crate::sdp::tell;
use h26x_codes::code::{OK, OUT_OF_MEMORY, Refusal};
use h26x_fmtp::RepairMap;
use h26x_sdp_handles::repair::{RtxNumbers, number_of_repair, read_rtx, repair_map_of, write_rtx};
use h26x_sdp_handles::sdp_code::of_rtp_map;
use std::alloc::Global;

/// Reads what stands behind `a=rtpmap:` of what goes beside video.
#[unsafe(no_mangle)]
pub extern "C" fn h26x_repairmap_read(text: &[u8], payload_type: &mut u8, format: &mut u32) -> u32
    ensures { (result, (payload_type.new, format.new))
        ≡ repair_map_answer (repair_map_of text.now) payload_type.old format.old }
{
    match RepairMap::read(text) {
        Ok(map) => {
            *payload_type = map.payload_type;
            *format = number_of_repair(map.format);
            OK
        }
        Err(error) => of_rtp_map(error),
    }
}

/// Writes it, where there is room.
#[unsafe(no_mangle)]
pub extern "C" fn h26x_repairmap_write(
    alloc: Global,
    payload_type: u8,
    format: u32,
    to: &mut [u8],
    len: &mut usize,
) -> u32
    ensures refused { (code : ℕ) → repair_map_or_code payload_type format ≡ Err code →
        result ≡ code }
    ensures answer { GivesOrOutOfMemory result (to.new, len.new)
        (copy_answer (repair_map_text_or_code payload_type format) to.old len.old) }
    ensures kept { result ≡ out_of_memory → (to.new ≡ to.old) × (len.new ≡ len.old) }
{
    let map = match repair_map_of(payload_type, format) {
        Ok(map) => map,
        Err(code) => return code,
    };
    match map.write(alloc) {
        Ok(text) => copy_out(text.as_slice(), to, len),
        Err(_) => OUT_OF_MEMORY,
    }
}

/// Reads what stands behind the payload type in an `a=fmtp` line of retransmission.
#[unsafe(no_mangle)]
pub extern "C" fn h26x_rtx_format_read(
    alloc: Global,
    text: &[u8],
    format: &mut RtxNumbers,
    why: &mut Refusal,
) -> u32
    ensures answer { (it : RtxNumbers) → rtx_read text.now ≡ Ok it →
        (result ≡ out_of_memory) ⊎ ((result ≡ ok) × (format.new ≡ it)) }
    ensures refused { (it : Refused) → rtx_read text.now ≡ Err it →
        IsRefused it result why.new.first }
    ensures kept { result ≢ ok → format.new ≡ format.old }
    ensures kept_why { result ≡ ok → why.new ≡ why.old }
{
    match read_rtx(alloc, text) {
        Ok(it) => {
            *format = it;
            OK
        }
        Err(it) => tell(it, why),
    }
}

/// Writes it, where there is room.
#[unsafe(no_mangle)]
pub extern "C" fn h26x_rtx_format_write(
    alloc: Global,
    format: &RtxNumbers,
    to: &mut [u8],
    len: &mut usize,
) -> u32
    ensures answer { GivesOrOutOfMemory result (to.new, len.new)
        (copy_answer (rtx_written format.now) to.old len.old) }
    ensures kept { result ≡ out_of_memory → (to.new ≡ to.old) × (len.new ≡ len.old) }
{
    match write_rtx(alloc, format) {
        Ok(text) => copy_out(text.as_slice(), to, len),
        Err(code) => code,
    }
}
