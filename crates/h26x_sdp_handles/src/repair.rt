//! What goes beside video in a session, as numbers.

ghost use Rattle.std.specs.Prelude.{◌≡◌, ◌⊎◌, Err};
ghost use Rattle.h26x_codes.specs.Codes as codes;
ghost use Rattle.h26x_sdp_handles.specs.SdpCodes as code;
ghost use Rattle.h26x_sdp_handles.specs.Repair as spec;

use crate::sdp_code::{PAYLOAD_TYPE, Refused, of_rtx};
use h26x_codes::code::{OUT_OF_MEMORY, OUT_OF_RANGE};
use h26x_fmtp::{RepairFormat, RepairMap};
use h26x_sdp::RtxFormat;
use std::alloc::Global;

/// The number of what goes beside video.
pub fn number_of_repair(format: RepairFormat) -> u32
    ensures { result ≡ spec.repair_number format }
{
    match format {
        RepairFormat::Rtx => 1,
        RepairFormat::Red => 2,
        RepairFormat::Ulpfec => 3,
        RepairFormat::Flexfec => 4,
        RepairFormat::Flexfec03 => 5,
    }
}

/// What goes beside video, by its number.
pub fn repair_of(number: u32) -> Option<RepairFormat>
    ensures { result ≡ spec.repair_with_number number }
{
    match number {
        1 => Some(RepairFormat::Rtx),
        2 => Some(RepairFormat::Red),
        3 => Some(RepairFormat::Ulpfec),
        4 => Some(RepairFormat::Flexfec),
        5 => Some(RepairFormat::Flexfec03),
        _ => None,
    }
}

/// The payload type of what goes beside video, by its number.
pub fn repair_map_of(payload_type: u8, number: u32) -> Result<RepairMap, u32>
    ensures { result ≡ spec.repair_map_or_code payload_type number }
{
    let Some(format) = repair_of(number) else {
        return Err(OUT_OF_RANGE);
    };
    if payload_type >= 128 {
        return Err(PAYLOAD_TYPE);
    }
    Ok(RepairMap {
        payload_type,
        format,
    })
}

/// The format of retransmission, as C is told it and tells it.
#[repr(C)]
#[derive(Debug, Clone, Copy, PartialEq, Eq)]
pub struct RtxNumbers {
    /// For how many milliseconds a packet can be sent again; 0 where it isn't said.
    pub rtx_time: u64,
    /// The payload type that packets were first sent with.
    pub payload_type: u8,
    /// Whether the time is said.
    pub has_rtx_time: bool,
}

/// A format in numbers.
fn numbers_of_rtx(format: RtxFormat) -> RtxNumbers
    ensures { result ≡ spec.rtx_numbers format }
{
    let (rtx_time, has_rtx_time) = match format.rtx_time {
        Some(time) => (time, true),
        None => (0, false),
    };
    RtxNumbers {
        rtx_time,
        payload_type: format.payload_type,
        has_rtx_time,
    }
}

/// The format that numbers say.
fn rtx_of_numbers(it: &RtxNumbers) -> RtxFormat
    ensures { result ≡ spec.rtx_of_numbers it.now }
{
    let rtx_time = if it.has_rtx_time {
        Some(it.rtx_time)
    } else {
        None
    };
    RtxFormat {
        payload_type: it.payload_type,
        rtx_time,
    }
}

/// Reads what stands behind the payload type in an `a=fmtp` line of retransmission.
#[tactic(auto, using(crate::proofs::ErrorLemmas::says_rtx_or))]
pub fn read_rtx(alloc: Global, text: &[u8]) -> Result<RtxNumbers, Refused>
    ensures { (result ≡ Err (code.refused_with codes.out_of_memory))
        ⊎ (result ≡ spec.rtx_read text.now) }
{
    match RtxFormat::read(alloc, text) {
        Ok(format) => Ok(numbers_of_rtx(format)),
        Err(error) => Err(of_rtx(error)),
    }
}

/// Writes it.
pub fn write_rtx(alloc: Global, it: &RtxNumbers) -> Result<Vec<u8>, u32>
    ensures { spec.SaysRtxText result (spec.rtx_written it.now) }
{
    if it.payload_type >= 128 {
        return Err(PAYLOAD_TYPE);
    }
    match rtx_of_numbers(it).write(alloc) {
        Ok(text) => Ok(text),
        Err(_) => Err(OUT_OF_MEMORY),
    }
}
