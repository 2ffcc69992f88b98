//! What an H.264 packet is (RFC 6184, 5.2): a single unit, a STAP-A or an FU-A.

ghost use Rattle.std.specs.Prelude.{◌≡◌, ◌+◌, IfOk, IfErr};
ghost use Rattle.h26x_core.specs.H264Unit.{type_of, type_of_first};
ghost use Rattle.h26x_model.specs.Payload.Reading.{Refused};
ghost use Rattle.h26x_depacketizer.specs.DepacketizerView.{IsReadAs};
ghost use Rattle.h264_payload.specs.H264.{h264, reference_bits, stap_units};

use crate::codec::H264;
use crate::laws;
use crate::stap::check_stap;
use h26x_core::{
    FU_START_BITMASK, FUA_HEADER_SIZE, FUA_NALU_TYPE, FUB_NALU_TYPE, NALU_TYPE_BITMASK,
    PacketError, STAPA_HEADER_SIZE, STAPA_NALU_TYPE,
};
use h26x_depacketizer::{Fragment, PacketReader, Parts};

/// The header of a unit with the NRI of an FU-A's indicator and the type of its header; F is clear
/// (RFC 6184, 5.8).
fn unit_header(indicator: u8, header: u8) -> u8
    ensures { result ≡ reference_bits indicator + type_of header }
{
    (indicator >> 5 & 3) * 32 + (header & NALU_TYPE_BITMASK)
}

impl PacketReader for H264 {
    ghost use Rattle.std.specs.Prelude.{ℕ, List, Bool};
    ghost use Rattle.h26x_core.specs.H264AccessUnit.{may_begin_h264};

    ghost begins = { λ codec. may_begin_h264 };

    ghost ends = { λ codec marker packet. marker };

    // Types 1 to 23 are units, 24 a STAP-A, 28 an FU-A, and no other is handled.
    #[inline(always)]
    fn read(self, packet: &[u8]) -> Result<Parts<'_>, PacketError> {
        if packet.is_empty() {
            return Err(PacketError::ErrShortPacket);
        }
        match packet[0] & NALU_TYPE_BITMASK {
            1..=23 => Ok(Parts::Whole),
            STAPA_NALU_TYPE => read_stap(packet),
            FUA_NALU_TYPE => read_fragment(packet),
            nalu_type => Err(PacketError::NaluTypeIsNotHandled(nalu_type)),
        }
    }

    // FU-Bs count as fragments here too.
    fn may_begin(self, packet: &[u8]) -> bool {
        if packet.len() < 2 {
            return false;
        }
        match packet[0] & NALU_TYPE_BITMASK {
            FUA_NALU_TYPE | FUB_NALU_TYPE => packet[1] & FU_START_BITMASK != 0,
            _ => true,
        }
    }

    fn is_last(self, marker: bool, _packet: &[u8]) -> bool {
        marker
    }

    fn format_meets_the_facts() {
        laws::meets_the_facts();
    }
}

/// Reads a STAP-A (RFC 6184, 5.7.1).
///
/// ```text
///  0 1 2 3 4 5 6 7
/// +-+-+-+-+-+-+-+-+-+-+-+-+-+-+-+-+-+-+-+-+-+-+-+-+- - - - - - - -+- - - - - - - - - - - -
/// |F|NRI| type 24 |            length             |     unit      | length, unit, ..
/// +-+-+-+-+-+-+-+-+-+-+-+-+-+-+-+-+-+-+-+-+-+-+-+-+- - - - - - - -+- - - - - - - - - - - -
/// ```
#[inline(always)]
fn read_stap(packet: &[u8]) -> Result<Parts<'_>, PacketError>
    requires { type_of_first packet.now ≡ 24 }
    ensures accepted { IfOk result (λ parts. IsReadAs h264 stap_units packet.now parts) }
    ensures refused { IfErr result (λ e. h264.read packet.now ≡ Refused e) }
{
    let bytes = &packet[STAPA_HEADER_SIZE..];
    let size = check_stap(bytes)?;
    Ok(Parts::Aggregate { bytes, size })
}

/// Reads an FU-A (RFC 6184, 5.8). Its unit's header is F clear, NRI, and the type of the second byte.
///
/// ```text
///  0 1 2 3 4 5 6 7 0 1 2 3 4 5 6 7
/// +-+-+-+-+-+-+-+-+-+-+-+-+-+-+-+-+- - - - - - - - - - - - - - - -
/// |F|NRI| type 28 |S|E|R|  type   | a part of the unit
/// +-+-+-+-+-+-+-+-+-+-+-+-+-+-+-+-+- - - - - - - - - - - - - - - -
/// ```
fn read_fragment(packet: &[u8]) -> Result<Parts<'_>, PacketError>
    requires { type_of_first packet.now ≡ 28 }
    ensures accepted { IfOk result (λ parts. IsReadAs h264 stap_units packet.now parts) }
    ensures refused { IfErr result (λ e. h264.read packet.now ≡ Refused e) }
{
    if packet.len() < FUA_HEADER_SIZE {
        return Err(PacketError::ErrShortPacket);
    }
    Ok(Parts::Fragment(Fragment {
        start: packet[1] & FU_START_BITMASK != 0,
        end: packet[1] >> 6 & 1 != 0,
        head: [unit_header(packet[0], packet[1]), 0],
        body: &packet[FUA_HEADER_SIZE..],
    }))
}
