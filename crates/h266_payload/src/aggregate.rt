//! The units of an aggregation packet (RFC 9328, 4.3.2).

ghost use Rattle.std.specs.Prelude.{◌≡◌, ◌<◌, ◌≤◌, ◌+◌, ◌-◌, ◌^◌, min, false, ℕ, Option, length, IfOk, IfErr, Ok, Err};
ghost use Rattle.std.specs.List.{list_any};
ghost use Rattle.h26x_model.specs.Receive.Outcome.{is_too_long};
ghost use Rattle.h26x_core.specs.Pieces.{pieces_of, with_piece};
ghost use Rattle.h26x_model.specs.Payload.Reading.{Refused};
ghost use Rattle.h266_payload.specs.H266.{has_packet_type, with_unit, two_or_more};
ghost use Rattle.h26x_depacketizer.specs.Run.{AreOfSize};
ghost use Rattle.h266_payload.specs.Packet.{aggregate_units, aggregate_outcome};

use crate::codec::{H266, header_of};
use h26x_core::{PacketError, first_piece};
use h26x_depacketizer::{Aggregate, PREFIX_SIZE};

/// The bytes of a unit's length in an aggregate.
const LENGTH_SIZE: usize = 2;

/// The bytes of a unit's header.
const UNIT_HEADER_SIZE: usize = 2;

impl Aggregate for H266 {
    ghost use Rattle.h266_payload.specs.Packet.{aggregate_units};

    // Units end where a length passes the end.
    ghost units = { λ codec. aggregate_units };

    #[inline(always)]
    fn first_unit(self, bytes: &[u8]) -> Option<(&[u8], &[u8])> {
        if bytes.len() < LENGTH_SIZE {
            return None;
        }
        first_piece(bytes).ok()
    }
}

/// Whether a unit is an aggregate or a fragment, which no aggregate may hold.
fn is_packet(unit: &[u8]) -> bool
    requires { 2 ≤ length unit.now }
    ensures { result ≡ has_packet_type unit.now }
{
    let header = header_of(unit);
    header.is_aggregation_packet() || header.is_fragmentation_unit()
}

/// The first unit of bytes and what stands behind it, or the fault that is there.
fn first_allowed(bytes: &[u8]) -> Result<(&[u8], &[u8]), PacketError>
    requires { 0 < length bytes.now }
    ensures whole { IfOk result (λ it. pieces_of bytes.now ≡ with_piece it.0.now
        (pieces_of it.1.now)) }
    ensures allowed { IfOk result (λ it. aggregate_outcome bytes.now
        ≡ with_unit it.0.now (aggregate_outcome it.1.now)) }
    ensures short { IfOk result (λ it. is_too_long it.0.now ≡ false) }
    ensures less { IfOk result (λ it. length it.1.now < length bytes.now) }
    ensures headed { IfOk result (λ it. 2 ≤ length it.0.now) }
    ensures size { IfOk result (λ it. length bytes.now ≡ 2 + (length it.0.now + length it.1.now)) }
    ensures refused { IfErr result (λ e. aggregate_outcome bytes.now ≡ Err e) }
{
    if bytes.len() < LENGTH_SIZE {
        return Err(PacketError::ErrShortPacket);
    }
    match first_piece(bytes) {
        Ok((unit, _)) if unit.len() < UNIT_HEADER_SIZE => Err(PacketError::ErrShortPacket),
        Ok((unit, _)) if is_packet(unit) => Err(PacketError::ErrH266CorruptedPacket),
        Ok(parts) => Ok(parts),
        Err(_) => Err(PacketError::ErrShortPacket),
    }
}

/// How many bytes the units of an aggregate take where they are written, at most `usize::MAX`.
///
/// The fault furthest left refuses it: a lone byte, or a length under 2 or past the end; a unit that
/// is an aggregate or a fragment. So do fewer than two units.
pub fn check_aggregate(bytes: &[u8]) -> Result<usize, PacketError>
    ensures units { IfOk result (λ size. aggregate_outcome bytes.now ≡ Ok (aggregate_units bytes.now)) }
    ensures two { IfOk result (λ size. 2 ≤ length (aggregate_units bytes.now)) }
    ensures size { IfOk result (λ size. AreOfSize (aggregate_units bytes.now) size) }
    ensures refused { IfErr result (λ e. (don : Option ℕ) →
        two_or_more don (aggregate_outcome bytes.now)
        ≡ Refused e) }
{
    let mut count: usize = 0;
    let mut rest = bytes;
    while !rest.is_empty() {
        let (_, behind) = first_allowed(rest)?;
        count += 1;
        rest = behind;
    }
    if count < 2 {
        return Err(PacketError::ErrShortPacket);
    }
    // Each length grows to that of a start code.
    Ok(bytes.len() + (PREFIX_SIZE - LENGTH_SIZE) * count)
}
