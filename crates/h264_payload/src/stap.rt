//! The units of a STAP-A (RFC 6184, 5.7.1).

ghost use Rattle.std.specs.Prelude.{◌≡◌, map, IfOk, IfErr};
ghost use Rattle.h26x_core.specs.Pieces.{pieces_of};
ghost use Rattle.h26x_model.specs.Payload.Reading.{Aggregate, Refused, without_don};
ghost use Rattle.h264_payload.specs.H264.{aggregate_of, stap_units};
ghost use Rattle.h26x_depacketizer.specs.Run.{AreOfSize};

use crate::codec::H264;
use h26x_core::{PacketError, STAPA_NALU_LENGTH_SIZE, first_piece};
use h26x_depacketizer::{Aggregate, PREFIX_SIZE};

impl Aggregate for H264 {
    ghost use Rattle.h264_payload.specs.H264.{stap_units};

    // Empty units are skipped, and units end where a length passes the end.
    ghost units = { λ codec. stap_units };

    #[inline(always)]
    fn first_unit(self, bytes: &[u8]) -> Option<(&[u8], &[u8])> {
        let mut rest = bytes;
        while rest.len() >= STAPA_NALU_LENGTH_SIZE {
            match first_piece(rest) {
                Ok((unit, behind)) => {
                    if !unit.is_empty() {
                        return Some((unit, behind));
                    }
                    rest = behind;
                }
                Err(_) => return None,
            }
        }
        None
    }
}

/// How many bytes the units of a STAP-A take where they are written, at most `usize::MAX`; one with
/// a length that passes its end is refused.
#[inline(always)]
pub fn check_stap(bytes: &[u8]) -> Result<usize, PacketError>
    ensures whole { IfOk result (λ size. aggregate_of (pieces_of bytes.now) ≡ Aggregate
        (map without_don (stap_units bytes.now))) }
    ensures size { IfOk result (λ size. AreOfSize (stap_units bytes.now) size) }
    ensures refused { IfErr result (λ e. aggregate_of (pieces_of bytes.now) ≡ Refused e) }
{
    let mut size: usize = 0;
    let mut rest = bytes;
    while rest.len() >= STAPA_NALU_LENGTH_SIZE {
        match first_piece(rest) {
            Ok((unit, behind)) => {
                if !unit.is_empty() {
                    size = size.saturating_add(unit.len() + PREFIX_SIZE);
                }
                rest = behind;
            }
            Err(needed) => {
                let left = rest.len() - STAPA_NALU_LENGTH_SIZE;
                return Err(PacketError::StapASizeLargerThanBuffer(needed, left));
            }
        }
    }
    Ok(size)
}
