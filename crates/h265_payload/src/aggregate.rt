//! The units of an aggregation packet, as slices of it (RFC 7798, 4.4.2).

ghost use Rattle.std.specs.Prelude.{◌≡◌, ◌-◌, ◌^◌, ◌<◌, ◌≤◌, ◌∷◌, [], true, false, min, length, None, IfSome, IfOk, IfErr};
ghost use Rattle.std.specs.List.{list_any};
ghost use Rattle.h26x_model.specs.Receive.Outcome.{is_too_long};
ghost use Rattle.h26x_depacketizer.specs.Run.{AreOfSize};
ghost use Rattle.h265_payload.specs.Shown.{others_of, units_in};
ghost use Rattle.h265_payload.specs.ShownParts.{other_of};

use crate::codec::H265;
use h26x_core::{PacketError, first_piece};
use h26x_depacketizer::{Aggregate, written_size};

/// A unit behind its length, and with decoding order numbers behind DOND too.
#[derive(Clone, Copy)]
pub struct Other<'a> {
    /// The difference of its number from the one before, less 1.
    pub dond: Option<u8>,
    /// The unit.
    pub unit: &'a [u8],
    /// What stands behind it.
    pub behind: &'a [u8],
}

/// The first of units that each stand behind DOND and their length.
#[inline(always)]
fn first_apart(bytes: &[u8]) -> Option<Other<'_>>
    ensures first { IfSome result (λ it. others_of true bytes.now
        ≡ other_of it.dond it.unit.now ∷ others_of true it.behind.now) }
    ensures short { IfSome result (λ it. length it.unit.now < 65536) }
    ensures less { IfSome result (λ it. length it.behind.now < length bytes.now) }
    ensures none { result ≡ None → others_of true bytes.now ≡ [] }
{
    if bytes.len() < 3 {
        return None;
    }
    match first_piece(&bytes[1..]) {
        Ok((unit, behind)) => Some(Other {
            dond: Some(bytes[0]),
            unit,
            behind,
        }),
        Err(_) => None,
    }
}

/// The first of units that each stand behind their length alone.
#[inline(always)]
fn first_behind(bytes: &[u8]) -> Option<Other<'_>>
    ensures first { IfSome result (λ it. others_of false bytes.now
        ≡ other_of it.dond it.unit.now ∷ others_of false it.behind.now) }
    ensures short { IfSome result (λ it. length it.unit.now < 65536) }
    ensures less { IfSome result (λ it. length it.behind.now < length bytes.now) }
    ensures none { result ≡ None → others_of false bytes.now ≡ [] }
{
    if bytes.len() < 2 {
        return None;
    }
    match first_piece(bytes) {
        Ok((unit, behind)) => Some(Other {
            dond: None,
            unit,
            behind,
        }),
        Err(_) => None,
    }
}

/// The first unit of these bytes.
#[inline(always)]
pub fn first_other(has_donl: bool, bytes: &[u8]) -> Option<Other<'_>>
    ensures first { IfSome result (λ it. others_of has_donl bytes.now
        ≡ other_of it.dond it.unit.now ∷ others_of has_donl it.behind.now) }
    ensures short { IfSome result (λ it. length it.unit.now < 65536) }
    ensures less { IfSome result (λ it. length it.behind.now < length bytes.now) }
    ensures none { result ≡ None → others_of has_donl bytes.now ≡ [] }
{
    if has_donl {
        first_apart(bytes)
    } else {
        first_behind(bytes)
    }
}

impl Aggregate for H265 {
    ghost use Rattle.h265_payload.specs.Shown.{units_in};

    // Of an aggregate with numbers, the bytes from DONL's second on, which stands where the others
    // have DOND.
    ghost units = { λ codec. units_in codec.has_donl };

    #[inline(always)]
    fn first_unit(self, bytes: &[u8]) -> Option<(&[u8], &[u8])> {
        match first_other(self.has_donl, bytes) {
            Some(it) => Some((it.unit, it.behind)),
            None => None,
        }
    }
}

/// How many bytes the units of an aggregate take where they are written, at most `usize::MAX`;
/// fewer than two are refused.
pub fn check_aggregate(has_donl: bool, bytes: &[u8]) -> Result<usize, PacketError>
    ensures whole { IfOk result (λ size. 2 ≤ length (others_of has_donl bytes.now)) }
    ensures size { IfOk result (λ size. AreOfSize (units_in has_donl bytes.now) size) }
    ensures short { IfErr result (λ e. length (others_of has_donl bytes.now) < 2) }
    ensures error { IfErr result (λ e. e ≡ PacketError.ErrShortPacket) }
{
    let Some(first) = first_other(has_donl, bytes) else {
        return Err(PacketError::ErrShortPacket);
    };
    if first_other(has_donl, first.behind).is_none() {
        return Err(PacketError::ErrShortPacket);
    }
    let codec = H265 { has_donl: has_donl };
    Ok(written_size(codec, bytes))
}
