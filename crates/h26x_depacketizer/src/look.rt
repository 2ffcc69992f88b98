//! What a packet shows of the NAL units of which it bears something, before it is taken (RFC 6184, 5;
//! RFC 7798, 4.4; RFC 9328, 4.3).

ghost use Rattle.std.specs.Prelude.{◌≡◌, ◌≤◌, ◌++◌, ℕ, Bool, List, length, get_or};
ghost use Rattle.std.specs.List.{list_any};
ghost use Rattle.std.specs.Option.{option_map};
ghost use Rattle.h26x_depacketizer.specs.Run.{header_bytes};
ghost use Rattle.h26x_depacketizer.specs.Look.{first_bytes, borne_units, begun_units, first_unit_of};

use crate::aggregate::Aggregate;
use crate::parts::Parts;
use crate::reader::PacketReader;
use h26x_payload::PayloadFormat;

/// A question about a NAL unit that its first three bytes answer, which are zeros behind its end.
pub trait UnitTest {
    ghost holds: { Self → List ℕ → Bool };

    /// Whether it is so of a unit that begins with these bytes.
    fn holds(&self, first: [u8; 3]) -> bool
        ensures { result ≡ holds self.now first };
}

/// The byte at a place, 0 behind the end.
#[inline]
fn byte_at(bytes: &[u8], place: usize) -> u8
    ensures { result ≡ get_or bytes.now place 0 }
{
    if place < bytes.len() { bytes[place] } else { 0 }
}

/// The first bytes of a unit.
#[inline]
fn first_bytes(unit: &[u8]) -> [u8; 3]
    ensures { result ≡ first_bytes unit.now }
{
    [byte_at(unit, 0), byte_at(unit, 1), byte_at(unit, 2)]
}

/// The first bytes of a unit with this header and what stands behind it.
#[inline]
fn first_bytes_of<C: PayloadFormat>(codec: C, head: [u8; 2], body: &[u8]) -> [u8; 3]
    requires { length (header_bytes (C.format codec) head) ≡ (C.format codec).header_len }
    ensures { result ≡ first_bytes (header_bytes (C.format codec) head ++ body.now) }
{
    match codec.header_len() {
        0 => first_bytes(body),
        1 => [head[0], byte_at(body, 0), byte_at(body, 1)],
        _ => [head[0], head[1], byte_at(body, 0)],
    }
}

/// Whether it is so of one of the units of an aggregate's bytes.
#[inline(never)]
fn holds_unit<A: Aggregate, T: UnitTest>(codec: A, bytes: &[u8], test: &T) -> bool
    ensures { result
        ≡ list_any (λ unit. T.holds test.now (first_bytes unit)) (A.units codec bytes.now) }
{
    let mut rest = bytes;
    while let Some((unit, behind)) = codec.first_unit(rest) {
        if test.holds(first_bytes(unit)) {
            return true;
        }
        rest = behind;
    }
    false
}

/// The first bytes of the first of the units of an aggregate's bytes, if one stands there.
fn first_unit_in<A: Aggregate>(codec: A, bytes: &[u8]) -> Option<[u8; 3]>
    ensures { result ≡ option_map first_bytes (first_unit_of (A.units codec bytes.now)) }
{
    match codec.first_unit(bytes) {
        Some((unit, _)) => Some(first_bytes(unit)),
        None => None,
    }
}

/// Whether it is so of a unit of which a packet bears something: of a fragment that doesn't start its
/// unit by the header alone. None is borne by a packet that is refused. It takes no memory.
#[inline(always)]
pub fn bears_unit<C: PacketReader, T: UnitTest>(codec: C, packet: &[u8], test: &T) -> bool
    ensures { result ≡ list_any (λ unit. T.holds test.now (first_bytes unit))
        (borne_units ((C.format codec).read packet.now)) }
{
    match codec.read(packet) {
        Ok(Parts::Whole) => test.holds(first_bytes(packet)),
        Ok(Parts::Unit { head, body }) => test.holds(first_bytes_of(codec, head, body)),
        Ok(Parts::Aggregate { bytes, .. }) => holds_unit(codec, bytes, test),
        Ok(Parts::Fragment(fragment)) => {
            let body = if fragment.start { fragment.body } else { &[] };
            test.holds(first_bytes_of(codec, fragment.head, body))
        }
        Err(_) => false,
    }
}

/// The first bytes of the first unit that a packet begins, if it begins one. It takes no memory.
pub fn first_unit_begun<C: PacketReader>(codec: C, packet: &[u8]) -> Option<[u8; 3]>
    ensures { result
        ≡ option_map first_bytes (first_unit_of (begun_units ((C.format codec).read packet.now))) }
{
    match codec.read(packet) {
        Ok(Parts::Whole) => Some(first_bytes(packet)),
        Ok(Parts::Unit { head, body }) => Some(first_bytes_of(codec, head, body)),
        Ok(Parts::Aggregate { bytes, .. }) => first_unit_in(codec, bytes),
        Ok(Parts::Fragment(fragment)) if fragment.start => {
            Some(first_bytes_of(codec, fragment.head, fragment.body))
        }
        Ok(Parts::Fragment(_)) | Err(_) => None,
    }
}
