//! What an H.266 packet is (RFC 9328, 4.3).

ghost use Rattle.std.specs.Prelude.{◌≡◌, ◌≤◌, length, slice_index, Some, None, IfOk, IfErr, false};
ghost use Rattle.h26x_core.specs.Word.{is_set};
ghost use Rattle.h26x_core.specs.H266Unit.{type_of};
ghost use Rattle.h26x_model.specs.Payload.Reading.{Refused};
ghost use Rattle.h26x_depacketizer.specs.DepacketizerView.{IsReadAs};
ghost use Rattle.h26x_model.specs.Payload.TwoBytes.{is_two_byte_fragment};
ghost use Rattle.h266_payload.specs.H266.{h266_header, h266, has_packet_type};
ghost use Rattle.h266_payload.specs.Packet.{aggregate_units, rest_behind_donl};

use crate::aggregate::check_aggregate;
use crate::codec::{H266, header_of, with_type};
use crate::laws;
use h26x_core::h266_types::{AGGREGATION_PACKET, FRAGMENTATION_UNIT};
use h26x_core::{H266FragmentationUnitHeader, PacketError};
use h26x_depacketizer::{Fragment, PacketReader, Parts, ends_access_unit, may_begin_access_unit};

/// The bytes of a packet's header.
pub const PACKET_HEADER_SIZE: usize = 2;

/// The bytes of a packet's header with DONL behind it.
const NUMBERED_HEADER_SIZE: usize = 4;

/// The bytes before a fragment's DONL and data: the packet's header, and a byte of S, E, P and the
/// unit's type.
const FRAGMENT_HEADER_SIZE: usize = 3;

/// What stands behind DONL, if it is there; where none is borne, all bytes.
fn rest_behind_donl(has_donl: bool, bytes: &[u8]) -> Result<&[u8], PacketError>
    ensures there { IfOk result (λ it. rest_behind_donl has_donl bytes.now ≡ Some it.now) }
    ensures none { IfErr result (λ e. rest_behind_donl has_donl bytes.now ≡ None) }
    ensures short { IfErr result (λ e. e ≡ PacketError.ErrShortPacket) }
{
    if !has_donl {
        return Ok(bytes);
    }
    if bytes.len() < 2 {
        return Err(PacketError::ErrShortPacket);
    }
    Ok(&bytes[2..])
}

/// Whether a packet is a fragmentation unit.
fn is_fragment(packet: &[u8]) -> bool
    ensures { result ≡ is_two_byte_fragment h266_header packet.now }
{
    packet.len() >= PACKET_HEADER_SIZE && header_of(packet).is_fragmentation_unit()
}

impl PacketReader for H266 {
    ghost use Rattle.h266_payload.specs.H266.{h266_header};
    ghost use Rattle.h26x_model.specs.Payload.TwoBytes.{is_two_byte_fragment};
    ghost use Rattle.h26x_depacketizer.specs.AccessUnit as access_unit;

    ghost begins = { λ codec packet. access_unit.may_begin (is_two_byte_fragment h266_header packet)
        packet };

    ghost ends = { λ codec marker packet. access_unit.is_last
        (is_two_byte_fragment h266_header packet) marker packet };

    // A type that is neither an aggregate's nor a fragment's is a unit's own, as most are.
    #[inline(always)]
    fn read(self, packet: &[u8]) -> Result<Parts<'_>, PacketError> {
        if packet.len() <= PACKET_HEADER_SIZE {
            return Err(PacketError::ErrShortPacket);
        }
        let header = header_of(packet);
        if header.f() {
            return Err(PacketError::ErrH266CorruptedPacket);
        }
        let nalu_type = header.nalu_type();
        if nalu_type < AGGREGATION_PACKET || nalu_type > FRAGMENTATION_UNIT {
            return read_single(self.has_donl, packet);
        }
        if nalu_type == AGGREGATION_PACKET {
            read_aggregate(self.has_donl, packet)
        } else {
            read_fragment(self.has_donl, packet)
        }
    }

    fn may_begin(self, packet: &[u8]) -> bool {
        may_begin_access_unit(is_fragment(packet), packet)
    }

    fn is_last(self, marker: bool, packet: &[u8]) -> bool {
        ends_access_unit(is_fragment(packet), marker, packet)
    }

    fn format_meets_the_facts() {
        laws::meets_the_facts();
    }
}

/// Reads a single NAL unit packet (RFC 9328, 4.3.1). DONL is there where packets bear numbers, and no
/// part of the unit.
///
/// ```text
///  0 1 2 3 4 5 6 7 0 1 2 3 4 5 6 7
/// +-+-+-+-+-+-+-+-+-+-+-+-+-+-+-+-+-+-+-+-+-+-+-+-+-+-+-+-+-+-+-+-+- - - - - - - -
/// |F|Z|   layer   |  type   | TID |             DONL              | the unit's rest
/// +-+-+-+-+-+-+-+-+-+-+-+-+-+-+-+-+-+-+-+-+-+-+-+-+-+-+-+-+-+-+-+-+- - - - - - - -
/// ```
#[inline]
fn read_single(has_donl: bool, packet: &[u8]) -> Result<Parts<'_>, PacketError>
    requires long { 3 ≤ length packet.now }
    requires clear { is_set (slice_index packet.now 0) 7 ≡ false }
    requires own { has_packet_type packet.now ≡ false }
    ensures accepted { IfOk result (λ parts. IsReadAs (h266 has_donl) aggregate_units
        packet.now parts) }
    ensures refused { IfErr result (λ e. (h266 has_donl).read packet.now ≡ Refused e) }
{
    if !has_donl {
        return Ok(Parts::Whole);
    }
    if packet.len() < NUMBERED_HEADER_SIZE + 1 {
        return Err(PacketError::ErrShortPacket);
    }
    Ok(Parts::Unit {
        head: [packet[0], packet[1]],
        body: &packet[NUMBERED_HEADER_SIZE..],
    })
}

/// Reads an aggregation packet (RFC 9328, 4.3.2). DONL, the first unit's number, is there where
/// packets bear numbers; each later unit's is one more.
///
/// ```text
///  0 1 2 3 4 5 6 7 0 1 2 3 4 5 6 7
/// +-+-+-+-+-+-+-+-+-+-+-+-+-+-+-+-+-+-+-+-+-+-+-+-+-+-+-+-+-+-+-+-+
/// |F|Z|   layer   | type 28 | TID |             DONL              |
/// +-+-+-+-+-+-+-+-+-+-+-+-+-+-+-+-+-+-+-+-+-+-+-+-+-+-+-+-+-+-+-+-+- - - - - - - -
/// |            length             | a unit of that length, and so on to the end
/// +-+-+-+-+-+-+-+-+-+-+-+-+-+-+-+-+- - - - - - - - - - - - - - - - - - - - - - - -
/// ```
fn read_aggregate(has_donl: bool, packet: &[u8]) -> Result<Parts<'_>, PacketError>
    requires long { 3 ≤ length packet.now }
    requires clear { is_set (slice_index packet.now 0) 7 ≡ false }
    requires nalu_type { type_of (slice_index packet.now 1) ≡ 28 }
    ensures accepted { IfOk result (λ parts. IsReadAs (h266 has_donl) aggregate_units
        packet.now parts) }
    ensures refused { IfErr result (λ e. (h266 has_donl).read packet.now ≡ Refused e) }
{
    let bytes = rest_behind_donl(has_donl, &packet[PACKET_HEADER_SIZE..])?;
    let size = check_aggregate(bytes)?;
    Ok(Parts::Aggregate { bytes, size })
}

/// Reads a fragmentation unit (RFC 9328, 4.3.3). A start has DONL where packets bear numbers. Its
/// unit's header is the packet's with the type of the third byte.
///
/// ```text
///  0 1 2 3 4 5 6 7 0 1 2 3 4 5 6 7 0 1 2 3 4 5 6 7
/// +-+-+-+-+-+-+-+-+-+-+-+-+-+-+-+-+-+-+-+-+-+-+-+-+-+-+-+-+-+-+-+-+-+-+-+-+-+-+-+-+- - - - - -
/// |F|Z|   layer   | type 29 | TID |S|E|P|  type   |             DONL              | a part ..
/// +-+-+-+-+-+-+-+-+-+-+-+-+-+-+-+-+-+-+-+-+-+-+-+-+-+-+-+-+-+-+-+-+-+-+-+-+-+-+-+-+- - - - - -
/// ```
fn read_fragment(has_donl: bool, packet: &[u8]) -> Result<Parts<'_>, PacketError>
    requires long { 3 ≤ length packet.now }
    requires clear { is_set (slice_index packet.now 0) 7 ≡ false }
    requires nalu_type { type_of (slice_index packet.now 1) ≡ 29 }
    ensures accepted { IfOk result (λ parts. IsReadAs (h266 has_donl) aggregate_units
        packet.now parts) }
    ensures refused { IfErr result (λ e. (h266 has_donl).read packet.now ≡ Refused e) }
{
    let fu = H266FragmentationUnitHeader(packet[PACKET_HEADER_SIZE]);
    let rest = &packet[FRAGMENT_HEADER_SIZE..];
    let body = rest_behind_donl(has_donl && fu.s(), rest)?;
    Ok(Parts::Fragment(Fragment {
        start: fu.s(),
        end: fu.e(),
        head: [packet[0], with_type(packet[1], fu.fu_type())],
        body,
    }))
}
