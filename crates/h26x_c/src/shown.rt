//! The calls on the packet that a depacketizer or a receiver of H.265 shows.

ghost use Rattle.std.specs.Prelude.{◌≡◌, ◌≢◌, true, false, [], ◌++◌, None, Some, length, map};
ghost use Rattle.h26x_model.specs.Where.{Where};
ghost use Rattle.h265_packets.specs.declared.payload.H265Payload.{H265Payload};
ghost use Rattle.h26x_codec.specs.AnyDepacketizer.{any_depacketizer_shown};
ghost use Rattle.h26x_codes.specs.Codes.{ok, wrong_end, not_of_this_codec};
ghost use Rattle.h26x_codes.specs.Copies.{with_front};
ghost use Rattle.h26x_handles.specs.Shown.{part_without_don, first_part, other_part, payload_parts, payload_kind_number, payload_header, payload_word, nth_part, don_number, any_depacketizer_parts};
ghost use Rattle.h26x_endpoint.specs.EndpointStates.{shows_packets, endpoint_shown, endpoint_parts};

use crate::const_handle::ConstHandle;
use h26x_codec::AnyDepacketizer;
use h26x_codes::code::{NOT_OF_THIS_CODEC, OK, WRONG_END};
use h26x_codes::copy::copy_where_room;
use h26x_endpoint::endpoint::Endpoint;
use h265_packets::{H265AggregationPacket, H265AggregationUnit, H265Payload};

/// What is told where no number was read before a part.
const NO_NUMBER: u32 = 65536;

/// A packet in numbers (RFC 7798, 4.4).
#[repr(C)]
#[derive(Clone, Copy)]
pub struct Shown {
    pub kind: u32,
    pub header: u16,
    pub word: u16,
    pub parts: usize,
}

/// The packet that was accepted last, in numbers.
#[unsafe(no_mangle)]
pub extern "C" fn h26x_h265_shown(d: &ConstHandle, shown: &mut Shown) -> u32
    ensures wrong { shows_packets d.now.value ≡ false → result ≡ wrong_end }
    ensures none { shows_packets d.now.value ≡ true → endpoint_shown d.now.value ≡ None →
        result ≡ not_of_this_codec }
    ensures answer { Where (endpoint_shown d.now.value) (λ it. result ≡ ok) }
    ensures kind { Where (endpoint_shown d.now.value)
        (λ it. shown.new.kind ≡ payload_kind_number it) }
    ensures header { Where (endpoint_shown d.now.value)
        (λ it. shown.new.header ≡ payload_header it) }
    ensures word { Where (endpoint_shown d.now.value) (λ it. shown.new.word ≡ payload_word it) }
    ensures parts { Where (endpoint_shown d.now.value)
        (λ it. shown.new.parts ≡ length (payload_parts it)) }
    ensures kept { result ≢ ok → shown.new ≡ shown.old }
{
    match d.get() {
        Endpoint::Receiving(it) => show(&it.depacketizer, shown),
        Endpoint::Sequenced(it) => show(it.depacketizer(), shown),
        _ => WRONG_END,
    }
}

/// Writes the packet that a depacketizer shows in numbers, where its codec shows packets.
fn show(depacketizer: &AnyDepacketizer, shown: &mut Shown) -> u32
    ensures none { any_depacketizer_shown depacketizer.now ≡ None → result ≡ not_of_this_codec }
    ensures answer { Where (any_depacketizer_shown depacketizer.now) (λ it. result ≡ ok) }
    ensures kind { Where (any_depacketizer_shown depacketizer.now)
        (λ it. shown.new.kind ≡ payload_kind_number it) }
    ensures header { Where (any_depacketizer_shown depacketizer.now)
        (λ it. shown.new.header ≡ payload_header it) }
    ensures word { Where (any_depacketizer_shown depacketizer.now)
        (λ it. shown.new.word ≡ payload_word it) }
    ensures parts { Where (any_depacketizer_shown depacketizer.now)
        (λ it. shown.new.parts ≡ length (payload_parts it)) }
    ensures kept { result ≢ ok → shown.new ≡ shown.old }
{
    match depacketizer.shown() {
        Some(packet) => {
            *shown = in_numbers(packet);
            OK
        }
        None => NOT_OF_THIS_CODEC,
    }
}

/// Copies a part of that packet, counted from 0, where there is room for it, and writes the number
/// that was read before it; the part's length.
#[unsafe(no_mangle)]
pub extern "C" fn h26x_h265_part_copy(
    d: &ConstHandle,
    i: usize,
    to: &mut [u8],
    number: &mut u32,
) -> usize
    ensures len { result ≡ length (nth_part i (endpoint_parts d.now.value)).bytes }
    ensures copied { to.new ≡ with_front (nth_part i (endpoint_parts d.now.value)).bytes to.old }
    ensures number { number.new ≡ don_number (nth_part i (endpoint_parts d.now.value)).number }
{
    match d.get() {
        Endpoint::Receiving(it) => copy_part(shown_part(&it.depacketizer, i), to, number),
        Endpoint::Sequenced(it) => copy_part(shown_part(it.depacketizer(), i), to, number),
        _ => copy_part(Part::part_without_don(&[]), to, number),
    }
}

/// Copies a part where there is room for it, and writes its number; its length.
fn copy_part(part: Part<'_>, to: &mut [u8], number: &mut u32) -> usize
    ensures len { result ≡ length part.entry.bytes.now }
    ensures copied { to.new ≡ with_front part.entry.bytes.now to.old }
    ensures number { number.new ≡ don_number part.entry.number }
{
    *number = part.number.map_or(NO_NUMBER, u32::from);
    copy_where_room(part.bytes, to)
}

/// A packet in numbers.
fn in_numbers(packet: &H265Payload) -> Shown
    ensures kind { result.kind ≡ payload_kind_number packet.now }
    ensures header { result.header ≡ payload_header packet.now }
    ensures word { result.word ≡ payload_word packet.now }
    ensures parts { result.parts ≡ length (payload_parts packet.now) }
{
    let (kind, header, word, parts) = match packet {
        H265Payload::H265SingleNALUnitPacket(it) => (1, it.payload_header().0, 0, 1),
        H265Payload::H265FragmentationUnitPacket(it) => {
            (2, it.payload_header().0, u16::from(it.fu_header().0), 1)
        }
        H265Payload::H265AggregationPacket(it) => (3, 0, 0, count_of(it)),
        H265Payload::H265PACIPacket(it) => (4, it.payload_header().0, it.fields(), 2),
    };
    Shown {
        kind,
        header,
        word,
        parts,
    }
}

/// How many units an aggregation packet has.
fn count_of(packet: &H265AggregationPacket) -> usize
    ensures { result ≡ length (first_part packet.now.first ++ map other_part packet.now.others) }
{
    usize::from(packet.first_unit().is_some()) + packet.other_units().len()
}

/// A part of a packet, and the number that was read before it.
#[derive(Clone, Copy)]
struct Part<'a> {
    number: Option<u16>,
    bytes: &'a [u8],
}

impl<'a> Part<'a> {
    /// Bytes before which no number was read.
    fn part_without_don(bytes: &'a [u8]) -> Self
        ensures number { result.number ≡ None }
        ensures bytes { result.bytes.now ≡ bytes.now }
    {
        Part {
            number: None,
            bytes,
        }
    }
}

/// A part of what a depacketizer shows, counted from 0; without bytes past the last one, and where
/// nothing is shown.
fn shown_part(depacketizer: &AnyDepacketizer, i: usize) -> Part<'_>
    ensures number { result.number ≡ (nth_part i (any_depacketizer_parts depacketizer.now)).number }
    ensures bytes { result.bytes.now ≡ (nth_part i (any_depacketizer_parts
        depacketizer.now)).bytes }
{
    match depacketizer.shown() {
        Some(packet) => part_of(packet, i),
        None => Part::part_without_don(&[]),
    }
}

/// A part of a packet, counted from 0; past the last one without bytes.
fn part_of(packet: &H265Payload, i: usize) -> Part<'_>
    ensures number { result.number ≡ (nth_part i (payload_parts packet.now)).number }
    ensures bytes { result.bytes.now ≡ (nth_part i (payload_parts packet.now)).bytes }
{
    match (packet, i) {
        (H265Payload::H265SingleNALUnitPacket(it), 0) => Part {
            number: it.donl(),
            bytes: it.payload(),
        },
        (H265Payload::H265FragmentationUnitPacket(it), 0) => Part {
            number: it.donl(),
            bytes: it.payload(),
        },
        (H265Payload::H265AggregationPacket(it), _) => unit_of(it, i),
        (H265Payload::H265PACIPacket(it), 0) => Part::part_without_don(it.phes()),
        (H265Payload::H265PACIPacket(it), 1) => Part::part_without_don(it.payload()),
        _ => Part::part_without_don(&[]),
    }
}

/// A unit of an aggregation packet, counted from 0; past the last one without bytes.
fn unit_of(packet: &H265AggregationPacket, i: usize) -> Part<'_>
    ensures number { result.number ≡ (nth_part i (first_part packet.now.first
        ++ map other_part packet.now.others)).number }
    ensures bytes { result.bytes.now ≡ (nth_part i (first_part packet.now.first
        ++ map other_part packet.now.others)).bytes }
{
    match packet.first_unit() {
        Some(unit) if i == 0 => Part {
            number: unit.donl(),
            bytes: unit.nal_unit(),
        },
        Some(_) => other_unit_of(packet.other_units(), i - 1),
        None => other_unit_of(packet.other_units(), i),
    }
}

/// A unit behind the first, counted from 0; past the last one without bytes.
fn other_unit_of(units: &[H265AggregationUnit], i: usize) -> Part<'_>
    ensures number { result.number ≡ (nth_part i (map other_part units.now)).number }
    ensures bytes { result.bytes.now ≡ (nth_part i (map other_part units.now)).bytes }
{
    match units.get(i) {
        Some(unit) => Part {
            number: unit.dond().map(u16::from),
            bytes: unit.nal_unit(),
        },
        None => Part::part_without_don(&[]),
    }
}
