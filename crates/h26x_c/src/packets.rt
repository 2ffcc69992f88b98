//! The calls on packets alone.

ghost use Rattle.std.specs.Prelude.{◌≡◌};
ghost use Rattle.h26x_core.specs.Hint.{size_hint};
ghost use Rattle.h264_payload.specs.H264.{detects};
ghost use Rattle.h26x_codes.specs.Codes.{codec_with_number};
ghost use Rattle.h26x_c.specs.Packets.{is_head_of, is_tail_of, is_key_of, begins_key_of, with_units_header};

use h26x_codec::Codec;
use h26x_codes::code::codec_of;
use h26x_core::Depacketizer;
use h264_payload::{H264Depacketizer, detect_h264_keyframe, detect_h264_nalu};
use h265_payload::{H265Depacketizer, detect_h265_keyframe, set_lowest_header};
use h266_payload::{H266Depacketizer, detect_h266_keyframe};
use std::alloc::Global;

/// Whether a packet may be the first of an access unit.
#[unsafe(no_mangle)]
pub extern "C" fn h26x_is_partition_head(alloc: Global, codec: u32, packet: &[u8]) -> bool
    ensures { result ≡ is_head_of (codec_with_number codec) packet.now }
{
    match codec_of(codec) {
        Some(Codec::H264) => H264Depacketizer::new(alloc).is_partition_head(packet),
        Some(Codec::H265) => H265Depacketizer::new(alloc).is_partition_head(packet),
        Some(Codec::H266) => H266Depacketizer::new(alloc).is_partition_head(packet),
        None => false,
    }
}

/// Whether a packet is the last of an access unit, its marker bit given.
#[unsafe(no_mangle)]
pub extern "C" fn h26x_is_partition_tail(
    alloc: Global,
    codec: u32,
    marker: bool,
    packet: &[u8],
) -> bool
    ensures { result ≡ is_tail_of (codec_with_number codec) marker packet.now }
{
    match codec_of(codec) {
        Some(Codec::H264) => H264Depacketizer::new(alloc).is_partition_tail(marker, packet),
        Some(Codec::H265) => H265Depacketizer::new(alloc).is_partition_tail(marker, packet),
        Some(Codec::H266) => H266Depacketizer::new(alloc).is_partition_tail(marker, packet),
        None => false,
    }
}

/// Whether a packet without numbers is known to hold a unit of a keyframe, or to be the first
/// fragment of one.
#[unsafe(no_mangle)]
pub extern "C" fn h26x_detect_keyframe(codec: u32, packet: &[u8]) -> bool
    ensures { result ≡ is_key_of (codec_with_number codec) packet.now }
{
    match codec_of(codec) {
        Some(Codec::H264) => detect_h264_keyframe(packet),
        Some(Codec::H265) => detect_h265_keyframe(packet),
        Some(Codec::H266) => detect_h266_keyframe(packet),
        None => false,
    }
}

/// Whether a packet begins a unit of a keyframe. `numbers`: whether packets bear decoding order
/// numbers.
#[unsafe(no_mangle)]
pub extern "C" fn h26x_begins_keyframe(codec: u32, numbers: bool, packet: &[u8]) -> bool
    ensures { result ≡ begins_key_of (codec_with_number codec) numbers packet.now }
{
    match codec_of(codec) {
        Some(codec) => codec.begins_keyframe(numbers, packet),
        None => false,
    }
}

/// Whether an H.264 packet is known to hold a unit of this type, or to be the first fragment of
/// one.
#[unsafe(no_mangle)]
pub extern "C" fn h26x_detect_h264_nalu(packet: &[u8], kind: u8) -> bool
    ensures { result ≡ detects kind packet.now }
{
    detect_h264_nalu(packet, kind)
}

/// Gives an aggregation packet of H.265 the header of its units (RFC 7798, 4.4.2); every other packet
/// stays.
#[unsafe(no_mangle)]
pub extern "C" fn h26x_set_lowest_header(codec: u32, numbers: bool, packet: &mut [u8])
    ensures { packet.new ≡ with_units_header (codec_with_number codec) numbers packet.old }
{
    if let Some(Codec::H265) = codec_of(codec) {
        set_lowest_header(numbers, packet);
    }
}

/// How many bytes the units of packets of this many bytes may take.
#[unsafe(no_mangle)]
pub extern "C" fn h26x_out_size_hint(alloc: Global, packets_size: usize) -> usize
    ensures { result ≡ size_hint packets_size }
{
    match H264Depacketizer::new(alloc).out_size_hint(packets_size) {
        Some(hint) => hint,
        None => packets_size,
    }
}
