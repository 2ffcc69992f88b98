//! What lines set on a packetizer and a depacketizer. Each setting is one of some codecs alone;
//! whether it is one of theirs is answered, and where it isn't nothing changes.

ghost use Rattle.std.specs.Prelude.{◌≡◌, if◌then◌else◌};
ghost use Rattle.h26x_transmission.specs.CodecStates.{packetizer_codec, depacketizer_codec, with_max_packet_size};
ghost use Rattle.h26x_lines.specs.Settings.{may_set_numbers, packetizer_with_numbers, depacketizer_with_numbers, may_set_avc, depacketizer_with_avc, may_set_size};

use h26x_transmission::{CodecDepacketizer, CodecPacketizer};

/// Turns decoding order numbers on or off. H.265 and H.266 have them.
pub fn set_numbers(
    packetizer: &mut CodecPacketizer,
    depacketizer: &mut CodecDepacketizer,
    is_on: bool,
) -> bool
    ensures is { result ≡ may_set_numbers (packetizer_codec packetizer.old)
        (depacketizer_codec depacketizer.old) }
    ensures packetizer { packetizer.new ≡ (if result
        then packetizer_with_numbers is_on packetizer.old else packetizer.old) }
    ensures depacketizer { depacketizer.new ≡ (if result
        then depacketizer_with_numbers is_on depacketizer.old else depacketizer.old) }
{
    match (packetizer, depacketizer) {
        (CodecPacketizer::H265(packetizer), CodecDepacketizer::H265(depacketizer)) => {
            packetizer.with_donl(is_on);
            depacketizer.with_donl(is_on);
            true
        }
        (CodecPacketizer::H266(packetizer), CodecDepacketizer::H266(depacketizer)) => {
            packetizer.with_donl(is_on);
            depacketizer.with_donl(is_on);
            true
        }
        _ => false,
    }
}

/// Has units of H.264 written behind their lengths, in AVC form, or behind start codes; no line
/// sets that for another codec.
pub fn set_avc(depacketizer: &mut CodecDepacketizer, is_on: bool) -> bool
    ensures is { result ≡ may_set_avc (depacketizer_codec depacketizer.old) }
    ensures depacketizer { depacketizer.new ≡ depacketizer_with_avc is_on depacketizer.old }
{
    match depacketizer {
        CodecDepacketizer::H264(depacketizer) => {
            depacketizer.is_avc = is_on;
            true
        }
        _ => false,
    }
}

/// Sets the largest packet size, 4 bytes or more. H.265 and H.266 have one.
pub fn set_size(packetizer: &mut CodecPacketizer, max_packet_size: u16) -> bool
    ensures is { result ≡ may_set_size (packetizer_codec packetizer.old) max_packet_size }
    ensures packetizer { packetizer.new ≡ (if result
        then with_max_packet_size max_packet_size packetizer.old else packetizer.old) }
{
    match packetizer {
        _ if max_packet_size < 4 => false,
        CodecPacketizer::H265(packetizer) => {
            packetizer.with_max_packet_size(max_packet_size);
            true
        }
        CodecPacketizer::H266(packetizer) => {
            packetizer.with_max_packet_size(max_packet_size);
            true
        }
        _ => false,
    }
}
