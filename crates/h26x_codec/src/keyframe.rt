//! Whether a packet begins a unit of a keyframe.

ghost use Rattle.std.specs.Prelude.{◌≡◌, false};
ghost use Rattle.std.specs.List.{list_any};
ghost use Rattle.h26x_depacketizer.specs.Look.{first_bytes, begun_units};
ghost use Rattle.h26x_codec.specs.Keyframe.{begins_key_unit};

use crate::codec::Codec;
use h26x_core::{H265NALUHeader, H266NALUHeader, NALU_TYPE_BITMASK};
use h26x_depacketizer::{PacketReader, UnitTest, bears_unit, first_unit_begun};
use h26x_payload::{DonlFormat, PayloadFormat};
use h264_payload::H264;
use h265_payload::H265;
use h266_payload::H266;

/// Whether a unit of a codec is a key unit.
#[derive(Clone, Copy)]
struct IsKey {
    codec: Codec,
}

impl UnitTest for IsKey {
    ghost use Rattle.std.specs.Prelude.{false};
    ghost use Rattle.h26x_codec.specs.Codec.{codec_format};

    ghost holds = { λ it first. (codec_format it.codec false).is_key first };

    fn holds(&self, first: [u8; 3]) -> bool {
        match self.codec {
            Codec::H264 => first[0] & NALU_TYPE_BITMASK == 5,
            Codec::H265 => H265NALUHeader::new(first[0], first[1]).is_irap(),
            Codec::H266 => H266NALUHeader::new(first[0], first[1]).is_irap(),
        }
    }
}

/// Whether it is so of a unit that a packet begins: where it begins one, all that it bears are begun.
fn begins_unit<C: PacketReader, T: UnitTest>(codec: C, packet: &[u8], test: &T) -> bool
    ensures { result ≡ list_any (λ unit. T.holds test.now (first_bytes unit))
        (begun_units ((C.format codec).read packet.now)) }
{
    first_unit_begun(codec, packet).is_some() && bears_unit(codec, packet, test)
}

impl Codec {
    /// Whether a packet begins a unit of a keyframe: it holds one, alone or in an aggregate, or is its
    /// first fragment (RFC 6184, 5; RFC 7798, 4.4; RFC 9328, 4.3). `has_donl`: whether packets bear
    /// decoding order numbers; those of H.264 don't. A packet that is refused begins none.
    ///
    /// Key units are those of IDR pictures of H.264, IRAP of H.265, IDR and CRA of H.266.
    pub fn begins_keyframe(self, has_donl: bool, packet: &[u8]) -> bool
        ensures { result ≡ begins_key_unit self has_donl packet.now }
    {
        let test = IsKey { codec: self };
        match self {
            Codec::H264 => begins_unit(H264::new(), packet, &test),
            Codec::H265 => begins_unit(H265::new().with_donl(has_donl), packet, &test),
            Codec::H266 => begins_unit(H266::new().with_donl(has_donl), packet, &test),
        }
    }
}
