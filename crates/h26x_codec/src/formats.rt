//! The law of the codecs' formats, on which those of packetizers and depacketizers stand.

ghost use Rattle.std.specs.Prelude.{Bool};
ghost use Rattle.h26x_model.specs.Payload.Facts.{IsPayloadFormat};
ghost use Rattle.h26x_codec.specs.Codec.{codec_format};

use crate::codec::Codec;

/// The format of each codec meets the facts on which the laws of every format stand, with decoding
/// order numbers and without.
pub fn formats_meet_the_facts()
    ensures { (codec : Codec) (has_donl : Bool) → IsPayloadFormat (codec_format codec has_donl) }
{
    h264_payload::laws::meets_the_facts();
    h265_payload::laws::meets_the_facts();
    h266_payload::laws::meets_the_facts();
}
