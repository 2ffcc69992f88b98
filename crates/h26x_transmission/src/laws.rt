//! Laws of packetizers and depacketizers of any codec. Each is the contract of a function without a
//! result.

ghost use Rattle.std.specs.Prelude.{Bool};
ghost use Rattle.h26x_model.specs.Payload.Facts.{IsPayloadFormat};
ghost use Rattle.h26x_model.specs.Send.PacketizerState.{IsPacketizerState};
ghost use Rattle.h26x_codec.specs.Codec.{codec_format};
ghost use Rattle.h26x_transmission.specs.CodecStates.{OfPacketizer, OfDepacketizer};
ghost use Rattle.h26x_transmission.specs.Repeating.{SendsAgainAlike};
ghost use Rattle.h26x_transmission.specs.Transmissions.{DetectsKeyUnits};

use crate::depacketizer::CodecDepacketizer;
use crate::packetizer::CodecPacketizer;
use h26x_codec::Codec;
use h26x_codec::formats::formats_meet_the_facts;
use h26x_packetizer::packetizer_states as payload_packetizer_states;

/// At most one set of each kind waits for a packetizer of a codec, its next decoding order number
/// and its largest packet size are of two bytes, and its format meets the facts on which the laws of
/// every format stand. Nothing is said of a packetizer in a box.
pub fn packetizer_states(packetizer: &CodecPacketizer)
    ensures state { OfPacketizer packetizer.now (λ s. IsPacketizerState s) }
    ensures format { OfPacketizer packetizer.now (λ s. IsPayloadFormat s.format) }
{
    match packetizer {
        CodecPacketizer::H264(it) => {
            payload_packetizer_states(it);
            h264_payload::laws::meets_the_facts();
        }
        CodecPacketizer::H265(it) => {
            payload_packetizer_states(it);
            h265_payload::laws::either_header_is_of_the_format();
        }
        CodecPacketizer::H266(it) => {
            payload_packetizer_states(it);
            h266_payload::laws::meets_the_facts();
        }
        CodecPacketizer::Boxed(_) => {}
    }
}

/// The format of a depacketizer of a codec meets the facts on which the laws of every format stand.
/// Nothing is said of a depacketizer in a box.
pub fn depacketizer_states(depacketizer: &CodecDepacketizer)
    ensures { OfDepacketizer depacketizer.now (λ s. IsPayloadFormat s.format) }
{
    match depacketizer {
        CodecDepacketizer::H264(_) => h264_payload::laws::meets_the_facts(),
        CodecDepacketizer::H265(_) => h265_payload::laws::meets_the_facts(),
        CodecDepacketizer::H266(_) => h266_payload::laws::meets_the_facts(),
        CodecDepacketizer::Boxed(_) => {}
    }
}

/// What was sent at one limit, with nothing dropped for its size, is sent again.
pub fn what_was_sent_is_sent_again()
    ensures { (codec : Codec) (has_donl : Bool) → SendsAgainAlike (codec_format codec has_donl) }
{
    h26x_model::laws::what_was_sent_is_sent_again();
}

/// Of what calls send, whichever sets wait and whatever the next decoding order number is, the packet
/// or the first fragment of each key unit is detected, and no other packet but aggregates that bear
/// numbers.
pub fn key_units_are_detected()
    ensures { (codec : Codec) (has_donl : Bool) → DetectsKeyUnits (codec_format codec has_donl) }
{
    formats_meet_the_facts();
    h26x_model::laws::what_calls_send_is_in_order_and_detected();
}
