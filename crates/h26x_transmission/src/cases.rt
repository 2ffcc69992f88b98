//! Worked cases of what is said of whole transmissions. Each is the contract of a function without
//! a result.

ghost use Rattle.std.specs.Prelude.{◌≡◌, ℕ, true, false, List, [], ◌∷◌, ◌++◌, Some, None, Ok};
ghost use Rattle.h26x_core.specs.ByteStream.{byte_stream};
ghost use Rattle.h26x_core.specs.declared.extra.CodecExtra.{CodecExtra};
ghost use Rattle.h26x_core.specs.declared.extra.CodecExtra.TheVariants as extras;
ghost use Rattle.h26x_core.specs.declared.error.PacketError.{PacketError};
ghost use Rattle.h26x_core.specs.declared.error.PacketError.TheVariants.{ErrShortPacket, NaluTypeIsNotHandled, OutOfMemory};
ghost use Rattle.h26x_cut.specs.declared.ZeroRule.TheVariants.{All, AtMostThree};
ghost use Rattle.h26x_model.specs.Send.Calls.{fresh_call};
ghost use Rattle.h26x_model.specs.Send.PacketizerState.{PacketizerState};
ghost use Rattle.h26x_model.specs.Receive.DepacketizerState.{Depacketization, depacketization, AreWritten};
ghost use Rattle.h26x_packetizer.specs.PacketizerView.{PacketizerView};
ghost use Rattle.h26x_packetizer.specs.declared.packing.Packing.TheVariants.{Together, Apart};
ghost use Rattle.h26x_packetizer.specs.declared.refusal.WhyRefused.TheVariants.{WithoutHeader};
ghost use Rattle.h264_payload.specs.H264.{h264};
ghost use Rattle.h264_payload.specs.declared.codec.H264.{H264};
ghost use Rattle.h265_payload.specs.H265.{h265};
ghost use Rattle.h266_payload.specs.H266.{h266};
ghost use Rattle.h26x_codec.specs.Codec.{fresh_packetizer_state, fresh_depacketizer_state};
ghost use Rattle.h26x_transmission.specs.Transmissions.{AreMade, AreSent, IsSentCall, AreTaken, IsLeftOver, IsStopped, LacksMemory, IsFresh, AreCarriedWhole};
ghost use Rattle.h26x_transmission.specs.Taking.{AreSomePackets, AreReceivedAs, LossIsWithin};
ghost use Rattle.h26x_transmission.specs.Repeating.{MayBeRepeated, IsFirstRefused};
ghost use Rattle.h26x_transmission.specs.CodecStates.{packetizer_codec};
ghost use Rattle.h26x_transmission.specs.EveryUnits.{codec_every_packets, codec_units_refusal};
ghost use Rattle.h26x_transmission.specs.declared.packetizer.CodecPacketizer.TheVariants as p;

use crate::packetizer::CodecPacketizer;

/// Each call without effect was made; one with an effect may not have been.
pub fn calls_made()
    ensures some { AreMade h264 (false ∷ true ∷ [])
        (fresh_call 9 (0x65 ∷ []) ∷ fresh_call 0 (0x65 ∷ []) ∷ fresh_call 9 (0x65 ∷ []) ∷ []) }
    ensures unmade { AreMade h264 (true ∷ false ∷ [])
        (fresh_call 9 (0x65 ∷ []) ∷ fresh_call 9 (0x09 ∷ 0xf0 ∷ []) ∷ []) → ⊥ }
    ensures too_many { AreMade h264 (true ∷ []) [] → ⊥ }
{}

/// A packetizer is fresh for which nothing waits and whose next number is 0.
pub fn fresh_packetizers()
    ensures fresh { IsFresh (fresh_packetizer_state (h265 true)) }
    ensures other_size { IsFresh (record (fresh_packetizer_state h264) { max_packet_size = 9 }) }
    ensures numbered { IsFresh (record (fresh_packetizer_state (h265 true)) { next_don = 1 }) → ⊥ }
    ensures set_waits { IsFresh (record (fresh_packetizer_state h264) {
      waiting = record { vps = []; sps = (0x67 ∷ []) ∷ []; pps = [] };
    }) → ⊥ }
{}

/// Of three calls the second is not made: its unit is not sent, and the sets of the others wait.
pub fn calls_sent()
    ensures sent { AreSent (fresh_packetizer_state h264)
        (fresh_call 9 (0x67 ∷ 0x01 ∷ []) ∷ fresh_call 9 (0x65 ∷ []) ∷ fresh_call 9 (0x68 ∷ []) ∷ [])
        (true ∷ false ∷ true ∷ []) []
        (Some (record (fresh_packetizer_state h264) {
          waiting = record { vps = []; sps = (0x67 ∷ 0x01 ∷ []) ∷ []; pps = (0x68 ∷ []) ∷ [] };
        })) }
    ensures other_packets { AreSent (fresh_packetizer_state h264) (fresh_call 9 (0x65 ∷ []) ∷ [])
        (true ∷ []) ((0x61 ∷ []) ∷ []) (Some (fresh_packetizer_state h264)) → ⊥ }
{}

/// A call is made, or leaves everything; one without effect is made.
pub fn one_call_sent()
    ensures made { IsSentCall (fresh_packetizer_state h264) (fresh_call 9 (0x65 ∷ [])) (Ok true)
        ((0x61 ∷ []) ∷ []) ((0x61 ∷ []) ∷ (0x65 ∷ []) ∷ []) (Some (fresh_packetizer_state h264)) }
    ensures unmade { IsSentCall (fresh_packetizer_state h264) (fresh_call 9 (0x65 ∷ [])) (Ok false)
        ((0x61 ∷ []) ∷ []) ((0x61 ∷ []) ∷ []) (Some (fresh_packetizer_state h264)) }
    ensures without_effect { IsSentCall (fresh_packetizer_state h264) (fresh_call 9 []) (Ok false)
        [] [] (Some (fresh_packetizer_state h264)) → ⊥ }
{}

/// A delivery stops at the first packet that is refused, and some packet is left.
pub fn packets_left_over()
    ensures refused { IsLeftOver
        (depacketization (fresh_depacketizer_state h264) [] extras.None)
        ((0x65 ∷ []) ∷ [] ∷ (0x61 ∷ []) ∷ []) ErrShortPacket
        (Some (depacketization (fresh_depacketizer_state h264)
        (0x00 ∷ 0x00 ∷ 0x00 ∷ 0x01 ∷ 0x65 ∷ []) (h264.extra true))) }
    ensures none_left { IsLeftOver
        (depacketization (fresh_depacketizer_state h264) [] extras.None) [] OutOfMemory
        (Some (depacketization (fresh_depacketizer_state h264) [] extras.None)) → ⊥ }
{}

/// A run stops in its second call, whose packet is refused; the first one's unit was written.
pub fn transmissions_that_stopped()
    ensures stopped { IsStopped (fresh_packetizer_state h264)
        (depacketization (fresh_depacketizer_state h264) [] extras.None)
        (fresh_call 9 (0x65 ∷ []) ∷ fresh_call 9 (0x60 ∷ []) ∷ fresh_call 9 (0x61 ∷ []) ∷ [])
        (NaluTypeIsNotHandled 0) (Some (fresh_packetizer_state h264))
        (Some (depacketization (fresh_depacketizer_state h264)
        (0x00 ∷ 0x00 ∷ 0x00 ∷ 0x01 ∷ 0x65 ∷ []) (h264.extra true))) }
    ensures no_calls { (s : PacketizerState) (w : Depacketization) (error : PacketError) →
        IsStopped s w [] error (Some s) (Some w) → error ≡ OutOfMemory }
    ensures memory { (error : PacketError) → LacksMemory (fresh_packetizer_state h264)
        (depacketization (fresh_depacketizer_state h264) [] extras.None)
        (fresh_call 9 (0x65 ∷ []) ∷ fresh_call 9 (0x60 ∷ []) ∷ []) error (true ∷ []) →
        error ≡ OutOfMemory }
{}

/// What the headline says of a key unit in two fragments, with numbers.
pub fn carried_whole()
    ensures packets { (w : Depacketization) (packets : List (List ℕ)) (out : List ℕ)
        (told : CodecExtra) → AreCarriedWhole (fresh_packetizer_state (h265 true)) w
        (fresh_call 6 (0x26 ∷ 0x01 ∷ 0xaa ∷ 0xbb ∷ 0xcc ∷ []) ∷ []) packets out told →
        packets ≡ (0x62 ∷ 0x01 ∷ 0x93 ∷ 0x00 ∷ 0x00 ∷ 0xaa ∷ []) ∷
        (0x62 ∷ 0x01 ∷ 0x53 ∷ 0xbb ∷ 0xcc ∷ []) ∷ [] }
    ensures written { (w : Depacketization) (packets : List (List ℕ)) (out : List ℕ)
        (told : CodecExtra) → AreCarriedWhole (fresh_packetizer_state (h265 true)) w
        (fresh_call 6 (0x26 ∷ 0x01 ∷ 0xaa ∷ 0xbb ∷ 0xcc ∷ []) ∷ []) packets out told →
        out ≡ w.out ++ byte_stream w.state.is_avc
        ((0x26 ∷ 0x01 ∷ 0xaa ∷ 0xbb ∷ 0xcc ∷ []) ∷ []) }
    ensures told { (w : Depacketization) (packets : List (List ℕ)) (out : List ℕ)
        (told : CodecExtra) → AreCarriedWhole (fresh_packetizer_state (h265 true)) w
        (fresh_call 6 (0x26 ∷ 0x01 ∷ 0xaa ∷ 0xbb ∷ 0xcc ∷ []) ∷ []) packets out told →
        told ≡ (h265 true).extra true }
{}

/// What is written grows by the text of the units, in the form that is asked for, and the extra tells
/// of them.
pub fn written_units()
    ensures grows { AreWritten
        (depacketization (fresh_depacketizer_state h264) (0xff ∷ []) extras.None)
        ((0x65 ∷ []) ∷ []) (0xff ∷ 0x00 ∷ 0x00 ∷ 0x00 ∷ 0x01 ∷ 0x65 ∷ []) (h264.extra true) }
    ensures not_told { AreWritten
        (depacketization (fresh_depacketizer_state h264) [] extras.None)
        ((0x65 ∷ []) ∷ []) (0x00 ∷ 0x00 ∷ 0x00 ∷ 0x01 ∷ 0x65 ∷ []) extras.None → ⊥ }
    ensures another { AreWritten
        (depacketization (fresh_depacketizer_state h264) [] extras.None)
        ((0x65 ∷ []) ∷ []) (0x00 ∷ 0x00 ∷ 0x00 ∷ 0x01 ∷ 0x61 ∷ []) (h264.extra true) → ⊥ }
{}

/// Packets that were taken stand behind others, and what they brought is written.
pub fn packets_taken()
    ensures taken { AreTaken (depacketization (fresh_depacketizer_state h264) [] extras.None)
        ((0x61 ∷ []) ∷ []) ((0x61 ∷ []) ∷ (0x65 ∷ []) ∷ [])
        (Some (depacketization (fresh_depacketizer_state h264)
        (0x00 ∷ 0x00 ∷ 0x00 ∷ 0x01 ∷ 0x65 ∷ []) (h264.extra true))) }
    ensures received { (out : List ℕ) (told : CodecExtra) → AreReceivedAs
        (depacketization (fresh_depacketizer_state h264) [] extras.None)
        ((0x7c ∷ 0x85 ∷ 0x01 ∷ []) ∷ (0x7c ∷ 0x45 ∷ 0x02 ∷ []) ∷ []) out told →
        out ≡ 0x00 ∷ 0x00 ∷ 0x00 ∷ 0x01 ∷ 0x65 ∷ 0x01 ∷ 0x02 ∷ [] }
{
    h26x_model::laws::received_by_places();
}

/// Some packets of two calls: the first unit without its second fragment, and the second unit.
pub fn some_packets()
    ensures some { AreSomePackets (fresh_packetizer_state h264)
        (fresh_call 3 (0x65 ∷ 0x01 ∷ 0x02 ∷ 0x03 ∷ []) ∷ fresh_call 9 (0x61 ∷ []) ∷ [])
        (true ∷ false ∷ true ∷ true ∷ [])
        ((0x7c ∷ 0x85 ∷ 0x01 ∷ []) ∷ (0x7c ∷ 0x45 ∷ 0x03 ∷ []) ∷ (0x61 ∷ []) ∷ []) }
    ensures loss { (out : List ℕ) (told : CodecExtra) → LossIsWithin
        (depacketization (fresh_depacketizer_state h264) [] extras.None)
        ((0x7c ∷ 0x85 ∷ 0x01 ∷ []) ∷ (0x7c ∷ 0x45 ∷ 0x03 ∷ []) ∷ (0x61 ∷ []) ∷ []) out told →
        out ≡ 0x00 ∷ 0x00 ∷ 0x00 ∷ 0x01 ∷ 0x65 ∷ 0x01 ∷ 0x03 ∷
        0x00 ∷ 0x00 ∷ 0x00 ∷ 0x01 ∷ 0x61 ∷ [] }
    ensures short_mask { AreSomePackets (fresh_packetizer_state h264)
        (fresh_call 9 (0x61 ∷ []) ∷ fresh_call 9 (0x65 ∷ []) ∷ []) (true ∷ []) ((0x61 ∷ []) ∷ [])
        → ⊥ }
{}

/// Several payloads may be sent again, but not with a unit that packets can't carry, that is
/// dropped, or, but for H.266, that ends in zero before another.
pub fn what_may_be_repeated()
    ensures two { MayBeRepeated h264 All
        (fresh_call 9 (0x67 ∷ 0x01 ∷ []) ∷ fresh_call 9 (0x68 ∷ []) ∷
        fresh_call 9 (0x65 ∷ 0x01 ∷ []) ∷ fresh_call 9 (0x61 ∷ 0x00 ∷ []) ∷ []) }
    ensures zeros { MayBeRepeated (h266 true) AtMostThree
        (fresh_call 9 (0x00 ∷ 0x09 ∷ 0x00 ∷ []) ∷ fresh_call 9 (0x00 ∷ 0x09 ∷ 0xaa ∷ []) ∷ []) }
    ensures not_carried { MayBeRepeated h264 All (fresh_call 9 (0x60 ∷ []) ∷ []) → ⊥ }
    ensures dropped { MayBeRepeated h264 All (fresh_call 1 (0x65 ∷ 0x01 ∷ []) ∷ []) → ⊥ }
    ensures ends_in_zero { MayBeRepeated h264 All
        (fresh_call 9 (0x65 ∷ 0x00 ∷ []) ∷ fresh_call 9 (0x61 ∷ []) ∷ []) → ⊥ }
{}

/// The first packet that is refused is not one behind another, nor one that is read.
pub fn first_refused_packets()
    ensures third { IsFirstRefused h264 ((0x65 ∷ []) ∷ (0x61 ∷ []) ∷ [] ∷ (0xff ∷ []) ∷ [])
        ErrShortPacket }
    ensures behind_another { IsFirstRefused h264 ([] ∷ (0xff ∷ []) ∷ [])
        (NaluTypeIsNotHandled 31) → ⊥ }
    ensures none { (error : PacketError) → IsFirstRefused h264 ((0x65 ∷ []) ∷ []) error → ⊥ }
{}

/// Two units of H.264 in a STAP-A or apart, and one without a header that is named; none of a
/// packetizer in a box.
pub fn every_unit_of_any_packetizer(packetizer: &CodecPacketizer)
    ensures together { (it : PacketizerView H264) → packetizer.now ≡ p.H264 it →
        codec_every_packets Together packetizer.now 9 ((0x27 ∷ []) ∷ (0x48 ∷ []) ∷ []) ≡
        Some ((0x58 ∷ 0x00 ∷ 0x01 ∷ 0x27 ∷ 0x00 ∷ 0x01 ∷ 0x48 ∷ []) ∷ []) }
    ensures apart { (it : PacketizerView H264) → packetizer.now ≡ p.H264 it →
        codec_every_packets Apart packetizer.now 9 ((0x27 ∷ []) ∷ (0x48 ∷ []) ∷ []) ≡
        Some ((0x27 ∷ []) ∷ (0x48 ∷ []) ∷ []) }
    ensures refused { (it : PacketizerView H264) → packetizer.now ≡ p.H264 it →
        codec_units_refusal Together packetizer.now 9 ((0x27 ∷ []) ∷ [] ∷ []) ≡
        Some (record { place = 1; len = 0; why = WithoutHeader }) }
    ensures boxed { packetizer_codec packetizer.now ≡ None →
        codec_every_packets Together packetizer.now 9 ((0x27 ∷ []) ∷ []) ≡ None }
{}
