//! Streams as encoders send them, of which each access unit is told whole: all that the law asks of a
//! sender and of a receiver is so at once.

ghost use Rattle.std.specs.Prelude.{◌≡◌, ℕ, true, false, Some, None, [], ◌∷◌, Option, List};
ghost use Rattle.h264_payload.specs.H264.{h264};
ghost use Rattle.h26x_codec.specs.Codec.{fresh_depacketizer_state};
ghost use Rattle.h26x_reorder.specs.Rtp.{RtpBody, rtp_body};
ghost use Rattle.h26x_access_units.specs.declared.config.AccessUnitConfig.{AccessUnitConfig};
ghost use Rattle.h26x_access_units.specs.Reception.{Reception, fresh_reception};
ghost use Rattle.h26x_access_units.specs.Account.{ReceiverCall, AreReceiverCalls, texts_given};
ghost use Rattle.h26x_access_units.specs.WholeSent.{IsSender};
ghost use Rattle.h26x_access_units.specs.ToldWhole.{all_deeds, AreOfSender, settings_set, IsUnitSent, WereAllTaken, WereTakenWithoutLoss, CanBeWritten, WasToldWhole};

use h26x_access_units::laws as told_laws;
use h264_payload::laws as h264_laws;

/// A stream of H.264: parameter sets and an IDR picture, each in a packet of its own, with numbers that
/// go round, and another picture. Each comes, and none is asked for before; nothing tells the number of
/// the first. Both access units are told whole.
pub fn an_ordinary_stream()
    ensures { let r = fresh_depacketizer_state h264 in
        let sent : List RtpBody = rtp_body 1 false (0x67 ∷ 0x42 ∷ 0x00 ∷ 0x1e ∷ [])
        ∷ rtp_body 1 false (0x68 ∷ 0xce ∷ 0x38 ∷ 0x80 ∷ [])
        ∷ rtp_body 1 true (0x65 ∷ 0x88 ∷ 0x84 ∷ 0x00 ∷ [])
        ∷ rtp_body 2 true (0x41 ∷ 0x9a ∷ 0x24 ∷ 0x6c ∷ []) ∷ [] in
        let first : List ℕ = 0 ∷ 0 ∷ 0 ∷ 1 ∷ 0x67 ∷ 0x42 ∷ 0x00 ∷ 0x1e
        ∷ 0 ∷ 0 ∷ 0 ∷ 1 ∷ 0x68 ∷ 0xce ∷ 0x38 ∷ 0x80
        ∷ 0 ∷ 0 ∷ 0 ∷ 1 ∷ 0x65 ∷ 0x88 ∷ 0x84 ∷ 0x00 ∷ [] in
        let second : List ℕ = 0 ∷ 0 ∷ 0 ∷ 1 ∷ 0x41 ∷ 0x9a ∷ 0x24 ∷ 0x6c ∷ [] in
        (config : AccessUnitConfig) × (calls : List ReceiverCall) × (s : Reception)
        × (are : AreReceiverCalls (fresh_reception config r) calls s)
        × IsSender r sent × AreOfSender sent 65534 (Some 4) (all_deeds are)
        × (s.assembler.ended ≡ [])
        × (texts_given calls ≡ (1, first) ∷ (2, second) ∷ [])
        × IsUnitSent sent 0 3 × WereAllTaken r sent 65534 0 3 (all_deeds are)
        × CanBeWritten r sent 0 3 (config ∷ settings_set calls)
        × WasToldWhole r sent 65534 0 3 calls
        × IsUnitSent sent 3 1 × WereTakenWithoutLoss r sent 65534 3 1 (all_deeds are)
        × CanBeWritten r sent 3 1 (config ∷ settings_set calls)
        × WasToldWhole r sent 65534 3 1 calls }
{
    h264_laws::meets_the_facts();
    told_laws::what_was_sent_and_taken_is_told_whole();
    told_laws::access_units_without_loss_are_told_whole();
}
