//! What a network may bring of three fragments and a unit, and what is written.

ghost use Rattle.std.specs.Prelude.{◌≡◌, ℕ, List, true, None, [], ◌∷◌, Ok};
ghost use Rattle.h26x_core.specs.declared.extra.CodecExtra.{CodecExtra};
ghost use Rattle.h26x_core.specs.declared.extra.CodecExtra.TheVariants as extras;
ghost use Rattle.h26x_model.specs.Send.Calls.{fresh_call};
ghost use Rattle.h26x_model.specs.Receive.DepacketizerState.{depacketization};
ghost use Rattle.h26x_model.specs.Carry.Gaps.{whole_units};
ghost use Rattle.h264_payload.specs.H264.{h264};
ghost use Rattle.h26x_codec.specs.Codec.{fresh_packetizer_state, fresh_depacketizer_state};
ghost use Rattle.h26x_receiver.specs.Sequenced.{sequenced_depacketization, HaveSequencedAnswers};
ghost use Rattle.h26x_receiver.specs.Delivery.{IsDelivery, IsAnyDelivery, IsOrderedDelivery, ThoseThatCameAreWritten, WhatWasTakenIsWritten, taken_mask};

use h26x_receiver::Received;

/// A unit in three fragments and one that fits, numbered on from any number. The first, the middle
/// or the last fragment is lost: the second unit alone is written.
pub fn lost_fragments()
    ensures first { whole_units 4 (fresh_packetizer_state h264)
        (fresh_call 3 (0x65 ∷ 0x01 ∷ 0x02 ∷ 0x03 ∷ []) ∷ fresh_call 3 (0x61 ∷ 0x05 ∷ []) ∷ [])
        (taken_mask (fresh_packetizer_state h264)
        (fresh_call 3 (0x65 ∷ 0x01 ∷ 0x02 ∷ 0x03 ∷ []) ∷ fresh_call 3 (0x61 ∷ 0x05 ∷ []) ∷ [])
        (1 ∷ 2 ∷ 3 ∷ []) (Ok Received.InOrder ∷ Ok Received.InOrder ∷ Ok Received.InOrder ∷ []))
        ≡ (0x61 ∷ 0x05 ∷ []) ∷ [] }
    ensures middle { whole_units 4 (fresh_packetizer_state h264)
        (fresh_call 3 (0x65 ∷ 0x01 ∷ 0x02 ∷ 0x03 ∷ []) ∷ fresh_call 3 (0x61 ∷ 0x05 ∷ []) ∷ [])
        (taken_mask (fresh_packetizer_state h264)
        (fresh_call 3 (0x65 ∷ 0x01 ∷ 0x02 ∷ 0x03 ∷ []) ∷ fresh_call 3 (0x61 ∷ 0x05 ∷ []) ∷ [])
        (0 ∷ 2 ∷ 3 ∷ []) (Ok Received.InOrder ∷ Ok (Received.Gap 1) ∷ Ok Received.InOrder ∷ []))
        ≡ (0x61 ∷ 0x05 ∷ []) ∷ [] }
    ensures last { whole_units 4 (fresh_packetizer_state h264)
        (fresh_call 3 (0x65 ∷ 0x01 ∷ 0x02 ∷ 0x03 ∷ []) ∷ fresh_call 3 (0x61 ∷ 0x05 ∷ []) ∷ [])
        (taken_mask (fresh_packetizer_state h264)
        (fresh_call 3 (0x65 ∷ 0x01 ∷ 0x02 ∷ 0x03 ∷ []) ∷ fresh_call 3 (0x61 ∷ 0x05 ∷ []) ∷ [])
        (0 ∷ 1 ∷ 3 ∷ []) (Ok Received.InOrder ∷ Ok Received.InOrder ∷ Ok (Received.Gap 1) ∷ []))
        ≡ (0x61 ∷ 0x05 ∷ []) ∷ [] }
{}

/// A unit whose first fragments hold more bytes than the limit is not written; the one behind it is.
pub fn a_unit_past_the_limit()
    ensures at { whole_units 2 (fresh_packetizer_state h264)
        (fresh_call 3 (0x65 ∷ 0x01 ∷ 0x02 ∷ 0x03 ∷ []) ∷ fresh_call 3 (0x61 ∷ 0x05 ∷ []) ∷ [])
        (true ∷ true ∷ true ∷ true ∷ [])
        ≡ (0x65 ∷ 0x01 ∷ 0x02 ∷ 0x03 ∷ []) ∷ (0x61 ∷ 0x05 ∷ []) ∷ [] }
    ensures past { whole_units 1 (fresh_packetizer_state h264)
        (fresh_call 3 (0x65 ∷ 0x01 ∷ 0x02 ∷ 0x03 ∷ []) ∷ fresh_call 3 (0x61 ∷ 0x05 ∷ []) ∷ [])
        (true ∷ true ∷ true ∷ true ∷ [])
        ≡ (0x61 ∷ 0x05 ∷ []) ∷ [] }
{}

/// A packet that comes twice, and one that comes late, make no difference: both units are written.
pub fn twice_and_late()
    ensures { whole_units 4 (fresh_packetizer_state h264)
        (fresh_call 3 (0x65 ∷ 0x01 ∷ 0x02 ∷ 0x03 ∷ []) ∷ fresh_call 3 (0x61 ∷ 0x05 ∷ []) ∷ [])
        (taken_mask (fresh_packetizer_state h264)
        (fresh_call 3 (0x65 ∷ 0x01 ∷ 0x02 ∷ 0x03 ∷ []) ∷ fresh_call 3 (0x61 ∷ 0x05 ∷ []) ∷ [])
        (0 ∷ 1 ∷ 1 ∷ 2 ∷ 0 ∷ 3 ∷ [])
        (Ok Received.InOrder ∷ Ok Received.InOrder ∷ Ok (Received.Late 1) ∷ Ok Received.InOrder
        ∷ Ok (Received.Late 3) ∷ Ok Received.InOrder ∷ []))
        ≡ (0x65 ∷ 0x01 ∷ 0x02 ∷ 0x03 ∷ []) ∷ (0x61 ∷ 0x05 ∷ []) ∷ [] }
{}

/// A delivery: numbered on from 65535, the last fragment before the middle one, which is late then.
pub fn a_delivery()
    ensures is { IsDelivery (fresh_packetizer_state h264)
        (fresh_call 3 (0x65 ∷ 0x01 ∷ 0x02 ∷ 0x03 ∷ []) ∷ [])
        65535 (0 ∷ 2 ∷ 1 ∷ [])
        ((65535, 0x7c ∷ 0x85 ∷ 0x01 ∷ []) ∷ (1, 0x7c ∷ 0x45 ∷ 0x03 ∷ [])
        ∷ (0, 0x7c ∷ 0x05 ∷ 0x02 ∷ []) ∷ [])
        (Ok Received.InOrder ∷ Ok (Received.Gap 1) ∷ Ok (Received.Late 2) ∷ []) }
    ensures answers { HaveSequencedAnswers 4
        (sequenced_depacketization (fresh_depacketizer_state h264) None [] extras.None)
        ((65535, 0x7c ∷ 0x85 ∷ 0x01 ∷ []) ∷ (1, 0x7c ∷ 0x45 ∷ 0x03 ∷ [])
        ∷ (0, 0x7c ∷ 0x05 ∷ 0x02 ∷ []) ∷ [])
        (Ok Received.InOrder ∷ Ok (Received.Gap 1) ∷ Ok (Received.Late 2) ∷ []) }
{}

/// A delivery in order, of which the middle fragment of a unit is missing: the unit behind it alone is
/// written.
pub fn an_ordered_delivery()
    ensures is { IsOrderedDelivery (fresh_packetizer_state h264)
        (fresh_call 3 (0x65 ∷ 0x01 ∷ 0x02 ∷ 0x03 ∷ []) ∷ fresh_call 3 (0x61 ∷ 0x05 ∷ []) ∷ [])
        65535 (0 ∷ 2 ∷ 3 ∷ [])
        ((65535, 0x7c ∷ 0x85 ∷ 0x01 ∷ []) ∷ (1, 0x7c ∷ 0x45 ∷ 0x03 ∷ []) ∷
        (2, 0x61 ∷ 0x05 ∷ []) ∷ []) }
    ensures written { (out : List ℕ) (told : CodecExtra) → ThoseThatCameAreWritten 4
        (depacketization (fresh_depacketizer_state h264) [] extras.None)
        ((65535, 0x7c ∷ 0x85 ∷ 0x01 ∷ []) ∷ (1, 0x7c ∷ 0x45 ∷ 0x03 ∷ []) ∷
        (2, 0x61 ∷ 0x05 ∷ []) ∷ []) out told →
        out ≡ 0x00 ∷ 0x00 ∷ 0x00 ∷ 0x01 ∷ 0x61 ∷ 0x05 ∷ [] }
{}

/// A delivery of a sender that sends another unit between the fragments of one, of which the middle is
/// missing: both others are written, and nothing of the fragmented one.
pub fn a_delivery_of_any_sender()
    ensures is { IsAnyDelivery
        ((0x7c ∷ 0x85 ∷ 0x01 ∷ []) ∷ (0x61 ∷ 0x05 ∷ []) ∷ (0x7c ∷ 0x05 ∷ 0x02 ∷ []) ∷
        (0x7c ∷ 0x45 ∷ 0x03 ∷ []) ∷ (0x41 ∷ 0x06 ∷ []) ∷ [])
        65535 (0 ∷ 1 ∷ 3 ∷ 4 ∷ [])
        ((65535, 0x7c ∷ 0x85 ∷ 0x01 ∷ []) ∷ (0, 0x61 ∷ 0x05 ∷ []) ∷
        (2, 0x7c ∷ 0x45 ∷ 0x03 ∷ []) ∷ (3, 0x41 ∷ 0x06 ∷ []) ∷ [])
        (Ok Received.InOrder ∷ Ok Received.InOrder ∷ Ok (Received.Gap 1) ∷ Ok Received.InOrder ∷ []) }
    ensures written { (out : List ℕ) (told : CodecExtra) → WhatWasTakenIsWritten 4
        (depacketization (fresh_depacketizer_state h264) [] extras.None)
        ((65535, 0x7c ∷ 0x85 ∷ 0x01 ∷ []) ∷ (0, 0x61 ∷ 0x05 ∷ []) ∷
        (2, 0x7c ∷ 0x45 ∷ 0x03 ∷ []) ∷ (3, 0x41 ∷ 0x06 ∷ []) ∷ [])
        (Ok Received.InOrder ∷ Ok Received.InOrder ∷ Ok (Received.Gap 1) ∷ Ok Received.InOrder ∷ [])
        out told →
        out ≡ 0x00 ∷ 0x00 ∷ 0x00 ∷ 0x01 ∷ 0x61 ∷ 0x05 ∷ 0x00 ∷ 0x00 ∷ 0x00 ∷ 0x01 ∷ 0x41 ∷ 0x06 ∷ [] }
{}
