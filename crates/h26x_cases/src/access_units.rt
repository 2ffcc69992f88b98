//! Access units that packets bring, and what is left of them where some are missing.

ghost use Rattle.std.specs.Prelude.{◌≡◌, ℕ, List, Bool, true, false, None, Some, [], ◌∷◌, Ok, map};
ghost use Rattle.h26x_core.specs.declared.extra.CodecExtra.{CodecExtra};
ghost use Rattle.h26x_core.specs.declared.extra.CodecExtra.TheVariants as extras;
ghost use Rattle.h26x_model.specs.Payload.Extra.{extra_after};
ghost use Rattle.h26x_model.specs.Send.Calls.{fresh_call};
ghost use Rattle.h264_payload.specs.H264.{h264};
ghost use Rattle.h26x_codec.specs.declared.codec.Codec.TheVariants as c;
ghost use Rattle.h26x_codec.specs.Codec.{codec_format, fresh_packetizer_state, fresh_depacketizer_state};
ghost use Rattle.h26x_assembler.specs.Network.{IsNetwork, released_packets};
ghost use Rattle.h26x_reorder.specs.Rtp.{rtp_body};
ghost use Rattle.h26x_assembler.specs.AccessUnit.{AccessUnitValue, empty_unit, assembly, fresh_assembly, gives_up_run, is_text_given_up, after_all_rtp, after_unit_skip, after_pass_over, after_finishing, HaveAssemblyAnswers};
ghost use Rattle.h26x_assembler.specs.AnyUnits.{any_units_left};
ghost use Rattle.h26x_assembler.specs.StampedCalls.{stamped_call, access_unit_packets, sent_bodies, unit_left, units_left, sent_unit, sent_units, packets_len, AreApart, AreUnitsWithin, IsGivenOut, IsStream, IsBroughtStream, IsSentIfWhole, AreAccessUnitsLeft};

use h26x_receiver::Received;

/// A network that brings the last fragment before the middle one, and the first one twice: numbered
/// on from 65535, a buffer gives them out in the order of sending.
pub fn a_network()
    ensures is { IsNetwork 3 (fresh_packetizer_state h264)
        (fresh_call 3 (0x65 ∷ 0x01 ∷ 0x02 ∷ 0x03 ∷ []) ∷ []) (0 ∷ 2 ∷ 0 ∷ 1 ∷ []) }
    ensures given { released_packets 3 (fresh_packetizer_state h264)
        (fresh_call 3 (0x65 ∷ 0x01 ∷ 0x02 ∷ 0x03 ∷ []) ∷ []) 65535 (0 ∷ 2 ∷ 0 ∷ 1 ∷ [])
        ≡ (65535, 0x7c ∷ 0x85 ∷ 0x01 ∷ []) ∷ (0, 0x7c ∷ 0x05 ∷ 0x02 ∷ [])
        ∷ (1, 0x7c ∷ 0x45 ∷ 0x03 ∷ []) ∷ [] }
{}

/// Access units, each of units in packets of their own: the marker ends the first, and another
/// timestamp the second. Each is known to be whole but the first of all, since a packet before its
/// first may be missing; behind a gap, and where a gap may be in it, it isn't.
pub fn access_units_by_marker_and_timestamp()
    ensures not_ended { (after_all_rtp 4 12 (fresh_assembly (fresh_depacketizer_state h264))
        ((7, rtp_body 3000 false (0x65 ∷ 0x01 ∷ [])) ∷ []) (Ok Received.InOrder ∷ [])).ended ≡ [] }
    ensures whole { map {B = ℕ × Bool} (λ u. (u.timestamp, u.is_whole))
        (after_all_rtp 4 12 (fresh_assembly (fresh_depacketizer_state h264))
        ((7, rtp_body 3000 true (0x65 ∷ 0x01 ∷ [])) ∷ (8, rtp_body 6000 false (0x61 ∷ 0x02 ∷ []))
        ∷ (9, rtp_body 9000 true (0x61 ∷ 0x03 ∷ [])) ∷ [])
        (Ok Received.InOrder ∷ Ok Received.InOrder ∷ Ok Received.InOrder ∷ [])).ended
        ≡ (3000, false) ∷ (6000, true) ∷ (9000, true) ∷ [] }
    ensures text { map (λ u. u.bytes)
        (after_all_rtp 4 12 (fresh_assembly (fresh_depacketizer_state h264))
        ((7, rtp_body 3000 false (0x65 ∷ 0x01 ∷ [])) ∷ (8, rtp_body 3000 true (0x65 ∷ 0x02 ∷ []))
        ∷ (9, rtp_body 6000 true (0x61 ∷ 0x03 ∷ [])) ∷ [])
        (Ok Received.InOrder ∷ Ok Received.InOrder ∷ Ok Received.InOrder ∷ [])).ended
        ≡ (0x00 ∷ 0x00 ∷ 0x00 ∷ 0x01 ∷ 0x65 ∷ 0x01 ∷ 0x00 ∷ 0x00 ∷ 0x00 ∷ 0x01 ∷ 0x65 ∷ 0x02 ∷ [])
        ∷ (0x00 ∷ 0x00 ∷ 0x00 ∷ 0x01 ∷ 0x61 ∷ 0x03 ∷ []) ∷ [] }
    ensures gap { map {B = ℕ × Bool} (λ u. (u.timestamp, u.is_whole))
        (after_all_rtp 4 12 (fresh_assembly (fresh_depacketizer_state h264))
        ((7, rtp_body 3000 true (0x65 ∷ 0x01 ∷ [])) ∷ (8, rtp_body 6000 false (0x61 ∷ 0x02 ∷ []))
        ∷ (10, rtp_body 9000 true (0x61 ∷ 0x03 ∷ [])) ∷ (11, rtp_body 12000 true (0x61 ∷ []))
        ∷ []) (Ok Received.InOrder ∷ Ok Received.InOrder ∷ Ok (Received.Gap 1)
        ∷ Ok Received.InOrder ∷ [])).ended
        ≡ (3000, false) ∷ (6000, false) ∷ (9000, false) ∷ (12000, true) ∷ [] }
    ensures at_the_end { map {B = ℕ × Bool} (λ u. (u.timestamp, u.is_whole))
        (after_finishing (after_all_rtp 4 12 (fresh_assembly (fresh_depacketizer_state h264))
        ((7, rtp_body 3000 true (0x65 ∷ [])) ∷ (8, rtp_body 6000 false (0x61 ∷ [])) ∷ [])
        (Ok Received.InOrder ∷ Ok Received.InOrder ∷ []))).ended
        ≡ (3000, false) ∷ (6000, false) ∷ [] }
{}

/// Where the marker is not at the end of an access unit. On each slice: the second isn't told to be
/// whole, since it goes on with the first. On a middle fragment: a unit of neither is ended. A fragment
/// whose start is missing, though no number is, or another timestamp while a unit is open: nor these.
pub fn markers_that_are_wrong()
    ensures each_slice { map {B = ℕ × Bool} (λ u. (u.timestamp, u.is_whole))
        (after_all_rtp 4 12 (fresh_assembly (fresh_depacketizer_state h264))
        ((7, rtp_body 3000 true (0x65 ∷ [])) ∷ (8, rtp_body 6000 true (0x61 ∷ []))
        ∷ (9, rtp_body 6000 true (0x61 ∷ [])) ∷ (10, rtp_body 9000 true (0x61 ∷ [])) ∷ [])
        (Ok Received.InOrder ∷ Ok Received.InOrder ∷ Ok Received.InOrder ∷ Ok Received.InOrder
        ∷ [])).ended
        ≡ (3000, false) ∷ (6000, true) ∷ (6000, false) ∷ (9000, true) ∷ [] }
    ensures middle { map {B = ℕ × List ℕ × Bool} (λ u. (u.timestamp, u.bytes, u.is_whole))
        (after_all_rtp 4 12 (fresh_assembly (fresh_depacketizer_state h264))
        ((7, rtp_body 3000 true (0x65 ∷ []))
        ∷ (8, rtp_body 6000 false (0x7c ∷ 0x85 ∷ 0x01 ∷ []))
        ∷ (9, rtp_body 6000 true (0x7c ∷ 0x05 ∷ 0x02 ∷ []))
        ∷ (10, rtp_body 6000 true (0x7c ∷ 0x45 ∷ 0x03 ∷ [])) ∷ [])
        (Ok Received.InOrder ∷ Ok Received.InOrder ∷ Ok Received.InOrder ∷ Ok Received.InOrder
        ∷ [])).ended
        ≡ (3000, 0x00 ∷ 0x00 ∷ 0x00 ∷ 0x01 ∷ 0x65 ∷ [], false) ∷ (6000, [], false)
        ∷ (6000, [], false) ∷ [] }
    ensures startless { map {B = ℕ × Bool} (λ u. (u.timestamp, u.is_whole))
        (after_all_rtp 4 12 (fresh_assembly (fresh_depacketizer_state h264))
        ((7, rtp_body 3000 true (0x65 ∷ [])) ∷ (8, rtp_body 6000 false (0x61 ∷ []))
        ∷ (9, rtp_body 6000 true (0x7c ∷ 0x45 ∷ 0x03 ∷ [])) ∷ [])
        (Ok Received.InOrder ∷ Ok Received.InOrder ∷ Ok Received.InOrder ∷ [])).ended
        ≡ (3000, false) ∷ (6000, false) ∷ [] }
    ensures cut_off { map {B = ℕ × Bool} (λ u. (u.timestamp, u.is_whole))
        (after_all_rtp 4 12 (fresh_assembly (fresh_depacketizer_state h264))
        ((7, rtp_body 3000 true (0x65 ∷ []))
        ∷ (8, rtp_body 6000 false (0x7c ∷ 0x85 ∷ 0x01 ∷ []))
        ∷ (9, rtp_body 9000 true (0x61 ∷ [])) ∷ [])
        (Ok Received.InOrder ∷ Ok Received.InOrder ∷ Ok Received.InOrder ∷ [])).ended
        ≡ (3000, false) ∷ (6000, false) ∷ (9000, true) ∷ [] }
{}

/// A start while a run is open, in each codec, with numbers or without: the first unit's end never
/// comes, and the access unit isn't told to be whole. So it is where the second start ends too, and
/// where the first has no data; an access unit whose units end, each before the next starts, is whole.
pub fn starts_that_give_up_a_run()
    ensures h264 { map {B = List ℕ × Bool} (λ u. (u.bytes, u.is_whole))
        (after_all_rtp 4 12 (assembly (fresh_depacketizer_state h264) (Some 7) None [])
        ((7, rtp_body 3000 false (0x7c ∷ 0x85 ∷ 0x01 ∷ []))
        ∷ (8, rtp_body 3000 false (0x7c ∷ 0x85 ∷ 0x02 ∷ []))
        ∷ (9, rtp_body 3000 true (0x7c ∷ 0x45 ∷ 0x03 ∷ [])) ∷ [])
        (Ok Received.InOrder ∷ Ok Received.InOrder ∷ Ok Received.InOrder ∷ [])).ended
        ≡ (0x00 ∷ 0x00 ∷ 0x00 ∷ 0x01 ∷ 0x65 ∷ 0x02 ∷ 0x03 ∷ [], false) ∷ [] }
    ensures h265 { map {B = List ℕ × Bool} (λ u. (u.bytes, u.is_whole))
        (after_all_rtp 4 12 (assembly
        (fresh_depacketizer_state (codec_format c.H265 false)) (Some 7) None [])
        ((7, rtp_body 3000 false (0x62 ∷ 0x01 ∷ 0x93 ∷ 0x01 ∷ []))
        ∷ (8, rtp_body 3000 false (0x62 ∷ 0x01 ∷ 0x93 ∷ 0x02 ∷ []))
        ∷ (9, rtp_body 3000 true (0x62 ∷ 0x01 ∷ 0x53 ∷ 0x03 ∷ [])) ∷ [])
        (Ok Received.InOrder ∷ Ok Received.InOrder ∷ Ok Received.InOrder ∷ [])).ended
        ≡ (0x00 ∷ 0x00 ∷ 0x00 ∷ 0x01 ∷ 0x26 ∷ 0x01 ∷ 0x02 ∷ 0x03 ∷ [], false) ∷ [] }
    ensures h266 { map {B = List ℕ × Bool} (λ u. (u.bytes, u.is_whole))
        (after_all_rtp 4 12 (assembly
        (fresh_depacketizer_state (codec_format c.H266 false)) (Some 7) None [])
        ((7, rtp_body 3000 false (0x00 ∷ 0xe9 ∷ 0x87 ∷ 0x01 ∷ []))
        ∷ (8, rtp_body 3000 false (0x00 ∷ 0xe9 ∷ 0x87 ∷ 0x02 ∷ []))
        ∷ (9, rtp_body 3000 true (0x00 ∷ 0xe9 ∷ 0x47 ∷ 0x03 ∷ [])) ∷ [])
        (Ok Received.InOrder ∷ Ok Received.InOrder ∷ Ok Received.InOrder ∷ [])).ended
        ≡ (0x00 ∷ 0x00 ∷ 0x00 ∷ 0x01 ∷ 0x00 ∷ 0x39 ∷ 0x02 ∷ 0x03 ∷ [], false) ∷ [] }
    ensures numbered_h265 { gives_up_run (Some (0x01 ∷ [])) ((codec_format c.H265 true).read
        (0x62 ∷ 0x01 ∷ 0x93 ∷ 0x00 ∷ 0x07 ∷ 0x02 ∷ [])) ≡ true }
    ensures numbered_h266 { gives_up_run (Some (0x01 ∷ [])) ((codec_format c.H266 true).read
        (0x00 ∷ 0xe9 ∷ 0x87 ∷ 0x00 ∷ 0x07 ∷ 0x02 ∷ [])) ≡ true }
    ensures whole_fragment { gives_up_run (Some (0x01 ∷ [])) (h264.read (0x7c ∷ 0xc5 ∷ 0x02 ∷ []))
        ≡ true }
    ensures no_data { gives_up_run (Some []) (h264.read (0x7c ∷ 0x85 ∷ 0x02 ∷ [])) ≡ true }
    ensures none_open { gives_up_run None (h264.read (0x7c ∷ 0x85 ∷ 0x02 ∷ [])) ≡ false }
    ensures goes_on { gives_up_run (Some (0x01 ∷ [])) (h264.read (0x7c ∷ 0x05 ∷ 0x02 ∷ []))
        ≡ false }
    ensures another_unit { gives_up_run (Some (0x01 ∷ [])) (h264.read (0x41 ∷ [])) ≡ false }
    ensures one_behind_the_other { map {B = Bool} (λ u. u.is_whole)
        (after_all_rtp 4 12 (assembly (fresh_depacketizer_state h264) (Some 7) None [])
        ((7, rtp_body 3000 false (0x7c ∷ 0x85 ∷ 0x01 ∷ []))
        ∷ (8, rtp_body 3000 false (0x7c ∷ 0x45 ∷ 0x02 ∷ []))
        ∷ (9, rtp_body 3000 false (0x7c ∷ 0x85 ∷ 0x03 ∷ []))
        ∷ (10, rtp_body 3000 true (0x7c ∷ 0x45 ∷ 0x04 ∷ [])) ∷ [])
        (Ok Received.InOrder ∷ Ok Received.InOrder ∷ Ok Received.InOrder ∷ Ok Received.InOrder
        ∷ [])).ended ≡ true ∷ [] }
{}

/// Numbers that bear nothing. In order the access unit around one is whole; where another is missing
/// before it neither the open one is, nor one that begins behind it, but the next one.
pub fn numbers_skipped_in_access_units()
    ensures within { map {B = ℕ × Bool} (λ u. (u.timestamp, u.is_whole))
        (after_all_rtp 4 12 (after_unit_skip
        (after_all_rtp 4 12 (fresh_assembly (fresh_depacketizer_state h264))
        ((65534, rtp_body 3000 true (0x65 ∷ [])) ∷ (65535, rtp_body 6000 false (0x61 ∷ [])) ∷ [])
        (Ok Received.InOrder ∷ Ok Received.InOrder ∷ [])) 0)
        ((1, rtp_body 6000 true (0x61 ∷ [])) ∷ []) (Ok Received.InOrder ∷ [])).ended
        ≡ (3000, false) ∷ (6000, true) ∷ [] }
    ensures gap_within { map {B = ℕ × Bool} (λ u. (u.timestamp, u.is_whole))
        (after_all_rtp 4 12 (after_unit_skip
        (after_all_rtp 4 12 (fresh_assembly (fresh_depacketizer_state h264))
        ((65534, rtp_body 3000 true (0x65 ∷ [])) ∷ (65535, rtp_body 6000 false (0x61 ∷ [])) ∷ [])
        (Ok Received.InOrder ∷ Ok Received.InOrder ∷ [])) 1)
        ((2, rtp_body 6000 true (0x61 ∷ [])) ∷ (3, rtp_body 9000 true (0x61 ∷ [])) ∷ [])
        (Ok Received.InOrder ∷ Ok Received.InOrder ∷ [])).ended
        ≡ (3000, false) ∷ (6000, false) ∷ (9000, true) ∷ [] }
    ensures gap_before { map {B = ℕ × Bool} (λ u. (u.timestamp, u.is_whole))
        (after_all_rtp 4 12 (after_unit_skip (after_unit_skip
        (after_all_rtp 4 12 (fresh_assembly (fresh_depacketizer_state h264))
        ((65534, rtp_body 3000 true (0x65 ∷ [])) ∷ []) (Ok Received.InOrder ∷ [])) 0) 1)
        ((2, rtp_body 6000 true (0x61 ∷ [])) ∷ (3, rtp_body 9000 true (0x61 ∷ [])) ∷ [])
        (Ok Received.InOrder ∷ Ok Received.InOrder ∷ [])).ended
        ≡ (3000, false) ∷ (6000, false) ∷ (9000, true) ∷ [] }
    ensures late { after_unit_skip
        (after_all_rtp 4 12 (fresh_assembly (fresh_depacketizer_state h264))
        ((65534, rtp_body 3000 false (0x65 ∷ [])) ∷ []) (Ok Received.InOrder ∷ [])) 65534
        ≡ after_all_rtp 4 12 (fresh_assembly (fresh_depacketizer_state h264))
        ((65534, rtp_body 3000 false (0x65 ∷ [])) ∷ []) (Ok Received.InOrder ∷ []) }
{}

/// A number is passed over that is expected: the next one follows nothing, and the access unit around
/// it isn't whole. One that is late changes nothing.
pub fn numbers_passed_over_in_access_units()
    ensures within { map {B = ℕ × Bool} (λ u. (u.timestamp, u.is_whole))
        (after_all_rtp 4 12 (after_pass_over
        (after_all_rtp 4 12 (fresh_assembly (fresh_depacketizer_state h264))
        ((65534, rtp_body 3000 true (0x65 ∷ [])) ∷ (65535, rtp_body 6000 false (0x61 ∷ [])) ∷ [])
        (Ok Received.InOrder ∷ Ok Received.InOrder ∷ [])) 0)
        ((1, rtp_body 6000 true (0x61 ∷ [])) ∷ (2, rtp_body 9000 true (0x61 ∷ [])) ∷ [])
        (Ok Received.InOrder ∷ Ok Received.InOrder ∷ [])).ended
        ≡ (3000, false) ∷ (6000, false) ∷ (9000, true) ∷ [] }
    ensures late { after_pass_over (record (fresh_assembly (fresh_depacketizer_state h264)) {
      expected = Some 7;
    }) 6 ≡ record (fresh_assembly (fresh_depacketizer_state h264)) {
      expected = Some 7;
    } }
{}

/// The text of an open access unit that is as long as the limit stays. One that is longer is given
/// up, and what follows of that access unit isn't told to be whole; the next one is.
pub fn access_units_at_the_limit()
    ensures at { map {B = List ℕ × Bool} (λ u. (u.bytes, u.is_whole))
        (after_all_rtp 4 6 (fresh_assembly (fresh_depacketizer_state h264))
        ((7, rtp_body 3000 true (0x65 ∷ [])) ∷ (8, rtp_body 6000 false (0x61 ∷ 0x02 ∷ []))
        ∷ (9, rtp_body 6000 true (0x61 ∷ [])) ∷ (10, rtp_body 9000 true (0x61 ∷ [])) ∷ [])
        (Ok Received.InOrder ∷ Ok Received.InOrder ∷ Ok Received.InOrder ∷ Ok Received.InOrder
        ∷ [])).ended
        ≡ (0x00 ∷ 0x00 ∷ 0x00 ∷ 0x01 ∷ 0x65 ∷ [], false)
        ∷ (0x00 ∷ 0x00 ∷ 0x00 ∷ 0x01 ∷ 0x61 ∷ 0x02 ∷ 0x00 ∷ 0x00 ∷ 0x00 ∷ 0x01 ∷ 0x61 ∷ [], true)
        ∷ (0x00 ∷ 0x00 ∷ 0x00 ∷ 0x01 ∷ 0x61 ∷ [], true) ∷ [] }
    ensures past { map {B = List ℕ × Bool} (λ u. (u.bytes, u.is_whole))
        (after_all_rtp 4 5 (fresh_assembly (fresh_depacketizer_state h264))
        ((7, rtp_body 3000 true (0x65 ∷ [])) ∷ (8, rtp_body 6000 false (0x61 ∷ 0x02 ∷ []))
        ∷ (9, rtp_body 6000 true (0x61 ∷ [])) ∷ (10, rtp_body 9000 true (0x61 ∷ [])) ∷ [])
        (Ok Received.InOrder ∷ Ok Received.InOrder ∷ Ok Received.InOrder ∷ Ok Received.InOrder
        ∷ [])).ended
        ≡ (0x00 ∷ 0x00 ∷ 0x00 ∷ 0x01 ∷ 0x65 ∷ [], false)
        ∷ (0x00 ∷ 0x00 ∷ 0x00 ∷ 0x01 ∷ 0x61 ∷ [], false)
        ∷ (0x00 ∷ 0x00 ∷ 0x00 ∷ 0x01 ∷ 0x61 ∷ [], true) ∷ [] }
    ensures stays { is_text_given_up 4 6 (fresh_assembly (fresh_depacketizer_state h264))
        (8, rtp_body 6000 false (0x61 ∷ 0x02 ∷ [])) ≡ false }
    ensures goes { is_text_given_up 4 5 (fresh_assembly (fresh_depacketizer_state h264))
        (8, rtp_body 6000 false (0x61 ∷ 0x02 ∷ [])) ≡ true }
    ensures ends { is_text_given_up 4 5 (fresh_assembly (fresh_depacketizer_state h264))
        (8, rtp_body 6000 true (0x61 ∷ 0x02 ∷ [])) ≡ false }
{}

/// Access units with one timestamp are apart where the last packet of the earlier one came, or none of
/// the later one; a limit holds a text of its own length, and none that is longer.
pub fn access_units_apart_and_within()
    ensures open { AreApart None (fresh_packetizer_state h264)
        (stamped_call 3000 (fresh_call 3 (0x65 ∷ 0x01 ∷ 0x02 ∷ 0x03 ∷ []))
        ∷ stamped_call 3000 (fresh_call 3 (0x61 ∷ 0x05 ∷ [])) ∷ [])
        (true ∷ true ∷ false ∷ true ∷ []) → ⊥ }
    ensures ended { AreApart None (fresh_packetizer_state h264)
        (stamped_call 3000 (fresh_call 3 (0x65 ∷ 0x01 ∷ 0x02 ∷ 0x03 ∷ []))
        ∷ stamped_call 3000 (fresh_call 3 (0x61 ∷ 0x05 ∷ [])) ∷ [])
        (false ∷ false ∷ true ∷ true ∷ []) }
    ensures other { AreApart (Some 3000) (fresh_packetizer_state h264)
        (stamped_call 6000 (fresh_call 3 (0x61 ∷ 0x05 ∷ [])) ∷ []) (true ∷ []) }
    ensures not_come { AreApart (Some 3000) (fresh_packetizer_state h264)
        (stamped_call 3000 (fresh_call 3 (0x61 ∷ 0x05 ∷ [])) ∷ []) (false ∷ []) }
    ensures within { AreUnitsWithin 6 (units_left 4 (fresh_packetizer_state h264) false true None
        (stamped_call 6000 (fresh_call 3 (0x61 ∷ 0x05 ∷ [])) ∷ []) (true ∷ [])) }
    ensures past { IsGivenOut 5 (record (empty_unit 3000) { is_whole = false })
        (record (empty_unit 3000) { bytes = 0x00 ∷ 0x00 ∷ 0x00 ∷ 0x01 ∷ 0x61 ∷ 0x05 ∷ [] }) }
    ensures not_past { IsGivenOut 6 (record (empty_unit 3000) { is_whole = false })
        (record (empty_unit 3000) { bytes = 0x00 ∷ 0x00 ∷ 0x00 ∷ 0x01 ∷ 0x61 ∷ 0x05 ∷ [] }) → ⊥ }
    ensures longer { AreUnitsWithin 5 (units_left 4 (fresh_packetizer_state h264) false true None
        (stamped_call 6000 (fresh_call 3 (0x61 ∷ 0x05 ∷ [])) ∷ []) (true ∷ [])) → ⊥ }
{}

/// What two calls send, as access units; and the first of them as it is left where each of its
/// packets came, which have nine bytes together, as many as the limit on a run.
pub fn access_units_sent()
    ensures not_sent { IsSentIfWhole [] (empty_unit 3000) → ⊥ }
    ensures sent { map {B = ℕ × List ℕ × Bool} (λ u. (u.timestamp, u.bytes, u.is_whole))
        (sent_units (fresh_packetizer_state h264) false
        (stamped_call 3000 (fresh_call 3 (0x65 ∷ 0x01 ∷ 0x02 ∷ 0x03 ∷ []))
        ∷ stamped_call 6000 (fresh_call 3 (0x61 ∷ 0x05 ∷ [])) ∷ []))
        ≡ (3000, 0x00 ∷ 0x00 ∷ 0x00 ∷ 0x01 ∷ 0x65 ∷ 0x01 ∷ 0x02 ∷ 0x03 ∷ [], true)
        ∷ (6000, 0x00 ∷ 0x00 ∷ 0x00 ∷ 0x01 ∷ 0x61 ∷ 0x05 ∷ [], true) ∷ [] }
    ensures packets { packets_len (access_unit_packets (fresh_packetizer_state h264)
        (fresh_call 3 (0x65 ∷ 0x01 ∷ 0x02 ∷ 0x03 ∷ []))) ≡ 9 }
    ensures left { unit_left 9 (fresh_packetizer_state h264) false true
        (stamped_call 3000 (fresh_call 3 (0x65 ∷ 0x01 ∷ 0x02 ∷ 0x03 ∷ [])))
        (true ∷ true ∷ true ∷ [])
        ≡ sent_unit (fresh_packetizer_state h264) false
        (stamped_call 3000 (fresh_call 3 (0x65 ∷ 0x01 ∷ 0x02 ∷ 0x03 ∷ []))) ∷ [] }
{}

/// Two calls, the first of three fragments: their packets, and what is left of them where all came,
/// where the middle fragment is missing, and where nothing came of the first.
pub fn access_units_left()
    ensures sent { sent_bodies (fresh_packetizer_state h264)
        (stamped_call 3000 (fresh_call 3 (0x65 ∷ 0x01 ∷ 0x02 ∷ 0x03 ∷ []))
        ∷ stamped_call 6000 (fresh_call 3 (0x61 ∷ 0x05 ∷ [])) ∷ [])
        ≡ rtp_body 3000 false (0x7c ∷ 0x85 ∷ 0x01 ∷ [])
        ∷ rtp_body 3000 false (0x7c ∷ 0x05 ∷ 0x02 ∷ [])
        ∷ rtp_body 3000 true (0x7c ∷ 0x45 ∷ 0x03 ∷ [])
        ∷ rtp_body 6000 true (0x61 ∷ 0x05 ∷ []) ∷ [] }
    ensures all { map {B = ℕ × List ℕ × Bool} (λ u. (u.timestamp, u.bytes, u.is_whole))
        (units_left 4 (fresh_packetizer_state h264) false true None
        (stamped_call 3000 (fresh_call 3 (0x65 ∷ 0x01 ∷ 0x02 ∷ 0x03 ∷ []))
        ∷ stamped_call 6000 (fresh_call 3 (0x61 ∷ 0x05 ∷ [])) ∷ [])
        (true ∷ true ∷ true ∷ true ∷ []))
        ≡ (3000, 0x00 ∷ 0x00 ∷ 0x00 ∷ 0x01 ∷ 0x65 ∷ 0x01 ∷ 0x02 ∷ 0x03 ∷ [], true)
        ∷ (6000, 0x00 ∷ 0x00 ∷ 0x00 ∷ 0x01 ∷ 0x61 ∷ 0x05 ∷ [], true) ∷ [] }
    ensures middle { map {B = ℕ × List ℕ × Bool} (λ u. (u.timestamp, u.bytes, u.is_whole))
        (units_left 4 (fresh_packetizer_state h264) false true None
        (stamped_call 3000 (fresh_call 3 (0x65 ∷ 0x01 ∷ 0x02 ∷ 0x03 ∷ []))
        ∷ stamped_call 6000 (fresh_call 3 (0x61 ∷ 0x05 ∷ [])) ∷ [])
        (true ∷ false ∷ true ∷ true ∷ []))
        ≡ (3000, [], false)
        ∷ (6000, 0x00 ∷ 0x00 ∷ 0x00 ∷ 0x01 ∷ 0x61 ∷ 0x05 ∷ [], true) ∷ [] }
    ensures goes_on { map {B = ℕ × Bool} (λ u. (u.timestamp, u.is_whole))
        (units_left 4 (fresh_packetizer_state h264) false true None
        (stamped_call 3000 (fresh_call 3 (0x65 ∷ 0x01 ∷ 0x02 ∷ 0x03 ∷ []))
        ∷ stamped_call 3000 (fresh_call 3 (0x61 ∷ 0x05 ∷ []))
        ∷ stamped_call 6000 (fresh_call 3 (0x61 ∷ 0x06 ∷ [])) ∷ [])
        (true ∷ true ∷ true ∷ true ∷ true ∷ []))
        ≡ (3000, true) ∷ (3000, false) ∷ (6000, true) ∷ [] }
    ensures none { map {B = ℕ × List ℕ × Bool} (λ u. (u.timestamp, u.bytes, u.is_whole))
        (units_left 4 (fresh_packetizer_state h264) false true None
        (stamped_call 3000 (fresh_call 3 (0x65 ∷ 0x01 ∷ 0x02 ∷ 0x03 ∷ []))
        ∷ stamped_call 6000 (fresh_call 3 (0x61 ∷ 0x05 ∷ [])) ∷ [])
        (false ∷ false ∷ false ∷ true ∷ []))
        ≡ (6000, 0x00 ∷ 0x00 ∷ 0x00 ∷ 0x01 ∷ 0x61 ∷ 0x05 ∷ [], false) ∷ [] }
    ensures too_long { map {B = ℕ × List ℕ × Bool} (λ u. (u.timestamp, u.bytes, u.is_whole))
        (units_left 1 (fresh_packetizer_state h264) false true None
        (stamped_call 3000 (fresh_call 3 (0x65 ∷ 0x01 ∷ 0x02 ∷ 0x03 ∷ [])) ∷ [])
        (true ∷ true ∷ true ∷ []))
        ≡ (3000, [], false) ∷ [] }
{}

/// A stream of two calls, numbered on from 65535, of which the middle fragment is missing; what is
/// left of it bears timestamps apart.
pub fn a_stream()
    ensures is { IsStream (fresh_packetizer_state h264)
        (stamped_call 3000 (fresh_call 3 (0x65 ∷ 0x01 ∷ 0x02 ∷ 0x03 ∷ []))
        ∷ stamped_call 6000 (fresh_call 3 (0x61 ∷ 0x05 ∷ [])) ∷ [])
        65535 true (0 ∷ 2 ∷ 3 ∷ [])
        ((65535, rtp_body 3000 false (0x7c ∷ 0x85 ∷ 0x01 ∷ []))
        ∷ (1, rtp_body 3000 true (0x7c ∷ 0x45 ∷ 0x03 ∷ []))
        ∷ (2, rtp_body 6000 true (0x61 ∷ 0x05 ∷ [])) ∷ []) }
    ensures apart { AreApart None (fresh_packetizer_state h264)
        (stamped_call 3000 (fresh_call 3 (0x65 ∷ 0x01 ∷ 0x02 ∷ 0x03 ∷ []))
        ∷ stamped_call 6000 (fresh_call 3 (0x61 ∷ 0x05 ∷ [])) ∷ [])
        (true ∷ false ∷ true ∷ true ∷ []) }
    ensures answers { HaveAssemblyAnswers 4 12 (fresh_assembly (fresh_depacketizer_state h264))
        ((65535, rtp_body 3000 false (0x7c ∷ 0x85 ∷ 0x01 ∷ []))
        ∷ (1, rtp_body 3000 true (0x7c ∷ 0x45 ∷ 0x03 ∷ []))
        ∷ (2, rtp_body 6000 true (0x61 ∷ 0x05 ∷ [])) ∷ [])
        (Ok Received.InOrder ∷ Ok (Received.Gap 1) ∷ Ok Received.InOrder ∷ []) }
{}

/// What is given out of that stream, whatever is said of it, where none is past the limit.
pub fn a_stream_left()
    ensures { (units : List AccessUnitValue) → AreAccessUnitsLeft 4 12
        (assembly (fresh_depacketizer_state h264) (Some 65535) None [])
        ((65535, rtp_body 3000 false (0x7c ∷ 0x85 ∷ 0x01 ∷ []))
        ∷ (1, rtp_body 3000 true (0x7c ∷ 0x45 ∷ 0x03 ∷ []))
        ∷ (2, rtp_body 6000 true (0x61 ∷ 0x05 ∷ [])) ∷ []) units →
        map {B = ℕ × Bool} (λ u. (u.timestamp, u.is_whole)) units
        ≡ (3000, false) ∷ (6000, true) ∷ [] }
{}

/// At the end no run is open, and any number may be the next.
pub fn an_end()
    ensures run { (after_finishing (after_all_rtp 4 12 (fresh_assembly (fresh_depacketizer_state
        h264)) ((7, rtp_body 3000 false (0x7c ∷ 0x85 ∷ 0x01 ∷ [])) ∷ [])
        (Ok Received.InOrder ∷ []))).state.run ≡ None }
    ensures expected { (after_finishing (after_all_rtp 4 12 (fresh_assembly
        (fresh_depacketizer_state h264)) ((7, rtp_body 3000 false (0x7c ∷ 0x85 ∷ 0x01 ∷ [])) ∷ [])
        (Ok Received.InOrder ∷ []))).expected ≡ None }
    ensures extra { map {B = CodecExtra} (λ u. u.extra)
        (after_all_rtp 4 5 (fresh_assembly (fresh_depacketizer_state h264))
        ((7, rtp_body 3000 false (0x65 ∷ 0x01 ∷ [])) ∷ (8, rtp_body 3000 true (0x41 ∷ [])) ∷ [])
        (Ok Received.InOrder ∷ Ok Received.InOrder ∷ [])).ended
        ≡ extra_after h264 extras.None ((0x41 ∷ []) ∷ []) ∷ [] }
{}

/// What is left of packets of any sender, which sends another unit between the fragments of one: where
/// all came both units, and it is whole; where the middle fragment is missing the other unit alone. Of
/// two starts in a row the second unit, and it isn't whole.
pub fn access_units_of_any_sender()
    ensures all { map {B = List ℕ × Bool} (λ u. (u.bytes, u.is_whole))
        (any_units_left 4 h264 false true None ((record {
          timestamp = 3000;
          packets = (0x7c ∷ 0x85 ∷ 0x01 ∷ []) ∷ (0x41 ∷ []) ∷ (0x7c ∷ 0x45 ∷ 0x03 ∷ []) ∷ [];
        }) ∷ [])
        (true ∷ true ∷ true ∷ []))
        ≡ (
          0x00 ∷ 0x00 ∷ 0x00 ∷ 0x01 ∷ 0x41 ∷ 0x00 ∷ 0x00 ∷ 0x00 ∷ 0x01 ∷ 0x65 ∷ 0x01 ∷ 0x03 ∷ [],
          true,
        ) ∷ [] }
    ensures missing { map {B = List ℕ × Bool} (λ u. (u.bytes, u.is_whole))
        (any_units_left 4 h264 false true None ((record {
          timestamp = 3000;
          packets = (0x7c ∷ 0x85 ∷ 0x01 ∷ []) ∷ (0x7c ∷ 0x05 ∷ 0x02 ∷ []) ∷ (0x41 ∷ [])
              ∷ (0x7c ∷ 0x45 ∷ 0x03 ∷ []) ∷ [];
        }) ∷ [])
        (true ∷ false ∷ true ∷ true ∷ []))
        ≡ (0x00 ∷ 0x00 ∷ 0x00 ∷ 0x01 ∷ 0x41 ∷ [], false) ∷ [] }
    ensures no_end { map {B = Bool} (λ u. u.is_whole)
        (any_units_left 4 h264 false true None ((record {
          timestamp = 3000;
          packets = (0x41 ∷ []) ∷ (0x7c ∷ 0x85 ∷ 0x01 ∷ []) ∷ [];
        }) ∷ []) (true ∷ true ∷ []))
        ≡ false ∷ [] }
    ensures given_up { map {B = List ℕ × Bool} (λ u. (u.bytes, u.is_whole))
        (any_units_left 4 h264 false true None ((record {
          timestamp = 3000;
          packets = (0x7c ∷ 0x85 ∷ 0x01 ∷ []) ∷ (0x7c ∷ 0x85 ∷ 0x02 ∷ [])
              ∷ (0x7c ∷ 0x45 ∷ 0x03 ∷ []) ∷ [];
        }) ∷ []) (true ∷ true ∷ true ∷ []))
        ≡ (0x00 ∷ 0x00 ∷ 0x00 ∷ 0x01 ∷ 0x65 ∷ 0x02 ∷ 0x03 ∷ [], false) ∷ [] }
{}

/// What a network brings of the packets of two calls: the last fragment before the middle one, and
/// the first one twice.
pub fn a_brought_stream()
    ensures { IsBroughtStream 3 (fresh_packetizer_state h264)
        (stamped_call 3000 (fresh_call 3 (0x65 ∷ 0x01 ∷ 0x02 ∷ 0x03 ∷ []))
        ∷ stamped_call 6000 (fresh_call 3 (0x61 ∷ 0x05 ∷ [])) ∷ [])
        65535 false (0 ∷ 2 ∷ 0 ∷ 1 ∷ 3 ∷ [])
        ((65535, rtp_body 3000 false (0x7c ∷ 0x85 ∷ 0x01 ∷ []))
        ∷ (1, rtp_body 3000 true (0x7c ∷ 0x45 ∷ 0x03 ∷ []))
        ∷ (65535, rtp_body 3000 false (0x7c ∷ 0x85 ∷ 0x01 ∷ []))
        ∷ (0, rtp_body 3000 false (0x7c ∷ 0x05 ∷ 0x02 ∷ []))
        ∷ (2, rtp_body 6000 true (0x61 ∷ 0x05 ∷ [])) ∷ []) }
{}
