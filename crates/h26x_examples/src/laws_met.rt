//! What the laws say of each codec, of lists that nothing is known of: each is called once here, by
//! a function that has none of its premises left but those of its subject.

ghost use Rattle.std.specs.Prelude.{◌≡◌, ◌≤◌, ◌<◌, ◌+◌, ◌^◌, ◌++◌, IsPermutation, ℕ, Bool, true, false, List, [], ◌∷◌, Option, None, Some, Result, IsTrue, length, map};
ghost use Rattle.std.specs.List.{AllByRecursion, Contains, list_any, list_all, flat_map, range_with_len};
ghost use Rattle.h26x_core.specs.Mark.{IsMark};
ghost use Rattle.h26x_core.specs.ByteStream.{is_not_empty, annex_b};
ghost use Rattle.h26x_core.specs.declared.error.PacketError.{PacketError};
ghost use Rattle.h26x_core.specs.declared.extra.CodecExtra.TheVariants as extras;
ghost use Rattle.h26x_cut.specs.Cutting.{IsUnit, AreSeparable};
ghost use Rattle.h26x_cut.specs.declared.ZeroRule.TheVariants.{All};
ghost use Rattle.h26x_model.specs.Payload.Facts.{AreCarried, CanSend};
ghost use Rattle.h26x_model.specs.Payload.Don.{dons_of, don_sent};
ghost use Rattle.h26x_model.specs.Payload.Reading.{Reading};
ghost use Rattle.h26x_model.specs.Send.Again.{NothingDropped};
ghost use Rattle.h26x_model.specs.Send.Calls.{Call, AreCalls, all_entries, all_packets};
ghost use Rattle.h26x_model.specs.Send.Fragments.{IsLong};
ghost use Rattle.h26x_model.specs.Send.Group.{Entry};
ghost use Rattle.h26x_model.specs.Send.Limit.{ItemIsWithinLimit};
ghost use Rattle.h26x_model.specs.Send.Packets.{fragment, fragment_count, plan_packets};
ghost use Rattle.h26x_model.specs.Send.PacketizerState.{PacketizerState, IsPacketizerState, state_plan, state_units, state_packets, after_entries, has_no_effect};
ghost use Rattle.h26x_model.specs.Send.Plan.{Item, plan, item_units, units_sent};
ghost use Rattle.h26x_model.specs.Send.WaitingSets.{entries_with_limit, sets_waiting};
ghost use Rattle.h26x_model.specs.Receive.DepacketizerState.{Depacketization, AreWritten};
ghost use Rattle.h26x_model.specs.Receive.Received.{units_after};
ghost use Rattle.h26x_model.specs.Receive.RunLimit.{run_len};
ghost use Rattle.h26x_model.specs.Carry.Detection.{AreDetected};
ghost use Rattle.h26x_model.specs.Carry.Gaps.{whole_units};
ghost use Rattle.h26x_model.specs.Carry.Laws.{calls_like};
ghost use Rattle.h26x_model.specs.Carry.Loss.{AreMasks, AreAllUnitsLeft, packets_left};
ghost use Rattle.h264_payload.specs.H264.{h264};
ghost use Rattle.h26x_codec.specs.Codec.{codec_format, fresh_depacketizer_state};
ghost use Rattle.h26x_codec.specs.declared.codec.Codec.{Codec};
ghost use Rattle.h26x_receiver.specs.Delivery.{IsDelivery, NoneIsRefused, mask_of_places, taken_mask};
ghost use Rattle.h26x_core.specs.Sequence.{is_expected, next_sequence_number};
ghost use Rattle.h26x_receiver.specs.Sequenced.{SequencedDepacketization, after_skip, is_taken, sequenced_depacketization, with_expected, after_answers, HaveSequencedAnswers};
ghost use Rattle.h26x_receiver.specs.declared.received.Received.{Received};
ghost use Rattle.h26x_assembler.specs.AccessUnit.{Assembly, IsNoneOpen, follows, after_all_rtp, after_unit_skip, after_finishing, HaveAssemblyAnswers};
ghost use Rattle.h26x_assembler.specs.AnyUnits.{SentPackets, AreSentApart, IsAnyStream, any_mask, any_units_left};
ghost use Rattle.h26x_reorder.specs.BufferSteps.{BufferStep, AreInTurn, AreNumbered, after_steps, steps_held, steps_out};
ghost use Rattle.h26x_assembler.specs.Network.{IsNetwork, released_packets};
ghost use Rattle.h26x_reorder.specs.ReorderBuffer.{BufferState, fresh_buffer, next_packet, packet_at, ready_packets, reordered, without_first};
ghost use Rattle.h26x_reorder.specs.Reordering.{IsReordered, in_order};
ghost use Rattle.h26x_reorder.specs.Rtp.{RtpBody};
ghost use Rattle.h26x_assembler.specs.StampedCalls.{StampedCall, AreStreamed, AreApart, AreUnitsWithin, AreUnitsGiven, brought_mask, IsBroughtStream, IsStream, IsSentIfWhole, access_unit_packets, packets_len, sent_bodies, sent_unit, sent_units, unit_left, units_left};

use h26x_codec::formats::formats_meet_the_facts;

/// No packet of a plan is longer than the limit of the call that sends it.
pub fn packets_within_limits()
    ensures { (codec : Codec) (has_donl : Bool) (entries : List Entry) →
        AllByRecursion (ItemIsWithinLimit (codec_format codec has_donl))
        (plan (codec_format codec has_donl) entries) }
{
    formats_meet_the_facts();
    h26x_model::laws::packets_are_within_limits();
}

/// Each fragment of a unit that is longer than its limit is within that, and each but the last is
/// as long.
pub fn fragments_of_long_units()
    ensures within { (codec : Codec) (has_donl : Bool) (n limit j : ℕ) (unit : List ℕ) →
        IsLong (codec_format codec has_donl) limit unit →
        length (fragment (codec_format codec has_donl) n limit unit j) ≤ limit }
    ensures full { (codec : Codec) (has_donl : Bool) (n limit j : ℕ) (unit : List ℕ) →
        IsLong (codec_format codec has_donl) limit unit →
        j + 1 < fragment_count (codec_format codec has_donl) limit unit →
        length (fragment (codec_format codec has_donl) n limit unit j) ≡ limit }
{
    formats_meet_the_facts();
    h26x_model::laws::long_units_go_in_fragments();
}

/// Decoding order numbers go on by one from unit to unit.
pub fn numbers_in_order()
    ensures { (codec : Codec) (has_donl : Bool) (n : ℕ) (items : List Item) →
        AllByRecursion (CanSend (codec_format codec has_donl)) items →
        flat_map (λ packet. dons_of ((codec_format codec has_donl).read packet))
        (plan_packets (codec_format codec has_donl) n items)
        ≡ map (λ i. don_sent (codec_format codec has_donl) (n + i))
        (range_with_len 0 (length (flat_map item_units items))) }
{
    formats_meet_the_facts();
    h26x_model::laws::dons_in_order();
}

/// What a packetizer sends came, or waited; a call without effect may be left out; and payloads at
/// one mtu have the packets of the text of what was sent of them.
pub fn nothing_else_is_sent()
    ensures came { (s : PacketizerState) (entries : List Entry) →
        AllByRecursion (Contains (sets_waiting s.waiting ++ map (λ e. e.unit) entries))
        (state_units s entries) }
    ensures left_out { (codec : Codec) (has_donl : Bool) (s : PacketizerState)
        (before later : List Call) (call : Call) → s.format ≡ codec_format codec has_donl →
        IsPacketizerState s → has_no_effect s.format call ≡ true →
        after_entries s (all_entries s.format (before ++ call ∷ later))
        ≡ after_entries s (all_entries s.format (before ++ later)) }
    ensures again { (codec : Codec) (has_donl : Bool) (call : Call) (payloads : List (List ℕ)) →
        (codec_format codec has_donl).least_mtu ≤ call.mtu →
        NothingDropped (codec_format codec has_donl)
        (all_entries (codec_format codec has_donl) (calls_like call payloads)) →
        (codec_format codec has_donl).units (annex_b (units_sent (codec_format codec has_donl)
        (all_entries (codec_format codec has_donl) (calls_like call payloads))))
        ≡ units_sent (codec_format codec has_donl)
        (all_entries (codec_format codec has_donl) (calls_like call payloads)) →
        all_packets (codec_format codec has_donl) 0 (record call {
          payload = annex_b (units_sent (codec_format codec has_donl)
              (all_entries (codec_format codec has_donl) (calls_like call payloads)));
        } ∷ []) ≡ all_packets (codec_format codec has_donl) 0 (calls_like call payloads) }
{
    formats_meet_the_facts();
    h26x_model::laws::what_is_sent_came();
    h26x_model::laws::calls_without_effect();
    h26x_model::laws::what_was_written_is_sent_again();
}

/// From all packets what is sent is received, whatever came before.
pub fn units_sent_are_received()
    ensures { (codec : Codec) (has_donl : Bool) (n : ℕ) (items : List Item)
        (earlier : List Reading) → AllByRecursion (CanSend (codec_format codec has_donl)) items →
        units_after earlier (map (codec_format codec has_donl).read
        (plan_packets (codec_format codec has_donl) n items)) ≡ flat_map item_units items }
{
    formats_meet_the_facts();
    h26x_model::laws::what_is_sent_is_received();
}

/// Of packets of which some are lost, what is left of each item is received, whatever came before.
pub fn lost_packets_hurt_their_items()
    ensures { (codec : Codec) (has_donl : Bool) (n : ℕ) (items : List Item)
        (masks : List (List Bool)) (earlier : List Reading) →
        AllByRecursion (CanSend (codec_format codec has_donl)) items →
        AreMasks (codec_format codec has_donl) n items masks →
        (written : List (List (List ℕ)))
        × AreAllUnitsLeft (codec_format codec has_donl) n items masks written
        × (units_after earlier (map (codec_format codec has_donl).read
        (packets_left (codec_format codec has_donl) n items masks))
        ≡ flat_map (λ units. units) written) }
{
    formats_meet_the_facts();
    h26x_model::laws::loss_stays_within();
}

/// The units of a payload of H.264 are not empty and hold no start code, and the text of units of
/// which none but the last ends in a zero is cut into these.
pub fn payloads_of_h264()
    ensures not_empty { (payload : List ℕ) →
        AllByRecursion (λ unit. IsTrue (is_not_empty unit)) (h264.units payload) }
    ensures no_code { (payload : List ℕ) →
        AllByRecursion (λ unit. (place : ℕ) → ¬ IsMark unit place) (h264.units payload) }
    ensures cut { (units : List (List ℕ)) → AllByRecursion IsUnit units → AreSeparable All units →
        h264.units (annex_b units) ≡ units }
{
    h264_payload::laws::cuts_by_its_rule();
    h26x_payload::laws::units_are_whole();
    h26x_payload::laws::text_is_cut_into_its_units();
}

/// What a packetizer of a codec sends is told as key units packet by packet, and what was sent at
/// one limit, with nothing dropped, is sent again.
pub fn what_calls_send()
    ensures detected { (codec : Codec) (has_donl : Bool) (s : PacketizerState)
        (calls : List Call) → s.format ≡ codec_format codec has_donl → IsPacketizerState s →
        AreCalls calls → AreCarried s.format (state_units s (all_entries s.format calls)) →
        AreDetected s.format s.next_don (state_plan s (all_entries s.format calls)) }
    ensures again { (codec : Codec) (has_donl : Bool) (limit : ℕ) (units : List (List ℕ)) →
        NothingDropped (codec_format codec has_donl) (entries_with_limit limit units) →
        units_sent (codec_format codec has_donl) (entries_with_limit limit
        (units_sent (codec_format codec has_donl) (entries_with_limit limit units)))
        ≡ units_sent (codec_format codec has_donl) (entries_with_limit limit units) }
{
    h26x_transmission::laws::key_units_are_detected();
    h26x_transmission::laws::what_was_sent_is_sent_again();
}

/// Of packets that a network brings of a codec's calls, a caller's own loop over `receive` writes
/// the items of which each packet was taken, and nothing damaged.
pub fn nothing_damaged()
    ensures { (codec : Codec) (has_donl : Bool) (most : ℕ) (w : Depacketization)
        (s : PacketizerState) (calls : List Call) (first : ℕ) (places : List ℕ)
        (packets : List (ℕ × List ℕ)) (answers : List (Result Received PacketError)) →
        w.state.format ≡ codec_format codec has_donl → s.format ≡ codec_format codec has_donl →
        HaveSequencedAnswers most (with_expected w None) packets answers →
        IsDelivery s calls first places packets answers →
        AreWritten w (whole_units most s calls (taken_mask s calls places answers))
        (after_answers most (with_expected w None) packets answers).at_work.out
        (after_answers most (with_expected w None) packets answers).at_work.extra }
{
    formats_meet_the_facts();
    h26x_receiver::laws::nothing_damaged_is_written();
}

/// Whatever packets come, the run of a receiver that was fresh is within its limit.
pub fn runs_within_limits()
    ensures { (codec : Codec) (has_donl : Bool) (most : ℕ) (packets : List (ℕ × List ℕ))
        (answers : List (Result Received PacketError)) →
        run_len (after_answers most (sequenced_depacketization
        (fresh_depacketizer_state (codec_format codec has_donl)) None [] extras.None)
        packets answers).at_work.state.run ≤ most }
{
    h26x_receiver::laws::runs_stay_within_the_limit();
}

/// Packets numbered on that come reordered within a window of 64 are put in order, and what may go
/// of a buffer goes one by one.
pub fn packets_in_order()
    ensures step { (b : BufferState RtpBody) (p : ℕ × RtpBody) → next_packet b ≡ Some p →
        ready_packets b.window b.due b.held ≡ p ∷ ready_packets (without_first b).window
        (without_first b).due (without_first b).held }
    ensures end { (b : BufferState RtpBody) → next_packet b ≡ None →
        ready_packets b.window b.due b.held ≡ [] }
    ensures all { (sent : ℕ → RtpBody) (first : ℕ) (places : List ℕ) → IsReordered 64 places →
        reordered 64 (map (packet_at sent first) places)
        ≡ map (packet_at sent first) (in_order places) }
{
    h26x_reorder::laws::packets_go_one_by_one();
    h26x_reorder::laws::numbered_packets_are_put_in_order();
}

/// Through a network and a buffer, units of a codec come of whose items each packet came.
pub fn units_through_a_network()
    ensures { (codec : Codec) (has_donl : Bool) (most : ℕ) (w : Depacketization)
        (s : PacketizerState) (calls : List Call) (first : ℕ) (places : List ℕ)
        (answers : List (Result Received PacketError)) →
        w.state.format ≡ codec_format codec has_donl → s.format ≡ codec_format codec has_donl →
        IsNetwork 64 s calls places →
        HaveSequencedAnswers most (with_expected w None)
        (released_packets 64 s calls first places) answers → NoneIsRefused answers →
        AreWritten w (whole_units most s calls (mask_of_places places
        (length (state_packets s (all_entries s.format calls)))))
        (after_answers most (with_expected w None) (released_packets 64 s calls first places)
        answers).at_work.out
        (after_answers most (with_expected w None) (released_packets 64 s calls first places)
        answers).at_work.extra }
{
    formats_meet_the_facts();
    h26x_assembler::laws::units_come_through_a_network();
}

/// Access units come that are a stream's, where the number of the first packet isn't known; where none
/// is past the limit they are exactly those.
pub fn access_units_of_a_stream()
    ensures { (codec : Codec) (has_donl : Bool) (most limit : ℕ) (w : Assembly)
        (s : PacketizerState) (calls : List StampedCall) (first : ℕ) (places : List ℕ)
        (packets : List (ℕ × RtpBody)) (answers : List (Result Received PacketError)) →
        w.state.format ≡ codec_format codec has_donl → s.format ≡ codec_format codec has_donl →
        IsNoneOpen w.unit w.is_gap → w.expected ≡ None →
        HaveAssemblyAnswers most limit w packets answers → NoneIsRefused answers →
        IsStream s calls first false places packets →
        AreApart None s calls (mask_of_places places (length (sent_bodies s calls))) →
        AreUnitsWithin limit (units_left most s w.state.is_avc false w.closed calls
        (mask_of_places places (length (sent_bodies s calls)))) →
        (after_finishing (after_all_rtp most limit w packets answers)).ended
        ≡ w.ended ++ units_left most s w.state.is_avc false w.closed calls
        (mask_of_places places (length (sent_bodies s calls))) }
{
    formats_meet_the_facts();
    h26x_assembler::laws::access_units_are_those_left();
    h26x_assembler::laws::access_units_within_the_limit_stay();
}

/// So they do through a network and a buffer, where all packets that this gives out are taken; one past
/// the limit is its own loss.
pub fn access_units_through_a_network()
    ensures { (codec : Codec) (has_donl : Bool) (most limit : ℕ) (w : Assembly)
        (s : PacketizerState) (calls : List StampedCall) (first : ℕ) (places : List ℕ)
        (packets : List (ℕ × RtpBody)) (answers : List (Result Received PacketError)) →
        w.state.format ≡ codec_format codec has_donl → s.format ≡ codec_format codec has_donl →
        IsNoneOpen w.unit w.is_gap → w.expected ≡ None →
        HaveAssemblyAnswers most limit w (reordered 64 packets) answers →
        AllByRecursion (λ answer. is_taken answer ≡ true) answers →
        IsBroughtStream 64 s calls first false places packets →
        AreApart None s calls (brought_mask s calls places answers) →
        AreUnitsGiven limit w.ended
        (after_finishing (after_all_rtp most limit w (reordered 64 packets) answers)).ended
        (units_left most s w.state.is_avc false w.closed calls
        (brought_mask s calls places answers)) }
{
    formats_meet_the_facts();
    h26x_assembler::laws::access_units_come_through_a_network();
    h26x_assembler::laws::places_that_come_are_near();
}

/// So do those of any sender, whatever its packets are.
pub fn access_units_of_any_sender()
    ensures { (codec : Codec) (has_donl : Bool) (most limit : ℕ) (w : Assembly)
        (sent : List SentPackets) (first : ℕ) (places : List ℕ) (packets : List (ℕ × RtpBody))
        (answers : List (Result Received PacketError)) →
        w.state.format ≡ codec_format codec has_donl →
        IsNoneOpen w.unit w.is_gap → w.expected ≡ None →
        HaveAssemblyAnswers most limit w (reordered 64 packets) answers →
        AllByRecursion (λ answer. is_taken answer ≡ true) answers →
        IsAnyStream 64 sent first places packets →
        AreSentApart None sent (any_mask sent places answers) →
        AreUnitsGiven limit w.ended
        (after_finishing (after_all_rtp most limit w (reordered 64 packets) answers)).ended
        (any_units_left most w.state.format w.state.is_avc false w.closed sent
        (any_mask sent places answers)) }
{
    formats_meet_the_facts();
    h26x_assembler::laws::any_access_units_come_through_a_network();
    h26x_assembler::laws::places_that_come_are_near();
}

/// What a buffer gave out and holds are the packets that it held, in turn.
pub fn packets_that_were_held()
    ensures exact { (steps : List BufferStep) → AreNumbered steps →
        IsPermutation (steps_held (fresh_buffer 64) steps)
        (steps_out (fresh_buffer 64) steps ++ (after_steps (fresh_buffer 64) steps).held) }
    ensures order { (steps : List BufferStep) → AreNumbered steps →
        AreInTurn (steps_out (fresh_buffer 64) steps
        ++ (after_steps (fresh_buffer 64) steps).held) }
{
    h26x_reorder::laws::those_held_are_given_out();
}

/// A packet behind a number that was skipped in order does what it would behind that number's packet
/// that wrote nothing; neither the open unit nor the open access unit is touched.
pub fn skipped_numbers()
    ensures run { (s : SequencedDepacketization) (number : ℕ) → number < 2 ^ 16 →
        is_expected s.expected number ≡ true → (after_skip s number).at_work ≡ s.at_work }
    ensures next { (s : SequencedDepacketization) (number : ℕ) → number < 2 ^ 16 →
        is_expected s.expected number ≡ true →
        is_expected (after_skip s number).expected (next_sequence_number number) ≡ true }
    ensures unit { (s : Assembly) (number : ℕ) → number < 2 ^ 16 →
        is_expected s.expected number ≡ true → (after_unit_skip s number).unit ≡ s.unit }
    ensures follows { (s : Assembly) (number : ℕ) (body : RtpBody) → number < 2 ^ 16 →
        is_expected s.expected number ≡ true → s.is_gap ≡ false → s.closed ≡ None →
        follows (after_unit_skip s number) (next_sequence_number number, body) ≡ true }
{
    h26x_receiver::laws::skipping_in_order_changes_only_the_number();
    h26x_assembler::laws::skipping_in_order_changes_only_the_number();
}

/// An access unit that is told to be whole was sent, and one of which each packet came, and the
/// packet before them, is told to be whole.
pub fn whole_access_units()
    ensures sent { (codec : Codec) (has_donl : Bool) (most : ℕ) (s : PacketizerState)
        (avc before : Bool) (closed : Option ℕ) (calls : List StampedCall) (mask : List Bool) →
        s.format ≡ codec_format codec has_donl → AreStreamed s calls →
        length mask ≡ length (sent_bodies s calls) →
        AllByRecursion (IsSentIfWhole (sent_units s avc calls))
        (units_left most s avc before closed calls mask) }
    ensures whole { (codec : Codec) (has_donl : Bool) (most : ℕ) (s : PacketizerState) (avc : Bool)
        (c : StampedCall) (mask : List Bool) → s.format ≡ codec_format codec has_donl →
        AreStreamed s (c ∷ []) → length mask ≡ length (access_unit_packets s c.call) →
        list_any (λ came. came) mask ≡ true → list_all (λ came. came) mask ≡ true →
        packets_len (access_unit_packets s c.call) ≤ most →
        unit_left most s avc true c mask ≡ sent_unit s avc c ∷ [] }
{
    formats_meet_the_facts();
    h26x_assembler::laws::whole_access_units_are_those_sent();
    h26x_assembler::laws::access_units_that_came_are_whole();
}
