//! Worked cases of the definitions, each the contract of a function without a result.

ghost use Rattle.std.specs.Prelude.{◌≡◌, ℕ, Bool, List, true, false, ◌-◌, ◌^◌, None, Some, Ok, Err, [], ◌∷◌};
ghost use Rattle.h26x_access_units.specs.Arrival.{arrival_of, without_number, not_passed, is_first_passed, deadline_of, has_waited};
ghost use Rattle.h26x_access_units.specs.Missing.{missing_numbers};
ghost use Rattle.h26x_access_units.specs.Numbers.{missing_sum, missing_up_to, fresh_numbers, numbers_after};
ghost use Rattle.h26x_access_units.specs.Counts.{no_counts, count_up, counted_push, counted_reason, counted_due, counted_no_unit, counted_framing};
ghost use Rattle.h26x_access_units.specs.Pushed.{is_kept, not_pushed_reason};
ghost use Rattle.h26x_model.specs.Receive.DepacketizerState.{DepacketizerState};
ghost use Rattle.h26x_core.specs.Sequence.{is_late};
ghost use Rattle.h26x_reorder.specs.Rtp.{rtp_body};
ghost use Rattle.h26x_reorder.specs.ReorderBuffer.{buffer_state, IsHeldInOrder};
ghost use Rattle.h26x_assembler.specs.AccessUnit.{empty_unit};
ghost use Rattle.h26x_access_units.specs.JitterBuffer.{fresh_jitter, is_far, is_ahead, is_near, with_stray};
ghost use Rattle.h26x_access_units.specs.Passed.{is_passed, passed_behind, is_told_taken};
ghost use Rattle.h26x_access_units.specs.declared.config.AccessUnitConfig.{AccessUnitConfig};
ghost use Rattle.h26x_access_units.specs.Reception.{fresh_reception, reception_answer, is_taken_at_once};
ghost use Rattle.h26x_access_units.specs.Limits.{IsWithinLimits};
ghost use Rattle.h26x_core.specs.declared.extra.CodecExtra.TheVariants as extras;
ghost use Rattle.h26x_access_units.specs.declared.content.UnitKind.TheVariants as kinds;
ghost use Rattle.h26x_access_units.specs.declared.frame_number.Numbering.TheVariants as numberings;
ghost use Rattle.h26x_access_units.specs.Content.{no_sets, all_sets, no_content, slice, h264_kind, h265_kind, h266_kind, content_from, content_of};
ghost use Rattle.h26x_access_units.specs.Decoder.{fresh_decoder, are_enough, is_front, is_disposable, tells_whole, shows, decoder_after};
ghost use Rattle.h26x_access_units.specs.Numbers.{numbers_of_none, begun_numbers, numbers_closed, numbers_still, numbers_carrying};
ghost use Rattle.h26x_access_units.specs.JitterBuffer.{due_packet, awaited, longest_wait, with_packet};
ghost use Rattle.h26x_access_units.specs.Framing.{begins_behind_slice, goes_on_with, fresh_framing, trusts_markers, ends_by_content, framing_with, believes, framing_marked, is_end_unit, bears_no_unit};
ghost use Rattle.h26x_access_units.specs.declared.framing.Shown.{Shown};
ghost use Rattle.h26x_access_units.specs.Reception.{begun_reception, expected_for, ends_before, ended_behind_missing, without_bare, after_reception, after_finish, restarted};

use crate::pushed::{NotPushedReason, Pushed};
use h26x_core::PacketError;
use h26x_receiver::Received;

/// A packet that came 16 ticks before they go round, and may wait for 100: the 84th is the last.
pub fn ticks_that_go_round()
    ensures deadline { deadline_of 100 (arrival_of 5 0xfffffff0 ∷ []) ≡ Some 84 }
    ensures not_yet { has_waited 100 83 (arrival_of 5 0xfffffff0 ∷ []) ≡ false }
    ensures just { has_waited 100 84 (arrival_of 5 0xfffffff0 ∷ arrival_of 6 80 ∷ []) ≡ true }
    ensures at_once { has_waited 0 7 (arrival_of 5 7 ∷ []) ≡ true }
    ensures never { has_waited 0xffffffff 6 (arrival_of 5 7 ∷ []) ≡ false }
    ensures none { deadline_of 100 [] ≡ None }
    ensures no_time { deadline_of 0xffffffff (arrival_of 5 7 ∷ []) ≡ None }
{}

/// The arrival of a packet that goes is dropped, wherever it stands.
pub fn arrivals_that_stay()
    ensures second { without_number 6 (arrival_of 5 1 ∷ arrival_of 6 2 ∷ arrival_of 4 3 ∷ [])
        ≡ arrival_of 5 1 ∷ arrival_of 4 3 ∷ [] }
    ensures none { without_number 7 (arrival_of 5 1 ∷ []) ≡ arrival_of 5 1 ∷ [] }
{}

/// Where 65534 is due, and 65535, 1 and 2 wait.
pub fn numbers_that_are_missing()
    ensures round { missing_numbers {A = List ℕ} (Some 65534)
        ((65535, []) ∷ (1, []) ∷ (2, []) ∷ []) ≡ 65534 ∷ 0 ∷ [] }
    ensures due { missing_numbers {A = List ℕ} (Some 7) ((7, []) ∷ []) ≡ [] }
    ensures none { missing_numbers {A = List ℕ} None [] ≡ [] }
{}

/// What waits is in order up to the last number that isn't late: where 65534 is due, 32765.
pub fn what_waits_at_the_edges()
    ensures order { IsHeldInOrder (Some 65534) ((65534, rtp_body 0 false [])
        ∷ (32765, rtp_body 0 false []) ∷ []) }
    ensures late { is_late (Some 65534) 32765 ≡ false }
    ensures over { is_late (Some 65534) 32766 ≡ true }
{}

/// Of 7 and 9, taken in their turn behind 5, both are told when they come again, and 8, which was lost,
/// isn't; nor is one that was taken 1024 before, or that shares a place with one.
pub fn numbers_that_come_again()
    ensures last { is_told_taken 5 (9 ∷ 7 ∷ []) 9 ≡ true }
    ensures first { is_told_taken 5 (9 ∷ 7 ∷ []) 7 ≡ true }
    ensures lost { is_told_taken 5 (9 ∷ 7 ∷ []) 8 ≡ false }
    ensures passed { is_passed (passed_behind 5 (9 ∷ 7 ∷ [])) (Some 10) 8 ≡ true }
    ensures before { is_passed (passed_behind 5 (9 ∷ 7 ∷ [])) (Some 10) 4 ≡ false }
    ensures due { is_told_taken 5 (9 ∷ 7 ∷ []) 10 ≡ false }
    ensures round { is_told_taken 65534 (2 ∷ 65535 ∷ []) 65535 ≡ true }
    ensures at { is_told_taken 7 (1030 ∷ 7 ∷ []) 7 ≡ true }
    ensures over { is_told_taken 7 (1031 ∷ 7 ∷ []) 7 ≡ false }
    ensures place { is_told_taken 7 (1031 ∷ 7 ∷ []) 1031 ≡ true }
{}

/// RFC 3550, A.1: from 3000 ahead on, and from 100 behind on, a number is too far.
pub fn numbers_too_far()
    ensures near { is_far 3000 100 (buffer_state 64 (Some 1000) []) 3999 ≡ false }
    ensures far { is_far 3000 100 (buffer_state 64 (Some 1000) []) 4000 ≡ true }
    ensures behind { is_far 3000 100 (buffer_state 64 (Some 1000) []) 900 ≡ true }
    ensures less { is_far 3000 100 (buffer_state 64 (Some 1000) []) 901 ≡ false }
    ensures unsaid { is_far 3000 0 (buffer_state 64 (Some 1000) []) 900 ≡ false }
    ensures unsaid_far { is_far 3000 0 (buffer_state 64 (Some 4000) []) 1000 ≡ true }
    ensures newest { is_far 3000 100 (buffer_state 64 (Some 1000)
        ((1060, rtp_body 0 false []) ∷ [])) 4059 ≡ false }
    ensures none { is_far 0 100 (buffer_state 64 (Some 1000) []) 30000 ≡ false }
{}

/// A number is ahead that is more than a window, and than 100, ahead of the newest, to less than half
/// of the circle.
pub fn numbers_ahead()
    ensures within { is_ahead (buffer_state 512 (Some 1000) []) 1512 ≡ false }
    ensures ahead { is_ahead (buffer_state 512 (Some 1000) []) 1513 ≡ true }
    ensures small { is_ahead (buffer_state 1 (Some 1000) []) 1100 ≡ false }
    ensures past_small { is_ahead (buffer_state 1 (Some 1000) []) 1101 ≡ true }
    ensures newest { is_ahead (buffer_state 512 (Some 1000)
        ((1060, rtp_body 0 false []) ∷ [])) 1572 ≡ false }
    ensures most { is_ahead (buffer_state 64 (Some 1000) []) 33767 ≡ true }
    ensures late { is_ahead (buffer_state 64 (Some 1000) []) 33768 ≡ false }
    ensures none { is_ahead (buffer_state 64 None []) 1065 ≡ false }
    ensures near { is_near 512 1000 1512 ≡ true }
    ensures too_far { is_near 512 1000 1513 ≡ false }
    ensures before { is_near 512 1512 1000 ≡ true }
    ensures near_small { is_near 1 1000 1100 ≡ true }
{}

/// Where 1000 is due in a window of 64, 3500 waits alone; 3501 has both wait, and so has 3499, put
/// first; 3601 waits alone in its place. Where the bytes of both pass the limit the second alone waits.
pub fn packets_that_jump()
    ensures alone { (config : AccessUnitConfig) (state : DepacketizerState) →
        let j = record (fresh_jitter (record config { far = 3000; far_behind = 100; held_limit = 9 })) {
          buffer = buffer_state 64 (Some 1000) [];
        } in
        let s = record (fresh_reception config state) { waiting = j } in
        reception_answer s (3500, rtp_body 0 false (0x61 ∷ [])) ≡ Pushed.Stray }
    ensures joins { (config : AccessUnitConfig) (state : DepacketizerState) →
        let j = record (fresh_jitter (record config { far = 3000; far_behind = 100; held_limit = 9 })) {
          buffer = buffer_state 64 (Some 1000) [];
        } in
        let s = record (fresh_reception config state) {
          waiting = j;
          stray = Some (3500, rtp_body 0 false (0x61 ∷ []));
        } in
        reception_answer s (3501, rtp_body 0 false (0x61 ∷ [])) ≡ Pushed.Jumped }
    ensures other { (config : AccessUnitConfig) (state : DepacketizerState) →
        let j = record (fresh_jitter (record config { far = 3000; far_behind = 100; held_limit = 9 })) {
          buffer = buffer_state 64 (Some 1000) [];
        } in
        let s = record (fresh_reception config state) {
          waiting = j;
          stray = Some (3500, rtp_body 0 false (0x61 ∷ []));
        } in
        reception_answer s (3601, rtp_body 0 false (0x61 ∷ [])) ≡ Pushed.Stray }
    ensures behind { (config : AccessUnitConfig) →
        let j = record (fresh_jitter config) { buffer = buffer_state 64 (Some 1000) [] } in
        (with_stray 5 j (3500, rtp_body 0 false []) (3501, rtp_body 0 false [])).buffer.held
        ≡ (3500, rtp_body 0 false []) ∷ (3501, rtp_body 0 false []) ∷ [] }
    ensures before { (config : AccessUnitConfig) →
        let j = record (fresh_jitter config) { buffer = buffer_state 64 (Some 1000) [] } in
        (with_stray 5 j (3500, rtp_body 0 false []) (3499, rtp_body 0 false [])).buffer.held
        ≡ (3499, rtp_body 0 false []) ∷ (3500, rtp_body 0 false []) ∷ [] }
    ensures full { (config : AccessUnitConfig) →
        let j = record (fresh_jitter (record config { held_limit = 2 })) {
          buffer = buffer_state 64 (Some 1000) ((1001, rtp_body 0 false (1 ∷ 2 ∷ [])) ∷ []);
        } in
        (with_stray 5 j (3500, rtp_body 0 false (3 ∷ [])) (3501, rtp_body 0 false [])).buffer.held
        ≡ (1001, rtp_body 0 false (1 ∷ 2 ∷ [])) ∷ (3501, rtp_body 0 false []) ∷ [] }
{}

/// A packet that waits alone is as long as packets may be, or longer.
pub fn a_stray_at_the_limit()
    ensures at { (config : AccessUnitConfig) (state : DepacketizerState) → IsWithinLimits 2
        (record (fresh_reception config state) { stray = Some (5, rtp_body 0 false (1 ∷ 2 ∷ [])) }) }
    ensures over { (config : AccessUnitConfig) (state : DepacketizerState) → IsWithinLimits 1
        (record (fresh_reception config state) { stray = Some (5, rtp_body 0 false (1 ∷ 2 ∷ [])) })
        → ⊥ }
{}

/// Where 9 is due and the arrivals of 7 and 8 stand behind that of 10, which waits: only that does.
pub fn arrivals_of_those_that_went()
    ensures waits { not_passed (Some 9) (arrival_of 10 1 ∷ arrival_of 8 2 ∷ arrival_of 7 3 ∷ [])
        ≡ arrival_of 10 1 ∷ [] }
    ensures none_due { not_passed None (arrival_of 10 1 ∷ []) ≡ arrival_of 10 1 ∷ [] }
    ensures first { is_first_passed (Some 9) (arrival_of 8 2 ∷ arrival_of 10 1 ∷ []) ≡ true }
{}

/// Counts stay at the largest that there is.
pub fn counts_at_their_end()
    ensures below { count_up (2 ^ 64 - 2) 1 ≡ 2 ^ 64 - 1 }
    ensures at { count_up (2 ^ 64 - 1) 1 ≡ 2 ^ 64 - 1 }
    ensures missing { missing_sum (2 ^ 32 - 2) 5 ≡ 2 ^ 32 - 1 }
{}

/// A text that was given up counts where its packet was taken, and none behind a number that was
/// skipped.
pub fn texts_that_are_counted()
    ensures taken { (counted_due None no_counts (7, rtp_body 0 false (0x61 ∷ []))
        (Ok Received.InOrder) true).texts_given_up ≡ 1 }
    ensures stays { (counted_due None no_counts (7, rtp_body 0 false (0x61 ∷ []))
        (Ok Received.InOrder) false).texts_given_up ≡ 0 }
    ensures late { (counted_due None no_counts (7, rtp_body 0 false (0x61 ∷ []))
        (Ok (Received.Late 1)) true).texts_given_up ≡ 0 }
    ensures skipped { (counted_due None no_counts (7, rtp_body 0 false [])
        (Ok Received.InOrder) true).texts_given_up ≡ 0 }
{}

/// A packet that is refused is missing, with those before it.
pub fn packets_refused_that_are_counted()
    ensures refused { (counted_due (Some 5) no_counts (7, rtp_body 0 false (0x61 ∷ []))
        (Err PacketError.ErrShortPacket) false).refused ≡ 1 }
    ensures lost { (counted_due (Some 5) no_counts (7, rtp_body 0 false (0x61 ∷ []))
        (Err PacketError.ErrShortPacket) false).lost ≡ 3 }
    ensures numbers { (numbers_after (Some 5) fresh_numbers (7, rtp_body 0 false (0x61 ∷ []))
        (Err PacketError.ErrShortPacket)).skipped_gap ≡ 3 }
    ensures in_order { missing_up_to (Some 7) 7 ≡ 1 }
    ensures first { missing_up_to None 7 ≡ 1 }
    ensures late { missing_up_to (Some 7) 6 ≡ 0 }
{}

/// A packet is taken at once where it is the one that is due, and nothing is before it: no packet that
/// waits, no access unit that has ended, and no stream that has begun anew.
pub fn packets_taken_at_once()
    ensures due { (config : AccessUnitConfig) (state : DepacketizerState) →
        let b = buffer_state 4 (Some 7) [] in let j = record (fresh_jitter config) { buffer = b } in
        is_taken_at_once (record (fresh_reception config state) { waiting = j })
        (7, rtp_body 0 false []) ≡ true }
    ensures waits { (config : AccessUnitConfig) (state : DepacketizerState) →
        let b = buffer_state 4 (Some 7) ((9, rtp_body 0 false []) ∷ []) in
        let j = record (fresh_jitter config) { buffer = b } in
        is_taken_at_once (record (fresh_reception config state) { waiting = j })
        (7, rtp_body 0 false []) ≡ false }
    ensures anew { (config : AccessUnitConfig) (state : DepacketizerState) →
        let b = buffer_state 4 (Some 7) [] in let j = record (fresh_jitter config) { buffer = b } in
        let s = record (fresh_reception config state) { waiting = j } in
        is_taken_at_once (record s { is_anew = true }) (7, rtp_body 0 false []) ≡ false }
    ensures ended { (config : AccessUnitConfig) (state : DepacketizerState) →
        let b = buffer_state 4 (Some 7) [] in let j = record (fresh_jitter config) { buffer = b } in
        let s = record (fresh_reception config state) { waiting = j } in
        let f = record s.assembler { ended = empty_unit 0 ∷ [] } in
        is_taken_at_once (record s { assembler = f }) (7, rtp_body 0 false []) ≡ false }
{}

/// The kinds of H.264 units (table 7-1), and what their slices tell.
pub fn kinds_of_h264_units()
    ensures sps { h264_kind (0x67 ∷ 0x42 ∷ []) ≡ kinds.Sps 0 }
    ensures pps { h264_kind (0x68 ∷ 0xce ∷ []) ≡ kinds.Pps }
    ensures delimiter { h264_kind (0x09 ∷ 0xf0 ∷ []) ≡ kinds.Delimiter }
    ensures sei { h264_kind (0x06 ∷ 0x05 ∷ []) ≡ kinds.Prefix }
    ensures idr { h264_kind (0x65 ∷ 0x88 ∷ []) ≡ kinds.Slice (slice true true false 0) }
    ensures second { h264_kind (0x65 ∷ 0x40 ∷ []) ≡ kinds.Slice (slice false true false 0) }
    ensures alone { h264_kind (0x65 ∷ []) ≡ kinds.Slice (slice false true false 0) }
    ensures other { h264_kind (0x41 ∷ 0x9a ∷ []) ≡ kinds.Slice (slice true false false 0) }
    ensures unreferenced { h264_kind (0x01 ∷ 0x9a ∷ []) ≡ kinds.Slice (slice true false true 0) }
    ensures partition { h264_kind (0x22 ∷ 0x9a ∷ []) ≡ kinds.Slice (slice true false false 0) }
    ensures second_partition { h264_kind (0x23 ∷ 0x9a ∷ []) ≡ kinds.Other }
    ensures none { h264_kind [] ≡ kinds.Other }
{}

/// The kinds of H.265 units (table 7-1), and what their slices tell.
pub fn kinds_of_h265_units()
    ensures vps { h265_kind (0x40 ∷ 0x01 ∷ 0x0c ∷ []) ≡ kinds.Vps }
    ensures sps { h265_kind (0x42 ∷ 0x01 ∷ 0x01 ∷ []) ≡ kinds.Sps 1 }
    ensures layers { h265_kind (0x42 ∷ 0x01 ∷ 0x0d ∷ []) ≡ kinds.Sps 7 }
    ensures pps { h265_kind (0x44 ∷ 0x01 ∷ []) ≡ kinds.Pps }
    ensures delimiter { h265_kind (0x46 ∷ 0x01 ∷ []) ≡ kinds.Delimiter }
    ensures bla { h265_kind (0x20 ∷ 0x01 ∷ 0x80 ∷ []) ≡ kinds.Slice (slice true true false 1) }
    ensures cra { h265_kind (0x2a ∷ 0x01 ∷ 0x7f ∷ []) ≡ kinds.Slice (slice false true false 1) }
    ensures reserved { h265_kind (0x2c ∷ 0x01 ∷ 0x80 ∷ []) ≡ kinds.Other }
    ensures trail_n { h265_kind (0x00 ∷ 0x01 ∷ 0x80 ∷ []) ≡ kinds.Slice (slice true false true 1) }
    ensures trail_r { h265_kind (0x02 ∷ 0x01 ∷ 0x80 ∷ []) ≡ kinds.Slice (slice true false false 1) }
    ensures rasl_n { h265_kind (0x10 ∷ 0x03 ∷ 0x80 ∷ []) ≡ kinds.Slice (slice true false true 3) }
    ensures rasl_r { h265_kind (0x12 ∷ 0x03 ∷ 0x80 ∷ []) ≡ kinds.Slice (slice true false false 3) }
    ensures reserved_n { h265_kind (0x14 ∷ 0x01 ∷ 0x80 ∷ []) ≡ kinds.Other }
    ensures sei { h265_kind (0x4e ∷ 0x01 ∷ []) ≡ kinds.Prefix }
    ensures layer { h265_kind (0x40 ∷ 0x09 ∷ []) ≡ kinds.Other }
    ensures high_layer { h265_kind (0x41 ∷ 0x01 ∷ []) ≡ kinds.Other }
    ensures no_layer { h265_kind (0x02 ∷ 0x00 ∷ 0x80 ∷ []) ≡ kinds.Other }
    ensures cut_off { h265_kind (0x26 ∷ []) ≡ kinds.Other }
{}

/// The kinds of H.266 units (table 5), and what their slices and picture headers tell.
pub fn kinds_of_h266_units()
    ensures vps { h266_kind (0x00 ∷ 0x71 ∷ []) ≡ kinds.Vps }
    ensures sps { h266_kind (0x00 ∷ 0x79 ∷ 0xff ∷ []) ≡ kinds.Sps 0 }
    ensures pps { h266_kind (0x00 ∷ 0x81 ∷ []) ≡ kinds.Pps }
    ensures header { h266_kind (0x00 ∷ 0x99 ∷ 0xbf ∷ []) ≡ kinds.PictureHeader false }
    ensures header_of_none { h266_kind (0x00 ∷ 0x99 ∷ 0x40 ∷ []) ≡ kinds.PictureHeader true }
    ensures delimiter { h266_kind (0x00 ∷ 0xa1 ∷ []) ≡ kinds.Delimiter }
    ensures idr { h266_kind (0x00 ∷ 0x39 ∷ 0xc0 ∷ []) ≡ kinds.Slice (slice true true false 0) }
    ensures cra { h266_kind (0x00 ∷ 0x49 ∷ 0x40 ∷ []) ≡ kinds.Slice (slice false true false 0) }
    ensures gdr { h266_kind (0x00 ∷ 0x51 ∷ 0xc0 ∷ []) ≡ kinds.Slice (slice true false false 0) }
    ensures reserved { h266_kind (0x00 ∷ 0x59 ∷ 0xc0 ∷ []) ≡ kinds.Other }
    ensures trail { h266_kind (0x00 ∷ 0x01 ∷ 0x80 ∷ []) ≡ kinds.Slice (slice true false false 0) }
    ensures unreferenced { h266_kind (0x00 ∷ 0x01 ∷ 0xa0 ∷ [])
        ≡ kinds.Slice (slice true false true 0) }
    ensures without_header { h266_kind (0x00 ∷ 0x01 ∷ 0x7f ∷ [])
        ≡ kinds.Slice (slice false false false 0) }
    ensures rasl { h266_kind (0x00 ∷ 0x19 ∷ 0x80 ∷ []) ≡ kinds.Slice (slice true false false 0) }
    ensures reserved_slice { h266_kind (0x00 ∷ 0x21 ∷ 0x80 ∷ []) ≡ kinds.Other }
    ensures layer { h266_kind (0x01 ∷ 0x71 ∷ []) ≡ kinds.Other }
    ensures no_layer { h266_kind (0x00 ∷ 0x00 ∷ 0x80 ∷ []) ≡ kinds.Other }
{}

/// A text is looked at up to its first slice: behind start codes of three bytes or four, or behind
/// lengths.
#[tactic(auto, unfolding(crate::specs::Bits::code_of, crate::specs::Bits::bits_number))]
pub fn texts_up_to_the_first_slice()
    ensures layers { (content_of false (extras.H265 (record { is_keyframe = false }))
        (0 ∷ 0 ∷ 1 ∷ 0x42 ∷ 0x01 ∷ 0x05 ∷ 0 ∷ 0 ∷ 1 ∷ 0x42 ∷ 0x01 ∷ 0x01 ∷ [])).highest_layer
        ≡ 3 }
    ensures annex_b { content_of false (extras.H264 (record { is_keyframe = true }))
        (0 ∷ 0 ∷ 0 ∷ 1 ∷ 0x67 ∷ 0x42 ∷ 0 ∷ 0 ∷ 1 ∷ 0x68 ∷ 0 ∷ 0 ∷ 0 ∷ 1 ∷ 0x65 ∷ 0x88 ∷ 0 ∷ 0 ∷ 1
        ∷ 0x09 ∷ [])
        ≡ record {
          first = Some (kinds.Sps 0);
          sets = record { vps = false; sps = true; pps = true };
          highest_layer = 0;
          picture_header = None;
          slice = Some (slice true true false 0);
          numbering = numberings.Unusable;
          head = Some (0x88 ∷ 0 ∷ 0 ∷ 1 ∷ 0x09 ∷ 0 ∷ 0 ∷ 0 ∷ []);
        } }
    ensures avc { content_of true (extras.H265 (record { is_keyframe = false }))
        (0 ∷ 0 ∷ 0 ∷ 3 ∷ 0x42 ∷ 0x01 ∷ 0x03 ∷ 0 ∷ 0 ∷ 0 ∷ 3 ∷ 0x00 ∷ 0x02 ∷ 0x80 ∷ [])
        ≡ record {
          first = Some (kinds.Sps 2);
          sets = record { vps = false; sps = true; pps = false };
          highest_layer = 2;
          picture_header = None;
          slice = Some (slice true false true 2);
          numbering = numberings.NotTold;
          head = None;
        } }
    ensures header { content_of false (extras.H266 (record { is_keyframe = false }))
        (0 ∷ 0 ∷ 1 ∷ 0x00 ∷ 0x99 ∷ 0x40 ∷ 0 ∷ 0 ∷ 1 ∷ 0x00 ∷ 0x01 ∷ 0x00 ∷ [])
        ≡ record {
          first = Some (kinds.PictureHeader true);
          sets = no_sets;
          highest_layer = 0;
          picture_header = Some true;
          slice = Some (slice true false true 0);
          numbering = numberings.NotTold;
          head = None;
        } }
    ensures most { (is_avc : Bool) (text : List ℕ) → content_of is_avc extras.None text
        ≡ content_from is_avc extras.None 64 no_content text }
    ensures short { content_of true (extras.H264 (record { is_keyframe = false })) (0 ∷ 0 ∷ 0 ∷ [])
        ≡ no_content }
    ensures nothing { content_of false extras.None (0 ∷ 0 ∷ 1 ∷ 0x67 ∷ [])
        ≡ record no_content { first = Some kinds.Other } }
{}

/// Which parameter sets a decoder needs.
pub fn sets_that_are_enough()
    ensures h264 { are_enough (extras.H264 (record { is_keyframe = true }))
        (record { vps = false; sps = true; pps = true }) ≡ true }
    ensures h264_sps { are_enough (extras.H264 (record { is_keyframe = true }))
        (record { vps = true; sps = true; pps = false }) ≡ false }
    ensures h265 { are_enough (extras.H265 (record { is_keyframe = true })) all_sets ≡ true }
    ensures h265_vps { are_enough (extras.H265 (record { is_keyframe = true }))
        (record { vps = false; sps = true; pps = true }) ≡ false }
    ensures h266 { are_enough (extras.H266 (record { is_keyframe = true }))
        (record { vps = false; sps = true; pps = true }) ≡ true }
    ensures h266_pps { are_enough (extras.H266 (record { is_keyframe = true }))
        (record { vps = true; sps = false; pps = true }) ≡ false }
    ensures none { are_enough extras.None all_sets ≡ false }
{}

/// A decoder begins with a keyframe and its sets, and goes on as long as nothing is missing, but in
/// pictures that nothing refers to.
pub fn decoders_that_begin_and_go_on()
    ensures begins { let first = slice true true false 0 in
        let key = record no_content { sets = all_sets; slice = Some first } in
        let d = decoder_after fresh_decoder false true (extras.H264 (record { is_keyframe = true }))
        numbers_of_none key in (d.is_clean ≡ true) × (shows d true ≡ true) × (shows d false ≡ false) }
    ensures without_sets { let first = slice true true false 0 in
        let key = record no_content { slice = Some first } in
        (decoder_after fresh_decoder false true (extras.H264 (record { is_keyframe = true }))
        numbers_of_none key).is_clean ≡ false }
    ensures has_sets { let first = slice true true false 0 in
        let key = record no_content { slice = Some first } in
        (decoder_after fresh_decoder true true (extras.H264 (record { is_keyframe = true }))
        numbers_of_none key).is_clean ≡ true }
    ensures sets_before { let first = slice true true false 0 in
        let key = record no_content { slice = Some first } in
        (decoder_after (record fresh_decoder { sets = all_sets }) false true
        (extras.H265 (record { is_keyframe = true })) (record numbers_of_none { follows = true })
        key).is_clean ≡ true }
    ensures sets_before_a_gap { let first = slice true true false 0 in
        let key = record no_content { slice = Some first } in
        (decoder_after (record fresh_decoder { sets = all_sets }) false true
        (extras.H265 (record { is_keyframe = true })) numbers_of_none key).is_clean ≡ false }
    ensures second_slice { let first = slice false true false 0 in
        let key = record no_content { sets = all_sets; slice = Some first } in
        (decoder_after fresh_decoder false true (extras.H264 (record { is_keyframe = true }))
        numbers_of_none key).is_clean ≡ false }
    ensures goes_on_with_one { let first = slice true true false 0 in
        let key = record no_content { sets = all_sets; slice = Some first } in
        (decoder_after fresh_decoder false true (extras.H264 (record { is_keyframe = true }))
        (record numbers_of_none { continues = true }) key).is_clean ≡ false }
    ensures broken { let first = slice true true false 0 in
        let key = record no_content { sets = all_sets; slice = Some first } in
        let d = decoder_after fresh_decoder false false (extras.H264 (record { is_keyframe = true }))
        numbers_of_none key in (d.is_clean ≡ false) × (d.sets ≡ no_sets) }
    ensures no_keyframe { let first = slice true false false 0 in
        let it = record no_content { sets = all_sets; slice = Some first } in
        (decoder_after fresh_decoder false true (extras.H264 (record { is_keyframe = false }))
        numbers_of_none it).is_clean ≡ false }
    ensures follows { (decoder_after (record fresh_decoder { is_clean = true }) false true
        (extras.H264 (record { is_keyframe = false })) (record numbers_of_none { follows = true })
        no_content).is_clean ≡ true }
    ensures gap { (decoder_after (record fresh_decoder { is_clean = true }) false true
        (extras.H264 (record { is_keyframe = false })) numbers_of_none no_content).is_clean ≡ false }
    ensures damaged { (decoder_after (record fresh_decoder { is_clean = true }) false false
        (extras.H264 (record { is_keyframe = false })) (record numbers_of_none { follows = true })
        (record no_content { slice = Some (slice true false false 0) })).is_clean ≡ false }
    ensures disposable { (decoder_after (record fresh_decoder { is_clean = true }) false false
        (extras.H264 (record { is_keyframe = false })) (record numbers_of_none { follows = true })
        (record no_content { slice = Some (slice true false true 0) })).is_clean ≡ true }
{}

/// Which pictures nothing refers to.
pub fn pictures_that_are_disposable()
    ensures every_layer { is_disposable 0 (Some (slice true false true 0)) ≡ true }
    ensures highest { is_disposable 2 (Some (slice true false true 2)) ≡ true }
    ensures lower { is_disposable 2 (Some (slice true false true 1)) ≡ false }
    ensures unknown { is_disposable 0 (Some (slice true false true 1)) ≡ false }
    ensures referenced { is_disposable 2 (Some (slice true false false 2)) ≡ false }
    ensures key { is_disposable 0 (Some (slice true true true 0)) ≡ false }
    ensures none { is_disposable 0 None ≡ false }
{}

/// An access unit is told to be whole where it follows, or begins with what stands at the front.
pub fn access_units_told_whole()
    ensures follows { tells_whole fresh_decoder true extras.None
        (record numbers_of_none { follows = true }) no_content ≡ true }
    ensures broken { tells_whole fresh_decoder false extras.None
        (record numbers_of_none { follows = true }) no_content ≡ false }
    ensures goes_on { tells_whole fresh_decoder true extras.None
        (record numbers_of_none { follows = true; continues = true }) no_content ≡ false }
    ensures unknown { tells_whole fresh_decoder true extras.None numbers_of_none no_content
        ≡ false }
    ensures front { tells_whole fresh_decoder true (extras.H264 (record { is_keyframe = true }))
        numbers_of_none (record no_content { first = Some (kinds.Sps 0) }) ≡ true }
    ensures delimiter { is_front (record fresh_decoder { has_begun = true }) extras.None
        (Some kinds.Delimiter) ≡ true }
    ensures later { is_front (record fresh_decoder { has_begun = true })
        (extras.H264 (record { is_keyframe = true })) (Some (kinds.Sps 0)) ≡ false }
    ensures vps { is_front fresh_decoder (extras.H265 (record { is_keyframe = true }))
        (Some kinds.Vps) ≡ true }
    ensures later_vps { is_front (record fresh_decoder { has_begun = true })
        (extras.H265 (record { is_keyframe = true })) (Some kinds.Vps) ≡ false }
    ensures h265_sps { is_front fresh_decoder (extras.H265 (record { is_keyframe = true }))
        (Some (kinds.Sps 1)) ≡ false }
    ensures h266_sps { is_front fresh_decoder (extras.H266 (record { is_keyframe = true }))
        (Some (kinds.Sps 0)) ≡ true }
    ensures begun { (decoder_after fresh_decoder false false extras.None numbers_of_none
        no_content).has_begun ≡ true }
    ensures pps { is_front fresh_decoder (extras.H264 (record { is_keyframe = true }))
        (Some kinds.Pps) ≡ false }
{}

/// An access unit follows where a packet was taken before its first, and none is missing between.
pub fn access_units_that_follow()
    ensures follows { (begun_numbers None true true 0 (7, rtp_body 0 false []) 0).follows ≡ true }
    ensures gap { (begun_numbers None true true 0 (7, rtp_body 0 false []) 1).follows ≡ false }
    ensures begins { (begun_numbers None false false 0 (7, rtp_body 0 false []) 0).follows ≡ false }
{}

/// The packet that begins the stream waits for its own time, and none before it is missing.
pub fn a_stream_that_begins()
    ensures at_once { (config : AccessUnitConfig) →
        let j = fresh_jitter (record config { window = 512; begin_wait = 0; max_wait = 200 }) in
        due_packet 5 (with_packet 5 j (700, rtp_body 0 false (0x61 ∷ [])))
        ≡ Some (700, rtp_body 0 false (0x61 ∷ [])) }
    ensures wait { (config : AccessUnitConfig) →
        longest_wait (fresh_jitter (record config { begin_wait = 30; max_wait = 200 })) ≡ 30 }
    ensures max { (config : AccessUnitConfig) →
        longest_wait (fresh_jitter (record config { begin_wait = 300; max_wait = 200 })) ≡ 200 }
    ensures none { (config : AccessUnitConfig) →
        let j = fresh_jitter (record config { window = 512 }) in
        missing_numbers (awaited (with_packet 5 j (700, rtp_body 0 false [])))
        ((700, rtp_body 0 false []) ∷ []) ≡ [] }
    ensures told { (config : AccessUnitConfig) (state : DepacketizerState) →
        let s = begun_reception 7 (fresh_reception config state) in
        (s.waiting.buffer.due ≡ Some 7) × (s.assembler.expected ≡ Some 7)
        × (longest_wait s.waiting ≡ config.max_wait) }
{}

/// A packet of another timestamp begins an access unit behind numbers that are missing, and ends the
/// one that is open, not known to be whole; these numbers are lost.
pub fn access_units_behind_missing_numbers()
    ensures behind { (config : AccessUnitConfig) (state : DepacketizerState) →
        let a = record (fresh_reception config state).assembler { expected = Some 7 } in
        ends_before a fresh_framing (9, rtp_body 20 false (0x61 ∷ [])) ≡ true }
    ensures follows { (config : AccessUnitConfig) (state : DepacketizerState) →
        let a = record (fresh_reception config state).assembler { expected = Some 7 } in
        ends_before a fresh_framing (7, rtp_body 20 false (0x61 ∷ [])) ≡ false }
    ensures refused { (config : AccessUnitConfig) (state : DepacketizerState) →
        let a = record (fresh_reception config state).assembler { expected = Some 7; is_gap = true } in
        ends_before a fresh_framing (7, rtp_body 20 false (0x61 ∷ [])) ≡ true }
    ensures late { (config : AccessUnitConfig) (state : DepacketizerState) →
        let a = record (fresh_reception config state).assembler { expected = Some 7 } in
        ends_before a fresh_framing (6, rtp_body 20 false (0x61 ∷ [])) ≡ false }
    ensures same { (config : AccessUnitConfig) (state : DepacketizerState) →
        let a = record (fresh_reception config state).assembler
        { expected = Some 7; unit = Some (empty_unit 20) } in
        ends_before a fresh_framing (9, rtp_body 20 false (0x61 ∷ [])) ≡ false }
    ensures expected { expected_for None (9, rtp_body 20 false (0x61 ∷ [])) ≡ Some 9 }
    ensures expected_none { expected_for None (9, rtp_body 20 false []) ≡ None }
    ensures expected_other { expected_for (Some 7) (9, rtp_body 20 false (0x61 ∷ [])) ≡ Some 7 }
    ensures nothing { (config : AccessUnitConfig) (state : DepacketizerState) →
        let a = record (fresh_reception config state).assembler { expected = Some 7 } in
        ends_before a fresh_framing (9, rtp_body 20 false []) ≡ false }
    ensures ended { (config : AccessUnitConfig) (state : DepacketizerState) →
        let a = record (fresh_reception config state).assembler
        { expected = Some 7; unit = Some (empty_unit 20) } in
        let s = ended_behind_missing (record (fresh_reception config state) { assembler = a })
        (9, rtp_body 30 false (0x61 ∷ [])) in
        (s.assembler.ended ≡ record (empty_unit 20) { is_whole = false } ∷ [])
        × (s.assembler.expected ≡ None) × (s.counts.lost ≡ 2) × (s.numbers.skipped_gap ≡ 2) }
{}

/// Units that stand before the slices of an access unit, by their types; those beside them don't.
pub fn units_that_stand_before_slices()
    ensures sei { h264_kind (0x06 ∷ []) ≡ kinds.Prefix }
    ensures h264 { h264_kind (0x6e ∷ []) ≡ kinds.Prefix }
    ensures h264_last { h264_kind (0x72 ∷ []) ≡ kinds.Prefix }
    ensures auxiliary { h264_kind (0x73 ∷ []) ≡ kinds.Other }
    ensures filler { h264_kind (0x0c ∷ []) ≡ kinds.Other }
    ensures h265_sei { h265_kind (0x4e ∷ 0x01 ∷ []) ≡ kinds.Prefix }
    ensures h265_suffix { h265_kind (0x50 ∷ 0x01 ∷ []) ≡ kinds.Other }
    ensures h265 { h265_kind (0x52 ∷ 0x01 ∷ []) ≡ kinds.Prefix }
    ensures h265_last { h265_kind (0x58 ∷ 0x01 ∷ []) ≡ kinds.Prefix }
    ensures h265_behind { h265_kind (0x5a ∷ 0x01 ∷ []) ≡ kinds.Other }
    ensures points { h266_kind (0x00 ∷ 0x61 ∷ []) ≡ kinds.Prefix }
    ensures capabilities { h266_kind (0x00 ∷ 0x69 ∷ []) ≡ kinds.Prefix }
    ensures adaptation { h266_kind (0x00 ∷ 0x89 ∷ []) ≡ kinds.Prefix }
    ensures suffix_adaptation { h266_kind (0x00 ∷ 0x91 ∷ []) ≡ kinds.Other }
    ensures h266_sei { h266_kind (0x00 ∷ 0xb9 ∷ []) ≡ kinds.Prefix }
    ensures h266_suffix { h266_kind (0x00 ∷ 0xc1 ∷ []) ≡ kinds.Other }
    ensures reserved { h266_kind (0x00 ∷ 0xd1 ∷ []) ≡ kinds.Prefix }
    ensures reserved_other { h266_kind (0x00 ∷ 0xd9 ∷ []) ≡ kinds.Other }
{}

/// What begins an access unit behind a slice, and what goes on with a picture.
pub fn units_that_begin_access_units()
    ensures first { begins_behind_slice (Some (kinds.Slice (slice true false false 0))) ≡ true }
    ensures second { begins_behind_slice (Some (kinds.Slice (slice false false false 0))) ≡ false }
    ensures delimiter { begins_behind_slice (Some kinds.Delimiter) ≡ true }
    ensures set { begins_behind_slice (Some (kinds.Sps 1)) ≡ true }
    ensures header { begins_behind_slice (Some (kinds.PictureHeader false)) ≡ true }
    ensures prefix { begins_behind_slice (Some kinds.Prefix) ≡ true }
    ensures other { begins_behind_slice (Some kinds.Other) ≡ false }
    ensures none { begins_behind_slice None ≡ false }
    ensures goes_on { goes_on_with (Some (kinds.Slice (slice false false false 0))) ≡ true }
    ensures goes_on_first { goes_on_with (Some (kinds.Slice (slice true false false 0))) ≡ false }
    ensures goes_on_other { goes_on_with (Some kinds.Other) ≡ false }
    ensures goes_on_none { goes_on_with None ≡ false }
{}

/// A marker is believed once a slice came, unless the sender marks each slice; then, and where none was
/// believed yet or timestamps stand still, access units end by their units.
pub fn markers_that_are_believed()
    ensures slice { believes (record fresh_framing { has_slice = true }) true ≡ true }
    ensures unset { believes (record fresh_framing { has_slice = true }) false ≡ false }
    ensures no_slice { believes fresh_framing true ≡ false }
    ensures each { believes (record fresh_framing { has_slice = true; marks_slices = true }) true
        ≡ false }
    ensures trusted { trusts_markers (record fresh_framing { is_marked = true }) ≡ true }
    ensures none_yet { trusts_markers fresh_framing ≡ false }
    ensures none_with_each { trusts_markers (record fresh_framing
        { is_marked = true; marks_slices = true }) ≡ false }
    ensures none_still { trusts_markers (record fresh_framing
        { is_marked = true; stands_still = true }) ≡ false }
    ensures marked { framing_marked fresh_framing true ≡ record fresh_framing { is_marked = true } }
    ensures stays { framing_marked (record fresh_framing { is_marked = true }) false
        ≡ record fresh_framing { is_marked = true } }
{}

/// Where a slice came and markers aren't trusted, an access unit ends before what begins another.
pub fn access_units_that_end_by_content()
    ensures ends { let first = Some (kinds.Slice (slice true false false 0)) in
        let it = record fresh_framing { has_slice = true } in
        let shown : Shown = record { has_slice = true; first = first } in
        ends_by_content it shown ≡ true }
    ensures trusted { let first = Some (kinds.Slice (slice true false false 0)) in
        let it = record fresh_framing { has_slice = true; is_marked = true } in
        let shown : Shown = record { has_slice = true; first = first } in
        ends_by_content it shown ≡ false }
    ensures no_slice { let shown : Shown = record { has_slice = false; first = Some kinds.Delimiter } in
        ends_by_content fresh_framing shown ≡ false }
    ensures second { let first = Some (kinds.Slice (slice false false false 0)) in
        let it = record fresh_framing { has_slice = true } in
        let shown : Shown = record { has_slice = true; first = first } in
        ends_by_content it shown ≡ false }
{}

/// What packets show of a sender: that it marks each slice, and that timestamps stand still.
pub fn what_packets_show_of_a_sender()
    ensures comes { let shown : Shown = record { has_slice = true; first = None } in
        (framing_with fresh_framing true false shown).has_slice ≡ true }
    ensures came { let shown : Shown = record { has_slice = false; first = None } in
        (framing_with (record fresh_framing { has_slice = true }) true false shown).has_slice ≡ true }
    ensures other { let shown : Shown = record { has_slice = false; first = None } in
        (framing_with (record fresh_framing { has_slice = true }) false false shown).has_slice
        ≡ false }
    ensures each { let first = Some (kinds.Slice (slice false false false 0)) in
        let shown : Shown = record { has_slice = true; first = first } in
        (framing_with fresh_framing false true shown).marks_slices ≡ true }
    ensures not_behind { let first = Some (kinds.Slice (slice false false false 0)) in
        let shown : Shown = record { has_slice = true; first = first } in
        (framing_with fresh_framing false false shown).marks_slices ≡ false }
    ensures still { let shown : Shown = record { has_slice = false; first = Some kinds.Delimiter } in
        let it = framing_with fresh_framing false true shown in
        (it.stands_still ≡ true) × (it.marks_slices ≡ false) }
    ensures moves { let shown : Shown = record { has_slice = false; first = Some kinds.Delimiter } in
        (framing_with (record fresh_framing { stands_still = true }) false false shown).stands_still
        ≡ false }
    ensures stays { let shown : Shown = record { has_slice = false; first = None } in
        (framing_with (record fresh_framing { stands_still = true }) true false shown).stands_still
        ≡ true }
{}

/// Packets that are refused and bear nothing to be written.
pub fn packets_that_bear_no_unit()
    ensures pacsi { bears_no_unit (extras.H264 (record { is_keyframe = false }))
        (PacketError.NaluTypeIsNotHandled 30) (0x7e ∷ []) ≡ true }
    ensures short { bears_no_unit (extras.H264 (record { is_keyframe = false }))
        PacketError.ErrShortPacket (0x48 ∷ 0x01 ∷ []) ≡ false }
    ensures h265 { bears_no_unit (extras.H265 (record { is_keyframe = false }))
        PacketError.ErrShortPacket (0x48 ∷ 0x01 ∷ []) ≡ true }
    ensures bitstream { is_end_unit (extras.H265 (record { is_keyframe = false })) (0x4a ∷ 0x01 ∷ [])
        ≡ true }
    ensures delimiter { is_end_unit (extras.H265 (record { is_keyframe = false })) (0x46 ∷ 0x01 ∷ [])
        ≡ false }
    ensures filler { is_end_unit (extras.H265 (record { is_keyframe = false })) (0x4c ∷ 0x01 ∷ [])
        ≡ false }
    ensures h266 { is_end_unit (extras.H266 (record { is_keyframe = false })) (0x00 ∷ 0xa9 ∷ [])
        ≡ true }
    ensures h266_bitstream { is_end_unit (extras.H266 (record { is_keyframe = false }))
        (0x00 ∷ 0xb1 ∷ []) ≡ true }
    ensures h266_delimiter { is_end_unit (extras.H266 (record { is_keyframe = false }))
        (0x00 ∷ 0xa1 ∷ []) ≡ false }
    ensures h266_sei { is_end_unit (extras.H266 (record { is_keyframe = false }))
        (0x00 ∷ 0xb9 ∷ []) ≡ false }
    ensures no_codec { is_end_unit extras.None (0x48 ∷ 0xa9 ∷ []) ≡ false }
    ensures another { bears_no_unit (extras.H265 (record { is_keyframe = false }))
        PacketError.OutOfMemory (0x48 ∷ 0x01 ∷ []) ≡ false }
{}

/// What is missing of an access unit without bytes is told with the next one.
pub fn numbers_that_are_carried()
    ensures marked { (numbers_carrying (record fresh_numbers {
      ended_by_marker = Some (record numbers_of_none { missing = 1 });
      unit = Some numbers_of_none;
    })
        2).ended_by_marker ≡ Some (record numbers_of_none { missing = 3 }) }
    ensures begun { (numbers_carrying (record fresh_numbers
        { unit = Some (record numbers_of_none { missing = 1 }) }) 2).unit
        ≡ Some (record numbers_of_none { missing = 3 }) }
    ensures none { (numbers_carrying (record fresh_numbers { carried = 1 }) 2).carried ≡ 3 }
    ensures told { let it = begun_numbers None true true 3 (7, rtp_body 0 false []) 0 in
        (it.missing ≡ 3) × (it.follows ≡ true) }
    ensures told_once { (numbers_after None (record fresh_numbers { carried = 3 })
        (7, rtp_body 0 false (0x61 ∷ [])) (Ok Received.InOrder)).carried ≡ 0 }
    ensures closed { let n = numbers_closed (record fresh_numbers
        { unit = Some (record numbers_of_none { timestamp = 7 }) }) in
        (n.unit ≡ None) × (n.marked ≡ Some 7)
        × (n.ended ≡ Some (record numbers_of_none { timestamp = 7 })) }
    ensures still { numbers_still true (record fresh_numbers { marked = Some 7 }) ≡ fresh_numbers }
    ensures goes_on { numbers_still false (record fresh_numbers { marked = Some 7 })
        ≡ record fresh_numbers { marked = Some 7 } }
{}

/// Access units without bytes that ended first are passed over, and no other.
pub fn access_units_without_bytes()
    ensures passed { (config : AccessUnitConfig) (state : DepacketizerState) →
        let unit = record (empty_unit 7) { bytes = 1 ∷ [] } in
        let a = record (fresh_reception config state).assembler { ended = empty_unit 5 ∷ unit ∷ [] } in
        (without_bare (record (fresh_reception config state) { assembler = a })).assembler.ended
        ≡ unit ∷ [] }
    ensures kept { (config : AccessUnitConfig) (state : DepacketizerState) →
        let unit = record (empty_unit 7) { bytes = 1 ∷ [] } in
        let a = record (fresh_reception config state).assembler { ended = unit ∷ empty_unit 9 ∷ [] } in
        (without_bare (record (fresh_reception config state) { assembler = a })).assembler.ended
        ≡ unit ∷ empty_unit 9 ∷ [] }
{}

/// What is counted of packets that are given to a receiver, and of numbers that are passed.
pub fn packets_that_are_counted()
    ensures stray { counted_push no_counts Pushed.Stray ≡ record no_counts { stray = 1 } }
    ensures anew { counted_push no_counts Pushed.Anew ≡ record no_counts { anew = 1 } }
    ensures late { counted_push no_counts (Pushed.Late 5) ≡ record no_counts { late = 1 } }
    ensures twice { counted_push no_counts Pushed.Twice ≡ record no_counts { twice = 1 } }
    ensures held { counted_push no_counts Pushed.Held ≡ no_counts }
    ensures full { counted_push no_counts Pushed.Full ≡ no_counts }
    ensures back_late { counted_reason no_counts (NotPushedReason.Late 5)
        ≡ record no_counts { late = 1 } }
    ensures back_twice { counted_reason no_counts NotPushedReason.Twice
        ≡ record no_counts { twice = 1 } }
    ensures no_unit { counted_no_unit no_counts (Received.Gap 3)
        ≡ record no_counts { no_unit = 1; lost = 3 } }
    ensures no_unit_late { counted_no_unit no_counts (Received.Late 3)
        ≡ record no_counts { late = 1 } }
    ensures framing { counted_framing no_counts true true
        ≡ record no_counts { still = 1; unbelieved = 1 } }
    ensures framing_none { counted_framing no_counts false false ≡ no_counts }
{}

/// Why packets come back, by what is answered for them.
pub fn packets_that_come_back()
    ensures late { not_pushed_reason (Pushed.Late 5) ≡ NotPushedReason.Late 5 }
    ensures twice { not_pushed_reason Pushed.Twice ≡ NotPushedReason.Twice }
    ensures full { not_pushed_reason Pushed.Full ≡ NotPushedReason.Full }
    ensures held { not_pushed_reason Pushed.Held ≡ NotPushedReason.OutOfMemory }
    ensures kept { is_kept Pushed.Stray ≡ true }
    ensures not_kept { is_kept Pushed.Twice ≡ false }
{}

/// What a stream leaves that begins anew: what waited of it is lost. At its end no stray is left.
pub fn what_a_stream_leaves()
    ensures lost { (config : AccessUnitConfig) (state : DepacketizerState) →
        let b = buffer_state 4 (Some 7) ((9, rtp_body 0 false []) ∷ (11, rtp_body 0 false []) ∷ []) in
        let s = record (fresh_reception config state) {
          waiting = record (fresh_jitter config) { buffer = b };
          stray = Some (40000, rtp_body 0 false []);
        } in
        let it = after_reception 0 s (40001, rtp_body 0 false []) Pushed.Anew in
        (it.counts.lost ≡ 2) × (it.stray ≡ None) × (it.is_anew ≡ true) }
    ensures end { (config : AccessUnitConfig) (state : DepacketizerState) →
        let s = record (fresh_reception config state) { stray = Some (7, rtp_body 0 false []) } in
        ((after_finish s).stray ≡ None) × ((restarted s).stray ≡ None) }
    ensures gap { (begun_numbers None true true 0 (7, rtp_body 0 false []) 3).missing ≡ 3 }
{}
