//! Worked cases of what becomes of packets, each the contract of a function without a result.

ghost use Rattle.std.specs.Prelude.{◌≡◌, ℕ, List, true, false, None, Some, [], ◌∷◌};
ghost use Rattle.std.specs.List.{list_any};
ghost use Rattle.h26x_model.specs.Receive.DepacketizerState.{DepacketizerState};
ghost use Rattle.h26x_reorder.specs.Rtp.{RtpBody, rtp_body};
ghost use Rattle.h26x_access_units.specs.declared.config.AccessUnitConfig.{AccessUnitConfig};
ghost use Rattle.h26x_assembler.specs.AccessUnit.{empty_unit, none_open, open_assembly, after_unit_skip};
ghost use Rattle.h26x_access_units.specs.ReceivedAccessUnit.{ReceivedAccessUnitValue};
ghost use Rattle.h26x_access_units.specs.Reception.{marker_forgotten, fresh_reception, after_reception, ended_reception, restarted};
ghost use Rattle.h26x_access_units.specs.Account.{PushCall, BackCall, NextCall, FinishCall, RestartCall, BeginCall, AreReceiverCalls, IsAssemblerOf, texts_given, texts_of, kept_packets, stray_packets, may_drop, drops_all, AreDroppedStrays, ends_stream, tells_twice, tells_stray, tells_anew, tells_late, call_count, packet_alone, AreInTurnBack, AreStreams, IsDueBehind, IsAccounted};

use crate::pushed::{NotPushedReason, Pushed};

/// Of packets that came one after the other those told `Late`, `Twice` or `Full` aren't kept, nor
/// those that came back.
pub fn packets_that_are_kept()
    ensures each { let b = rtp_body 0 false [] in kept_packets (PushCall 0 (7, b) Pushed.Held
        ∷ PushCall 0 (6, b) (Pushed.Late 1) ∷ PushCall 0 (5, b) Pushed.Twice
        ∷ PushCall 0 (4, b) Pushed.Full ∷ PushCall 0 (3, b) Pushed.Stray ∷ FinishCall
        ∷ PushCall 0 (2, b) Pushed.Jumped ∷ PushCall 0 (1, b) Pushed.Anew
        ∷ BackCall (0, b) NotPushedReason.OutOfMemory ∷ [])
        ≡ (7, b) ∷ (3, b) ∷ (2, b) ∷ (1, b) ∷ [] }
    ensures none { kept_packets [] ≡ [] }
    ensures alone { packet_alone (Some (7, rtp_body 0 false [])) ≡ (7, rtp_body 0 false []) ∷ [] }
    ensures none_alone { packet_alone None ≡ [] }
    ensures strays { let b = rtp_body 0 false [] in
        stray_packets (PushCall 0 (7, b) Pushed.Held ∷ PushCall 0 (3, b) Pushed.Stray
        ∷ PushCall 0 (2, b) Pushed.Jumped ∷ PushCall 0 (1, b) Pushed.Stray ∷ FinishCall ∷ [])
        ≡ (3, b) ∷ (1, b) ∷ [] }
{}

/// Packets may be dropped where one is told `Stray`, and by `restart`, and else none is.
pub fn packets_that_may_be_dropped()
    ensures none { let b = rtp_body 0 false [] in list_any may_drop (PushCall 0 (7, b) Pushed.Held
        ∷ PushCall 0 (6, b) (Pushed.Late 1) ∷ PushCall 0 (7, b) Pushed.Twice
        ∷ PushCall 0 (8, b) Pushed.Full ∷ PushCall 0 (9, b) Pushed.Jumped
        ∷ PushCall 0 (9, b) Pushed.Anew ∷ BeginCall 9 ∷ FinishCall ∷ NextCall 0 None ∷ [])
        ≡ false }
    ensures restart { may_drop RestartCall ≡ true }
    ensures none_drops_all { let b = rtp_body 0 false [] in
        list_any drops_all (PushCall 0 (7, b) Pushed.Stray ∷ PushCall 0 (8, b) Pushed.Jumped
        ∷ PushCall 0 (9, b) Pushed.Held ∷ FinishCall ∷ NextCall 0 None ∷ []) ≡ false }
    ensures anew_drops_all { drops_all (PushCall 0 (7, rtp_body 0 false []) Pushed.Anew) ≡ true }
    ensures restart_drops_all { drops_all RestartCall ≡ true }
    ensures alone { may_drop (PushCall 0 (7, rtp_body 0 false []) Pushed.Stray) ≡ true }
{}

/// Of two strays the second waits alone, and the first joined the others, or was dropped; one that
/// wasn't told so is none.
pub fn strays_that_are_dropped()
    ensures joined { let b = rtp_body 0 false [] in
        AreDroppedStrays ((9, b) ∷ (3, b) ∷ []) [] (Some (9, b)) }
    ensures left { let b = rtp_body 0 false [] in
        AreDroppedStrays ((9, b) ∷ (3, b) ∷ []) ((3, b) ∷ []) (Some (9, b)) }
    ensures untold { let b = rtp_body 0 false [] in AreDroppedStrays [] ((3, b) ∷ []) None → ⊥ }
{}

/// A stream ends where it begins anew, by `finish` and by `restart`, and by no other call.
pub fn streams_that_end()
    ensures all { let b = rtp_body 0 false [] in call_count ends_stream (PushCall 0 (7, b) Pushed.Anew
        ∷ FinishCall ∷ PushCall 0 (7, b) Pushed.Held ∷ RestartCall ∷ PushCall 0 (7, b) Pushed.Stray
        ∷ PushCall 0 (7, b) Pushed.Jumped ∷ BeginCall 7 ∷ NextCall 0 None ∷ []) ≡ 3 }
    ensures none { call_count ends_stream [] ≡ 0 }
{}

/// Calls are counted by what they tell, also where a packet comes back.
pub fn calls_that_tell()
    ensures twice { let b = rtp_body 0 false [] in
        call_count tells_twice (PushCall 0 (7, b) Pushed.Twice
        ∷ BackCall (7, b) NotPushedReason.Twice ∷ PushCall 0 (6, b) (Pushed.Late 1) ∷ []) ≡ 2 }
    ensures late { let b = rtp_body 0 false [] in
        call_count tells_late (PushCall 0 (7, b) Pushed.Twice ∷ PushCall 0 (6, b) (Pushed.Late 1)
        ∷ BackCall (6, b) (NotPushedReason.Late 1) ∷ BackCall (7, b) NotPushedReason.Full ∷ []) ≡ 2 }
    ensures stray { let b = rtp_body 0 false [] in
        call_count tells_stray (PushCall 0 (7, b) Pushed.Stray ∷ PushCall 0 (8, b) Pushed.Anew
        ∷ PushCall 0 (9, b) Pushed.Jumped ∷ []) ≡ 1 }
    ensures anew { let b = rtp_body 0 false [] in
        call_count tells_anew (PushCall 0 (7, b) Pushed.Stray ∷ PushCall 0 (8, b) Pushed.Anew
        ∷ RestartCall ∷ []) ≡ 1 }
{}

/// A packet is in turn behind 5 up to 32773, and where numbers go round.
pub fn packets_in_turn()
    ensures next { let b = rtp_body 0 false [] in AreInTurnBack ((6, b) ∷ (5, b) ∷ []) }
    ensures most { let b = rtp_body 0 false [] in AreInTurnBack ((32773, b) ∷ (5, b) ∷ []) }
    ensures over { let b = rtp_body 0 false [] in AreInTurnBack ((32774, b) ∷ (5, b) ∷ []) → ⊥ }
    ensures twice { let b = rtp_body 0 false [] in AreInTurnBack ((5, b) ∷ (5, b) ∷ []) → ⊥ }
    ensures round { let b = rtp_body 0 false [] in
        AreInTurnBack ((1, b) ∷ (0, b) ∷ (65535, b) ∷ []) }
    ensures due { let b = rtp_body 0 false [] in IsDueBehind (Some 0) ((65535, b) ∷ []) }
    ensures not_due { let b = rtp_body 0 false [] in IsDueBehind (Some 7) ((7, b) ∷ []) → ⊥ }
{}

/// Of two streams the second begins with any number.
pub fn streams_one_after_the_other()
    ensures two { let b = rtp_body 0 false [] in AreStreams 2 ((5, b) ∷ (6, b) ∷ (5, b) ∷ []) }
    ensures none { AreStreams 0 [] }
{}

/// Two access units are given out one after the other; one without bytes is none of them.
pub fn texts_that_are_given()
    ensures order { (first second : ReceivedAccessUnitValue) →
        texts_given (NextCall 2 (Some second) ∷ NextCall 1 None ∷ NextCall 0 (Some first) ∷ [])
        ≡ (first.timestamp, first.bytes) ∷ (second.timestamp, second.bytes) ∷ [] }
    ensures none { texts_given (FinishCall ∷ []) ≡ [] }
    ensures bare { texts_of (empty_unit 5 ∷ record (empty_unit 7) { bytes = 1 ∷ [] } ∷ [])
        ≡ (7, 1 ∷ []) ∷ [] }
{}

/// A number that bears nothing is skipped by a new assembler, and another one is told to it.
pub fn assemblers_of_packets()
    ensures skipped { (state : DepacketizerState) →
        IsAssemblerOf state ((7, rtp_body 0 false []) ∷ [])
        (marker_forgotten (after_unit_skip (open_assembly state None none_open []) 7)) }
    ensures told { (state : DepacketizerState) → IsAssemblerOf state []
        (record (open_assembly state None none_open []) { expected = Some 7 }) }
{}

/// A packet is pushed to a new receiver, or that is ended and begun again: calls that can be made, and
/// packets accounted for.
pub fn calls_of_a_receiver()
    ensures pushed { (config : AccessUnitConfig) (state : DepacketizerState) →
        let s = fresh_reception (record config { window = 64; held_limit = 9 }) state in
        let p : ℕ × RtpBody = (7, rtp_body 0 false []) in
        AreReceiverCalls s (PushCall 0 p Pushed.Held ∷ []) (after_reception 0 s p Pushed.Held) }
    ensures restarted { (config : AccessUnitConfig) (state : DepacketizerState) →
        let s = fresh_reception config state in AreReceiverCalls s (RestartCall ∷ FinishCall ∷ [])
        (restarted (ended_reception s)) }
    ensures accounted { (config : AccessUnitConfig) (state : DepacketizerState) →
        let s = fresh_reception (record config { window = 64; held_limit = 9 }) state in
        let p : ℕ × RtpBody = (7, rtp_body 0 false []) in
        IsAccounted state (PushCall 0 p Pushed.Held ∷ []) (after_reception 0 s p Pushed.Held) }
{}
