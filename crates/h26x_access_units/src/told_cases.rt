//! Worked cases of access units all of whose packets are taken, each the contract of a function without
//! a result.

ghost use Rattle.std.specs.Prelude.{◌≡◌, ◌≤◌, ◌<◌, ◌+◌, ℕ, Option, length, List, true, false, None, Some, [], ◌∷◌, Ok, Err, MatchBool};
ghost use Rattle.h26x_core.specs.ByteStream.{annex_b};
ghost use Rattle.h26x_core.specs.declared.error.PacketError.{PacketError};
ghost use Rattle.h26x_core.specs.declared.extra.CodecExtra.TheVariants as extras;
ghost use Rattle.h26x_model.specs.Receive.DepacketizerState.{DepacketizerState, Depacketization, depacketization};
ghost use Rattle.h26x_model.specs.Receive.RunLimit.{run_len};
ghost use Rattle.h26x_receiver.specs.declared.received.Received.TheVariants as received;
ghost use Rattle.h26x_reorder.specs.Rtp.{RtpBody, rtp_body};
ghost use Rattle.h26x_access_units.specs.declared.config.AccessUnitConfig.{AccessUnitConfig};
ghost use Rattle.h26x_assembler.specs.AccessUnit.{is_run_closed, is_unit_broken};
ghost use Rattle.h26x_access_units.specs.JitterBuffer.{may_tell_first};
ghost use Rattle.h26x_access_units.specs.Numbers.{bears_nothing};
ghost use Rattle.h26x_access_units.specs.ReceivedAccessUnit.{ReceivedAccessUnitValue};
ghost use Rattle.h26x_access_units.specs.Reception.{Reception, fresh_reception, IsDueTaken, IsDrained, IsEndedBefore, none, bare, more, behind};
ghost use Rattle.h26x_access_units.specs.Account.{NextCall, FinishCall, RestartCall, SettingsCall, BeginCall, IsCall};
ghost use Rattle.h26x_access_units.specs.WholeSent.{bears_slice, IsWrittenOf};
ghost use Rattle.h26x_access_units.specs.ToldWhole.{TookPacket, PassedPacket, EndedBefore, EndedStream, ToldFirst, DroppedAll, packet_deed, drained_deeds, stream_deeds, push_deeds, call_deeds, is_stream_new, are_told_first, took_none, open_stamp, AreOfSender, AreOfSenderAtFronts, took_places, settings_set, units_given, IsInTime, due_taken, due_passed, sent_text, IsUnitSent, IsBegunSo, IsEndedSo, WereAllTaken, WereTakenWithoutLoss, CanBeWritten, WasToldWhole};

/// A packet is taken that has a payload and isn't late; others, and those refused, are passed over.
pub fn packets_that_are_taken()
    ensures taken { let p : ℕ × RtpBody = (7, rtp_body 5 true (1 ∷ [])) in
        packet_deed p (Ok received.InOrder) ≡ TookPacket p }
    ensures gap { let p : ℕ × RtpBody = (7, rtp_body 5 true (1 ∷ [])) in
        packet_deed p (Ok (received.Gap 2)) ≡ TookPacket p }
    ensures late { let p : ℕ × RtpBody = (7, rtp_body 5 true (1 ∷ [])) in
        packet_deed p (Ok (received.Late 2)) ≡ PassedPacket p }
    ensures empty { let p : ℕ × RtpBody = (7, rtp_body 5 true []) in
        packet_deed p (Ok received.InOrder) ≡ PassedPacket p }
    ensures refused { (p : ℕ × RtpBody) (error : PacketError) →
        packet_deed p (Err error) ≡ PassedPacket p }
{}

/// What is done with packets that are due, the last one first: none is left out.
pub fn deeds_with_packets_that_are_due()
    ensures none { (now : ℕ) (s : Reception) →
        drained_deeds {now = now} {s = s} {new = s} none ≡ [] }
    ensures bare { (now : ℕ) (s t : Reception) (before : IsDrained now s t) →
        drained_deeds (bare before) ≡ drained_deeds before }
    ensures more { (now : ℕ) (s t u : Reception) (before : IsDrained now s t)
        (empty : t.assembler.ended ≡ []) (it : IsDueTaken now t u) →
        drained_deeds (more before empty it)
        ≡ packet_deed it.packet it.answer ∷ drained_deeds before }
    ensures behind { (now : ℕ) (s t u : Reception) (before : IsDrained now s t)
        (empty : t.assembler.ended ≡ []) (it : IsEndedBefore now t u) →
        drained_deeds (behind before empty it) ≡ EndedBefore it.packet ∷ drained_deeds before }
    ensures at_once { (now : ℕ) (s t : Reception) (it : IsDueTaken now s t) →
        push_deeds now s t true it ≡ packet_deed it.packet it.answer ∷ [] }
    ensures aside { (now : ℕ) (s t : Reception) (same : t ≡ s) →
        push_deeds now s t false same ≡ [] }
    ensures ends { (config : AccessUnitConfig) (state : DepacketizerState) →
        stream_deeds (fresh_reception config state) true ≡ EndedStream ∷ [] }
    ensures goes_on { (config : AccessUnitConfig) (state : DepacketizerState) →
        stream_deeds (fresh_reception config state) false ≡ [] }
{}

/// What other calls do: `restart` drops all, `finish` does nothing until `next` is called, and a number
/// is told where none is due.
pub fn deeds_of_other_calls()
    ensures restart { (s t : Reception) (it : IsCall RestartCall s t) →
        call_deeds RestartCall s t it ≡ DroppedAll ∷ [] }
    ensures finish { (s t : Reception) (it : IsCall FinishCall s t) →
        call_deeds FinishCall s t it ≡ [] }
    ensures settings { (config : AccessUnitConfig) (s t : Reception)
        (it : IsCall (SettingsCall config) s t) → call_deeds (SettingsCall config) s t it ≡ [] }
    ensures told { (s t : Reception) (it : IsCall (BeginCall 7) s t) →
        may_tell_first s.waiting ≡ true → call_deeds (BeginCall 7) s t it ≡ ToldFirst 7 ∷ [] }
    ensures untold { (s t : Reception) (it : IsCall (BeginCall 7) s t) →
        may_tell_first s.waiting ≡ false → call_deeds (BeginCall 7) s t it ≡ [] }
    ensures set { (c d : AccessUnitConfig) →
        settings_set (SettingsCall c ∷ FinishCall ∷ SettingsCall d ∷ []) ≡ c ∷ d ∷ [] }
    ensures given { (one other : ReceivedAccessUnitValue) → units_given (NextCall 0 (Some one)
        ∷ NextCall 0 None ∷ FinishCall ∷ NextCall 0 (Some other) ∷ []) ≡ one ∷ other ∷ [] }
{}

/// A stream is new at the beginning, where the one before ended, and where all was dropped; which
/// timestamp an access unit may have that is open; whether a packet was taken; and whether numbers were
/// told only of new streams.
pub fn what_deeds_tell()
    ensures new { is_stream_new [] ≡ true }
    ensures ended { (p : ℕ × RtpBody) → is_stream_new (EndedStream ∷ TookPacket p ∷ []) ≡ true }
    ensures dropped { (p : ℕ × RtpBody) → is_stream_new (DroppedAll ∷ TookPacket p ∷ []) ≡ true }
    ensures begun { (p : ℕ × RtpBody) → is_stream_new (PassedPacket p ∷ []) ≡ false }
    ensures told { is_stream_new (ToldFirst 7 ∷ []) ≡ false }
    ensures stamp { open_stamp (PassedPacket (9, rtp_body 6 true []) ∷ ToldFirst 9
        ∷ TookPacket (8, rtp_body 5 true []) ∷ TookPacket (7, rtp_body 4 true []) ∷ []) ≡ Some 5 }
    ensures stampless { (p : ℕ × RtpBody) →
        open_stamp (EndedBefore p ∷ TookPacket (8, rtp_body 5 true []) ∷ []) ≡ None }
    ensures streamless { open_stamp (EndedStream ∷ TookPacket (8, rtp_body 5 true []) ∷ []) ≡ None }
    ensures none { (p : ℕ × RtpBody) → took_none (PassedPacket p ∷ ToldFirst 7 ∷ []) ≡ true }
    ensures one { (p : ℕ × RtpBody) → took_none (EndedStream ∷ TookPacket p ∷ []) ≡ false }
    ensures since { (p : ℕ × RtpBody) →
        took_none (EndedStream ∷ DroppedAll ∷ TookPacket p ∷ []) ≡ true }
    ensures told_first { (p : ℕ × RtpBody) → are_told_first (PassedPacket p ∷ ToldFirst 7
        ∷ EndedStream ∷ TookPacket p ∷ ToldFirst 5 ∷ []) ≡ true }
    ensures told_late { (p : ℕ × RtpBody) →
        are_told_first (EndedStream ∷ ToldFirst 7 ∷ TookPacket p ∷ []) ≡ false }
    ensures told_before { (p : ℕ × RtpBody) →
        are_told_first (DroppedAll ∷ ToldFirst 7 ∷ TookPacket p ∷ []) ≡ true }
{}

/// A packet comes in time that is fewer than 2^15 places ahead of the one that is due, or 2^15 at most
/// behind it: of that behind the furthest that was taken.
pub fn packets_that_come_in_time()
    ensures first { IsInTime None 7 }
    ensures ahead { IsInTime (Some 40000) 72767 }
    ensures too_far { IsInTime (Some 40000) 72768 → ⊥ }
    ensures behind { IsInTime (Some 40000) 7232 }
    ensures too_late { IsInTime (Some 40000) 7231 → ⊥ }
    ensures taken { due_taken None 7 ≡ 8 }
    ensures next { due_taken (Some 7) 7 ≡ 8 }
    ensures further { due_taken (Some 7) 70000 ≡ 70001 }
    ensures late { due_taken (Some 7) 6 ≡ 7 }
    ensures none_taken { due_passed None 7 ≡ None }
    ensures passed { due_passed (Some 7) 9 ≡ Some 10 }
{}

/// Packets of a sender at their places, where numbers go round; a stranger, and a number that is told
/// behind a packet, are none of its, but those before all was dropped are of any sender.
pub fn deeds_with_packets_of_a_sender()
    ensures own { let b = rtp_body 5 true (1 ∷ []) in AreOfSender (rtp_body 4 true (1 ∷ []) ∷ b ∷ [])
        65535 (Some 2) (TookPacket (0, b) ∷ ToldFirst 0 ∷ EndedStream ∷ PassedPacket (0, b)
        ∷ EndedBefore (0, b) ∷ []) }
    ensures stranger { (due : Option ℕ) → AreOfSender (rtp_body 4 true (1 ∷ []) ∷ []) 7 due
        (TookPacket (8, rtp_body 4 true (1 ∷ [])) ∷ []) → ⊥ }
    ensures behind { (due : Option ℕ) → let b = rtp_body 4 true (1 ∷ []) in AreOfSender (b ∷ []) 7 due
        (ToldFirst 8 ∷ TookPacket (7, b) ∷ []) → ⊥ }
    ensures told { AreOfSender (rtp_body 4 true (1 ∷ []) ∷ []) 7 (Some 0) (ToldFirst 7 ∷ []) → ⊥ }
    ensures before { let b = rtp_body 4 true (1 ∷ []) in AreOfSender (b ∷ []) 7 (Some 1)
        (TookPacket (7, b) ∷ DroppedAll ∷ TookPacket (8, rtp_body 4 true (2 ∷ [])) ∷ []) }
    ensures late { let a = rtp_body 4 true (1 ∷ []) in let b = rtp_body 5 true (1 ∷ []) in
        AreOfSender (a ∷ b ∷ []) 65535 (Some 2)
        (PassedPacket (65535, a) ∷ TookPacket (0, b) ∷ []) }
    ensures ended { (due : Option ℕ) → AreOfSender (rtp_body 4 true (1 ∷ []) ∷ []) 7 due
        (EndedStream ∷ PassedPacket (8, rtp_body 4 true (1 ∷ [])) ∷ []) → ⊥ }
    ensures places { let b = rtp_body 5 false (2 ∷ []) in let c = rtp_body 5 true (3 ∷ []) in
        took_places (rtp_body 4 true (1 ∷ []) ∷ b ∷ c ∷ []) 65535 1 2
        ≡ TookPacket (1, c) ∷ TookPacket (0, b) ∷ [] }
{}

/// A number that is told is that of a place at which an access unit begins, which is due then: what
/// comes is in time of it. None is told within an access unit, behind a packet, or of no place.
pub fn numbers_told_of_fronts()
    ensures told { AreOfSenderAtFronts (rtp_body 4 true (1 ∷ []) ∷ rtp_body 5 true (1 ∷ []) ∷ []) 65535
        (Some 1) (ToldFirst 0 ∷ []) }
    ensures taken { let b = rtp_body 5 true (1 ∷ []) in
        AreOfSenderAtFronts (rtp_body 4 true (1 ∷ []) ∷ b ∷ []) 65535
        (Some 2) (TookPacket (0, b) ∷ ToldFirst 0 ∷ EndedStream ∷ []) }
    ensures due { AreOfSenderAtFronts (rtp_body 4 true (1 ∷ []) ∷ rtp_body 5 true (1 ∷ []) ∷ []) 65535
        None (ToldFirst 0 ∷ []) → ⊥ }
    ensures within { (due : Option ℕ) → AreOfSenderAtFronts (rtp_body 4 false (1 ∷ [])
        ∷ rtp_body 4 true (1 ∷ []) ∷ []) 65535 due (ToldFirst 0 ∷ []) → ⊥ }
    ensures behind { (due : Option ℕ) → let a = rtp_body 4 true (1 ∷ []) in
        AreOfSenderAtFronts (a ∷ rtp_body 5 true (1 ∷ []) ∷ []) 65535 due
        (ToldFirst 0 ∷ TookPacket (65535, a) ∷ []) → ⊥ }
    ensures unsent { (due : Option ℕ) → AreOfSenderAtFronts (rtp_body 4 true (1 ∷ []) ∷ []) 7 due
        (ToldFirst 8 ∷ []) → ⊥ }
{}

/// Where nothing tells the number of an access unit's first packet it begins by its first unit: a
/// delimiter, whatever came before, where none is open of its timestamp; a parameter set of H.264 where
/// none was taken before. Another set begins none, nor does any set behind a packet, nor a delimiter in
/// an access unit of its timestamp.
pub fn access_units_that_begin_by_content()
    ensures delimiter { (r : DepacketizerState) → r.is_avc ≡ false →
        let w = depacketization r (annex_b ((9 ∷ 16 ∷ []) ∷ []))
        (extras.H264 (record { is_keyframe = false })) in
        IsBegunSo r (rtp_body 5 true (9 ∷ 16 ∷ []) ∷ []) 7 0 w
        (TookPacket (3, rtp_body 4 false (1 ∷ [])) ∷ []) }
    ensures in_one { (r : DepacketizerState) (w : Depacketization) →
        IsBegunSo r (rtp_body 5 true (9 ∷ 16 ∷ []) ∷ []) 7 0 w
        (TookPacket (3, rtp_body 5 false (1 ∷ [])) ∷ []) → ⊥ }
    ensures behind_one { (r : DepacketizerState) → r.is_avc ≡ false →
        let w = depacketization r (annex_b ((9 ∷ 16 ∷ []) ∷ []))
        (extras.H264 (record { is_keyframe = false })) in
        IsBegunSo r (rtp_body 5 true (9 ∷ 16 ∷ []) ∷ []) 7 0 w
        (EndedStream ∷ TookPacket (3, rtp_body 5 false (1 ∷ [])) ∷ []) }
    ensures first_set { (r : DepacketizerState) (p : ℕ × RtpBody) → r.is_avc ≡ false →
        let w = depacketization r (annex_b ((103 ∷ 66 ∷ []) ∷ []))
        (extras.H264 (record { is_keyframe = false })) in
        IsBegunSo r (rtp_body 5 true (103 ∷ 66 ∷ []) ∷ []) 7 0 w
        (PassedPacket p ∷ DroppedAll ∷ TookPacket p ∷ []) }
    ensures other_set { (r : DepacketizerState) → r.is_avc ≡ false →
        let w = depacketization r (annex_b ((104 ∷ 206 ∷ []) ∷ []))
        (extras.H264 (record { is_keyframe = false })) in
        IsBegunSo r (rtp_body 5 true (104 ∷ 206 ∷ []) ∷ []) 7 0 w [] → ⊥ }
    ensures later_set { (r : DepacketizerState) → r.is_avc ≡ false →
        let w = depacketization r (annex_b ((103 ∷ 66 ∷ []) ∷ []))
        (extras.H264 (record { is_keyframe = false })) in
        IsBegunSo r (rtp_body 5 true (103 ∷ 66 ∷ []) ∷ []) 7 0 w
        (TookPacket (3, rtp_body 4 false (1 ∷ [])) ∷ []) → ⊥ }
{}

/// Packets taken without a loss, from the first on or a later one, with the end of the stream behind
/// them; not where one is missing, and where all was dropped since.
pub fn packets_taken_without_loss()
    ensures all { (r : DepacketizerState) → let a = rtp_body 4 true (1 ∷ []) in
        let b = rtp_body 5 true (2 ∷ []) in let c = rtp_body 6 true (3 ∷ []) in
        WereTakenWithoutLoss r (a ∷ b ∷ c ∷ []) 65535 1 1
        (EndedStream ∷ TookPacket (1, c) ∷ TookPacket (0, b) ∷ TookPacket (65535, a) ∷ []) }
    ensures later { (r : DepacketizerState) → let a = rtp_body 4 true (1 ∷ []) in
        let b = rtp_body 5 true (2 ∷ []) in let c = rtp_body 6 true (3 ∷ []) in
        WereTakenWithoutLoss r (a ∷ b ∷ c ∷ []) 65535 1 1
        (TookPacket (1, c) ∷ TookPacket (0, b) ∷ ToldFirst 0 ∷ []) }
    ensures last { (r : DepacketizerState) → bears_slice r.format (2 ∷ []) ≡ true →
        let a = rtp_body 4 true (1 ∷ []) in let b = rtp_body 5 true (2 ∷ []) in
        WereTakenWithoutLoss r (a ∷ b ∷ []) 65535 1 1
        (TookPacket (0, b) ∷ TookPacket (65535, a) ∷ []) }
    ensures open { (r : DepacketizerState) → bears_slice r.format (2 ∷ []) ≡ false →
        let a = rtp_body 4 true (1 ∷ []) in let b = rtp_body 5 true (2 ∷ []) in
        WereTakenWithoutLoss r (a ∷ b ∷ []) 65535 1 1
        (TookPacket (0, b) ∷ TookPacket (65535, a) ∷ []) → ⊥ }
    ensures lost { (r : DepacketizerState) → let a = rtp_body 4 true (1 ∷ []) in
        let b = rtp_body 5 true (2 ∷ []) in let c = rtp_body 6 true (3 ∷ []) in
        WereTakenWithoutLoss r (a ∷ b ∷ c ∷ []) 65535 1 1
        (TookPacket (1, c) ∷ TookPacket (65535, a) ∷ []) → ⊥ }
    ensures dropped { (r : DepacketizerState) → let a = rtp_body 4 true (1 ∷ []) in
        let b = rtp_body 5 true (2 ∷ []) in WereTakenWithoutLoss r (a ∷ b ∷ []) 65535 0 1
        (DroppedAll ∷ TookPacket (0, b) ∷ TookPacket (65535, a) ∷ ToldFirst 65535 ∷ []) → ⊥ }
{}

/// An access unit of two packets, by its sender: neither a part of it is one, nor none. It began behind
/// the packet before, or with the number that was told, and ended by its marker, where it has a slice,
/// or by the next packet.
pub fn access_units_whose_packets_are_taken()
    ensures unit { IsUnitSent (rtp_body 4 true (1 ∷ []) ∷ rtp_body 5 false (2 ∷ [])
        ∷ rtp_body 5 true (3 ∷ []) ∷ rtp_body 6 true (4 ∷ []) ∷ []) 1 2 }
    ensures part { IsUnitSent (rtp_body 5 false (2 ∷ []) ∷ rtp_body 5 true (3 ∷ []) ∷ []) 0 1 → ⊥ }
    ensures rest { IsUnitSent (rtp_body 5 false (2 ∷ []) ∷ rtp_body 5 true (3 ∷ []) ∷ []) 1 1 → ⊥ }
    ensures nothing { (sent : List RtpBody) → IsUnitSent sent 0 0 → ⊥ }
    ensures behind { (r : DepacketizerState) (w : Depacketization) →
        let a = rtp_body 4 true (1 ∷ []) in
        IsBegunSo r (a ∷ rtp_body 5 true (2 ∷ []) ∷ []) 65535 1 w (TookPacket (65535, a) ∷ []) }
    ensures told { (r : DepacketizerState) (w : Depacketization) → IsBegunSo r
        (rtp_body 4 true (1 ∷ []) ∷ rtp_body 5 true (2 ∷ []) ∷ []) 65535 1 w (ToldFirst 0 ∷ []) }
    ensures marked { (r : DepacketizerState) → bears_slice r.format (2 ∷ []) ≡ true →
        IsEndedSo r (rtp_body 5 false (2 ∷ []) ∷ rtp_body 5 true (3 ∷ []) ∷ []) 7 0 2 [] }
    ensures unmarked { (r : DepacketizerState) →
        IsEndedSo r (rtp_body 5 false (2 ∷ []) ∷ rtp_body 6 true (3 ∷ []) ∷ []) 7 0 1 [] → ⊥ }
    ensures sliceless { (r : DepacketizerState) → bears_slice r.format (2 ∷ []) ≡ false →
        IsEndedSo r (rtp_body 5 true (2 ∷ []) ∷ []) 7 0 1 [] → ⊥ }
    ensures taken { (r : DepacketizerState) → let a = rtp_body 4 true (1 ∷ []) in
        let b = rtp_body 5 false (2 ∷ []) in let c = rtp_body 5 false (3 ∷ []) in
        let d = rtp_body 6 true (4 ∷ []) in WereAllTaken r (a ∷ b ∷ c ∷ d ∷ []) 65535 1 2
        (TookPacket (2, d) ∷ TookPacket (1, c) ∷ TookPacket (0, b) ∷ TookPacket (65535, a) ∷ []) }
    ensures written { (r : DepacketizerState) (config : AccessUnitConfig) →
        let w = sent_text r (rtp_body 5 true (1 ∷ []) ∷ []) 0 in
        bears_nothing (w 1).out ≡ false → is_unit_broken (w 0) (w 1) (1 ∷ []) ≡ false →
        is_run_closed (w 1).state.run ≡ true → run_len (w 1).state.run ≤ config.run_limit →
        length (w 1).out ≤ config.unit_limit →
        CanBeWritten r (rtp_body 5 true (1 ∷ []) ∷ []) 0 1 (config ∷ []) }
    ensures too_long { (r : DepacketizerState) (config : AccessUnitConfig) → config.unit_limit ≡ 0 →
        CanBeWritten r (rtp_body 5 true (1 ∷ []) ∷ []) 0 1 (config ∷ []) → ⊥ }
    ensures whole { (r : DepacketizerState) (one : ReceivedAccessUnitValue) → one.is_whole ≡ true →
        one.timestamp ≡ 5 → one.first ≡ 7 → IsWrittenOf r ((1 ∷ []) ∷ []) one →
        WasToldWhole r (rtp_body 5 true (1 ∷ []) ∷ []) 7 0 1 (NextCall 3 (Some one) ∷ []) }
    ensures untold { (r : DepacketizerState) (sent : List RtpBody) →
        WasToldWhole r sent 7 0 1 (NextCall 3 None ∷ []) → ⊥ }
{}
