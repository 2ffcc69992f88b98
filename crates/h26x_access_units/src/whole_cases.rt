//! Worked cases of access units that are told to be whole, each the contract of a function without a
//! result.

ghost use Rattle.std.specs.Prelude.{◌≡◌, ◌≤◌, ℕ, Bool, length, List, true, false, None, Some, [], ◌∷◌};
ghost use Rattle.h26x_core.specs.declared.error.PacketError.TheVariants as errors;
ghost use Rattle.h26x_core.specs.declared.extra.CodecExtra.{CodecExtra};
ghost use Rattle.h26x_core.specs.declared.extra.CodecExtra.TheVariants as extras;
ghost use Rattle.h26x_model.specs.Payload.Format.{Format};
ghost use Rattle.h26x_model.specs.Payload.Reading.{Single, Refused};
ghost use Rattle.h26x_model.specs.Receive.DepacketizerState.{DepacketizerState, after_packets};
ghost use Rattle.h26x_reorder.specs.Rtp.{RtpBody, rtp_body};
ghost use Rattle.h26x_access_units.specs.declared.content.UnitKind.TheVariants as kinds;
ghost use Rattle.h26x_access_units.specs.declared.decoder.DecoderState.{DecoderState};
ghost use Rattle.h26x_access_units.specs.Content.{content_of};
ghost use Rattle.h26x_access_units.specs.Decoder.{is_front};
ghost use Rattle.h26x_access_units.specs.Framing.{shown_by};
ghost use Rattle.h26x_access_units.specs.Account.{PushCall, FinishCall, RestartCall, BeginCall};
ghost use Rattle.h26x_access_units.specs.WholeSent.{told_numbers, since_restart, reads_no_unit, has_no_text, begins_unit, bears_slice, IsSliceBefore, IsNextBegun, is_last_marked, nothing_written, ArePacketsOf, IsRightBehind, IsBegunInOrder, IsBegunByContent, IsUnitEnded, IsOfWholePackets, sent_at, sent_number, sent_payloads, IsSentAt, IsUnitFront, IsFrontNumber, IsFrontNowhere, IsSender, CameFromSender, IsWrittenOf, WasSent};
ghost use Rattle.h26x_access_units.specs.UnitsSent.{sent_packets, AreNeighboursApart, IsOneSent, IsWrittenAsSent, call_units, told_unit};
ghost use Rattle.h26x_assembler.specs.StampedCalls.{StampedCall, access_unit_packets, after_call, sent_unit};
ghost use Rattle.h26x_assembler.specs.AccessUnit.{is_run_closed};
ghost use Rattle.h26x_model.specs.Send.PacketizerState.{PacketizerState};
ghost use Rattle.h26x_access_units.specs.ReceivedAccessUnit.{ReceivedAccessUnitValue};

use crate::pushed::Pushed;

/// The numbers that were told are those of `begin_at`, the last one first.
pub fn numbers_that_were_told()
    ensures two { told_numbers (BeginCall 7 ∷ FinishCall ∷ BeginCall 5 ∷ []) ≡ 7 ∷ 5 ∷ [] }
    ensures none { told_numbers (PushCall 0 (7, rtp_body 0 false []) Pushed.Held ∷ []) ≡ [] }
{}

/// The calls since the last `restart`, the last one first; all where none was.
pub fn calls_since_a_restart()
    ensures since { since_restart (FinishCall ∷ BeginCall 7 ∷ RestartCall ∷ BeginCall 5
        ∷ RestartCall ∷ []) ≡ FinishCall ∷ BeginCall 7 ∷ [] }
    ensures all { since_restart (FinishCall ∷ BeginCall 7 ∷ []) ≡ FinishCall ∷ BeginCall 7 ∷ [] }
{}

/// A packet bears nothing that has no payload, or that is refused for its type; one that is too short
/// is refused for another reason, and one that is read bears something.
pub fn packets_that_bear_nothing()
    ensures empty { (f : Format) → has_no_text f [] ≡ true }
    ensures unknown { (extra : CodecExtra) →
        reads_no_unit extra (30 ∷ []) (Refused (errors.NaluTypeIsNotHandled 30)) ≡ true }
    ensures short { (extra : CodecExtra) →
        reads_no_unit extras.None (0 ∷ []) (Refused errors.ErrShortPacket) ≡ false }
    ensures read { (extra : CodecExtra) → reads_no_unit extra (1 ∷ []) (Single (1 ∷ []) None) ≡ false }
    ensures refused { (f : Format) → f.read (30 ∷ []) ≡ Refused (errors.NaluTypeIsNotHandled 30) →
        has_no_text f (30 ∷ []) ≡ true }
    ensures bearing { (f : Format) → f.read (1 ∷ []) ≡ Single (1 ∷ []) None →
        has_no_text f (1 ∷ []) ≡ false }
{}

/// A packet whose first unit is a delimiter begins an access unit behind a slice, and one that begins
/// none, or another unit, does not.
pub fn packets_that_begin_one()
    ensures begins { (f : Format) (packet : List ℕ) →
        (shown_by f packet).first ≡ Some kinds.Delimiter → begins_unit f packet ≡ true }
    ensures none { (f : Format) (packet : List ℕ) → (shown_by f packet).first ≡ None →
        begins_unit f packet ≡ false }
    ensures other { (f : Format) (packet : List ℕ) →
        (shown_by f packet).first ≡ Some kinds.Other → begins_unit f packet ≡ false }
    ensures slice { (f : Format) (packet : List ℕ) → (shown_by f packet).has_slice ≡ true →
        bears_slice f packet ≡ true }
{}

/// Behind a packet with a slice another one may have a number up to 32767 ahead, and numbers go round.
pub fn slices_before_a_number()
    ensures last { (f : Format) → bears_slice f (1 ∷ []) ≡ true →
        IsSliceBefore f 5 0 ((65535, rtp_body 5 false (1 ∷ [])) ∷ []) }
    ensures earlier { (f : Format) → bears_slice f (1 ∷ []) ≡ true →
        IsSliceBefore f 5 32776 ((32775, rtp_body 6 false (2 ∷ []))
        ∷ (7, rtp_body 5 false (1 ∷ [])) ∷ []) }
    ensures none { (f : Format) → IsSliceBefore f 5 8 [] → ⊥ }
    ensures other { (f : Format) → IsSliceBefore f 5 8 ((7, rtp_body 6 false (1 ∷ [])) ∷ []) → ⊥ }
    ensures sliceless { (f : Format) →
        IsNextBegun ((8, rtp_body 5 false (2 ∷ [])) ∷ []) f 5 8 [] → ⊥ }
    ensures next { (f : Format) → bears_slice f (1 ∷ []) ≡ true → begins_unit f (2 ∷ []) ≡ true →
        IsNextBegun ((8, rtp_body 5 false (2 ∷ [])) ∷ []) f 5 8
        ((7, rtp_body 5 false (1 ∷ [])) ∷ []) }
{}

/// The last packet bears the marker, or nothing.
pub fn packets_that_close_one()
    ensures marked { (f : Format) → is_last_marked f ((7, rtp_body 5 true (1 ∷ [])) ∷ []) ≡ true }
    ensures bare { (f : Format) → is_last_marked f ((7, rtp_body 5 false []) ∷ []) ≡ true }
    ensures neither { (f : Format) → has_no_text f (1 ∷ []) ≡ false →
        is_last_marked f ((7, rtp_body 5 false (1 ∷ [])) ∷ []) ≡ false }
    ensures earlier { (f : Format) → has_no_text f (1 ∷ []) ≡ false →
        is_last_marked f ((8, rtp_body 5 false (1 ∷ [])) ∷ (7, rtp_body 5 true []) ∷ []) ≡ false }
    ensures none { (f : Format) → is_last_marked f [] ≡ false }
{}

/// Two packets of an access unit where numbers go round, and one between them that bears nothing; one
/// of another timestamp is none of them.
pub fn packets_of_an_access_unit()
    ensures three { (r : DepacketizerState) → has_no_text r.format (1 ∷ []) ≡ false →
        ArePacketsOf r 5 (65534, rtp_body 5 false (1 ∷ [])) (0, rtp_body 5 true (1 ∷ [])) 1
        ((0, rtp_body 5 true (1 ∷ [])) ∷ (65535, rtp_body 9 false [])
        ∷ (65534, rtp_body 5 false (1 ∷ [])) ∷ [])
        (after_packets (after_packets (nothing_written r) ((1 ∷ []) ∷ [])) ((1 ∷ []) ∷ [])) }
    ensures fresh { (r : DepacketizerState) → (nothing_written r).state.run ≡ None }
    ensures empty { (r : DepacketizerState) → (nothing_written r).out ≡ [] }
{}

/// A number right behind a packet, and behind another one that bears nothing; and one that was told.
pub fn numbers_right_behind()
    ensures one { (f : Format) → has_no_text f (1 ∷ []) ≡ false →
        IsRightBehind [] f 0 (Some 5) ((65535, rtp_body 5 false (1 ∷ [])) ∷ []) }
    ensures bare { (f : Format) → has_no_text f (1 ∷ []) ≡ false →
        IsRightBehind [] f 1 (Some 5) ((0, rtp_body 9 false [])
        ∷ (65535, rtp_body 5 false (1 ∷ [])) ∷ []) }
    ensures told { (f : Format) → IsRightBehind (7 ∷ []) f 7 None [] }
    ensures untold { (f : Format) → IsRightBehind [] f 7 None [] → ⊥ }
    ensures order { (f : Format) → has_no_text f (1 ∷ []) ≡ false →
        IsBegunInOrder [] [] f 6 (8, rtp_body 6 false (1 ∷ []))
        ((7, rtp_body 5 false (1 ∷ [])) ∷ []) }
    ensures still { (f : Format) → has_no_text f (1 ∷ []) ≡ false → begins_unit f (2 ∷ []) ≡ true →
        IsBegunInOrder [] [] f 5 (8, rtp_body 5 false (2 ∷ []))
        ((7, rtp_body 5 true (1 ∷ [])) ∷ []) }
{}

/// An access unit ends by its marker, or before a packet of another timestamp.
pub fn access_units_that_end()
    ensures marker { (f : Format) →
        IsUnitEnded [] f 5 8 ((7, rtp_body 5 true (1 ∷ [])) ∷ []) [] }
    ensures stamp { (f : Format) → IsUnitEnded ((8, rtp_body 6 false []) ∷ []) f 5 8
        ((7, rtp_body 5 false (1 ∷ [])) ∷ []) [] }
    ensures content { (f : Format) → bears_slice f (1 ∷ []) ≡ true → begins_unit f (2 ∷ []) ≡ true →
        IsUnitEnded ((8, rtp_body 5 false (2 ∷ [])) ∷ []) f 5 8
        ((7, rtp_body 5 false (1 ∷ [])) ∷ []) [] }
    ensures neither { (f : Format) →
        IsUnitEnded [] f 5 8 ((7, rtp_body 5 false (1 ∷ [])) ∷ []) [] → ⊥ }
{}

/// Packets that were sent, by their places: numbers go round.
pub fn packets_by_their_places()
    ensures number { sent_number 65535 1 ≡ 0 }
    ensures second { let b = rtp_body 5 true (1 ∷ []) in
        sent_at (rtp_body 4 true [] ∷ b ∷ []) 1 ≡ b }
    ensures payloads { sent_payloads (rtp_body 4 true (1 ∷ []) ∷ rtp_body 5 false (2 ∷ [])
        ∷ rtp_body 5 true (3 ∷ []) ∷ rtp_body 6 true (4 ∷ []) ∷ []) 1 2
        ≡ (2 ∷ []) ∷ (3 ∷ []) ∷ [] }
    ensures sent { let b = rtp_body 5 true (1 ∷ []) in
        IsSentAt (rtp_body 4 true [] ∷ b ∷ []) 65535 (0, b) }
    ensures first { IsUnitFront (rtp_body 5 true [] ∷ []) 0 }
    ensures front { IsUnitFront (rtp_body 4 true [] ∷ rtp_body 5 true [] ∷ []) 1 }
    ensures within { IsUnitFront (rtp_body 5 false [] ∷ rtp_body 5 true [] ∷ []) 1 → ⊥ }
    ensures told { IsFrontNumber (rtp_body 4 true [] ∷ rtp_body 5 true [] ∷ []) 65535 0 }
    ensures untold { IsFrontNumber (rtp_body 4 true [] ∷ rtp_body 5 true [] ∷ []) 65535 7 → ⊥ }
{}

/// A sender of none, of two access units of a packet each, and of one of two packets, of which the
/// second isn't taken for a front whatever the next access unit begins with; none that marks a packet
/// within one, or sends one that bears nothing; and what came of one.
pub fn senders()
    ensures none { (r : DepacketizerState) → IsSender r [] }
    ensures two { (r : DepacketizerState) → has_no_text r.format (1 ∷ []) ≡ false →
        IsSender r (rtp_body 5 true (1 ∷ []) ∷ rtp_body 6 true (1 ∷ []) ∷ []) }
    ensures parted { (r : DepacketizerState) → has_no_text r.format (1 ∷ []) ≡ false →
        begins_unit r.format (1 ∷ []) ≡ false → IsFrontNowhere r (rtp_body 5 false (1 ∷ [])
        ∷ rtp_body 5 true (1 ∷ []) ∷ []) → IsSender r (rtp_body 5 false (1 ∷ [])
        ∷ rtp_body 5 true (1 ∷ []) ∷ []) }
    ensures before_a_front { (r : DepacketizerState) → ((d : DecoderState) → is_front d
        (after_packets (nothing_written r) ((2 ∷ []) ∷ [])).extra
        (content_of r.is_avc (after_packets (nothing_written r) ((2 ∷ []) ∷ [])).extra
        (after_packets (nothing_written r) ((2 ∷ []) ∷ [])).out).first ≡ false) →
        IsFrontNowhere r (rtp_body 5 false (1 ∷ []) ∷ rtp_body 5 true (2 ∷ [])
        ∷ rtp_body 6 true (3 ∷ []) ∷ []) }
    ensures marked { (r : DepacketizerState) → IsSender r (rtp_body 5 true (1 ∷ [])
        ∷ rtp_body 5 true (1 ∷ []) ∷ []) → ⊥ }
    ensures bare { (r : DepacketizerState) → IsSender r (rtp_body 5 true [] ∷ []) → ⊥ }
    ensures behind { (r : DepacketizerState) → bears_slice r.format (1 ∷ []) ≡ true →
        begins_unit r.format (2 ∷ []) ≡ true → IsSender r (rtp_body 5 false (1 ∷ [])
        ∷ rtp_body 5 true (2 ∷ []) ∷ []) → ⊥ }
    ensures few { (r : DepacketizerState) (sent : List RtpBody) (first : ℕ) →
        CameFromSender [] [] r sent first → length sent ≤ 32768 }
    ensures untold { (r : DepacketizerState) → CameFromSender (7 ∷ []) [] r
        (rtp_body 5 true (1 ∷ []) ∷ rtp_body 6 true (1 ∷ []) ∷ []) 65535 → ⊥ }
    ensures came { (r : DepacketizerState) → has_no_text r.format (1 ∷ []) ≡ false →
        CameFromSender (65535 ∷ []) ((0, rtp_body 6 true (1 ∷ [])) ∷ []) r
        (rtp_body 5 true (1 ∷ []) ∷ rtp_body 6 true (1 ∷ []) ∷ []) 65535 }
{}

/// Neighbours have other timestamps, others may have the same, and each has a packet.
pub fn access_units_side_by_side()
    ensures apart { AreNeighboursApart (sent_packets 5 ([] ∷ []) ∷ sent_packets 6 ([] ∷ [] ∷ [])
        ∷ sent_packets 5 ([] ∷ []) ∷ []) }
    ensures same { AreNeighboursApart (sent_packets 5 ([] ∷ []) ∷ sent_packets 5 ([] ∷ []) ∷ [])
        → ⊥ }
    ensures bare { AreNeighboursApart (sent_packets 5 [] ∷ []) → ⊥ }
{}

/// An access unit of a packet was sent, and is one of those that were; of none none is.
pub fn access_units_that_were_sent()
    ensures was { (r : DepacketizerState) (unit : ReceivedAccessUnitValue) → unit.timestamp ≡ 5 →
        unit.first ≡ 0 → IsWrittenOf r ((1 ∷ []) ∷ []) unit →
        WasSent r (rtp_body 4 true [] ∷ rtp_body 5 true (1 ∷ []) ∷ rtp_body 6 true [] ∷ []) 65535
        unit }
    ensures one { (r : DepacketizerState) (unit : ReceivedAccessUnitValue) → unit.timestamp ≡ 5 →
        IsWrittenOf r ((1 ∷ []) ∷ []) unit →
        IsOneSent r (sent_packets 4 ([] ∷ []) ∷ sent_packets 5 ((1 ∷ []) ∷ []) ∷ []) unit }
    ensures none { (r : DepacketizerState) (unit : ReceivedAccessUnitValue) →
        IsOneSent r [] unit → ⊥ }
    ensures told { (unit : ReceivedAccessUnitValue) → (told_unit unit).is_whole ≡ true }
    ensures calls { (s : PacketizerState) (c d : StampedCall) → call_units s (c ∷ d ∷ [])
        ≡ sent_packets c.timestamp (access_unit_packets s c.call)
        ∷ sent_packets d.timestamp (access_unit_packets (after_call s c.call) d.call) ∷ [] }
    ensures written { (r : DepacketizerState) (packets : List (List ℕ))
        (unit : ReceivedAccessUnitValue) →
        (after_packets (nothing_written r) packets).out ≡ unit.bytes →
        (after_packets (nothing_written r) packets).extra ≡ unit.extra →
        IsWrittenOf r packets unit }
    ensures as_sent { (s : PacketizerState) (r : DepacketizerState) (c : StampedCall) →
        (after_packets (nothing_written r) (access_unit_packets s c.call)).out
        ≡ (sent_unit s r.is_avc c).bytes →
        (after_packets (nothing_written r) (access_unit_packets s c.call)).extra
        ≡ (sent_unit s r.is_avc c).extra → IsWrittenAsSent s r c }
    ensures front { (is_avc : Bool) (unit : ReceivedAccessUnitValue) (d : DecoderState) →
        is_front d unit.extra (content_of is_avc unit.extra unit.bytes).first ≡ true →
        IsBegunByContent is_avc unit }
    ensures whole { (r : DepacketizerState) (unit : ReceivedAccessUnitValue) →
        has_no_text r.format (1 ∷ []) ≡ false → unit.timestamp ≡ 5 → unit.first ≡ 8 →
        unit.last ≡ 8 → IsWrittenOf r ((1 ∷ []) ∷ []) unit →
        is_run_closed (after_packets (nothing_written r) ((1 ∷ []) ∷ [])).state.run ≡ true →
        IsOfWholePackets [] [] ((9, rtp_body 6 false []) ∷ (8, rtp_body 5 true (1 ∷ []))
        ∷ (7, rtp_body 4 true (1 ∷ [])) ∷ []) r unit }
{}
