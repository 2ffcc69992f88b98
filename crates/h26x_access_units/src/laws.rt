//! Laws of the definitions, each the contract of a function without a result.

ghost use Rattle.std.specs.Prelude.{◌≡◌, ◌≤◌, ◌<◌, ◌^◌, ◌==◌, true, ℕ, Bool, List, [], ◌∷◌, ◌++◌, Option, Some, None, length, map};
ghost use Rattle.std.specs.List.{list_any, Contains};
ghost use Rattle.h26x_model.specs.Payload.Facts.{IsPayloadFormat};
ghost use Rattle.h26x_model.specs.Receive.DepacketizerState.{DepacketizerState};
ghost use Rattle.h26x_model.specs.Send.PacketizerState.{PacketizerState};
ghost use Rattle.h26x_reorder.specs.Rtp.{RtpBody};
ghost use Rattle.h26x_reorder.specs.ReorderBuffer.{IsHeldInOrder};
ghost use Rattle.h26x_assembler.specs.AnyUnits.{SentPackets, any_bodies};
ghost use Rattle.h26x_assembler.specs.StampedCalls.{StampedCall, AreStreamed, sent_bodies, sent_units};
ghost use Rattle.h26x_access_units.specs.declared.config.AccessUnitConfig.{AccessUnitConfig};
ghost use Rattle.h26x_access_units.specs.Missing.{missing_numbers, AreExactlyMissing};
ghost use Rattle.h26x_access_units.specs.ReceivedAccessUnit.{ReceivedAccessUnitValue};
ghost use Rattle.h26x_access_units.specs.Reception.{Reception, fresh_reception, begun_reception, restarted, with_settings, ended_reception, reception_answer, after_reception, IsPushed, IsNext};
ghost use Rattle.h26x_access_units.specs.Decodable.{GivenUnit, IsCleanWhereDecodable, WereGiven, IsGivenBehind};
ghost use Rattle.h26x_access_units.specs.Account.{ReceiverCall, NextCall, AreReceiverCalls, IsAccounted, kept_packets};
ghost use Rattle.h26x_access_units.specs.WholeSent.{told_numbers, since_restart, IsToldWhole, IsSender, CameFromSender, WasSent};
ghost use Rattle.h26x_access_units.specs.UnitsSent.{AreNeighboursApart, IsOneSent, IsWrittenAsSent, call_units, told_unit};
ghost use Rattle.h26x_access_units.specs.ToldWhole.{all_deeds, are_told_first, AreOfSender, AreOfSenderAtFronts, settings_set, IsUnitSent, WereAllTaken, WereTakenWithoutLoss, CanBeWritten, WasToldWhole};
ghost use Rattle.h26x_access_units.specs.Passed.{is_told_taken, AreNumbers, AreSoonBehind};
ghost use Rattle.h26x_access_units.specs.declared.nacks.Nack.{Nack};
ghost use Rattle.h26x_access_units.specs.Nacks.{nacks_now, nack_among, AreNumbersInOrder};
ghost use Rattle.h26x_access_units.specs.LostPictures.{SentPicture, IsToldWithoutLoss};
ghost use Rattle.h26x_access_units.specs.Limits.{IsWithinLimits, StaysWithinLimits};

use crate::pushed::Pushed;
use h26x_model::laws as model_laws;

/// The numbers that are told to be missing are exactly those between the one that is due and the last
/// that waits that don't wait.
pub fn missing_numbers_are_exact()
    ensures { (due : Option ℕ) (held : List (ℕ × RtpBody)) → IsHeldInOrder due held →
        AreExactlyMissing due held (missing_numbers due held) }
{}

/// Whatever packets come and whenever access units are asked for, what is held stays within the
/// limits.
pub fn what_is_held_is_within_the_limits()
    ensures fresh { (most : ℕ) (config : AccessUnitConfig) (state : DepacketizerState) →
        IsWithinLimits most (fresh_reception config state) }
    ensures push { (now : ℕ) (s new : Reception) (p : ℕ × RtpBody) →
        IsPushed now s p (reception_answer s p) new → StaysWithinLimits (length p.1.payload) s new }
    ensures next { (now : ℕ) (s new : Reception) (unit : Option ReceivedAccessUnitValue) →
        IsNext now s new unit → StaysWithinLimits 0 s new }
{}

/// Whether a packet is taken at once or waits, the same is given out next.
pub fn packets_taken_at_once_are_as_those_that_wait()
    ensures { (now later : ℕ) (s held new : Reception) (p : ℕ × RtpBody)
        (unit : Option ReceivedAccessUnitValue) → p.0 < 2 ^ 16 → IsPushed now s p Pushed.Held held →
        IsNext later held new unit → IsNext later (after_reception now s p Pushed.Held) new unit }
{}

/// A number that comes again is told as one that was taken only where it was; and it is told so where
/// all that were taken behind it, in their turn, are less than 1024 ahead of it.
pub fn numbers_taken_are_known()
    ensures only { (due number : ℕ) (numbers : List ℕ) → number < 2 ^ 16 → AreNumbers numbers →
        is_told_taken due numbers number ≡ true → list_any (λ it. it == number) numbers ≡ true }
    ensures all { (due number : ℕ) (later before : List ℕ) → number < 2 ^ 16 →
        AreSoonBehind number later → is_told_taken due (later ++ number ∷ before) number ≡ true }
{}

/// An access unit is told clean exactly where a decoder can show it: there is one before it, or it is
/// one, with which a decoder can begin, whose parameter sets came in it or before in order, or were
/// given; behind each since it goes on, since nothing is missing before it, or no reference picture by
/// frame numbers of H.264, and it is unbroken or no picture refers to its own; and it is unbroken
/// itself.
pub fn clean_access_units_can_be_decoded()
    ensures { (has_sets : Bool) (unit : GivenUnit) (before : List GivenUnit) →
        IsCleanWhereDecodable has_sets unit before }
{}

/// So it is of what a receiver gives out, whatever packets come, at whatever ticks, and whenever access
/// units are asked for: those that were given to a decoder are all that it gave out, and those without
/// bytes that it passed over.
pub fn what_is_given_out_clean_can_be_decoded()
    ensures fresh { (config : AccessUnitConfig) (state : DepacketizerState) →
        WereGiven [] (fresh_reception config state) }
    ensures push { (now : ℕ) (s new : Reception) (p : ℕ × RtpBody) (units : List GivenUnit) →
        IsPushed now s p (reception_answer s p) new → WereGiven units s → WereGiven units new }
    ensures next { (now : ℕ) (s new : Reception) (unit : Option ReceivedAccessUnitValue)
        (units : List GivenUnit) → IsNext now s new unit → WereGiven units s →
        IsGivenBehind units new unit }
    ensures finish { (s : Reception) (units : List GivenUnit) → WereGiven units s →
        WereGiven units (ended_reception s) }
    ensures restart { (s : Reception) → WereGiven [] (restarted s) }
    ensures settings { (config : AccessUnitConfig) (s : Reception) (units : List GivenUnit) →
        config.has_sets ≡ s.waiting.config.has_sets → WereGiven units s →
        WereGiven units (with_settings config s) }
    ensures begin { (number : ℕ) (s : Reception) (units : List GivenUnit) → WereGiven units s →
        WereGiven units (begun_reception number s) }
{}

/// Of numbers that are missing, in order, each stays known to have been asked for, or not, as it was;
/// of one that wasn't known nothing was.
pub fn what_was_asked_for_stays_known()
    ensures { (now from : ℕ) (known : List Nack) (missing : List ℕ) → from < 2 ^ 16 →
        AreNumbersInOrder from 0 (map (λ n. n.number) known) → AreNumbersInOrder from 0 missing →
        nacks_now now known missing ≡ map (λ n. nack_among now n known) missing }
{}

/// Where frame numbers of H.264 tell that no reference picture is among what is missing, none is. That
/// is so of any pictures of a sender of frames without gaps between numbers, where each that is lost
/// takes a packet at least, and one behind which numbers begin anew as many as `key`; where the last
/// reference picture that came is none of these, or a keyframe; and where nothing that is lost brings
/// another sequence parameter set.
pub fn frame_numbers_tell_of_lost_pictures()
    ensures { (most key last missing : ℕ) (pictures : List SentPicture) →
        IsToldWithoutLoss most key last missing pictures }
{}

/// Whatever packets come, and whatever calls are made: each packet that was kept, that is not told
/// `Late`, `Twice` or `Full`, was handed to the assembler of access units, waits, or was dropped, and
/// none twice; where the stream doesn't begin anew, and `restart` isn't called, only those told
/// `Stray` are dropped. Those of each stream are handed on in the order of their numbers. What is
/// given out are the access units with bytes that the assembler brings of the packets that were handed
/// on to it, each once, in its order. Where fewer than 2^64 calls were made the counts of both and of
/// what was told are exact, and none that was handed on is late.
pub fn packets_are_accounted_for()
    ensures { (config : AccessUnitConfig) (state : DepacketizerState)
        (calls : List ReceiverCall) (s : Reception) →
        AreReceiverCalls (fresh_reception config state) calls s → IsAccounted state calls s }
{}

/// Whatever packets come, and whatever calls are made: an access unit that `next` gives out and that is
/// told whole has each packet that was sent between where it began and where it ended, one right behind
/// the other by their numbers, and its bytes are what a depacketizer writes of them.
pub fn what_is_told_whole_has_all_its_packets()
    ensures { (config : AccessUnitConfig) (state : DepacketizerState) (now : ℕ)
        (unit : ReceivedAccessUnitValue) (calls : List ReceiverCall) (s : Reception) →
        AreReceiverCalls (fresh_reception config state) (NextCall now (Some unit) ∷ calls) s →
        unit.is_whole ≡ true → IsToldWhole state (NextCall now (Some unit) ∷ calls) s unit }
{}

/// Whole means sent. Of a sender whose access units are told apart, an access unit that is told whole
/// is one of those that were sent: all packets with its timestamp, one behind the other, and its bytes
/// are what a depacketizer writes of all of them. All that came since the last `restart` is of this
/// sender, of at most 2^15 packets, so that a number is of one of them. Its access units are told
/// apart by any state of a decoder: no packet behind another of its access unit begins with a VPS, or
/// of H.264 and H.266 an SPS.
pub fn what_is_told_whole_was_sent()
    ensures { (config : AccessUnitConfig) (state : DepacketizerState) (now : ℕ)
        (unit : ReceivedAccessUnitValue) (calls : List ReceiverCall) (s : Reception)
        (sent : List RtpBody) (first : ℕ) → IsPayloadFormat state.format →
        AreReceiverCalls (fresh_reception config state) (NextCall now (Some unit) ∷ calls) s →
        CameFromSender (told_numbers (since_restart calls)) (kept_packets (since_restart calls))
        state sent first → unit.is_whole ≡ true → WasSent state sent first unit }
{
    model_laws::depacketizers_go_on();
}

/// Whole means sent, in a session of any length, of which numbers go round as often as they do. Of a
/// sender whose access units are told apart, an access unit that is told whole is one of those that
/// were sent: all packets with its timestamp, one behind the other, and its bytes are what a
/// depacketizer writes of all of them. All since the last `restart` is of this sender: fewer than 2^15
/// packets are lost at a time, each comes less than 2^15 places behind the furthest, and numbers are
/// told only of a stream that begins, with an access unit.
pub fn what_is_told_whole_was_sent_in_any_session()
    ensures { (config : AccessUnitConfig) (state : DepacketizerState) (now : ℕ)
        (unit : ReceivedAccessUnitValue) (calls : List ReceiverCall) (s : Reception)
        (sent : List RtpBody) (first : ℕ) (due : Option ℕ) (are : AreReceiverCalls
        (fresh_reception config state) (NextCall now (Some unit) ∷ calls) s) →
        IsPayloadFormat state.format → IsSender state sent →
        AreOfSenderAtFronts sent first due (all_deeds are) → unit.is_whole ≡ true →
        WasSent state sent first unit }
{
    model_laws::depacketizers_go_on();
}

/// Sent means told whole. Of a sender whose access units are told apart, an access unit all of whose
/// packets were taken, one right behind the other from its beginning to its end, is given out and told
/// whole, and its bytes are what a depacketizer writes of all of them: once `next` was called until
/// none that ended is left. All since the last `restart` is of this sender (for what came before, the
/// law is of the calls before), of any length: fewer than 2^15 packets are lost at a time, and each
/// comes less than 2^15 places behind the furthest. Whether a decoder can show it isn't said here. What
/// `finish` ends, or a stream that begins anew, isn't told whole, nor what nothing tells to have begun.
pub fn what_was_sent_and_taken_is_told_whole()
    ensures { (config : AccessUnitConfig) (state : DepacketizerState) (calls : List ReceiverCall)
        (s : Reception) (sent : List RtpBody) (first place count : ℕ) (due : Option ℕ)
        (are : AreReceiverCalls (fresh_reception config state) calls s) →
        IsPayloadFormat state.format → IsSender state sent →
        AreOfSender sent first due (all_deeds are) → IsUnitSent sent place count →
        WereAllTaken state sent first place count (all_deeds are) →
        CanBeWritten state sent place count (config ∷ settings_set calls) →
        s.assembler.ended ≡ [] → WasToldWhole state sent first place count calls }
{
    model_laws::depacketizers_go_on();
}

/// So it is of a stream without a loss: where its packets were taken one after the other, from any on,
/// each access unit among them that has ended is given out and told whole, the first one where its
/// beginning is known.
pub fn access_units_without_loss_are_told_whole()
    ensures { (config : AccessUnitConfig) (state : DepacketizerState) (calls : List ReceiverCall)
        (s : Reception) (sent : List RtpBody) (first place count : ℕ) (due : Option ℕ)
        (are : AreReceiverCalls (fresh_reception config state) calls s) →
        IsPayloadFormat state.format → IsSender state sent →
        AreOfSender sent first due (all_deeds are) → IsUnitSent sent place count →
        WereTakenWithoutLoss state sent first place count (all_deeds are) →
        CanBeWritten state sent place count (config ∷ settings_set calls) →
        s.assembler.ended ≡ [] → WasToldWhole state sent first place count calls }
{
    model_laws::depacketizers_go_on();
}

/// No access unit that ended is left once `next` gives out none.
pub fn none_is_left_once_none_is_given_out()
    ensures { (now : ℕ) (s new : Reception) → IsNext now s new None → new.assembler.ended ≡ [] }
{}

/// All that a receiver does since the last `restart` is done with packets that were kept since: where
/// these are a sender's, of at most 2^15 packets, and numbers are told only of a stream that begins, it
/// is done with packets of that sender, which come in time; and each number that is told is that of a
/// place that is due, at which an access unit begins.
pub fn what_is_done_is_of_the_sender()
    ensures sender { (config : AccessUnitConfig) (state : DepacketizerState)
        (calls : List ReceiverCall) (s : Reception) (sent : List RtpBody) (first : ℕ)
        (are : AreReceiverCalls (fresh_reception config state) calls s) →
        CameFromSender (told_numbers (since_restart calls)) (kept_packets (since_restart calls))
        state sent first → are_told_first (all_deeds are) ≡ true →
        (due : Option ℕ) × AreOfSender sent first due (all_deeds are) }
    ensures fronts { (config : AccessUnitConfig) (state : DepacketizerState)
        (calls : List ReceiverCall) (s : Reception) (sent : List RtpBody) (first : ℕ)
        (are : AreReceiverCalls (fresh_reception config state) calls s) →
        CameFromSender (told_numbers (since_restart calls)) (kept_packets (since_restart calls))
        state sent first → are_told_first (all_deeds are) ≡ true →
        (due : Option ℕ) × AreOfSenderAtFronts sent first due (all_deeds are) }
{}

/// What was sent so is one of a sender's access units, where each has a packet, and neighbours have
/// other timestamps: its bytes are what a depacketizer writes of all its packets.
pub fn what_was_sent_is_an_access_unit()
    ensures { (r : DepacketizerState) (units : List SentPackets) (first : ℕ)
        (unit : ReceivedAccessUnitValue) → AreNeighboursApart units →
        WasSent r (any_bodies units) first unit → IsOneSent r units unit }
{}

/// Of a packetizer's packets of a call a depacketizer writes what was sent with it, byte for byte.
pub fn packets_of_a_call_are_written_as_sent()
    ensures { (s : PacketizerState) (r : DepacketizerState) (c : StampedCall) →
        IsPayloadFormat s.format → r.format ≡ s.format → AreStreamed s (c ∷ []) →
        IsWrittenAsSent s r c }
{
    model_laws::what_calls_send_is_carried();
}

/// What was sent so of a packetizer's calls is one of the access units that they send, byte for byte.
pub fn what_calls_sent_is_their_access_unit()
    ensures { (s : PacketizerState) (calls : List StampedCall) (r : DepacketizerState) (first : ℕ)
        (unit : ReceivedAccessUnitValue) → IsPayloadFormat s.format → r.format ≡ s.format →
        AreStreamed s calls → AreNeighboursApart (call_units s calls) →
        WasSent r (sent_bodies s calls) first unit →
        Contains (sent_units s r.is_avc calls) (told_unit unit) }
{
    model_laws::packetizers_go_on();
    model_laws::what_calls_send_is_carried();
}
