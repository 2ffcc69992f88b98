//! What is answered at each code of packets that were to go into memory and of access units, and worked
//! cases of it. Each is the contract of a function without a result.

ghost use Rattle.std.specs.Prelude.{◌≡◌, ◌⊎◌, ◌<◌, ◌≤◌, ◌+◌, ◌^◌, ℕ, Bool, true, false, List, [], ◌∷◌, ◌++◌, drop, length, Option, Some, None, Ok, Err};
ghost use Rattle.h26x_packetizer.specs.Placement.{ArePlaced, HaveNoRoom};
ghost use Rattle.h26x_codec.specs.declared.codec.Codec.{Codec};
ghost use Rattle.h26x_codec.specs.declared.codec.Codec.TheVariants as codecs;
ghost use Rattle.h26x_access_units.specs.declared.config.AccessUnitConfig.{AccessUnitConfig};
ghost use Rattle.h26x_access_units.specs.JitterBuffer.{due_packet};
ghost use Rattle.h26x_access_units.specs.ReceivedAccessUnit.{ReceivedAccessUnitValue};
ghost use Rattle.h26x_access_units.specs.Reception.{Reception, IsNext, after_reception, without_bare, ended_if_anew};
ghost use Rattle.h26x_access_units.specs.declared.pushed.Pushed.TheVariants as pushes;
ghost use Rattle.h26x_reorder.specs.Rtp.{RtpBody};
ghost use Rattle.h26x_rtp.specs.declared.error.RtpError.TheVariants as reading;
ghost use Rattle.h26x_rtp_receiver.specs.RtpReception.{RtpReception, IsRtpNext};
ghost use Rattle.h26x_rtp_receiver.specs.declared.payload_types.RtpPayloadTypes.{RtpPayloadTypes};
ghost use Rattle.h26x_rtp_receiver.specs.declared.pushed.RtpPushed.TheVariants.{Rtcp};
ghost use Rattle.h26x_rtp_receiver.specs.declared.pushed.RtpPushError.TheVariants as refusals;
ghost use Rattle.h26x_codes.specs.Codes.{ok, no_room, out_of_memory, out_of_range, unknown_codec, not_of_this_codec};
ghost use Rattle.h26x_handles.specs.PlacementAnswer.{AreCounted, IsPlacementAnswer};
ghost use Rattle.h26x_handles.specs.RtpState.{RtpState, rtp_state, fresh_rtp_state, IsDatagramPushed, IsRtpNextGiven, IsRtpUnitGiven, IsRtpOutOfMemory};
ghost use Rattle.h26x_handles.specs.UnitsState.{UnitsState, units_state, units_codec_or_code, fresh_access_units, units_with_reception, units_push_answer, unit_told, IsUnitsPushed, IsNextGiven, IsUnitGiven, IsOutOfMemory};
ghost use Rattle.h26x_handles.specs.declared.access_units.NextAnswer.TheVariants as answers;
ghost use Rattle.h26x_handles.specs.declared.access_units.UnitTold.{UnitTold};

use h26x_access_units::laws as units_laws;

/// What each code says of packets: they stand in memory, or have no room there, and are counted
/// either way; or memory lacked, and both numbers are 0. There is no other code.
pub fn answers_by_code()
    ensures placed { (headroom : ℕ) (packets : List (List ℕ)) (to new_to ends new_ends : List ℕ)
        (count size : ℕ) →
        IsPlacementAnswer headroom packets to new_to ends new_ends ok count size →
        ArePlaced headroom packets to new_to ends new_ends × AreCounted headroom packets count size }
    ensures left { (headroom : ℕ) (packets : List (List ℕ)) (to new_to ends new_ends : List ℕ)
        (count size : ℕ) →
        IsPlacementAnswer headroom packets to new_to ends new_ends no_room count size →
        HaveNoRoom headroom packets to new_to ends new_ends × AreCounted headroom packets count size }
    ensures none { (headroom : ℕ) (packets : List (List ℕ)) (to new_to ends new_ends : List ℕ)
        (count size : ℕ) →
        IsPlacementAnswer headroom packets to new_to ends new_ends out_of_memory count size →
        (count ≡ 0) × (size ≡ 0) }
    ensures no_other { (headroom : ℕ) (packets : List (List ℕ)) (to new_to ends new_ends : List ℕ)
        (code count size : ℕ) →
        IsPlacementAnswer headroom packets to new_to ends new_ends code count size →
        (code ≡ ok) ⊎ ((code ≡ no_room) ⊎ (code ≡ out_of_memory)) }
{}

/// Two packets, each behind one byte that stays, take five bytes and two ends: what is behind them
/// stays too. They don't fit in four bytes, nor where there is room for one end.
pub fn packets_answered()
    ensures placed { IsPlacementAnswer 1 ((1 ∷ 2 ∷ []) ∷ (3 ∷ []) ∷ [])
        (9 ∷ 9 ∷ 9 ∷ 9 ∷ 9 ∷ 9 ∷ []) (9 ∷ 1 ∷ 2 ∷ 9 ∷ 3 ∷ 9 ∷ [])
        (7 ∷ 7 ∷ 7 ∷ []) (3 ∷ 5 ∷ 7 ∷ []) ok 2 5 }
    ensures no_room { IsPlacementAnswer 1 ((1 ∷ 2 ∷ []) ∷ (3 ∷ []) ∷ [])
        (9 ∷ 9 ∷ 9 ∷ 9 ∷ []) (9 ∷ 9 ∷ 9 ∷ 9 ∷ []) (7 ∷ 7 ∷ []) (7 ∷ 7 ∷ []) no_room 2 5 }
    ensures no_ends { IsPlacementAnswer 1 ((1 ∷ 2 ∷ []) ∷ (3 ∷ []) ∷ [])
        (9 ∷ 9 ∷ 9 ∷ 9 ∷ 9 ∷ []) (9 ∷ 9 ∷ 9 ∷ 9 ∷ 9 ∷ []) (7 ∷ []) (7 ∷ []) no_room 2 5 }
    ensures out_of_memory { IsPlacementAnswer 1 ((1 ∷ 2 ∷ []) ∷ (3 ∷ []) ∷ [])
        (9 ∷ []) (9 ∷ []) (7 ∷ []) (7 ∷ []) out_of_memory 0 0 }
{}

/// A receiver of access units has a window of 1 to 2^14 places, and numbers where its codec has them.
pub fn receivers_by_code()
    ensures smallest { units_codec_or_code 264 false 1 ≡ Ok codecs.H264 }
    ensures largest { units_codec_or_code 265 true (2 ^ 14) ≡ Ok codecs.H265 }
    ensures without_numbers { units_codec_or_code 266 false 64 ≡ Ok codecs.H266 }
    ensures none { units_codec_or_code 264 false 0 ≡ Err out_of_range }
    ensures too_large { units_codec_or_code 264 false (2 ^ 14 + 1) ≡ Err out_of_range }
    ensures numbers { units_codec_or_code 264 true 0 ≡ Err not_of_this_codec }
    ensures no_codec { units_codec_or_code 263 true 0 ≡ Err unknown_codec }
{}

/// What each answer says of the next access unit: it stands at the front of the buffer, and all behind
/// it is as before; or it has no room, and is kept; or there is none.
pub fn next_by_answer()
    ensures written { (now : ℕ) (it new : UnitsState) (to new_to : List ℕ) (told : UnitTold) →
        IsUnitGiven now it new to new_to (answers.Written told) → (unit : ReceivedAccessUnitValue)
        × IsNextGiven now it new.reception (Some unit) × (told ≡ unit_told unit)
        × (length unit.bytes ≤ length to) × (new_to ≡ unit.bytes ++ drop (length unit.bytes) to)
        × (new ≡ units_state it.codec new.reception None it.nacks) }
    ensures no_room { (now : ℕ) (it new : UnitsState) (to new_to : List ℕ) (told : UnitTold) →
        IsUnitGiven now it new to new_to (answers.NoRoom told) → (unit : ReceivedAccessUnitValue)
        × IsNextGiven now it new.reception (Some unit) × (told ≡ unit_told unit)
        × (length to < length unit.bytes) × (new_to ≡ to)
        × (new ≡ units_state it.codec new.reception (Some unit) it.nacks) }
    ensures none { (now : ℕ) (it new : UnitsState) (to new_to : List ℕ) →
        IsUnitGiven now it new to new_to answers.NothingYet → IsNextGiven now it new.reception None
        × (new_to ≡ to) × (new ≡ units_state it.codec new.reception None it.nacks) }
    ensures kept { (now : ℕ) (codec : Codec) (r new : Reception)
        (unit kept : ReceivedAccessUnitValue) → IsNextGiven now (units_state codec r
        (Some kept) []) new (Some unit) → (unit ≡ kept) × (new ≡ r) }
    ensures received { (now : ℕ) (codec : Codec) (r new : Reception)
        (unit : ReceivedAccessUnitValue) → IsNextGiven now (units_state codec r None []) new
        (Some unit) → IsNext now r new (Some unit) }
{}

/// An access unit of two bytes, which had no room before, in three bytes, in two and in one; and a
/// receiver before any packet.
pub fn units_given()
    ensures room { (now : ℕ) (codec : Codec) (r : Reception) (other : ReceivedAccessUnitValue) →
        let unit = record other { bytes = 1 ∷ 2 ∷ [] } in
        IsUnitGiven now (units_state codec r (Some unit) []) (units_state codec r None [])
        (9 ∷ 9 ∷ 9 ∷ []) (1 ∷ 2 ∷ 9 ∷ []) (answers.Written (unit_told unit)) }
    ensures fits { (now : ℕ) (codec : Codec) (r : Reception) (other : ReceivedAccessUnitValue) →
        let unit = record other { bytes = 1 ∷ 2 ∷ [] } in
        IsUnitGiven now (units_state codec r (Some unit) []) (units_state codec r None [])
        (9 ∷ 9 ∷ []) (1 ∷ 2 ∷ []) (answers.Written (unit_told unit)) }
    ensures no_room { (now : ℕ) (codec : Codec) (r : Reception) (other : ReceivedAccessUnitValue) →
        let unit = record other { bytes = 1 ∷ 2 ∷ [] } in
        IsUnitGiven now (units_state codec r (Some unit) []) (units_state codec r (Some unit) [])
        (9 ∷ []) (9 ∷ []) (answers.NoRoom (unit_told unit)) }
    ensures none { (now : ℕ) (codec : Codec) (has_donl is_avc : Bool) (config : AccessUnitConfig) →
        let it = fresh_access_units codec has_donl is_avc config in
        IsUnitGiven now it it (9 ∷ []) (9 ∷ []) answers.NothingYet }
{}

/// Want of memory: no access unit waits for room, and where none has ended, no packet is due and the
/// stream hasn't begun anew nothing changed. Where it has, the access unit that was open may have
/// ended.
pub fn units_without_memory()
    ensures none { (now : ℕ) (it new : UnitsState) → IsOutOfMemory now it new → it.left ≡ None }
    ensures stays { (now : ℕ) (it new : UnitsState) → IsOutOfMemory now it new →
        new ≡ units_state it.codec new.reception None it.nacks }
    ensures not_due { (now : ℕ) (it new : UnitsState) → IsOutOfMemory now it new →
        it.reception.assembler.ended ≡ [] → it.reception.is_anew ≡ false →
        due_packet now it.reception.waiting ≡ None → new ≡ it }
    ensures kept { (now : ℕ) (codec : Codec) (r : Reception) →
        IsOutOfMemory now (units_state codec r None []) (units_state codec (without_bare r) None []) }
    ensures anew { (now : ℕ) (codec : Codec) (r : Reception) →
        IsOutOfMemory now (units_state codec r None [])
        (units_state codec (ended_if_anew (without_bare r)) None []) }
{}

/// A packet that is held: whether it waits or was taken at once, the same is given out next.
pub fn next_behind_a_packet()
    ensures { (now later : ℕ) (it pushed : UnitsState) (p : ℕ × RtpBody) (new : Reception)
        (unit : Option ReceivedAccessUnitValue) → p.0 < 2 ^ 16 → units_push_answer it p
        ≡ pushes.Held → IsUnitsPushed now p it pushed → it.left ≡ None → IsNextGiven later pushed
        new unit → IsNextGiven later (units_with_reception (after_reception now it.reception p
        pushes.Held) it) new unit }
{
    units_laws::packets_taken_at_once_are_as_those_that_wait();
}

/// Datagrams that change nothing: RTCP, and one that is no RTP packet.
pub fn datagrams_passed_over()
    ensures rtcp { (now arrival : ℕ) (codec : Codec) (r : RtpReception) →
        IsDatagramPushed now arrival (0x80 ∷ 200 ∷ []) (rtp_state codec r None) (Ok Rtcp)
        (rtp_state codec r None) }
    ensures short { (now arrival : ℕ) (codec : Codec) (r : RtpReception) →
        IsDatagramPushed now arrival (0x80 ∷ []) (rtp_state codec r None)
        (Err (refusals.Rtp reading.TooShort)) (rtp_state codec r None) }
{}

/// The next access unit of a receiver of datagrams: one of two bytes, which had no room before, in two
/// bytes and in one; none of a receiver before any datagram; and else what it gives out.
pub fn units_of_datagrams_given()
    ensures fits { (now : ℕ) (codec : Codec) (r : RtpReception) (other : ReceivedAccessUnitValue) →
        let unit = record other { bytes = 1 ∷ 2 ∷ [] } in
        IsRtpUnitGiven now (rtp_state codec r (Some unit)) (rtp_state codec r None)
        (9 ∷ 9 ∷ []) (1 ∷ 2 ∷ []) (answers.Written (unit_told unit)) }
    ensures no_room { (now : ℕ) (codec : Codec) (r : RtpReception)
        (other : ReceivedAccessUnitValue) →
        let unit = record other { bytes = 1 ∷ 2 ∷ [] } in
        IsRtpUnitGiven now (rtp_state codec r (Some unit)) (rtp_state codec r (Some unit))
        (9 ∷ []) (9 ∷ []) (answers.NoRoom (unit_told unit)) }
    ensures none { (now : ℕ) (codec : Codec) (has_donl is_avc : Bool) (types : RtpPayloadTypes)
        (config : AccessUnitConfig) →
        let it = fresh_rtp_state codec has_donl is_avc types config in
        IsRtpUnitGiven now it it (9 ∷ []) (9 ∷ []) answers.NothingYet }
    ensures kept { (now : ℕ) (codec : Codec) (r new : RtpReception)
        (unit kept : ReceivedAccessUnitValue) → IsRtpNextGiven now (rtp_state codec r (Some kept))
        new (Some unit) → (unit ≡ kept) × (new ≡ r) }
    ensures received { (now : ℕ) (codec : Codec) (r new : RtpReception)
        (unit : ReceivedAccessUnitValue) → IsRtpNextGiven now (rtp_state codec r None) new
        (Some unit) → IsRtpNext now r (Some unit) new }
{}

/// Want of memory of such a receiver: no access unit waits for room, and nothing changed but what its
/// receiver of access units took.
pub fn datagrams_without_memory()
    ensures none { (now : ℕ) (it new : RtpState) → IsRtpOutOfMemory now it new → it.left ≡ None }
    ensures stays { (now : ℕ) (it new : RtpState) → IsRtpOutOfMemory now it new →
        (new.codec ≡ it.codec) × (new.left ≡ None)
        × (new.reception.sources ≡ it.reception.sources)
        × (new.reception.keyframes ≡ it.reception.keyframes) }
    ensures kept { (now : ℕ) (codec : Codec) (r : RtpReception) →
        IsRtpOutOfMemory now (rtp_state codec r None)
        (rtp_state codec (record r { reception = without_bare r.reception }) None) }
{}
