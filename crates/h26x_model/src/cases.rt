//! Worked cases of definitions for every payload format. Each is the contract of a function
//! without a result.

ghost use Rattle.std.specs.Prelude.{◌≡◌, ℕ, ◌≤◌, true, false, List, [], ◌∷◌, map, length, Some, None, Ok, Err};
ghost use Rattle.h26x_model.specs.Payload.Reading.{Single, Aggregate, Fragment, Paci, Refused};
ghost use Rattle.h26x_model.specs.Payload.Format.{Format};
ghost use Rattle.h26x_core.specs.Kind.{Skipped, Vps, Sps, Pps, Other};
ghost use Rattle.h26x_model.specs.Send.PacketizerState.{PacketizerState, is_skipped, state_packets, AreWithinLimits};
ghost use Rattle.h26x_model.specs.Send.Calls.{Call, call_limit, call_entries};
ghost use Rattle.h26x_model.specs.Send.WaitingSets.{entries_with_limit};
ghost use Rattle.h26x_model.specs.Send.Again.{NothingDropped};
ghost use Rattle.h26x_model.specs.Send.Rival.{IsRival};
ghost use Rattle.h26x_model.specs.Send.Limit.{AreWithinLimit};
ghost use Rattle.h26x_model.specs.Receive.Received.{IsOpenRun};
ghost use Rattle.h26x_model.specs.Receive.Run.{IsRun, AreReceived};
ghost use Rattle.h26x_model.specs.Receive.RunLimit.{run_len, run_within};
ghost use Rattle.h26x_model.specs.Carry.AnySender.{units_came};
ghost use Rattle.h26x_model.specs.Receive.Outcome.{is_startless, IsReadingOutcome};
ghost use Rattle.h26x_core.specs.declared.error.PacketError.TheVariants.{AvcUnitTooLong, ErrShortPacket, OutOfMemory};

/// Where no run is open, a fragment that doesn't start has none to add to, whether it ends or not.
pub fn fragments_without_a_start()
    ensures none_open { map (is_startless None) (
        Fragment false false (0x65 ∷ []) None (0x01 ∷ []) ∷
        Fragment false true (0x65 ∷ []) None (0x01 ∷ []) ∷
        Fragment true false (0x65 ∷ []) None (0x01 ∷ []) ∷
        Fragment true true (0x65 ∷ []) None (0x01 ∷ []) ∷
        Single (0x65 ∷ []) None ∷
        Refused ErrShortPacket ∷ [])
        ≡ true ∷ true ∷ false ∷ false ∷ false ∷ false ∷ [] }
    ensures open { map (is_startless (Some [])) (
        Fragment false false (0x65 ∷ []) None (0x01 ∷ []) ∷
        Fragment false true (0x65 ∷ []) None (0x01 ∷ []) ∷ [])
        ≡ false ∷ false ∷ [] }
{}

/// A packet that is refused has its refusal; every other one is accepted, or memory lacks, but for
/// a unit in AVC form that is too long.
pub fn outcomes()
    ensures refused { IsReadingOutcome false None (Refused ErrShortPacket) (Err ErrShortPacket) }
    ensures accepted { IsReadingOutcome true None (Single (0x65 ∷ []) None) (Ok tt) }
    ensures no_memory { IsReadingOutcome true None (Single (0x65 ∷ []) None) (Err OutOfMemory) }
    ensures no_refusal { IsReadingOutcome true None (Single (0x65 ∷ []) None)
        (Err ErrShortPacket) → ⊥ }
    ensures too_long { (unit : List ℕ) → 4294967296 ≤ length unit →
        IsReadingOutcome true None (Single unit None) (Err AvcUnitTooLong) }
    ensures long { (unit : List ℕ) → length unit ≡ 4294967295 →
        IsReadingOutcome true None (Single unit None) (Ok tt) }
    ensures with_start_codes { (unit : List ℕ) →
        IsReadingOutcome false None (Single unit None) (Ok tt) }
{}

/// The open run is that of the latest start, through other packets; a start that ends opens none.
pub fn open_runs()
    ensures runs { IsOpenRun (
        Fragment false false (0x65 ∷ []) None (0x03 ∷ []) ∷
        Single (0x61 ∷ []) None ∷
        Fragment true false (0x65 ∷ []) None (0x02 ∷ []) ∷
        Fragment true false (0x65 ∷ []) None (0x01 ∷ []) ∷ []) (0x02 ∷ 0x03 ∷ []) }
    ensures no_data { IsOpenRun (Fragment true false (0x65 ∷ []) None [] ∷ []) [] }
    ensures ended { (run : List ℕ) →
        IsOpenRun (Fragment true true (0x65 ∷ []) None (0x01 ∷ []) ∷ []) run → ⊥ }
{}

/// A run goes from the latest start to an end, through other packets, and may be one fragment.
pub fn runs()
    ensures three { IsRun (
        Fragment false true (0x65 ∷ []) None (0x01 ∷ []) ∷
        Fragment true false (0x65 ∷ []) None (0x02 ∷ []) ∷
        Fragment true false (0x65 ∷ []) None (0x03 ∷ []) ∷
        Single (0x61 ∷ []) None ∷
        Fragment false false (0x65 ∷ []) None (0x04 ∷ []) ∷
        Fragment false true (0x65 ∷ []) None (0x05 ∷ []) ∷ []) 2 5 }
    ensures not_latest { IsRun (
        Fragment true false (0x65 ∷ []) None (0x02 ∷ []) ∷
        Fragment true false (0x65 ∷ []) None (0x03 ∷ []) ∷
        Fragment false true (0x65 ∷ []) None (0x05 ∷ []) ∷ []) 0 2 → ⊥ }
    ensures one { IsRun (Fragment true true (0x65 ∷ []) None (0x01 ∷ []) ∷ []) 0 0 }
{}

/// A run is given up past the limit, not at it.
pub fn runs_within_a_limit()
    ensures len { run_len (Some (0x01 ∷ 0x02 ∷ [])) ≡ 2 }
    ensures none_open { run_len None ≡ 0 }
    ensures at { run_within 2 (Some (0x01 ∷ 0x02 ∷ [])) ≡ Some (0x01 ∷ 0x02 ∷ []) }
    ensures past { run_within 2 (Some (0x01 ∷ 0x02 ∷ 0x03 ∷ [])) ≡ None }
    ensures none { run_within 2 None ≡ None }
{}

/// What is received, by places: units alone and in aggregates, units of runs, nothing of a fragment
/// without its start and of a refused packet.
pub fn received_units()
    ensures { AreReceived (
        Fragment false true (0x65 ∷ []) None (0x01 ∷ []) ∷
        Fragment true false (0x65 ∷ []) None (0x02 ∷ []) ∷
        Aggregate ((0x67 ∷ [], None) ∷ (0x68 ∷ [], None) ∷ []) ∷
        Refused ErrShortPacket ∷
        Fragment false true (0x61 ∷ []) None (0x03 ∷ []) ∷
        Paci (0x65 ∷ []) 0 [] (0x04 ∷ []) ∷
        Single (0x66 ∷ []) None ∷ [])
        ((0x67 ∷ []) ∷ (0x68 ∷ []) ∷ (0x61 ∷ 0x02 ∷ 0x03 ∷ []) ∷
        (0x65 ∷ 0x04 ∷ []) ∷ (0x66 ∷ []) ∷ []) }
{}

/// A start and an end within the limit are a rival, where their data joined are the bytes.
pub fn a_rival_of_two()
    ensures { (f : Format) → f.read (0x01 ∷ []) ≡ Fragment true false [] None (0x0a ∷ []) →
        f.read (0x02 ∷ []) ≡ Fragment false true [] None (0x0b ∷ []) →
        IsRival f 1 (0x0a ∷ 0x0b ∷ []) ((0x01 ∷ []) ∷ (0x02 ∷ []) ∷ []) }
{}

/// Nothing is dropped of a group whose sets fit one packet, and of a unit that fits.
pub fn nothing_dropped()
    ensures { (f : Format) →
        f.kind (0x01 ∷ []) ≡ Sps → f.kind (0x02 ∷ []) ≡ Pps → f.kind (0x03 ∷ []) ≡ Other →
        f.has_donl ≡ false → f.sets_fit 9 ((0x01 ∷ []) ∷ (0x02 ∷ []) ∷ []) ≡ true →
        NothingDropped f (entries_with_limit 9 (
        (0x01 ∷ []) ∷ (0x02 ∷ []) ∷ (0x03 ∷ []) ∷ (0x03 ∷ []) ∷ [])) }
{}

/// A packet as long as the limit is within it, a longer one is not.
pub fn packets_within_a_limit()
    ensures within { AreWithinLimit 3 ([] ∷ (0x61 ∷ 0x01 ∷ 0x02 ∷ []) ∷ []) }
    ensures past { AreWithinLimit 3 ((0x61 ∷ []) ∷ (0x61 ∷ 0x01 ∷ 0x02 ∷ 0x03 ∷ []) ∷ []) → ⊥ }
{}

/// Of one call there are the packets that it makes, within its limit; of no call none.
pub fn packets_of_calls()
    ensures made { (s : PacketizerState) (call : Call) (packets : List (List ℕ)) →
        AreWithinLimits s (call ∷ []) packets →
        packets ≡ state_packets s (call_entries s.format call) }
    ensures within { (s : PacketizerState) (call : Call) (packets : List (List ℕ)) →
        AreWithinLimits s (call ∷ []) packets → AreWithinLimit (call_limit s.format call) packets }
    ensures none { (s : PacketizerState) (packets : List (List ℕ)) →
        AreWithinLimits s [] packets → packets ≡ [] }
{}

/// Skipped units alone are skipped.
pub fn skipped_kinds()
    ensures { map is_skipped (Skipped ∷ Vps ∷ Sps ∷ Pps ∷ Other ∷ [])
        ≡ true ∷ false ∷ false ∷ false ∷ false ∷ [] }
{}

/// Of a unit in three fragments each packet has to come, one of another unit between them too, and its
/// run may hold no more than the limit before the last; an aggregate comes as a whole.
pub fn units_that_came()
    ensures all { units_came 2 None true (true ∷ true ∷ true ∷ []) (
        Fragment true false (0x65 ∷ []) None (0x01 ∷ []) ∷
        Fragment false false (0x65 ∷ []) None (0x02 ∷ []) ∷
        Fragment false true (0x65 ∷ []) None (0x03 ∷ []) ∷ []) ≡ true ∷ [] }
    ensures too_long { units_came 1 None true (true ∷ true ∷ true ∷ []) (
        Fragment true false (0x65 ∷ []) None (0x01 ∷ []) ∷
        Fragment false false (0x65 ∷ []) None (0x02 ∷ []) ∷
        Fragment false true (0x65 ∷ []) None (0x03 ∷ []) ∷ []) ≡ false ∷ [] }
    ensures middle { units_came 2 None true (true ∷ false ∷ true ∷ []) (
        Fragment true false (0x65 ∷ []) None (0x01 ∷ []) ∷
        Fragment false false (0x65 ∷ []) None (0x02 ∷ []) ∷
        Fragment false true (0x65 ∷ []) None (0x03 ∷ []) ∷ []) ≡ false ∷ [] }
    ensures between { units_came 2 None true (true ∷ false ∷ true ∷ []) (
        Fragment true false (0x65 ∷ []) None (0x01 ∷ []) ∷
        Single (0x61 ∷ []) None ∷
        Fragment false true (0x65 ∷ []) None (0x03 ∷ []) ∷ []) ≡ false ∷ false ∷ [] }
    ensures again { units_came 2 None true (true ∷ false ∷ true ∷ true ∷ []) (
        Fragment true false (0x65 ∷ []) None (0x01 ∷ []) ∷
        Aggregate ((0x67 ∷ [], None) ∷ (0x68 ∷ [], None) ∷ []) ∷
        Fragment true false (0x65 ∷ []) None (0x02 ∷ []) ∷
        Fragment false true (0x65 ∷ []) None (0x03 ∷ []) ∷ [])
        ≡ false ∷ false ∷ true ∷ [] }
    ensures open { units_came 2 (Some (0x01 ∷ [])) true (true ∷ [])
        (Fragment false true (0x65 ∷ []) None (0x03 ∷ []) ∷ []) ≡ true ∷ [] }
    ensures given_up { units_came 2 (Some (0x01 ∷ [])) false (true ∷ [])
        (Fragment false true (0x65 ∷ []) None (0x03 ∷ []) ∷ []) ≡ false ∷ [] }
{}
