//! Laws of the definitions, for every payload format that meets the facts that they ask for. Each
//! is the contract of a function without a result. The crates of the codecs show the facts of
//! theirs.

ghost use Rattle.std.specs.Prelude.{◌≡◌, ◌%◌, ℕ, Bool, List, [], ◌∷◌, ◌++◌, Some, None, ◌+◌, ◌≤◌, false, length, ◌<◌};
ghost use Rattle.std.specs.List.{AllByRecursion, flat_map};
ghost use Rattle.h26x_model.specs.Payload.Reading.{Reading};
ghost use Rattle.h26x_model.specs.Payload.Format.{Format, donl_len, fragment_header_len};
ghost use Rattle.h26x_model.specs.Send.Calls.{Call, AreCalls};
ghost use Rattle.h26x_model.specs.Send.Group.{Entry, split, AreGroups};
ghost use Rattle.h26x_model.specs.Send.Plan.{plan, PlansCallByCall, WaitsCallByCall, Item, is_dropped, item_units, KeepsLast};
ghost use Rattle.h26x_model.specs.Send.WaitingSets.{WaitingSets, AreWaitingSets, entries_with_limit, plan_with_waiting, no_waiting_sets, waiting_after, sets_waiting};
ghost use Rattle.h26x_model.specs.Send.Packets.{plan_packets};
ghost use Rattle.h26x_model.specs.Send.Fragments.{IsLong, GoesInFragments};
ghost use Rattle.h26x_model.specs.Send.Limit.{ItemIsWithinLimit};
ghost use Rattle.h26x_model.specs.Payload.Don.{DonsInOrder};
ghost use Rattle.h26x_model.specs.Send.Rival.{TakesFewestFragments};
ghost use Rattle.h26x_model.specs.Receive.Run.{AreReceived, PlaceBrings};
ghost use Rattle.h26x_model.specs.Receive.Received.{open_run, IsOpenRun, units_after, received, reading_units};
ghost use Rattle.h26x_core.specs.Kind.{Skipped};
ghost use Rattle.h26x_model.specs.Payload.Facts.{MarksFragments, DonlHasTwoBytes, IsPayloadFormat, FitsLimits, HeadersTakeRoom, ReadsWhatItWrites, KnowsKeyUnits, KeyUnitsAreOther, SetsLeaveRoom};
ghost use Rattle.h26x_model.specs.Carry.Loss.{LossStaysWithin};
ghost use Rattle.h26x_model.specs.Send.Again.{IsSteady};
ghost use Rattle.h26x_model.specs.Carry.Detection.{AreDetected};
ghost use Rattle.h26x_model.specs.Send.PacketizerState.{PacketizerState, IsPacketizerState, IsSamePacketizerState, state_plan, state_units, calls_plan, packetizer_meaning, after_one_unit};
ghost use Rattle.h26x_model.specs.Receive.DepacketizerState.{DepacketizerState, Depacketization, readings_units, run_after_readings, depacketizer_meaning};
ghost use Rattle.h26x_model.specs.Carry.Gaps.{WritesWholeUnits};
ghost use Rattle.h26x_model.specs.Carry.AnySender.{WritesWhatCame};
ghost use Rattle.h26x_model.specs.Carry.Laws.{PacketizerGoesOn, DepacketizerGoesOn, CarriesWhole, LosesLittle, SendsAgain, AreCallsCarried, IfCarried};
ghost use Rattle.h26x_model.specs.Where.{Where};
ghost use Rattle.h26x_model.specs.Send.Laws.{HasOneGrouping, sets_left, PlansUnitByUnit, WaitsUnitByUnit, OneUnitIsWithin, FragmentsAreByPlace, FragmentsAreRead, FragmentsAreMarked, KeepsAll, CameOrWaited, MayLeaveOutCalls};
ghost use Rattle.h26x_model.specs.Send.Every.{PacksUnits, TakesFewestPackets, BringsEveryUnit, SendsEveryUnit, EveryIsWithin};
ghost use Rattle.h26x_model.specs.Carry.Sent.{ArePlanned, CanSendAll, ReceivesWhatIsSent, ReadsWhatIsSent, OneUnitIsReceived, IfSendable, IfSomeCame, RunsGrowByPackets};

/// A list of units is groups and a rest in one way, and `split` finds it.
pub fn one_grouping()
    ensures is { (f : Format) (entries : List Entry) → AreGroups f entries (split f entries).groups
        (split f entries).rest }
    ensures only { (f : Format) (entries : List Entry) → HasOneGrouping f entries }
{}

/// A plan may be made call by call, by the sets that wait; so may the sets that wait in the end.
pub fn plans_call_by_call()
    ensures plan { (f : Format) → PlansCallByCall f }
    ensures waits { (f : Format) → WaitsCallByCall f }
{}

/// A plan may be made unit by unit, by the sets that wait.
pub fn plans_unit_by_unit()
    ensures plan { (f : Format) (entries : List Entry) →
        plan f entries ≡ plan_with_waiting f no_waiting_sets entries }
    ensures waits { (f : Format) (entries : List Entry) →
        sets_left f entries ≡ sets_waiting (waiting_after f no_waiting_sets entries) }
    ensures plan_with { (f : Format) (limit : ℕ) (w : WaitingSets) (entries : List Entry) →
        PlansUnitByUnit f limit w entries }
    ensures waits_with { (f : Format) (limit : ℕ) (w : WaitingSets) (entries : List Entry) →
        WaitsUnitByUnit f limit w entries }
    ensures sets { (f : Format) (w : WaitingSets) (entries : List Entry) → AreWaitingSets f w →
        AreWaitingSets f (waiting_after f w entries) }
{}

/// Only sets are dropped for size where a fragment has room for data; and the last unit of a group
/// whose sets fit one packet is sent.
pub fn only_sets_are_dropped()
    ensures room { (f : Format) (limit : ℕ) (unit : List ℕ) →
        fragment_header_len f + donl_len f < limit → is_dropped f limit unit ≡ false }
    ensures last { (f : Format) → SetsLeaveRoom f → (entries : List Entry) →
        AllByRecursion (KeepsLast f) (split f entries).groups }
{}

/// No packet of a plan is longer than the limit of the call that sends it.
pub fn packets_are_within_limits()
    ensures { (f : Format) → FitsLimits f → (entries : List Entry) →
        AllByRecursion (ItemIsWithinLimit f) (plan f entries) }
{}

/// A unit that is sent as it is, whatever its kind: its packets are within the limit, the packetizer
/// stays one, and where packets can carry the unit it is received, whatever came before.
pub fn a_unit_sent_as_it_is()
    ensures within { (s : PacketizerState) (mtu : ℕ) (unit : List ℕ) → FitsLimits s.format →
        OneUnitIsWithin s mtu unit }
    ensures stays { (s : PacketizerState) (mtu : ℕ) (unit : List ℕ) → IsPacketizerState s →
        IsPacketizerState (after_one_unit s mtu unit) }
    ensures received { (s : PacketizerState) (mtu : ℕ) (unit : List ℕ) (earlier : List Reading) →
        OneUnitIsReceived s mtu unit earlier }
{}

/// The fragments of a unit, place by place, and the marks that they bear.
pub fn fragments_by_place()
    ensures are { (f : Format) → FragmentsAreByPlace f }
    ensures read { (f : Format) → ReadsWhatItWrites f → FragmentsAreRead f }
    ensures marked { (f : Format) → MarksFragments f → FragmentsAreMarked f }
{}

/// A unit that is longer, with its number, than its limit goes in fragments where the limit leaves
/// these room for data (RFC 6184, 5.8; RFC 7798, 4.4.3; RFC 9328, 4.3.3).
pub fn long_units_go_in_fragments()
    ensures { (f : Format) → IsPayloadFormat f → (n limit : ℕ) (unit : List ℕ) →
        IsLong f limit unit → GoesInFragments f n limit unit }
{}

/// A unit takes the fewest fragments that there could be.
pub fn fewest_fragments()
    ensures { (f : Format) → HeadersTakeRoom f → TakesFewestFragments f }
{}

/// The unit at place i of the units sent has number n + i, and numbers go on from call to call.
pub fn dons_in_order()
    ensures dons { (f : Format) → ReadsWhatItWrites f → (n : ℕ) (items : List Item) →
        CanSendAll f items → DonsInOrder f n items }
    ensures call_by_call { (f : Format) (n : ℕ) (a b : List Item) →
        plan_packets f n (a ++ b) ≡ plan_packets f n a
        ++ plan_packets f (n + length (flat_map item_units a)) b }
{}

/// The open run is the one from the latest start on, with no end since.
pub fn one_open_run()
    ensures computed { (readings : List Reading) (run : List ℕ) → open_run readings ≡ Some run →
        IsOpenRun readings run }
    ensures only { (readings : List Reading) (run : List ℕ) → IsOpenRun readings run →
        open_run readings ≡ Some run }
{}

/// What is received by places, by runs from a latest start to an end, is what is computed, and
/// nothing else.
pub fn received_by_places()
    ensures are { (readings : List Reading) → AreReceived readings (received readings) }
    ensures only { (readings : List Reading) (units : List (List ℕ)) → AreReceived readings units →
        units ≡ received readings }
{}

/// What is planned of calls whose units sent are carried can be sent.
pub fn what_is_carried_can_be_sent()
    ensures planned { (s : PacketizerState) (calls : List Call) → IsPacketizerState s →
        SetsLeaveRoom s.format →
        KeyUnitsAreOther s.format → AreCalls calls → AreCallsCarried s calls →
        ArePlanned s.format (calls_plan s calls) }
    ensures can_send { (f : Format) → ReadsWhatItWrites f → (items : List Item) →
        ArePlanned f items → CanSendAll f items }
{}

/// From all packets what is sent is received, whatever came before; and none of them is refused for
/// what it is.
pub fn what_is_sent_is_received()
    ensures items { (f : Format) → ReadsWhatItWrites f → ReceivesWhatIsSent f }
    ensures read { (f : Format) → ReadsWhatItWrites f → ReadsWhatIsSent f }
{}

/// A lost packet hurts no item but its own, whatever came before.
pub fn loss_stays_within()
    ensures { (f : Format) → ReadsWhatItWrites f → LossStaysWithin f }
{}

/// The plan of what was sent, at one limit with nothing dropped, is the plan; so what is sent is
/// sent again.
pub fn what_was_sent_is_sent_again()
    ensures { (f : Format) (limit : ℕ) (units : List (List ℕ)) →
        KeepsAll f limit units → IsSteady f limit units }
{}

/// A key unit is detected in its packet or its first fragment, and in no other packet made, but for
/// aggregates that bear numbers.
pub fn key_units_are_detected()
    ensures { (f : Format) → KnowsKeyUnits f → ReadsWhatItWrites f → (n : ℕ) (items : List Item) →
        ArePlanned f items → AreDetected f n items }
{}

/// Of what calls send, whichever sets wait and whatever the next decoding order number is: numbers
/// go on by one from unit to unit (RFC 7798, 4.6; RFC 9328, 4.4); the packet or the first fragment of
/// each key unit is detected, and no other packet but aggregates that bear numbers.
pub fn what_calls_send_is_in_order_and_detected()
    ensures dons { (s : PacketizerState) (calls : List Call) →
        IfSendable s calls (DonsInOrder s.format s.next_don (calls_plan s calls)) }
    ensures detected { (s : PacketizerState) (calls : List Call) →
        IfSendable s calls (AreDetected s.format s.next_don (calls_plan s calls)) }
{}

/// Numbers are two bytes: packets numbered on from n are those numbered on from its remainder;
/// without numbers n counts for nothing.
pub fn donl_has_two_bytes()
    ensures round { (f : Format) → DonlHasTwoBytes f → (n : ℕ) (items : List Item) →
        plan_packets f (n % 65536) items ≡ plan_packets f n items }
    ensures none { (f : Format) → DonlHasTwoBytes f → f.has_donl ≡ false →
        (n m : ℕ) (items : List Item) → plan_packets f n items ≡ plan_packets f m items }
{}

/// What packets bring after others is what they bring where the run of these is open.
pub fn received_from_a_run()
    ensures { (earlier readings : List Reading) →
        units_after earlier readings ≡ readings_units (open_run earlier) readings }
{}

/// A packetizer goes on from call to call; what it plans is what is planned of the sets that wait
/// and then the entries.
pub fn packetizers_go_on()
    ensures goes_on { (s : PacketizerState) → FitsLimits s.format → DonlHasTwoBytes s.format →
        IsPacketizerState s → PacketizerGoesOn s }
    ensures planned { (s : PacketizerState) (entries : List Entry) → IsPacketizerState s → (limit : ℕ) →
        plan s.format (entries_with_limit limit (sets_waiting s.waiting) ++ entries)
        ≡ state_plan s entries }
{}

/// A call without effect may be left out, wherever it stands: plan, and so what is sent and its
/// packets, and what waits and the next decoding order number are the same.
pub fn calls_without_effect()
    ensures { (s : PacketizerState) → IsPayloadFormat s.format → IsPacketizerState s →
        MayLeaveOutCalls s }
{}

/// A depacketizer goes on from packets to packets.
pub fn depacketizers_go_on()
    ensures { (w : Depacketization) → IsPayloadFormat w.state.format → DepacketizerGoesOn w }
{}

/// Where the units that calls send can be carried, they are carried whole, whatever waited,
/// whatever the next decoding order number was and whatever run was open.
pub fn what_calls_send_is_carried()
    ensures { (s : PacketizerState) (w : Depacketization) (calls : List Call) →
        IfCarried s w calls (CarriesWhole s w calls) }
{}

/// What some of the packets that calls send bring, in order: item by item what is left of it,
/// whatever run was open.
pub fn what_is_left_is_brought()
    ensures { (s : PacketizerState) (w : Depacketization) (calls : List Call) →
        IfSomeCame s w calls (LosesLittle s w calls) }
{}

/// Where the open run is given up at each packet that is missing, and where it is longer than a
/// limit, of what calls send the whole items are written, those of which no packet is missing and
/// that the run may hold, and nothing else; whatever run was open.
pub fn nothing_is_damaged()
    ensures { (most : ℕ) (s : PacketizerState) (w : Depacketization) (calls : List Call) →
        IfSomeCame s w calls (WritesWholeUnits most s w calls) }
{}

/// Whoever sent packets, and whatever they are: where some are missing, and the open run is given up at
/// each that is and where it is longer than a limit, what is written is that part of what all of them
/// would bring of which each packet came.
pub fn what_came_is_written()
    ensures { (most : ℕ) (w : Depacketization) (mask : List Bool) (packets : List (List ℕ)) →
        IsPayloadFormat w.state.format → WritesWhatCame most w mask packets }
{}

/// A packet adds no more to a run than its own length.
pub fn runs_grow_by_their_packets()
    ensures { (f : Format) → HeadersTakeRoom f → RunsGrowByPackets f }
{}

/// Payloads at one mtu, and the text of what was sent of them: they have the same packets.
pub fn what_was_written_is_sent_again()
    ensures { (f : Format) → SendsAgain f }
{}

/// Packetizers of one format that have the same meaning are in the same state, and so are
/// depacketizers.
pub fn equal_meanings_are_equal_states()
    ensures packetizers { (a b : PacketizerState) → a.format ≡ b.format → a.format.kind [] ≡ Skipped →
        IsPacketizerState a → IsPacketizerState b →
        packetizer_meaning a ≡ packetizer_meaning b → IsSamePacketizerState a b }
    ensures depacketizers { (a b : DepacketizerState) → a.format ≡ b.format →
        depacketizer_meaning a ≡ depacketizer_meaning b → a ≡ b }
{}

/// What the next packet brings, where the run of those before it is open, is what its place brings.
pub fn the_next_by_its_place()
    ensures { (earlier : List Reading) (reading : Reading) →
        PlaceBrings (earlier ++ reading ∷ []) (length earlier) (Some reading)
        (reading_units (run_after_readings None earlier) reading) }
{}

/// Each unit that a packetizer sends is a set that waited or a unit that came.
pub fn what_is_sent_came()
    ensures { (s : PacketizerState) (entries : List Entry) →
        AllByRecursion (CameOrWaited s entries) (state_units s entries) }
{}

/// Every unit goes, in the fewest packets that there could be: no packets within the limit from which
/// a receiver gets these units are fewer.
pub fn every_unit_takes_the_fewest_packets()
    ensures { (f : Format) → PacksUnits f → TakesFewestPackets f }
{}

/// Every unit that packets can carry is received, whatever came before, and the laws on lost packets
/// hold of what is planned.
pub fn every_unit_is_received()
    ensures brings { (f : Format) → PacksUnits f → BringsEveryUnit f }
    ensures sends { (f : Format) → PacksUnits f → SendsEveryUnit f }
{}

/// No packet of every unit is longer than the limit.
pub fn every_unit_is_within()
    ensures { (f : Format) → PacksUnits f → EveryIsWithin f }
{}
